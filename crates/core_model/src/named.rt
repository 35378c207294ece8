//! Nodes by their names.
ghost use Rattle.std.specs.Prelude.{◌≡◌, ◌≢◌, ◌<◌, All, HoldsAt, MatchOption, length, option_copied};
ghost use Rattle.std.specs.List.{AllWithin};
ghost use Rattle.core_model.specs.Fleet.{HasNode, IsFirstAt, IsNodeOfName};

use node_name::NodeName;

/// A node, and its name.
#[derive(Drop)]
pub struct Named<N> {
    pub name: NodeName,
    pub node: N,
}

// The first place of the name, where there is one.
fn first_named<N>(nodes: &[Named<N>], name: NodeName) -> Option<usize>
    ensures { MatchOption result (All (λ n. n.name ≢ name) nodes.now)
        (λ place. (place < length nodes.now) × HoldsAt (λ n. n.name ≡ name) nodes.now place × AllWithin (λ n. n.name ≢ name) nodes.now 0 place) }
{
    nodes.iter().position(|node| node.name == name)
}

/// The place of the node of that name. Looks through the names: a core has at most 16 leaders and 64 followers.
pub fn named_place<N>(nodes: &[Named<N>], name: NodeName) -> usize
    requires there { HasNode name nodes.now }
    ensures { IsFirstAt name nodes.now result }
{
    match first_named(nodes, name) {
        Some(place) => place,
        None => unreachable!(),
    }
}

/// The node of that name, the first of them. None exactly where no node has the name. Looks through the names.
pub fn find_node<N>(nodes: &[Named<N>], name: NodeName) -> Option<&N>
    ensures { IsNodeOfName name nodes.now (option_copied result) }
{
    match first_named(nodes, name) {
        Some(place) => Some(&nodes[place].node),
        None => None,
    }
}
