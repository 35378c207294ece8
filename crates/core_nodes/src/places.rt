//! The place of a node among its like.
ghost use Rattle.std.specs.Prelude.{◌<◌, length};
ghost use Rattle.core_model.specs.Fleet.{HasNode, IsFirstAt};

use core_model::{Named, named_place};
use node_name::NodeName;

/// The place of the node of that name, which is within the list.
pub(crate) fn place_of<N>(nodes: &[Named<N>], name: NodeName) -> usize
    requires there { HasNode name nodes.now }
    ensures first { IsFirstAt name nodes.now result }
    ensures within { result < length nodes.now }
{
    named_place(nodes, name)
}
