//! The kinds of nodes.
ghost use Rattle.std.specs.Prelude.{◌≡◌};
ghost use Rattle.request_check.specs.Kind.{takes};

use node_name::NodeName;

/// Which nodes a request takes.
#[derive(Clone, Copy, PartialEq, Eq)]
pub(crate) enum NodeKind {
    Any,
    /// A leader or a follower.
    Cache,
    Leader,
    Follower,
}

impl NodeKind {
    /// Whether the node is of the kind.
    pub(crate) fn takes(self, node: NodeName) -> bool
        ensures { result ≡ takes self node }
    {
        match node {
            NodeName::Store(_) => matches!(self, NodeKind::Any),
            NodeName::Leader { .. } => !matches!(self, NodeKind::Follower),
            NodeName::Follower { .. } => !matches!(self, NodeKind::Leader),
        }
    }
}
