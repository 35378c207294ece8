//! Who leads the commit of a write.
use node_name::NodeName;

/// The leaders that a write goes by to its commit.
#[derive(Clone, Copy)]
pub struct Leaders {
    /// The one that commits it.
    pub leader: NodeName,
    /// The one of its own region that it passes on the way, where that isn't the master's and one can be chosen.
    pub passed: Option<NodeName>,
}
