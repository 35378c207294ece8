//! What the stages of reads and writes work on: nodes, their messages, who is up.
use core_mail::Mail;
use core_nodes::Fleet;
use std::alloc::Global;
use topology::Topology;

/// The nodes of a core, the messages that wait for them, and which of them are up.
#[derive(Drop)]
pub struct Nodes {
    /// Whence the stages take memory.
    pub alloc: Global,
    pub fleet: Fleet,
    pub mail: Mail,
    pub topology: Topology,
}
