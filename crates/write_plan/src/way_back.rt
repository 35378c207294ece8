//! The way back of a write that is committed: which leaders it goes by, and the notes that came with the answer of the commit.
ghost use Rattle.std.specs.Prelude.{◌≡◌, IfSome, IsSome, None, Some};
ghost use Rattle.write_plan.specs.Plans.{answered_passed, last_leader};

use crate::committed::Committed;
use crate::plan::WritePlan;
use node_name::NodeName;
use shard_log::Note;

/// The last leader on the way back to the follower: the one that the write passed, or else the one that committed it.
pub fn last_leader(committed: &Committed) -> NodeName
    ensures { result ≡ last_leader committed.now }
{
    committed.passed.unwrap_or(committed.leader)
}

/// The leader that a write passed on the way to its commit.
pub fn passed_of(plan: &WritePlan) -> NodeName
    requires { IsSome (answered_passed plan.now) }
    ensures { answered_passed plan.now ≡ Some result }
{
    match plan.passed() {
        Some(leader) => leader,
        None => unreachable!(),
    }
}

/// The leader that committed a write.
pub fn committer(plan: &WritePlan) -> NodeName
    requires { IsSome plan.now.committed }
    ensures { IfSome plan.now.committed (λ c. result ≡ c.leader) }
{
    match plan.committed() {
        Some(committed) => committed.leader,
        None => unreachable!(),
    }
}

/// The last leader on the way back of a write to its follower.
pub fn last_before(plan: &WritePlan) -> NodeName
    requires { IsSome plan.now.committed }
    ensures { IfSome plan.now.committed (λ c. result ≡ last_leader c) }
{
    match plan.committed() {
        Some(committed) => last_leader(committed),
        None => unreachable!(),
    }
}

/// The note that came with the answer of a plan's commit for the leader that the write passed to meet.
pub fn relay_note_of(plan: &mut WritePlan) -> Note
    requires committed { IsSome plan.old.committed }
    requires relay { IfSome plan.old.committed (λ c. plan.old.relay ≡ Some c.wrote.note) }
    ensures note { IfSome plan.old.committed (λ c. result ≡ c.wrote.note) }
    ensures rest { plan.new ≡ record plan.old { relay = None } }
{
    match plan.relay() {
        Some(note) => note,
        None => unreachable!(),
    }
}

/// The note that came with the answer of a plan's commit for its follower to meet.
pub fn spare_note_of(plan: &mut WritePlan) -> Note
    requires committed { IsSome plan.old.committed }
    requires spare { IfSome plan.old.committed (λ c. plan.old.spare ≡ Some c.wrote.note) }
    ensures note { IfSome plan.old.committed (λ c. result ≡ c.wrote.note) }
    ensures rest { plan.new ≡ record plan.old { spare = None } }
{
    match plan.spare() {
        Some(note) => note,
        None => unreachable!(),
    }
}
