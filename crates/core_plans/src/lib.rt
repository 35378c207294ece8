//! The plans of reads and writes: held between their stages, under numbers, where each step does the one stage that follows, or carried
//! out whole.
//!
//! A plan's step does to the nodes, the keepers and the link what `core_steps` says of its stage; what was consistent stays so, and
//! the plan can go on, whatever is done to the nodes in between. Who acts in a stage is chosen as the nodes are then: the leader, or the
//! region's store, that a read asks, the leaders that a write goes by to its commit, and the leader that merges its job.
//!
//! What it promises. Reads and writes that are held between their stages: a step does exactly the stage that
//! follows, where each node that this needs is up, and where one is down the plan ends with `node_down`; no other plan changes; whoever is chosen
//! is up, and not suspected by the session's tier; a read that ends with an answer is legal in the log as it is then, and
//! what is said to be kept is held and answers again; a stage that fails ends the plan, and its ask; a plan can
//! go on whatever is done to the nodes in between; no ask stays open but those of held reads, through each stage,
//! read and write; a critical read misses nothing that it didn't miss before, so nothing that stood when it
//! began, and no read does in a stage, where stores and the nodes that are up have the whole logs; with the Ok reply of a write
//! come its entry and the one that it wrote at the other end; a write of another region than the master's goes by the leader of its own that it
//! passes, there and back; once its entry is written nothing but the link, or a node that is down, can
//! refuse it, and it is under the write's own origin; a plan ends in place of a stage that may be its last, where there is no memory for what its
//! session is to learn: a write at the position of its entry, and a read with its ask; and no other stage answers a read.
//!
//! A plan that is carried out whole does all of its stages, one after another, with nothing between them. Its reply
//! then says exactly the carries that they took, and of a read whether a keeper was called; such a read is legal in the log as it is at their end,
//! and changes no table and no message; where a write says its inverse is written, the other end has it; a write that is
//! refused as out of memory has written nothing; and where its follower is up, a plan finds each node up that it needs, and is refused
//! as `no_server` only as a write for which no leader could be chosen when it began.
//!
//! The contracts that say so: `HeldPlans::step`, `add`, `take`, `give_up`, `read_stage`, `write_stage`,
//! `HeldPlan::finish`, `carry_read`, `carry_write`; `StepsPlan`, `GivesUpPlan`, `StepsRead`, `ComesOfRead`, `ComesOfWrite`, `MissesNone`, `AsksAreHeld`,
//! `CarriesOut`; the laws `asks_stay_held`, `nothing_is_missed_later`, `stages_miss_nothing`, `answers_are_learnt`, `whole_reads`, `whole_writes`,
//! `written_is_there`, `whole_calls_are_up`.
#![tactic(auto)]

mod committing;
mod held;
pub mod laws;
mod leaders;
mod needs;
mod plans;
mod reads;
mod way_back;
mod whole;
mod writes;

pub use held::{EndedPlan, HeldPlan, LearntEntries};
pub use leaders::Leaders;
pub use needs::Needs;
pub use plans::HeldPlans;
pub use reads::{begin_read, read_stage};
pub use whole::{carry_read, carry_write};
pub use writes::write_stage;
