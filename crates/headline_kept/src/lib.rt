//! What each line keeps, whatever it asks, that isn't of one caller.
//!
//! What it promises. Through a line the item of each leader and follower at a key stays as it was, unless the line touches it there. Each refusal has its
//! cause, refusal by refusal (`HasCause`), and leaves every table as it was, but where it tells the position of a write's entry, which stands, and but for
//! a settle or a repair that failed on its way (`LeavesHistories`). So a request of which nothing is amiss is served, or refused as out of memory. A
//! write whose reply says a position has left its entry there, and nothing else but the merge of its job; one that was sent again adds none
//! (`StepsAsSaid`). An inverse that is only scheduled has its cause (`SchedulesWithCause`). All that is said of what fails is one clause (`FailsRightly`).
//! What was acknowledged stands at its position from then on, under its own origin, and no log has two entries of one (`KeepsAcknowledged`).
//!
//! The contracts that say so: its laws, all of them in `headline_kept`.
#![tactic(auto)]

pub mod laws;
