//! The stages of reads and writes over a link: from the follower of a session to a leader, to a store in the place of one, or to the
//! master's store, and back.
//!
//! Each call says what it did to the nodes, which carries it took, and what it was answered; what was consistent stays so.
//! Which stage follows which, and which nodes are on the route, is not said here, but for the leader that merges a job.
//!
//! What it promises. What a leader gives, or the store of its region that is asked in its place, or the master's store, by
//! one carry there and one back, is right for the query at its floor; a store that has not come to the floor says what it
//! has. A commit is a step of the plain machine; of a new entry, and of no other, the followers of the master's region are
//! notified, and the leader that another stands in for; where it is refused, no node and no table changes. With what was
//! written comes a second note, for the way back, which was taken before. A job is merged by a leader of the other shard,
//! the one that the session's tier chooses there, which is up and which it doesn't suspect (`Nodes::master_leader`): two
//! carries away, or none where that is the same node, and of what it wrote that shard's followers are notified; where none can
//! be chosen the job stays open. It is ended only once it is merged; what fails leaves it open, with its cause, and a merge
//! that was refused is carried back all the same. What was committed is carried back to the follower, which takes the
//! changes. A fault of the link comes only where its count rose at a carry between the two nodes of the stage. A read
//! that is refused has done what was done before: nothing where its question was lost, and what the leader did where
//! the answer was. After each of these stages all is consistent, the logs only grew, no count fell, and what is cut is
//! what was cut (`ReadsOn`, `PostsOn`).
//!
//! What a stage works on is one value, `Nodes`: the nodes, the messages that wait for them, and which of them are up.
//! Contracts see it with what the keepers and the link show as one state, `World`.
//!
//! A step of a stream carries one entry from the shard's master store to the store of a slave region, which takes it exactly
//! where it comes next; then the leader that the region prefers processes it, where that is up, and the region's followers
//! that serve the shard and are up are notified. Where the store has all of the log, or an old entry is asked for, nothing is
//! carried, and after a refusal no node, message or table has changed.
//!
//! The contracts that say so: `Nodes::ask_over`, `read_over`, `pass_with_note`, `commit_over`, `master_leader`, `merge_over`, `end_over`,
//! `relay_over`, `apply_over`, `stream_over`, `notify_followers`, `notify_besides`; `AnswersThere`, `IsGivenOver`, `IsNotGiven`, `IsReadOver`,
//! `IsNotRead`, `IsCommitted`, `RefusesPassing`, `RefusesCommit`, `NotifiesOfNew`, `MergesOver`, `EndsOver`, `LeaderRelays`, `StreamsOver`.
#![tactic(auto)]

mod asking;
mod jobs;
mod nodes;
mod notifying;
mod refusals;
mod relaying;
mod routes;
mod streaming;
mod writes;

pub use core_nodes;
pub use core_nodes::node_stages;
pub use jobs::{JobSender, LearntEntry, learnt_entry_of, learnt_far};
pub use nodes::Nodes;
pub use refusals::refilled_as;
pub use routes::{Route, TierPlace};
pub use streaming::AskedStream;
pub use writes::ShardNote;
