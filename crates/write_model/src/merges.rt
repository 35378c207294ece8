//! What the entries that merge jobs of other shards keep of a log.
ghost use Rattle.write_model.specs.MergeLaws.{CoveredJobsMayMerge, JobsMayBeMerged, JobsAreFar, MergeFollows, MergesFollow, MergesJoin, MergesNone};
ghost use Rattle.write_model.specs.MergeLaws.{MergesNothing, OrderIsFree};

use tao_base::{AType, EdgeState, Entry, Id};

/// A record of an edge at one end: its id1, type and id2, and the record.
pub type EdgeUpdate = (Id, AType, Id, EdgeState);

/// An entry of a sound log is far from where a record of its job lies.
#[tactic(auto, using(crate::proofs::FarJobs::jobs_are_far))]
pub fn jobs_are_far(_from: u16, _source: &[Entry])
    ensures { JobsAreFar _from _source.now }
{}

/// In sound and covered stores the job of an entry may be merged where its records lie.
#[tactic(auto, using(crate::proofs::Covered::covered_jobs_may_merge))]
pub fn covered_jobs_may_merge()
    ensures { CoveredJobsMayMerge }
{}

/// Nothing is merged exactly where all of the job is there.
#[tactic(auto, using(crate::proofs::Merging::merges_nothing))]
pub fn merged_jobs_give_nothing(_log: &[Entry])
    ensures { MergesNothing _log.now }
{}

/// The entry that merges a job keeps the log sound, and leaves all of the job there.
#[tactic(auto, using(crate::proofs::Merging::merge_follows))]
pub fn merge_entries_follow(_log: &[Entry])
    ensures { MergeFollows _log.now }
{}

/// Jobs merged one after another are all there, and each record is the join of the one before with theirs.
#[tactic(auto, using(crate::proofs::MergesInTurn::merges_join))]
pub fn merges_join(_shard: u16, _log: &[Entry])
    ensures { MergesJoin _shard _log.now }
{}

/// The order in which jobs are merged does not matter to the records.
#[tactic(auto, using(crate::proofs::MergesInTurn::order_is_free))]
pub fn merge_order_is_free(_shard: u16, _log: &[Entry])
    ensures { OrderIsFree _shard _log.now }
{}

/// The records of a job that may be merged are such that may be merged, whatever entry they are of.
#[tactic(auto, using(crate::proofs::MergeOf::jobs_may_be_merged))]
pub fn jobs_may_be_merged()
    ensures { JobsMayBeMerged }
{}

/// The entry that merges records of the other ends of another shard's entry follows the log, and keeps it sound.
#[tactic(auto, using(crate::proofs::MergeOf::merges_follow))]
pub fn merges_follow(
    _shard: u16,
    _log: &[Entry],
    _from: u16,
    _number: u64,
    _updates: &[EdgeUpdate],
    _merged: &Entry,
)
    ensures { MergesFollow _shard _log.now _from _number _updates.now _merged.now }
{}

/// No such entry is made exactly where all of the records are there.
#[tactic(auto, using(crate::proofs::MergeOf::merges_none))]
pub fn merges_none(_log: &[Entry], _from: u16, _number: u64, _updates: &[EdgeUpdate])
    ensures { MergesNone _log.now _from _number _updates.now }
{}
