//! What the lock of a shard's master store keeps, over its own log and what it has seen of the others. From sound and covered
//! stores, each write, merge and end of a job keeps it under one store's lock alone, and learning another store's log under both
//! locks. All locks together keep each store sound and covered, and every edge paired where no job is open. Each law is the
//! contract of a function with an empty body.
#![tactic(auto)]

ghost use Rattle.locked_model.specs.LockedLaws.{LockedEndsKeep, LockedLearnsKeep, LockedMergesKeep, LockedWritesKeep, LocksBegin, LocksCover};

/// Sound and covered stores may be locked.
#[tactic(auto, using(crate::proofs::Together::locks_begin))]
pub fn locks_begin()
    ensures { LocksBegin }
{}

/// A write keeps what its store's lock keeps.
#[tactic(auto, using(crate::proofs::Own::locked_writes_keep))]
pub fn writes_keep_locked()
    ensures { LockedWritesKeep }
{}

/// A merge of a job whose entry was seen keeps what its store's lock keeps, and leaves all of the job there.
#[tactic(auto, using(crate::proofs::Merged::locked_merges_keep))]
pub fn merges_keep_locked()
    ensures { LockedMergesKeep }
{}

/// The end of a job whose records were seen keeps what its store's lock keeps.
#[tactic(auto, using(crate::proofs::Own::locked_ends_keep))]
pub fn ends_keep_locked()
    ensures { LockedEndsKeep }
{}

/// A store that learns the whole log of another one, while both locks are held, keeps what its lock keeps.
#[tactic(auto, using(crate::proofs::Learned::locked_learns_keep))]
pub fn learns_keep_locked()
    ensures { LockedLearnsKeep }
{}

/// Together the locks keep the stores sound and covered, and where no job is open every edge is paired.
#[tactic(auto, using(crate::proofs::Together::locks_cover))]
pub fn locks_cover()
    ensures { LocksCover }
{}
