//! What a promotion of a store does to the stores of all shards: its shard's epoch is raised, jobs are opened again, the shard's
//! log is cut back and its master changes. Each of these steps keeps the stores sound and covered, so a promotion does, whatever
//! step it stops after. Each law is the contract of a function with an empty body.
#![tactic(auto)]

ghost use Rattle.promotion_model.specs.PromotionLaws.{ChangesKeep, CutsKeep, KeptJobsStay, OpensKeep, PromotionsKeep, RaisesKeep};

/// The epoch of a shard may be raised, and nothing of the new one was written yet.
#[tactic(auto, using(crate::proofs::Raise::raises_keep))]
pub fn raises_keep_covered()
    ensures { RaisesKeep }
{}

/// Jobs of entries may be opened again.
#[tactic(auto, using(crate::proofs::Open::opens_keep))]
pub fn opens_keep_covered()
    ensures { OpensKeep }
{}

/// The log of a shard may be cut back where nothing of its epoch was written and all that is owed to it is open.
#[tactic(auto, using(crate::proofs::Cut::cuts_keep))]
pub fn cuts_keep_covered()
    ensures { CutsKeep }
{}

/// Another store with the same log may become the shard's master, where it keeps all jobs.
#[tactic(auto, using(crate::proofs::Open::changes_keep))]
pub fn changes_keep_covered()
    ensures { ChangesKeep }
{}

/// The jobs that a store keeps stay those of its entries, when its log grows or is cut back.
#[tactic(auto, using(crate::proofs::Cut::kept_jobs_stay))]
pub fn kept_jobs_stay()
    ensures { KeptJobsStay }
{}

/// A promotion keeps the stores sound and covered, whatever step it stops after.
#[tactic(auto, using(crate::proofs::Whole::promotions_keep))]
pub fn promotions_keep_covered()
    ensures { PromotionsKeep }
{}
