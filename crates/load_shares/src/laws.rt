//! What the threads of a load miss together, and what is so of its additions.
ghost use Rattle.load_shares.specs.Adding.{AdditionsStand};
ghost use Rattle.load_shares.specs.Turns.{SharesCoverAll};
ghost use Rattle.load_shares.specs.Workloads.{WorkloadLaws};

/// All threads together miss at least what all requests miss.
#[tactic(auto, using(crate::proofs::Shared::shares_cover_all))]
pub fn shares_cover_all()
    ensures { SharesCoverAll }
{}

/// An addition always writes, and misses nothing once its entry was seen.
#[tactic(auto, using(crate::proofs::Additions::additions_stand))]
pub fn additions_stand()
    ensures { AdditionsStand }
{}

/// Each call of a workload is of a session and of names that are there, and no two of its writes have one number.
#[tactic(auto, using(crate::proofs::WorkloadCalls::workload_laws))]
pub fn workload_laws()
    ensures { WorkloadLaws }
{}
