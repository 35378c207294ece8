//! What the steps of writes, merges and jobs keep of the stores of all shards.
ghost use Rattle.write_model.specs.CoverLaws.{CommitsKeep, EmptyStoresAreKept, EndsKeep, MergesKeep, NoJobsArePaired};
ghost use Rattle.write_model.specs.CoverLaws.{OpenJobsAreOwed, SettlesInOrder};

/// Stores without entries and jobs are sound and covered.
#[tactic(auto, using(crate::proofs::CoverEmpty::empty_stores_are_kept))]
pub fn empty_stores_are_kept()
    ensures { EmptyStoresAreKept }
{}

/// A commit with its job keeps the stores sound and covered.
#[tactic(auto, using(crate::proofs::CoverCommits::commits_keep))]
pub fn commits_keep_covered()
    ensures { CommitsKeep }
{}

/// A merge keeps the stores sound and covered, and leaves all of its job there.
#[tactic(auto, using(crate::proofs::CoverMerges::merges_keep))]
pub fn merges_keep_covered()
    ensures { MergesKeep }
{}

/// The end of a job whose records are all there keeps the stores sound and covered.
#[tactic(auto, using(crate::proofs::CoverEnds::ends_keep))]
pub fn ends_keep_covered()
    ensures { EndsKeep }
{}

/// An open job has a record, and says where it may be merged.
#[tactic(auto, using(crate::proofs::OpenJobs::open_jobs_are_owed))]
pub fn open_jobs_are_owed()
    ensures { OpenJobsAreOwed }
{}

/// Where no job is open every edge is paired, until the next commit.
#[tactic(auto, using(crate::proofs::Paired::no_jobs_are_paired))]
pub fn no_jobs_are_paired()
    ensures { NoJobsArePaired }
{}

/// Merging and ending the jobs in order is a settle.
#[tactic(auto, using(crate::proofs::Settled::settles_in_order))]
pub fn settles_in_order()
    ensures { SettlesInOrder }
{}
