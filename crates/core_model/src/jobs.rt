//! Where a job is owed.
ghost use Rattle.std.specs.Prelude.{◌≡◌};
ghost use Rattle.core_model.specs.Jobs.{far_shard};

use tao_keeper::Job;

/// The shard on which the first record of a job lies, as all of them do.
pub fn far_shard(job: &Job) -> u16
    ensures { result ≡ far_shard job.now }
{
    match job.edges.as_slice().first() {
        Some((id1, ..)) => id1.shard(),
        None => 0,
    }
}
