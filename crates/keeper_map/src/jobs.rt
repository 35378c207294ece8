//! The open jobs of one store, in memory.
ghost use Rattle.std.proofs.Props.{props};
ghost use Rattle.keeper_map.specs.Jobs.{StandAtPositions};
ghost use Rattle.std.specs.BTreeMap.{get};
ghost use Rattle.std.specs.Ordering.{nat_cmp};
ghost use Rattle.std.specs.Prelude.{◌≡◌, ℕ, None, if◌then◌else◌, nat_le};

use std::alloc::{AllocError, Global};
use std::collections::BTreeMap;
use tao_keeper::Job;

/// The open jobs of a store's entries, by their positions.
#[derive(Drop)]
pub struct OpenJobs {
    jobs: BTreeMap<u64, Job>,
    ghost stand: { StandAtPositions jobs } by { Prim.hlevel props },
}

impl OpenJobs {
    ghost use Rattle.std.specs.Prelude.{IfSome, is_ok, option_copied};
    ghost use Rattle.keeper_map.specs.OpenJobs.{jobs_of};
    ghost use Rattle.tao_keeper.specs.Table.{IsLeastJob, IsJobAt, jobs_within, with_job, with_opened};
    ghost use Rattle.tao_keeper.specs.Given.{IsGivenJob};

    /// No job is open.
    pub fn new(alloc: Global) -> OpenJobs
        ensures { (position : ℕ) → jobs_of result position ≡ None }
    {
        OpenJobs {
            jobs: BTreeMap::new(alloc),
        }
    }

    /// The job of the least position.
    pub fn first(&self) -> Option<&Job>
        ensures job { IsLeastJob (jobs_of self.now) (option_copied result) }
        ensures given { IfSome (option_copied result) IsGivenJob }
    {
        let (_, job) = self.jobs.first_key_value()?;
        Some(job)
    }

    /// The job of a position.
    pub fn at(&self, position: u64) -> Option<&Job>
        ensures job { IsJobAt (jobs_of self.now) position (option_copied result) }
        ensures given { IfSome (option_copied result) IsGivenJob }
    {
        self.jobs.get(&position)
    }

    /// Opens a job, unless one of its position is open.
    pub fn open(&mut self, job: Job) -> Result<(), AllocError>
        requires { IsGivenJob job }
        ensures { jobs_of self.new ≡ (if is_ok result then with_opened (jobs_of self.old) job else jobs_of self.old) }
    {
        if self.jobs.contains_key(&job.position) {
            return Ok(());
        }
        self.jobs.insert(job.position, job)?;
        Ok(())
    }

    /// Ends the job of a position, where one is open.
    pub fn end(&mut self, position: u64)
        ensures { jobs_of self.new ≡ with_job (jobs_of self.old) position None }
    {
        self.jobs.remove(&position);
    }

    /// Ends the jobs of all positions past this one.
    pub fn end_past(&mut self, last: u64)
        ensures { jobs_of self.new ≡ jobs_within (jobs_of self.old) last }
    {
        retain_within(&mut self.jobs, last);
    }
}

/// Keeps the jobs up to a position.
fn retain_within(jobs: &mut BTreeMap<u64, Job>, last: u64)
    ensures { (position : ℕ) → get nat_cmp jobs.new position ≡ (if nat_le position last then get nat_cmp jobs.old position else None) }
{
    jobs.retain(|position, _| *position <= last);
}
