//! WorkMaker, and spawners, which start them.
ghost use Rattle.std.specs.Prelude.{◌≡◌, ℕ, IfErr};
ghost use Rattle.counts.specs.Count.{CountsError};
ghost use Rattle.work_server.specs.Counting.{CountsStart};

use tao_io::Status;

/// What is done once.
pub trait Work {
    /// Does it, and says how it ended.
    fn run(self) -> Status;
}

/// What makes jobs of connections.
pub trait WorkMaker<I, O> {
    type Job: Work + Drop;

    /// The job of a connection. Takes no memory.
    fn job(&self, input: I, output: O) -> Self::Job;
}

/// Who starts jobs.
pub trait Spawner<J: Work> {
    /// How many jobs it started.
    ghost started: { Self → ℕ };

    /// How often it handed a job back. The count never falls.
    ghost faults: { Self → ℕ };

    /// Starts a job. One that can't be started is handed back as it was, and counted as a fault.
    fn start(&mut self, job: J) -> Result<(), J>
        ensures started { CountsStart (started self.old) (started self.new) result }
        ensures faults { CountsError (faults self.old) (faults self.new) result }
        ensures back { IfErr result (λ back. back ≡ job) };
}
