//! An acceptor and a spawner in memory, which fail at the calls that they are told to fail at.
ghost use Rattle.std.specs.Prelude.{◌≡◌, ◌↔◌, IfErr, IsErr, MatchOption, IfOk};
ghost use Rattle.counts.specs.Count.{CountsError, HasCause};
ghost use Rattle.counts.specs.Planned.{FailsNext, after_next};
ghost use Rattle.work_server.specs.Counting.{CountsEnd, CountsGiven, CountsStart};
ghost use Rattle.work_server.specs.Listed.{GivesConnection, listed_connections, new_starts};

use crate::acceptor::{AcceptFailed, Acceptor};
use crate::spawner::{Spawner, Work};
use counts::{Count, PlannedCalls};
use std::marker::Model;
use tao_io::{Sink, Source};

/// Connections in memory.
#[derive(Drop)]
pub struct ListAcceptor<I, O> {
    /// Those that are left, the next one last.
    left: Vec<(I, O)>,
    calls: PlannedCalls,
    given: Count,
    ends: Count,
    faults: Count,
}

impl<I, O> Model for ListAcceptor<I, O> {
    ghost use Rattle.std.specs.Prelude.{reverse};
    ghost use Rattle.work_server.specs.Listed.{ListedConnections};

    ghost Value = { ListedConnections (I × O) };

    ghost view = { λ a. record { left = reverse a.left.items; calls = a.calls; given = a.given; ends = a.ends; faults = a.faults } };
}

impl<I: Source + Send + Drop, O: Sink + Send + Drop> ListAcceptor<I, O> {
    /// An acceptor of these connections. The calls of `next` whose numbers are listed fail; the first call has the number 1.
    pub fn make(connections: Vec<(I, O)>, fails: Vec<u64>) -> ListAcceptor<I, O>
        ensures { result ≡ listed_connections connections.items fails.items }
    {
        let mut left = connections;
        left.reverse();
        ListAcceptor {
            left,
            calls: PlannedCalls::of(fails),
            given: Count::new(),
            ends: Count::new(),
            faults: Count::new(),
        }
    }
}

impl<I: Source + Send + Drop, O: Sink + Send + Drop> Acceptor for ListAcceptor<I, O> {
    type In = I;

    type Out = O;

    ghost given = { λ a. a.given };

    ghost ends = { λ a. a.ends };

    ghost faults = { λ a. a.faults };

    /// Gives the connections in order. It fails exactly at the listed calls, which give none.
    fn next(&mut self) -> Result<Option<(I, O)>, AcceptFailed>
        ensures given { CountsGiven self.old.given self.new.given result }
        ensures ends { CountsEnd self.old.ends self.new.ends result }
        ensures cause { HasCause self.old.faults self.new.faults result }

        ensures listed { IsErr result ↔ FailsNext self.old.calls }
        ensures counted { self.new.calls ≡ after_next self.old.calls }
        ensures exact { CountsError self.old.faults self.new.faults result }
        ensures order { GivesConnection self.old.left self.new.left result }
    {
        if self.calls.next_fails() {
            self.faults.rise();
            return Err(AcceptFailed);
        }
        match self.left.pop() {
            Some(connection) => {
                self.given.rise();
                Ok(Some(connection))
            }
            None => {
                self.ends.rise();
                Ok(None)
            }
        }
    }
}

/// Runs each job at once, in the thread that starts it.
#[derive(Drop)]
pub struct ListSpawner {
    calls: PlannedCalls,
    started: Count,
    faults: Count,
}

impl Model for ListSpawner {
    ghost use Rattle.work_server.specs.Listed.{Starts};

    ghost Value = { Starts };

    ghost view = { λ s. record { calls = s.calls; started = s.started; faults = s.faults } };
}

impl ListSpawner {
    /// A spawner whose starts of the listed numbers hand the job back; the first start has the number 1.
    pub fn make(fails: Vec<u64>) -> ListSpawner
        ensures { result ≡ new_starts fails.items }
    {
        ListSpawner {
            calls: PlannedCalls::of(fails),
            started: Count::new(),
            faults: Count::new(),
        }
    }
}

impl<J: Work> Spawner<J> for ListSpawner {
    ghost started = { λ s. s.started };

    ghost faults = { λ s. s.faults };

    /// Runs the job. It hands it back exactly at the listed starts.
    fn start(&mut self, job: J) -> Result<(), J>
        ensures started { CountsStart self.old.started self.new.started result }
        ensures faults { CountsError self.old.faults self.new.faults result }
        ensures back { IfErr result (λ back. back ≡ job) }

        ensures listed { IsErr result ↔ FailsNext self.old.calls }
        ensures counted { self.new.calls ≡ after_next self.old.calls }
    {
        if self.calls.next_fails() {
            self.faults.rise();
            return Err(job);
        }
        self.started.rise();
        let _ = job.run();
        Ok(())
    }
}
