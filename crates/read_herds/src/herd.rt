//! `Herd`, the leads of all readers behind one lock.
ghost use Rattle.std.specs.Prelude.{◌≡◌, ◌≤◌};
ghost use Rattle.futures.specs.Task.{Keeps};
ghost use Rattle.herd_state.specs.Herds.{IsHeard, waits_after};

use futures::task::{Context, Source};
use herd_state::{HerdName, HerdState, HerdTicket, Joined, Waits};
use std::alloc::Global;
use std::sync::{Mutex, Wait};
use tao_base::OutOfMemory;

/// The leads of all readers of a cluster, which many threads ask. A lead's end is the source for which those wait whom it wakes.
#[derive(Drop)]
pub struct Herd {
    pub(crate) alloc: Global,
    source: Source,
    state: Mutex<HerdState>,
}

impl Herd {
    ghost use Rattle.read_herds.specs.Herding.{AnswersFor, source_of};

    /// No lead is open. The one error is out of memory.
    pub fn make(alloc: Global) -> Result<Herd, OutOfMemory> {
        let state = HerdState::make(alloc)?;
        Ok(Herd {
            alloc,
            source: Source::new(),
            state: Mutex::new(state),
        })
    }

    /// Asks to read the key of a name, for the task of the context: `HerdState::join`, under the lock, for which it waits.
    pub fn join<R: Wait>(
        &self,
        rt: &R,
        name: &HerdName,
        cx: &mut Context<'_>,
        waits: &mut Waits,
    ) -> Result<Joined, OutOfMemory>
        ensures answers { AnswersFor name.now result }
        ensures waits { waits.new ≡ waits_after result waits.old }
        ensures heard { IsHeard (source_of self.now) cx.new result }
        ensures kept { Keeps cx.old cx.new }
    {
        let mut state = self.state.lock(rt);
        state.join(name, &self.source, cx, waits)
    }

    /// Closes the lead of the ticket, under the lock, for which it waits, and then wakes each who waited for that lead once, and tells how many they were.
    /// Takes no memory.
    pub fn end<R: Wait>(&self, rt: &R, ticket: HerdTicket) -> u64
        ensures { result ≤ 1024 }
    {
        let mut state = self.state.lock(rt);
        let waiting = state.end(ticket);
        drop(state);
        waiting.wake()
    }
}
