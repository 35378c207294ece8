//! Who waits for one lead.
ghost use Rattle.std.specs.Prelude.{◌≡◌, ◌≤◌, [], IfErr, OnErr, length};
ghost use Rattle.futures.specs.Task.{Hears, IsArmed, Keeps};
ghost use Rattle.herd_state.specs.Herds.{IsFull, TakesIn};

use futures::task::{Context, Poll, Source, Waker};
use std::alloc::Global;
use std::marker::Model;
use tao_base::OutOfMemory;

/// The most who wait for one lead.
const MOST: usize = 1024;

/// Those who wait for one lead, by their wakers, in the order in which they came: 1,024 at most. Each is woken where this is let go, too.
#[derive(Drop)]
pub struct Waiting {
    wakers: Vec<Waker>,
}

impl Model for Waiting {
    ghost use Rattle.std.specs.Prelude.{List, ◌≤◌, length};
    ghost use Rattle.futures.specs.declared.task.waker.Waker.{Waker};

    ghost Value = { List Waker };

    ghost view = { λ waiting. waiting.wakers.items };

    ghost invariant = { λ waiting. length waiting.wakers.items ≤ 1024 };
}

impl Waiting {
    /// Nobody waits. Takes no memory.
    pub(crate) fn make(alloc: Global) -> Waiting
        ensures { result ≡ [] }
    {
        Waiting {
            wakers: Vec::new(alloc),
        }
    }

    /// Whether 1,024 wait.
    pub(crate) fn is_full(&self) -> bool
        ensures full { IsFull self.now result }
        ensures most { length self.now ≤ 1024 }
    {
        self.wakers.len() >= MOST
    }

    /// Lets the task of the context wait here, as one who waits for the source. After the one error, out of memory, those who wait are the same.
    pub(crate) fn take_in(
        &mut self,
        source: &Source,
        cx: &mut Context<'_>,
    ) -> Result<(), OutOfMemory>
        requires { length self.old ≤ 1023 }
        ensures taken { TakesIn cx.old cx.new self.old self.new result }
        ensures armed { IsArmed cx.new }
        ensures heard { Hears cx.new source.now.id }
        ensures kept { Keeps cx.old cx.new }
    {
        let mut slot = None;
        let _: Poll<()> = cx.register(source, &mut slot);
        match slot {
            Some(waker) => Ok(self.wakers.push(waker)?),
            None => Err(OutOfMemory),
        }
    }

    /// Wakes each once, and tells how many they were. Takes no memory.
    pub fn wake(self) -> u64
        ensures number { result ≡ length self }
        ensures few { result ≤ 1024 }
    {
        let number = self.wakers.len() as u64;
        for waker in self.wakers {
            waker.wake();
        }
        number
    }
}
