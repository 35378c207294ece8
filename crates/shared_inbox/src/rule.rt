//! The rule of an inbox's queue: each message is of its shard's log.
use crossbeam_queue::RuledSegQueue;
use crossbeam_queue::protocol::{Lesson, Outcome, Protocol, Split};
use log_names::Logs;
use maint_msg::Maint;
use std::alloc::Global;
use std::marker::PhantomData;

/// Each message is of its shard's log. No pass knows anything of its own.
pub(crate) struct Ours<J: Logs> {
    of: PhantomData<J>,
}

impl<J: Logs> Protocol<Maint, ()> for Ours<J> {
    ghost use Rattle.shared_inbox.specs.Messages.{AreMaintsOf};

    ghost holds = { λ messages views. AreMaintsOf J.log messages };

    ghost first = { tt };
}

/// A message was put.
pub(crate) struct Puts;

impl Outcome<Maint, ()> for Puts {
    ghost then = { λ before message after. Unit {0} };
}

/// A message was taken, which is of its shard's log.
pub(crate) struct Takes<J: Logs> {
    of: PhantomData<J>,
}

impl<J: Logs> Outcome<Maint, ()> for Takes<J> {
    ghost use Rattle.shared_inbox.specs.Messages.{IsMaintOf};

    ghost then = { λ before message after. IsMaintOf J.log message };
}

impl<J: Logs> Lesson<Maint, ()> for Takes<J> {
    ghost fact = { λ view messages. Unit {0} };
}

/// A second pass is made.
pub(crate) struct Twice;

impl Split<()> for Twice {
    ghost left = { λ view. tt };

    ghost right = { λ view. tt };
}

/// The queue of an inbox.
pub(crate) type Lane<J> = RuledSegQueue<Maint, (), Ours<J>, Global>;

/// The queue of an inbox, which is ended with its messages when the last who holds it lets it go.
pub struct Queue<J: Logs> {
    pub(crate) lane: Lane<J>,
}

impl<J: Logs> Drop for Queue<J> {
    fn drop(self) {
        let Self { lane } = self;
        lane.destroy();
    }
}
