//! `SharedInbox`, and the passes by which threads put and take.
ghost use Rattle.std.specs.Prelude.{◌≡◌, IfErr, IfOk, IfSome, MatchOption};
ghost use Rattle.counts.specs.Count.{Counted};
ghost use Rattle.maint_msg.specs.Maints.{IsMaint};
ghost use Rattle.shared_inbox.specs.Messages.{IsMaintOf, seen_inbox_pass};

use crate::rule::{Ours, Puts, Queue, Takes, Twice};
use counts::Count;
use crossbeam_queue::{RuledSegQueue, SegPass};
use log_names::Logs;
use maint_msg::Maint;
use std::alloc::Global;
use std::marker::Model;
use std::sync::{Arc, Wait};
use tao_base::OutOfMemory;

/// The messages that wait for a node, in the order in which they were put. Any thread puts and takes them, by a pass of its own.
///
/// Contracts see which inbox it is. There is no bound but memory, and 2^62 messages in the inbox's whole life.
#[derive(Drop)]
pub struct SharedInbox<J: Logs> {
    queue: Arc<Queue<J>, Global>,
}

/// A right to put into one inbox and to take from it, which counts how often it found the inbox empty.
///
/// An inbox lasts until it and all its passes are dropped. The messages that then wait are dropped with it.
#[derive(Drop)]
pub struct InboxPass<J: Logs> {
    queue: Arc<Queue<J>, Global>,
    pass: SegPass<Maint, (), Global>,
    empties: Count,
}

impl<J: Logs> Model for SharedInbox<J> {
    ghost use Rattle.std.specs.Arc.{arc_value};
    ghost use Rattle.shared_inbox.specs.Messages.{InboxName};

    ghost Value = { InboxName };

    ghost view = { λ inbox. (arc_value inbox.queue).lane.web };
}

impl<J: Logs> Model for InboxPass<J> {
    ghost use Rattle.std.specs.Arc.{arc_value};
    ghost use Rattle.crossbeam_queue.specs.SegTies.{IsSegPassOf};
    ghost use Rattle.shared_inbox.specs.Messages.{SeenInboxPass, seen_inbox_pass};

    ghost Value = { SeenInboxPass };

    ghost view = { λ p. seen_inbox_pass (arc_value p.queue).lane.web p.empties };

    ghost invariant = { λ p. IsSegPassOf (arc_value p.queue).lane p.pass };
}

impl<J: Logs> InboxPass<J> {
    /// How often it found the inbox empty. From 2^64 - 1 on the count stands still.
    pub fn empties(&self) -> u64
        ensures { result ≡ self.now.empties }
    {
        self.empties.value()
    }

    /// A second pass of the same inbox, with the same count. The one error is out of memory.
    pub fn split(&mut self) -> Result<InboxPass<J>, OutOfMemory>
        ensures same { self.new ≡ self.old }
        ensures second { IfOk result (λ other. other ≡ self.old) }
    {
        let queue = Arc::try_clone(&self.queue)?;
        let pass = self.queue.lane.another::<Twice>(&mut self.pass);
        Ok(InboxPass {
            queue,
            pass,
            empties: self.empties,
        })
    }
}

impl<J: Logs> SharedInbox<J> {
    /// An inbox in which no message waits, and a pass of it. The one error is out of memory.
    pub fn make(alloc: Global) -> Result<(SharedInbox<J>, InboxPass<J>), OutOfMemory>
        ensures { IfOk result (λ made. made.1 ≡ seen_inbox_pass made.0 0) }
    {
        let (lane, pass) = RuledSegQueue::with_rule(alloc)?;
        let queue = Arc::new(alloc, Queue { lane })?;
        let other = Arc::try_clone(&queue)?;
        Ok((
            SharedInbox { queue },
            InboxPass {
                queue: other,
                pass,
                empties: Count::new(),
            },
        ))
    }

    /// One more pass of this inbox, which found it empty never so far. The one error is out of memory.
    pub fn inbox_pass(&self) -> Result<InboxPass<J>, OutOfMemory>
        ensures { IfOk result (λ pass. pass ≡ seen_inbox_pass self.now 0) }
    {
        let queue = Arc::try_clone(&self.queue)?;
        let pass = self.queue.lane.pass();
        Ok(InboxPass {
            queue,
            pass,
            empties: Count::new(),
        })
    }

    /// Puts a message behind the others. It comes back where no memory is found for its place, or 2^62 messages were put before.
    pub fn put<R: Wait>(&self, rt: &R, pass: &mut InboxPass<J>, message: Maint) -> Result<(), Maint>
        requires inbox { pass.old.inbox ≡ self.now }
        requires log { IsMaintOf J.log message }
        ensures pass { pass.new ≡ pass.old }
        ensures err { IfErr result (λ back. back ≡ message) }
    {
        self.queue
            .lane
            .push_as::<Puts, R>(rt, &mut pass.pass, message)
    }

    /// Takes out the first message, which is of its shard's log and names an entry of what its note has seen of that.
    ///
    /// None only where the inbox was empty at a moment of the call. The pass's count of empties rises exactly then, by one.
    pub fn take<R: Wait>(&self, rt: &R, pass: &mut InboxPass<J>) -> Option<Maint>
        requires { pass.old.inbox ≡ self.now }
        ensures inbox { pass.new.inbox ≡ pass.old.inbox }
        ensures log { IfSome result (λ message. IsMaintOf J.log message) }
        ensures names { IfSome result (λ message. IsMaint message) }
        ensures empties { MatchOption result (Counted pass.old.empties pass.new.empties) (λ _. pass.new.empties ≡ pass.old.empties) }
    {
        let message = self.queue.lane.pop_as::<Takes<J>, R>(rt, &mut pass.pass);
        if message.is_none() {
            pass.empties.rise();
        }
        message
    }
}
