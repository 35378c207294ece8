//! `Inbox`, the messages that wait for one node.
ghost use Rattle.std.specs.Prelude.{◌≡◌, ◌++◌, ◌∷◌, [], IfErr, IfSome, IfOk, OnOk, IsNone, ◌↔◌, ◌≤◌, ◌<◌, true, length, slice_get, option_copied};
ghost use Rattle.std.specs.List.{remove};

use crate::maint::Maint;
use std::alloc::Global;
use std::marker::Model;
use tao_base::OutOfMemory;

/// How many messages an inbox holds at most.
pub const MOST_MESSAGES: usize = 4096;

/// The messages that wait for a node, in the order in which they were put. A place counts from 0.
///
/// Contracts see their list. An inbox takes the memory of the most messages that ever waited in it.
#[derive(Drop)]
pub struct Inbox {
    messages: Vec<Maint>,
}

/// Why a message wasn't put, with the message.
#[derive(Drop)]
pub enum InboxRefusal {
    /// 4,096 messages wait.
    Full(Maint),
    /// No memory was found for its place.
    OutOfMemory(Maint),
}

impl Model for Inbox {
    ghost use Rattle.std.specs.Prelude.{◌≤◌, List, length};
    ghost use Rattle.maint_msg.specs.Maints.{SeenMaint};

    ghost Value = { List SeenMaint };

    ghost view = { λ b. b.messages.items };

    ghost invariant = { λ b. length b.messages.items ≤ 4096 };
}

impl Inbox {
    ghost use Rattle.maint_msg.specs.Inbox.{IsSent, Refuses};

    /// No message waits. Takes no memory.
    pub fn make(alloc: Global) -> Inbox
        ensures { result ≡ [] }
    {
        Inbox {
            messages: Vec::new(alloc),
        }
    }

    /// Puts a message behind the others. A refusal hands it back, and leaves the inbox as it was:
    /// `Full` exactly where 4,096 messages wait.
    pub fn put(&mut self, message: Maint) -> Result<(), InboxRefusal>
        ensures put { OnOk result (self.new ≡ self.old ++ message ∷ []) }
        ensures room { OnOk result (length self.old < 4096) }
        ensures refused { IfErr result (Refuses (length self.old) message) }
        ensures err { IfErr result (λ _. self.new ≡ self.old) }
    {
        if self.messages.len() >= MOST_MESSAGES {
            return Err(InboxRefusal::Full(message));
        }
        match self.messages.push(message) {
            Ok(()) => Ok(()),
            Err(failed) => Err(InboxRefusal::OutOfMemory(failed.value)),
        }
    }

    /// Puts a message behind the others, or loses it: where 4,096 messages wait, and where no memory is
    /// found for its place. The others stay as they are.
    pub fn send(&mut self, message: Maint)
        ensures { IsSent message self.old self.new }
    {
        let _ = self.put(message);
    }

    /// Takes out the message at a place, and those behind it move up. None, and nothing changed, exactly
    /// where the place isn't below the length. Moves the messages behind it; takes no memory.
    pub fn take(&mut self, place: usize) -> Option<Maint>
        ensures message { result ≡ slice_get self.old place }
        ensures rest { self.new ≡ remove self.old place }
    {
        if place < self.messages.len() {
            Some(self.messages.remove(place))
        } else {
            None
        }
    }

    /// The message at a place. None exactly where the place isn't below the length.
    pub fn at(&self, place: usize) -> Option<&Maint>
        ensures { option_copied result ≡ slice_get self.now place }
    {
        self.messages.get(place)
    }

    /// A copy of the message at a place, which stays where it is: the inbox is as it was, whatever is
    /// answered. None exactly where the place isn't below the length. The one error is out of memory.
    pub fn copy_at(&mut self, place: usize) -> Result<Option<Maint>, OutOfMemory>
        ensures same { self.new ≡ self.old }
        ensures copy { IfOk result (λ copy. copy ≡ slice_get self.old place) }
    {
        match self.messages.get_mut(place) {
            Some(message) => Ok(Some(message.copy()?)),
            None => Ok(None),
        }
    }

    /// The messages, in the order in which they were put.
    pub fn as_slice(&self) -> &[Maint]
        ensures { result.now ≡ self.now }
    {
        self.messages.as_slice()
    }

    /// How many messages wait.
    pub fn len(&self) -> usize
        ensures value { result ≡ length self.now }
        ensures most { result ≤ 4096 }
    {
        self.messages.len()
    }

    /// Whether no message waits.
    pub fn is_empty(&self) -> bool
        ensures { result ≡ true ↔ (length self.now ≡ 0) }
    {
        self.messages.is_empty()
    }

    /// Takes all messages out. Takes no memory.
    pub fn clear(&mut self)
        ensures { self.new ≡ [] }
    {
        self.messages.clear();
    }
}
