//! What is done to the inbox of a node, which is found by its name.
ghost use Rattle.std.specs.Prelude.{◌≡◌, IfOk, map};
ghost use Rattle.core_mail.specs.Inboxes.{LosesAll, TakesOut, WaitsAt, cleared, entry_message, no_messages, shown_message};
ghost use Rattle.core_model.specs.Fleet.{ChangesNode, HasNode};
ghost use Rattle.maint_msg.specs.Inbox.{IsSent};
ghost use Rattle.core_model.specs.shard_tables.Written.{LiesOn, StandsIn};

use core_model::{Named, named_place};
use maint_msg::{Inbox, Maint};
use node_name::NodeName;
use replies::Message;
use shard_log::Note;
use std::alloc::Global;
use tao_base::{Entry, OutOfMemory};

/// An empty inbox for each name.
pub(crate) fn empty_inboxes(
    alloc: Global,
    names: &[NodeName],
) -> Result<Vec<Named<Inbox>>, OutOfMemory>
    ensures { IfOk result (λ inboxes. inboxes.items ≡ map no_messages names.now) }
{
    Ok(
        names
            .iter()
            .map(|name| Named {
                name: *name,
                node: Inbox::make(alloc),
            })
            .collect(alloc)?,
    )
}

/// The message of an entry, with a note of its own.
fn message_of(
    alloc: Global,
    shard: u16,
    entry: &Entry,
    note: &mut Note,
) -> Result<Maint, OutOfMemory>
    requires stands { StandsIn note.old entry.now }
    requires lies { LiesOn note.old shard entry.now }
    ensures message { IfOk result (λ message. message ≡ entry_message shard entry.now note.old) }
    ensures note { note.new ≡ note.old }
{
    Maint::of(alloc, entry, shard, note.split()?)
}

fn send_to(inbox: &mut Inbox, alloc: Global, shard: u16, entry: &Entry, note: &mut Note)
    requires stands { StandsIn note.old entry.now }
    requires lies { LiesOn note.old shard entry.now }
    ensures sends { IsSent (entry_message shard entry.now note.old) inbox.old inbox.new }
    ensures note { note.new ≡ note.old }
{
    if let Ok(message) = message_of(alloc, shard, entry, note) {
        inbox.send(message);
    }
}

/// A node is sent the message of an entry, which is lost where there is no room or no memory for it.
pub(crate) fn send_at(
    inboxes: &mut [Named<Inbox>],
    name: NodeName,
    alloc: Global,
    shard: u16,
    entry: &Entry,
    note: &mut Note,
)
    requires there { HasNode name inboxes.old }
    requires stands { StandsIn note.old entry.now }
    requires lies { LiesOn note.old shard entry.now }
    ensures sends { ChangesNode name (IsSent (entry_message shard entry.now note.old)) inboxes.old inboxes.new }
    ensures note { note.new ≡ note.old }
{
    let place = named_place(inboxes, name);
    send_to(&mut inboxes[place].node, alloc, shard, entry, note);
}

fn take_from(inbox: &mut Inbox, place: usize) -> Option<Maint>
    ensures { TakesOut place result inbox.old inbox.new }
{
    inbox.take(place)
}

/// Takes the message at a place out of a node's inbox.
pub(crate) fn take_at(inboxes: &mut [Named<Inbox>], name: NodeName, place: usize) -> Option<Maint>
    requires { HasNode name inboxes.old }
    ensures { ChangesNode name (TakesOut place result) inboxes.old inboxes.new }
{
    let index = named_place(inboxes, name);
    take_from(&mut inboxes[index].node, place)
}

/// A copy of the message at a place of a node's inbox.
pub(crate) fn copy_at(
    inboxes: &mut [Named<Inbox>],
    name: NodeName,
    place: usize,
) -> Result<Option<Maint>, OutOfMemory>
    requires { HasNode name inboxes.old }
    ensures copy { IfOk result (λ copy. WaitsAt name place copy inboxes.old) }
    ensures same { inboxes.new ≡ inboxes.old }
{
    let index = named_place(inboxes, name);
    inboxes[index].node.copy_at(place)
}

/// Takes all messages out of a node's inbox.
pub(crate) fn clear_at(inboxes: &mut [Named<Inbox>], name: NodeName)
    requires { HasNode name inboxes.old }
    ensures { ChangesNode name LosesAll inboxes.old inboxes.new }
{
    let index = named_place(inboxes, name);
    inboxes[index].node.clear();
}

/// Takes all messages out of each inbox.
pub(crate) fn clear_all(inboxes: &mut [Named<Inbox>])
    ensures { inboxes.new ≡ map cleared inboxes.old }
{
    for inbox in inboxes.iter_mut() {
        inbox.node.clear();
    }
}

/// Messages as they are shown.
pub(crate) fn shown(alloc: Global, waiting: &[Maint]) -> Result<Vec<Message>, OutOfMemory>
    ensures { IfOk result (λ messages. messages.items ≡ map shown_message waiting.now) }
{
    let mut messages = Vec::with_capacity(alloc, waiting.len())?;
    for message in waiting {
        messages.push(Message {
            shard: message.shard(),
            position: message.position(),
        })?;
    }
    Ok(messages)
}
