//! The messages that the tests put.
ghost use Rattle.std.specs.Prelude.{◌≡◌, false, IfOk, IfSome};
ghost use Rattle.log_names.specs.Names.{IsOfLog};
ghost use Rattle.shared_inbox.specs.Messages.{IsMaintOf};

use log_names::Logs;
use maint_msg::Maint;
use shard_log::{Note, ShardLog};
use std::alloc::Global;
use tao_base::{Change, Entry, Id, Key, Kind, Origin, OutOfMemory, Touch, Touches};

/// What a message is known by again: its shard, its position, and the key's id and version of its one touch.
pub(crate) type Known = (u16, u64, u64, u64);

/// What the message of a shard at a position has to be known by.
pub(crate) fn known_at(shard: u16, position: u64) -> Known {
    (shard, position, 7, position)
}

/// A note of a new log, which isn't told, so that its entries may be any.
pub(crate) fn note_of_new_log(alloc: Global) -> Result<Note, OutOfMemory>
    ensures { IfOk result (λ note. note.log.told ≡ false) }
{
    let mut pen = ShardLog::make(alloc, Vec::new(alloc), false)?;
    pen.note()
}

/// The entry at a position, which deletes the object 7.
fn entry_at_position(alloc: Global, position: u64) -> Option<Entry> {
    let mut touches = Vec::new(alloc);
    let id = Id::read(7)?;
    let touch = Touch {
        key: Key::Obj(id),
        change: Change::DropObject,
        version: position,
    };
    match touches.push(touch) {
        Ok(()) => Some(Entry {
            position,
            kind: Kind::ObjDelete,
            origin: Origin::Client {
                session: 1,
                seq: position,
            },
            touches: Touches::of(touches),
        }),
        Err(_) => None,
    }
}

/// The message of the entry at a position of the shard's log.
pub(crate) fn message_at<J: Logs>(
    alloc: Global,
    note: &mut Note,
    shard: u16,
    position: u64,
) -> Option<Maint>
    requires log { IsOfLog J.log shard note.old }
    requires told { note.old.log.told ≡ false }
    ensures same { note.new ≡ note.old }
    ensures made { IfSome result (λ message. IsMaintOf J.log message) }
{
    let entry = entry_at_position(alloc, position)?;
    let Ok(own) = note.split() else {
        return None;
    };
    match Maint::of(alloc, &entry, shard, own) {
        Ok(message) => Some(message),
        Err(_) => None,
    }
}

/// What the message is known by. None where it isn't of one key of an object.
pub(crate) fn known_of(message: &Maint) -> Option<Known> {
    match message.keys().as_slice() {
        [touched] => match touched.key {
            Key::Obj(id) => Some((
                message.shard(),
                message.position(),
                id.number(),
                touched.version,
            )),
            Key::List(..) => None,
        },
        _ => None,
    }
}
