//! `Maint`, a message of maintenance.
ghost use Rattle.std.specs.Prelude.{◌≡◌, IfOk};

use crate::key_versions::KeyVersions;
use shard_log::Note;
use std::alloc::Global;
use std::marker::Model;
use tao_base::{Entry, OutOfMemory};

/// The keys that the entry at a position of a shard's log touched, with their new versions, and a note
/// of that log: what tells a cache that what it holds there has fallen behind.
///
/// Where the log is told, the note's view has that entry, it touches these keys and no others, and
/// they lie on the shard. This stays so while the view grows.
#[derive(Drop)]
pub struct Maint {
    shard: u16,
    position: u64,
    keys: KeyVersions,
    note: Note,
}

impl Model for Maint {
    ghost use Rattle.maint_msg.specs.Maints.{IsMaint, SeenMaint, seen_maint};

    ghost Value = { SeenMaint };

    ghost view = { λ m. seen_maint m.shard m.position m.keys m.note };

    ghost invariant = { λ m. IsMaint (seen_maint m.shard m.position m.keys m.note) };
}

impl Maint {
    ghost use Rattle.std.specs.Prelude.{All, Some, length};
    ghost use Rattle.tao_base.specs.Keys.{key_shard};
    ghost use Rattle.shard_log.specs.graph_model.Log.{entry_at};
    ghost use Rattle.shard_log.specs.graph_model.Soundness.{IsSound};
    ghost use Rattle.shard_log.specs.graph_model.Told.{WhereTold};
    ghost use Rattle.shard_log.specs.View.{Grows};
    ghost use Rattle.maint_msg.specs.KeyVersions.{keys_of};
    ghost use Rattle.maint_msg.specs.Maints.{IsMaint, NamesEntry, seen_maint, maint_with_note};

    /// The message of an entry of the shard's log.
    ///
    /// Takes the memory of its keys. The one error is that there is none, which loses the note.
    pub fn of(alloc: Global, entry: &Entry, shard: u16, note: Note) -> Result<Maint, OutOfMemory>
        requires entry { WhereTold note.log.told (entry_at note.entries entry.now.position ≡ Some entry.now) }
        requires here { WhereTold note.log.told (All (λ t. key_shard t.key ≡ shard) entry.now.touches) }
        ensures { IfOk result (λ made. made ≡ seen_maint shard entry.now.position (keys_of entry.now) note) }
    {
        let keys = KeyVersions::of(alloc, entry)?;
        Ok(Maint {
            shard,
            position: entry.position,
            keys,
            note,
        })
    }

    /// The shard whose log it is.
    pub fn shard(&self) -> u16
        ensures { result ≡ self.now.shard }
    {
        self.shard
    }

    /// The position of the entry.
    pub fn position(&self) -> u64
        ensures { result ≡ self.now.position }
    {
        self.position
    }

    /// The touched keys with their versions.
    pub fn keys(&self) -> &KeyVersions
        ensures value { result.now ≡ self.now.keys }
        ensures named { WhereTold self.now.note.log.told (NamesEntry self.now.note.entries self.now.shard self.now.position self.now.keys) }
    {
        &self.keys
    }

    /// The log's length now, which the note's view then has. Nothing else of the message changes. One
    /// load; takes no memory.
    pub fn look(&mut self) -> u64
        ensures same { self.new ≡ maint_with_note self.old self.new.note }
        ensures length { result ≡ length self.new.note.entries }
        ensures grows { Grows self.old.note self.new.note }
        ensures pins { (self.new.note.stored ≡ self.old.note.stored) × (self.new.note.floors ≡ self.old.note.floors) }
        ensures sound { WhereTold self.new.note.log.told (IsSound self.new.note.entries) }
    {
        self.note.look()
    }

    /// The same message once more, with a note of its own. The one error is that there is no memory for
    /// the copy.
    pub fn copy(&mut self) -> Result<Maint, OutOfMemory>
        ensures same { self.new ≡ self.old }
        ensures copy { IfOk result (λ copy. copy ≡ self.old) }
    {
        Ok(Maint {
            shard: self.shard,
            position: self.position,
            keys: self.keys.clone()?,
            note: self.note.split()?,
        })
    }

    /// The message taken apart: its shard, position, keys and note. Takes no memory.
    pub fn into_parts(self) -> (u16, u64, KeyVersions, Note)
        ensures shard { result.0 ≡ self.shard }
        ensures position { result.1 ≡ self.position }
        ensures keys { result.2 ≡ self.keys }
        ensures note { result.3 ≡ self.note }
        ensures named { IsMaint self }
    {
        (self.shard, self.position, self.keys, self.note)
    }
}
