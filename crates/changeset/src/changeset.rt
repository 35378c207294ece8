//! `Changeset`, one change of a key.
ghost use Rattle.std.specs.Prelude.{◌≡◌, IfOk};

use shard_log::Note;
use shard_log::growth::notes_are_sound;
use std::marker::Model;
use tao_base::{Change, Entry, Key, OutOfMemory, Touch};

/// What one touch of a log does at its key, which it takes from a version to the next, with a note
/// of that log: what a store hands to the caches after a write.
///
/// Where the log is told, the touch is one of the note's view, and stays so while the view grows.
#[derive(Drop)]
pub struct Changeset {
    key: Key,
    before: u64,
    after: u64,
    change: Change,
    note: Note,
}

impl Model for Changeset {
    ghost use Rattle.changeset.specs.Changes.{IsOneTouch, SeenChange, seen_change};

    ghost Value = { SeenChange };

    ghost view = { λ c. seen_change c.key c.before c.after c.change c.note };

    ghost invariant = { λ c. IsOneTouch (seen_change c.key c.before c.after c.change c.note) };
}

impl Changeset {
    ghost use Rattle.std.specs.Prelude.{◌≡◌, ◌+◌, ◌<◌, IfOk, Some, length, slice_get};
    ghost use Rattle.graph_model.specs.Log.{IsTouchOf};
    ghost use Rattle.graph_model.specs.Log.{entry_at};
    ghost use Rattle.graph_model.specs.Soundness.{IsSound};
    ghost use Rattle.graph_model.specs.Told.{WhereTold};
    ghost use Rattle.shard_log.specs.View.{Grows};
    ghost use Rattle.changeset.specs.Changes.{IsOneTouch, seen_change_at, change_by, own_touch, change_with_note};

    /// The change that an entry of the log makes by its touch at `place`, which counts from 0. A touch
    /// of version 0, which no log that is told has, counts as one of version 1.
    ///
    /// Copies the change. The one error is that there is no memory for that, which loses the note.
    pub fn of(entry: &Entry, place: usize, note: Note) -> Result<Changeset, OutOfMemory>
        requires place { place < length entry.now.touches }
        requires entry { WhereTold note.log.told (entry_at note.entries entry.now.position ≡ Some entry.now) }
        ensures made { IfOk result (λ made. seen_change_at entry.now place note ≡ Some made) }
        ensures one_touch { IfOk result IsOneTouch }
        ensures touch { IfOk result (λ made. WhereTold note.log.told (slice_get entry.now.touches place ≡ Some (own_touch made))) }
    {
        Changeset::by(&entry.touches.as_slice()[place], note)
    }

    fn by(touch: &Touch, note: Note) -> Result<Changeset, OutOfMemory>
        requires { WhereTold note.log.told (IsTouchOf note.entries touch.now) }
        ensures made { IfOk result (λ made. made ≡ change_by touch.now note) }
        ensures one_touch { IfOk result IsOneTouch }
        ensures touch { IfOk result (λ made. WhereTold note.log.told (own_touch made ≡ touch.now)) }
    {
        notes_are_sound(&note);
        let change = touch.change.copy()?;
        let before = touch.version.saturating_sub(1);
        Ok(Changeset {
            key: touch.key,
            before,
            after: before + 1,
            change,
            note,
        })
    }

    /// The object or the list that is changed.
    pub fn key(&self) -> Key
        ensures { result ≡ self.now.key }
    {
        self.key
    }

    /// The version of the key before the change.
    pub fn before(&self) -> u64
        ensures value { result ≡ self.now.before }
        ensures next { self.now.after ≡ result + 1 }
    {
        self.before
    }

    /// The version of the key after the change.
    pub fn after(&self) -> u64
        ensures value { result ≡ self.now.after }
        ensures next { result ≡ self.now.before + 1 }
    {
        self.after
    }

    /// What is done at the key.
    pub fn change(&self) -> &Change
        ensures value { result.now ≡ self.now.change }
        ensures touched { WhereTold self.now.note.log.told (IsTouchOf self.now.note.entries (own_touch self.now)) }
    {
        &self.change
    }

    /// The log's length now, which the note's view then has. Nothing else of the changeset changes.
    /// One load; takes no memory.
    pub fn look(&mut self) -> u64
        ensures same { self.new ≡ change_with_note self.old self.new.note }
        ensures one_touch { IsOneTouch self.new }
        ensures length { result ≡ length self.new.note.entries }
        ensures grows { Grows self.old.note self.new.note }
        ensures pins { (self.new.note.stored ≡ self.old.note.stored) × (self.new.note.floors ≡ self.old.note.floors) }
        ensures sound { WhereTold self.new.note.log.told (IsSound self.new.note.entries) }
    {
        self.note.look()
    }

    /// The changeset taken apart: its key, the version before and the one after, its change and its
    /// note. Takes no memory.
    pub fn into_parts(self) -> (Key, u64, u64, Change, Note)
        ensures key { result.0 ≡ self.key }
        ensures before { result.1 ≡ self.before }
        ensures after { result.2 ≡ self.after }
        ensures change { result.3 ≡ self.change }
        ensures note { result.4 ≡ self.note }
        ensures one_touch { IsOneTouch self }
    {
        (self.key, self.before, self.after, self.change, self.note)
    }
}
