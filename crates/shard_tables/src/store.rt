//! A store of one shard: its name, and what it holds of the shard's log.
ghost use Rattle.std.specs.Prelude.{◌≡◌, ◌≤◌, ◌<◌, ◌↔◌, IfErr, IfOk, IsTrue, OnErr, OnOk, Some, length};
ghost use Rattle.graph_model.specs.Soundness.{CanFollow};
ghost use Rattle.graph_model.specs.Told.{WhereTold};
ghost use Rattle.shard_log.specs.View.{Grows, as_note, most_entries};
ghost use Rattle.shard_tables.specs.Slaves.{HasMet};
ghost use Rattle.shard_tables.specs.StoreView.{Store};
ghost use Rattle.shard_tables.specs.Stores.{IsFullFor, length_of, note_of, store_with};
ghost use Rattle.shard_tables.specs.declared.store.StoreRole.TheVariants.{Master, Slave};

use super::refusal::StoreRefusal;
use shard_log::{Note, Pen};
use std::marker::Model;
use tao_base::{Entry, OutOfMemory, StoreName};
use write_touches::LAST_EPOCH;

/// What a store is for its shard.
#[derive(Clone, Copy, PartialEq, Eq)]
pub enum StoreRole {
    /// It makes the writes.
    Master,
    /// It takes the master's entries.
    Slave,
}

/// What a store holds of its shard's log.
#[derive(Drop)]
enum Held {
    Whole(Pen),
    Seen(Note),
}

/// A store of a shard: its name, how many entries its log may have, the epoch of its stamps, and the log's pen for the master, or a note of the
/// log for a slave. What is stored lies with the keeper that each call is given.
#[derive(Drop)]
pub struct StoreNode {
    name: StoreName,
    log_max: u64,
    epoch: u64,
    held: Held,
}

impl Model for StoreNode {
    ghost use Rattle.std.specs.Prelude.{◌≤◌};
    ghost use Rattle.shard_tables.specs.StoreView.{Store, shown_store};

    ghost Value = { Store };

    ghost view = { shown_store };

    ghost invariant = { λ s. (s.log_max ≤ 65536) × (s.epoch ≤ 1000) };
}

impl StoreNode {
    /// The master store of that name, which adds the entries of the pen's log: `log_max` at most, of 65,536. Takes no
    /// memory.
    pub fn master(name: StoreName, pen: Pen, log_max: u64) -> StoreNode
        requires { log_max ≤ 65536 }
        ensures { result ≡ record { name = name; log_max = log_max; epoch = 0; role = Master; view = pen } }
    {
        StoreNode {
            name,
            log_max,
            epoch: 0,
            held: Held::Whole(pen),
        }
    }

    /// A slave store of that name, which has seen what the note has. Takes no memory.
    pub fn slave(name: StoreName, note: Note, log_max: u64) -> StoreNode
        requires { log_max ≤ 65536 }
        ensures { result ≡ record { name = name; log_max = log_max; epoch = 0; role = Slave; view = note } }
    {
        StoreNode {
            name,
            log_max,
            epoch: 0,
            held: Held::Seen(note),
        }
    }

    /// The store's name, under which the keeper has its tables.
    pub fn name(&self) -> StoreName
        ensures { result ≡ self.now.name }
    {
        self.name
    }

    /// How many entries the store's log may have.
    pub fn log_max(&self) -> u64
        ensures limit { result ≡ self.now.log_max }
        ensures few { result ≤ 65536 }
    {
        self.log_max
    }

    /// The epoch of the stamps that it gives: 0 where no store of its shard was ever promoted.
    pub fn epoch(&self) -> u64
        ensures epoch { result ≡ self.now.epoch }
        ensures few { result ≤ LAST_EPOCH }
    {
        self.epoch
    }

    /// Whether the store makes the writes of its shard, or takes those of its master.
    pub fn role(&self) -> StoreRole
        ensures { result ≡ self.now.role }
    {
        match &self.held {
            Held::Whole(_) => StoreRole::Master,
            Held::Seen(_) => StoreRole::Slave,
        }
    }

    /// A note that has seen all that the store has: for the master the whole log.
    pub fn note(&mut self) -> Result<Note, OutOfMemory>
        ensures same { self.new ≡ self.old }
        ensures view { IfOk result (λ note. note ≡ note_of self.old) }
    {
        match &mut self.held {
            Held::Whole(pen) => pen.note(),
            Held::Seen(note) => note.split(),
        }
    }

    /// The note sees all that the store has, and what it had seen begins that, or the other way round: with the master it
    /// sees the whole log. Where that fails the note is as it was.
    pub fn meet(&mut self, note: &mut Note) -> Result<(), OutOfMemory>
        requires one_log { self.old.view.log ≡ note.old.log }
        ensures same { self.new ≡ self.old }
        ensures met { OnOk result (HasMet self.old note.old note.new) }
        ensures grows { Grows note.old note.new }
        ensures err { OnErr result (note.new ≡ note.old) }
    {
        match &mut self.held {
            Held::Whole(pen) => pen.meet(note),
            Held::Seen(seen) => {
                let seen = seen.split()?;
                note.meet(seen);
                Ok(())
            }
        }
    }

    /// The slave has seen what this note has, in place of what it had seen. Takes no memory.
    pub(crate) fn see(&mut self, note: Note)
        requires slave { self.old.role ≡ Slave }
        ensures { self.new ≡ record self.old { view = note } }
    {
        match &mut self.held {
            Held::Whole(_) => unreachable!(),
            Held::Seen(seen) => *seen = note,
        }
    }

    /// How many entries the master's log has. Takes no memory, and no call of a keeper.
    fn log_length(&self) -> u64
        requires master { self.now.role ≡ Master }
        ensures length { result ≡ length self.now.view.entries }
        ensures few { result ≤ most_entries }
    {
        match &self.held {
            Held::Whole(pen) => pen.len(),
            Held::Seen(_) => unreachable!(),
        }
    }

    /// How many entries the master's log has, where it has room for one more. Takes no memory, and no call of a keeper.
    pub(crate) fn room(&self) -> Result<u64, StoreRefusal>
        requires master { self.now.role ≡ Master }
        ensures length { IfOk result (λ length. length ≡ length_of self.now) }
        ensures room { IfOk result (λ length. length < self.now.log_max) }
        ensures few { IfOk result (λ length. length < most_entries) }
        ensures full { IfErr result (IsFullFor self.now) }
    {
        let length = self.log_length();
        if length >= self.log_max {
            return Err(StoreRefusal::LogFull { length });
        }
        Ok(length)
    }

    /// Adds an entry at the end of the master's log. Takes no memory.
    pub(crate) fn append(&mut self, entry: &Entry)
        requires master { self.old.role ≡ Master }
        requires room { length self.old.view.entries < most_entries }
        requires follows { WhereTold self.old.view.log.told (CanFollow self.old.view.entries entry.now) }
        ensures { self.new ≡ store_with self.old (Some entry.now) }
    {
        match &mut self.held {
            Held::Whole(pen) => {
                pen.append(entry);
            }
            Held::Seen(_) => unreachable!(),
        }
    }

    /// A note that has seen the master's whole log, in place of a note that was taken before. Takes no memory.
    pub fn renew(&mut self, note: Note) -> Note
        requires master { self.old.role ≡ Master }
        requires one_log { self.old.view.log ≡ note.log }
        ensures same { self.new ≡ self.old }
        ensures view { result ≡ as_note self.old.view }
    {
        match &mut self.held {
            Held::Whole(pen) => pen.renew(note),
            Held::Seen(_) => unreachable!(),
        }
    }
}
