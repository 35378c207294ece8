//! The pen: who adds entries to the log.
ghost use Rattle.std.specs.Arc.{arc_value};
ghost use Rattle.std.specs.Prelude.{◌≡◌, ◌<◌, ◌≤◌, ◌++◌, ◌∷◌, [], length, IfOk, OnOk, OnErr};
ghost use Rattle.graph_model.specs.Soundness.{CanFollow, IsSound};
ghost use Rattle.graph_model.specs.Told.{WhereTold};
ghost use Rattle.shard_log.specs.View.{Grows, as_note, greater, most_entries};

use crate::append::append;
use crate::note::Note;
use crate::rule::{Board, Confirm, NewNote, Opening, Place, TakeIn};
use atomic_table::Table;
use std::alloc::Global;
use std::marker::{Brand, Model};
use std::sync::Arc;
use tao_base::{Entry, OutOfMemory};

/// The only pen of a log. Contracts see the log's name and the whole log.
#[derive(Drop)]
pub struct Pen {
    board: Arc<Board, Global>,
    place: Place,
    len: u64,
}

impl Model for Pen {
    ghost use Rattle.std.specs.Arc.{arc_value};
    ghost use Rattle.shard_log.specs.Rule.{IsPen, seat_view};
    ghost use Rattle.shard_log.specs.View.{View};

    ghost Value = { View };

    ghost view = { λ p. seat_view p.place.table_id p.place.me };

    ghost invariant = { λ p. IsPen (arc_value p.board).shared.table_id p.place.table_id p.place.me p.len };
}

/// The log of a shard.
pub struct ShardLog;

impl ShardLog {
    /// A log that begins with these entries, and its only pen. Where the log is told, it is sound; a store passes whether
    /// its keeper tells its tables.
    pub fn make(alloc: Global, first: Vec<Entry>, told: bool) -> Result<Pen, OutOfMemory>
        requires few { length first.items ≤ most_entries }
        requires sound { WhereTold told (IsSound first.items) }
        ensures told { IfOk result (λ pen. pen.log.told ≡ told) }
        ensures entries { IfOk result (λ pen. pen.entries ≡ first.items) }
        ensures no_pins { IfOk result (λ pen. (pen.log.pins ≡ []) × (pen.stored ≡ []) × (pen.floors ≡ [])) }
    {
        let len = first.len() as u64;
        let opening = Opening { first, told };
        let (board, place) = Table::of_words(alloc, &[len], &opening)?;
        Ok(Pen {
            board: Arc::new(alloc, board)?,
            place,
            len,
        })
    }
}

impl Pen {
    /// How many entries the log has. Takes no memory.
    pub fn len(&self) -> u64
        ensures length { result ≡ length self.now.entries }
        ensures few { result ≤ most_entries }
        ensures sound { WhereTold self.now.log.told (IsSound self.now.entries) }
    {
        self.len
    }

    /// Adds the entry at the end of the log, and answers the log's length then. One atomic step; takes no memory.
    pub fn append(&mut self, entry: &Entry) -> u64
        requires room { length self.old.entries < most_entries }
        requires follows { WhereTold self.old.log.told (CanFollow self.old.entries entry.now) }
        ensures added { self.new ≡ record self.old { entries = self.old.entries ++ entry.now ∷ [] } }
        ensures length { result ≡ length self.new.entries }
        ensures position { WhereTold self.old.log.told (result ≡ entry.now.position) }
    {
        append::<Brand>(&self.board, &mut self.place, entry);
        self.len += 1;
        self.len
    }

    /// A note that has seen the whole log, whose one word it shares.
    #[tactic(auto, using(crate::proofs::Steps::splits))]
    pub fn note(&mut self) -> Result<Note, OutOfMemory>
        ensures same { self.new ≡ self.old }
        ensures view { IfOk result (λ note. note ≡ as_note self.old) }
    {
        let board = Arc::try_clone(&self.board)?;
        let place = self.board.shared.split_seat::<NewNote>(&mut self.place);
        Ok(Note { board, place })
    }

    /// A note that has seen the whole log, in place of a note of the log, whose view has grown into it. Its floors are the
    /// pen's, and those of the old note are forgotten. Takes no memory, so that one who took a note before entries were
    /// added sees them for certain.
    #[tactic(auto, using(crate::proofs::Steps::splits))]
    pub fn renew(&mut self, note: Note) -> Note
        requires { self.old.log ≡ note.log }
        ensures same { self.new ≡ self.old }
        ensures view { result ≡ as_note self.old }
        ensures grows { Grows note result }
        ensures floors { result.floors ≡ self.old.floors }
    {
        let board = self.take_in(note);
        let place = self.board.shared.split_seat::<NewNote>(&mut self.place);
        Note { board, place }
    }

    // What the note has seen begins the log. Gives the note's share of the log's word back.
    fn take_in(&mut self, note: Note) -> Arc<Board, Global>
        requires { self.old.log ≡ note.log }
        ensures same { self.new ≡ self.old }
        ensures grows { Grows note self.new }
        ensures board { (arc_value result).shared.table_id ≡ self.old.log.table }
    {
        let Note { board, place } = note;
        self.board
            .shared
            .join_seat::<TakeIn>(&mut self.place, place);
        self.board.shared.load::<Confirm>(&mut self.place, 0);
        board
    }

    /// The note's view becomes the whole log, which its old view begins. Where that fails the
    /// note is as it was.
    pub fn meet(&mut self, note: &mut Note) -> Result<(), OutOfMemory>
        requires { self.old.log ≡ note.old.log }
        ensures same { self.new ≡ self.old }
        ensures whole { OnOk result (note.new.entries ≡ self.old.entries) }
        ensures floors { OnOk result (note.new.floors ≡ greater note.old.floors self.old.floors) }
        ensures grows { Grows note.old note.new }
        ensures err { OnErr result (note.new ≡ note.old) }
    {
        let seen = note.split()?;
        let whole = self.note()?;
        self.take_in(seen);
        note.meet(whole);
        Ok(())
    }
}
