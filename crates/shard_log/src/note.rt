//! A note: a beginning of the log that was seen.
ghost use Rattle.std.specs.Prelude.{◌≡◌, ◌≤◌, length, IfOk};
ghost use Rattle.graph_model.specs.Soundness.{IsSound};
ghost use Rattle.graph_model.specs.Told.{WhereTold};
ghost use Rattle.shard_log.specs.View.{Grows, longer_view, most_entries};

use crate::rule::{Board, Confirm, Look, Meet, NewNote, Place};
use std::alloc::Global;
use std::marker::Model;
use std::sync::Arc;
use tao_base::OutOfMemory;

/// What was seen of a log: a beginning of it. Contracts see the log's name and the entries.
#[derive(Drop)]
pub struct Note {
    pub(crate) board: Arc<Board, Global>,
    pub(crate) place: Place,
}

impl Model for Note {
    ghost use Rattle.std.specs.Arc.{arc_value};
    ghost use Rattle.shard_log.specs.Rule.{IsNote, seat_view};
    ghost use Rattle.shard_log.specs.View.{View};

    ghost Value = { View };

    ghost view = { λ n. seat_view n.place.table_id n.place.me };

    ghost invariant = { λ n. IsNote (arc_value n.board).shared.table_id n.place.table_id n.place.me };
}

impl Note {
    /// The log's length now, which the view then has. One load; takes no memory.
    #[tactic(auto, using(crate::proofs::Steps::looks))]
    pub fn look(&mut self) -> u64
        ensures length { result ≡ length self.new.entries }
        ensures grows { Grows self.old self.new }
        ensures pins { (self.new.stored ≡ self.old.stored) × (self.new.floors ≡ self.old.floors) }
        ensures few { result ≤ most_entries }
        ensures sound { WhereTold self.new.log.told (IsSound self.new.entries) }
    {
        self.board.shared.load::<Look>(&mut self.place, 0)
    }

    /// A second note with the same view, which shares the log's one word too.
    #[tactic(auto, using(crate::proofs::Steps::splits))]
    pub fn split(&mut self) -> Result<Note, OutOfMemory>
        ensures same { self.new ≡ self.old }
        ensures view { IfOk result (λ note. note ≡ self.old) }
    {
        let board = Arc::try_clone(&self.board)?;
        let place = self.board.shared.split_seat::<NewNote>(&mut self.place);
        Ok(Note { board, place })
    }

    /// The view becomes the longer of the two, which both begin. Takes no memory.
    pub fn meet(&mut self, other: Note)
        requires { self.old.log ≡ other.log }
        ensures longer { self.new ≡ longer_view self.old other }
        ensures grows { Grows self.old self.new }
        ensures grows_from_other { Grows other self.new }
    {
        let Note { board: _, place } = other;
        self.board.shared.join_seat::<Meet>(&mut self.place, place);
        self.board.shared.load::<Confirm>(&mut self.place, 0);
    }
}
