//! The rule of a log's table, and what its steps tell.
use atomic_table::{Join, Play, Seat, Split, Table, TableRule};
use std::alloc::Global;
use std::collections::LinkedList;
use tao_base::{Entry, Key};

/// What a seat is for.
pub enum Role {
    /// The pen's.
    Writes,
    /// A note's.
    Reads,
    /// Another took it in.
    Spent,
}

/// What a seat has seen. No value of it is made.
pub struct Seen {
    pub role: Role,
    pub told: bool,
    pub entries: LinkedList<Entry>,
    /// The views that it met and that no load has confirmed yet.
    pub met: LinkedList<LinkedList<Entry>>,
    pub pins: LinkedList<Key>,
    pub stored: LinkedList<u64>,
    pub floors: LinkedList<u64>,
}

/// What a log begins with.
#[derive(Drop)]
pub struct Opening {
    pub first: Vec<Entry>,
    pub told: bool,
}

pub struct ShardRule;

impl TableRule<(), Seen, Opening> for ShardRule {
    ghost use Rattle.shard_log.specs.Rule.{IsKept, first_seen};

    ghost holds = { λ _ s. IsKept s };

    ghost first = { first_seen };
}

/// A new note, which has seen what the seat has.
pub(crate) struct NewNote;

impl Split<Seen> for NewNote {
    ghost use Rattle.shard_log.specs.Rule.{reading};

    ghost left = { λ v. v };

    ghost right = { reading };
}

/// A note meets another.
pub(crate) struct Meet;

impl Join<Seen> for Meet {
    ghost use Rattle.shard_log.specs.Rule.{meeting, spent};

    ghost both = { meeting };

    ghost spent = { spent };
}

/// The pen takes a note in.
pub(crate) struct TakeIn;

impl Join<Seen> for TakeIn {
    ghost use Rattle.shard_log.specs.Rule.{taking_in, spent};

    ghost both = { taking_in };

    ghost spent = { spent };
}

/// What was met begins the view.
pub(crate) struct Confirm;

impl Play<(), Seen> for Confirm {
    ghost use Rattle.shard_log.specs.Rule.{Confirms};

    ghost then = { Confirms };
}

/// A note sees the log's length.
pub(crate) struct Look;

impl Play<(), Seen> for Look {
    ghost use Rattle.shard_log.specs.Rule.{Looks};

    ghost then = { Looks };
}

pub(crate) type Board = Table<(), Seen, Opening, ShardRule, Global>;

pub(crate) type Place = Seat<(), Seen>;
