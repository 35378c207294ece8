//! Objects and edges.
ghost use Rattle.std.specs.Prelude.{◌≡◌, IfOk};
ghost use Rattle.tao_base.specs.Stamps.{is_earlier, stamp_of};

use super::data::Data;
use super::id::{Id, OType};
use super::memory::OutOfMemory;
use std::marker::Model;

/// A client's time: what a list is ordered by. The store gives it no unit.
pub type Time = u32;

/// Which of two records of an edge is the later: the one of the greater number, and of equal
/// numbers the one of the greater shard.
#[derive(Clone, Copy, PartialEq, Eq, PartialOrd, Ord)]
pub struct Stamp {
    pub number: u64,
    pub shard: u16,
}

impl Stamp {
    /// Whether this stamp is the earlier one.
    pub fn is_before(&self, other: &Stamp) -> bool
        ensures { result ≡ is_earlier self.now other.now }
    {
        self < other
    }
}

/// An object: its type and its data.
#[derive(Clone, Drop)]
pub struct Object {
    pub otype: OType,
    pub payload: Data,
}

/// A live association, as it stands in the list of its id1 and type.
#[derive(Clone, Drop)]
pub struct Edge {
    pub id2: Id,
    pub time: Time,
    pub payload: Data,
    pub stamp: Stamp,
}

impl Edge {
    /// A copy of the edge. Its payload takes memory.
    pub fn copy(&self) -> Result<Edge, OutOfMemory>
        ensures { IfOk result (λ copy. copy ≡ self.now) }
    {
        Ok(self.clone()?)
    }
}

/// The record of an edge. One that was cut keeps its stamp.
#[derive(Clone, Drop)]
pub enum EdgeState {
    Live {
        time: Time,
        payload: Data,
        stamp: Stamp,
    },
    Cut {
        stamp: Stamp,
    },
}

impl EdgeState {
    /// The stamp of the record, whether the edge is live or cut.
    pub fn stamp(&self) -> Stamp
        ensures { result ≡ stamp_of self.now }
    {
        match self {
            EdgeState::Live { stamp, .. } => *stamp,
            EdgeState::Cut { stamp } => *stamp,
        }
    }
}

/// Edges, as a list gives them.
#[derive(Clone, Drop)]
pub struct Edges {
    edges: Vec<Edge>,
}

impl Model for Edges {
    ghost use Rattle.std.specs.Prelude.{List};
    ghost use Rattle.tao_base.specs.declared.edge.Edge.{Edge};

    ghost Value = { List Edge };

    ghost view = { λ e. e.edges.items };
}

impl Edges {
    /// The edges of a vector, which is taken over. Takes no memory.
    pub fn of(edges: Vec<Edge>) -> Edges
        ensures { result ≡ edges.items }
    {
        Edges { edges }
    }

    /// The edges, in the order of the vector that they were made of.
    pub fn as_slice(&self) -> &[Edge]
        ensures { result.now ≡ self.now }
    {
        self.edges.as_slice()
    }

    /// The vector given back. Takes no memory.
    pub fn into_vec(self) -> Vec<Edge>
        ensures { result.items ≡ self }
    {
        self.edges
    }
}
