//! `Prefix`, the cached list, and `Verdict`, what it says to a query.
ghost use Rattle.std.specs.Prelude.{◌≡◌, ◌≤◌, true, IfOk, IsOk, OnErr, OnOk, length};
ghost use Rattle.graph_model.specs.Edges.{IsInListOrder};
ghost use Rattle.graph_model.specs.Prefixes.{decides};
ghost use Rattle.list_prefix.specs.Changes.{SetsEdge, StaysExact, prefix_after};
ghost use Rattle.list_prefix.specs.Fronts.{IsFrontFor, IsLeftOpen};
ghost use Rattle.list_prefix.specs.ListPrefix.{CanBegin, list_prefix};
ghost use Rattle.list_prefix.specs.Verdicts.{AnswersEachList, AnswersLog, IsOfList, verdict_of};

use crate::answering::{answer_of, copies_of};
use crate::changing::{put_in, shorten, take_out};
use crate::deciding::is_decided;
use crate::fronts::shortest_front;
use std::marker::Model;
use tao_base::{Answer, Change, Edge, Edges, OutOfMemory, Query};

/// What a prefix says to a query of its list.
#[derive(Drop)]
pub enum Verdict {
    /// The answer of the whole list.
    Decided(Answer),
    /// Lists that begin with these edges and have this length may answer differently.
    Undecided,
}

/// The first edges of an association list, in the list's order, and how many edges the list has.
/// It is complete where it holds them all. Contracts see the edges and the length.
#[derive(Drop)]
pub struct Prefix {
    edges: Vec<Edge>,
    total: u64,
}

impl Model for Prefix {
    ghost use Rattle.list_prefix.specs.ListPrefix.{CanBegin, ListPrefix, list_prefix};

    ghost Value = { ListPrefix };

    ghost view = { λ p. list_prefix p.edges.items p.total };

    ghost invariant = { λ p. CanBegin p.edges.items p.total };
}

impl Prefix {
    /// The prefix of these first edges, of a list that has `total` edges. Takes no memory.
    pub fn of(edges: Edges, total: u64) -> Prefix
        requires in_order { IsInListOrder edges }
        requires within { length edges ≤ total }
        ensures { result ≡ list_prefix edges total }
    {
        Prefix {
            edges: edges.into_vec(),
            total,
        }
    }

    /// The first edges of the list.
    pub fn edges(&self) -> &[Edge]
        ensures value { result.now ≡ self.now.edges }
        ensures begins { CanBegin self.now.edges self.now.total }
    {
        self.edges.as_slice()
    }

    /// How many edges the list has.
    pub fn total(&self) -> u64
        ensures { result ≡ self.now.total }
    {
        self.total
    }

    /// The answer to a count: how many edges the list has. Takes no memory, and constant time.
    pub fn count(&self) -> u64
        ensures { result ≡ self.now.total }
    {
        self.total
    }

    /// Takes a change of the list, the next after those that the prefix has taken, and stays exact.
    /// `bound` is how many edges of such a list a cache holds at most: a prefix that is longer
    /// loses its last edge. A change of an object leaves the prefix as it is.
    ///
    /// Costs a pass over the edges, and one copy of an edge that is set. The one error is that
    /// there is no memory for that copy, which leaves the prefix as it was.
    pub fn apply(&mut self, change: &Change, bound: u64) -> Result<(), OutOfMemory>
        ensures after { OnOk result (self.new ≡ prefix_after change.now self.old bound) }
        ensures exact { OnOk result (StaysExact change.now self.old self.new bound) }
        ensures unchanged { OnErr result (self.new ≡ self.old) }
        ensures memory { OnErr result (SetsEdge change.now) }
    {
        self.take_change(change, bound)
    }

    fn take_change(&mut self, change: &Change, bound: u64) -> Result<(), OutOfMemory>
        ensures after { OnOk result (self.new ≡ prefix_after change.now self.old bound) }
        ensures unchanged { OnErr result (self.new ≡ self.old) }
        ensures memory { OnErr result (SetsEdge change.now) }
    {
        match change {
            Change::PutObject(_) | Change::DropObject => Ok(()),
            Change::SetEdge { edge, was } => {
                let edge = edge.copy()?;
                self.edges.reserve(1)?;
                let rest = take_out(&mut self.edges, self.total, edge.id2, *was);
                self.total = put_in(&mut self.edges, rest, edge, bound);
                Ok(())
            }
            Change::CutEdge { id2, was, .. } => {
                self.total = take_out(&mut self.edges, self.total, *id2, *was);
                shorten(&mut self.edges, bound);
                Ok(())
            }
        }
    }

    /// The answer to a query of the list, where the prefix decides it: where every list that begins
    /// with these edges and has this length answers the same. `bound` is how many edges of such a
    /// list an answer gives at most.
    ///
    /// An answer copies the edges that it gives and no others. With n edges held, a count takes
    /// constant time, a range the time of what it gives, a time range that and log n, and edges to
    /// m ids n log m. The one error is out of memory; a query that is undecided takes none.
    pub fn read(&self, query: &Query, bound: u64) -> Result<Verdict, OutOfMemory>
        requires { IsOfList query.now }
        ensures exact { IfOk result (λ verdict. verdict ≡ verdict_of self.now query.now bound) }
        ensures of_each_list { IfOk result (AnswersEachList self.now query.now bound) }
        ensures of_log { IfOk result (AnswersLog self.now query.now bound) }
        ensures memory { OnErr result (decides bound self.now.edges self.now.total query.now ≡ true) }
    {
        self.judge(query, bound)
    }

    fn judge(&self, query: &Query, bound: u64) -> Result<Verdict, OutOfMemory>
        requires { IsOfList query.now }
        ensures exact { IfOk result (λ verdict. verdict ≡ verdict_of self.now query.now bound) }
        ensures memory { OnErr result (decides bound self.now.edges self.now.total query.now ≡ true) }
    {
        let edges = self.edges.as_slice();
        if !is_decided(edges, self.total, query, bound) {
            return Ok(Verdict::Undecided);
        }
        let alloc = *self.edges.allocator();
        let answer = answer_of(alloc, edges, self.total, query, bound)?;
        Ok(Verdict::Decided(answer))
    }

    /// The same prefix once more. Copies its edges. The one error is out of memory.
    pub fn try_clone(&self) -> Result<Prefix, OutOfMemory>
        ensures { IfOk result (λ copy. copy ≡ self.now) }
    {
        let edges = copies_of(*self.edges.allocator(), self.edges.as_slice())?;
        Ok(Prefix {
            edges: edges.into_vec(),
            total: self.total,
        })
    }

    /// The shortest prefix of this one that decides a query, of the same list: what a cache above
    /// needs to hold to answer it. None where all the edges that are held, or the first `bound` of
    /// them, leave it undecided.
    ///
    /// Copies the edges that it gives. Costs besides as many tests as `shortest_front`. The one
    /// error is out of memory; a query that is left undecided takes none.
    pub fn front(&self, query: &Query, bound: u64) -> Result<Option<Prefix>, OutOfMemory>
        ensures front { IfOk result (IsFrontFor self.now query.now bound) }
        ensures memory { IsLeftOpen bound self.now.edges self.now.total query.now → IsOk result }
    {
        let edges = self.edges.as_slice();
        let Some(count) = shortest_front(edges, self.total, query, bound) else {
            return Ok(None);
        };
        let front = copies_of(*self.edges.allocator(), &edges[..count])?;
        Ok(Some(Prefix {
            edges: front.into_vec(),
            total: self.total,
        }))
    }
}
