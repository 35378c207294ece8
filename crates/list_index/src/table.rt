//! The table of one list.
ghost use Rattle.std.specs.BTreeMap.{get};
ghost use Rattle.std.specs.Ordering.{nat_cmp};
ghost use Rattle.std.specs.Prelude.{◌≡◌, ◌==◌, if◌then◌else◌, ℕ, IfOk, OnOk, Option, Some, drop, length, option_copied, option_map, option_to_list, take};
ghost use Rattle.tao_base.specs.declared.entry.Change.TheVariants.{CutEdge, SetEdge};
ghost use Rattle.tao_base.specs.declared.id.Id.{Id as Id2};
ghost use Rattle.graph_model.specs.Edges.{state_of as live_state, without_edge};
ghost use Rattle.list_index.specs.ListState.{ListIsAfter, StandAsListed, live_times, no_list, record_to, standing_of};

use crate::edges::EdgesInOrder;
use std::alloc::Global;
use std::collections::BTreeMap;
use std::marker::Model;
use tao_base::{Change, Edge, EdgeState, Edges, Id, OutOfMemory, Stamp, Time};

/// How the edge to an id stands: in the list, at its time, or cut, with its stamp.
#[derive(Clone, Copy)]
pub enum Standing {
    Live { time: Time },
    Cut { stamp: Stamp },
}

/// The edges of a list in its order, and how the edge to each id stands.
#[derive(Drop)]
pub struct EdgeTable {
    edges: EdgesInOrder,
    standings: BTreeMap<Id, Standing>,
}

impl Model for EdgeTable {
    ghost use Rattle.list_index.specs.ListState.{ListState, StandAsListed};

    ghost Value = { ListState };

    ghost view = { λ t. record { edges = t.edges; standings = t.standings.entries } };

    ghost invariant = { λ t. StandAsListed t.edges t.standings.entries };
}

impl EdgeTable {
    /// Of a list that nothing was written to.
    pub fn new(alloc: Global) -> EdgeTable
        ensures { result ≡ no_list }
    {
        EdgeTable {
            edges: EdgesInOrder::new(alloc),
            standings: BTreeMap::new(alloc),
        }
    }

    /// The list after one more change. Copies the edge that is set, and looks up one place in each of its two maps. Where
    /// there is no memory, nothing is left.
    pub fn after(self, change: &Change) -> Result<EdgeTable, OutOfMemory>
        ensures { IfOk result (λ table. ListIsAfter change.now self table) }
    {
        match change {
            Change::SetEdge { edge, .. } => self.with_edge(edge),
            Change::CutEdge { id2, stamp, .. } => self.with_cut(*id2, *stamp),
            Change::PutObject(_) | Change::DropObject => Ok(self),
        }
    }

    fn with_edge(self, edge: &Edge) -> Result<EdgeTable, OutOfMemory>
        ensures { IfOk result (λ table. (was : Option ℕ) → ListIsAfter (SetEdge edge.now was) self table) }
    {
        let EdgeTable {
            mut edges,
            mut standings,
        } = self;
        cut(&mut edges, &standings, edge.id2);
        edges.insert(edge.copy()?)?;
        stand(&mut standings, edge.id2, Standing::Live { time: edge.time })?;
        Ok(EdgeTable { edges, standings })
    }

    fn with_cut(self, id2: Id, stamp: Stamp) -> Result<EdgeTable, OutOfMemory>
        ensures { IfOk result (λ table. (was : Option ℕ) → ListIsAfter (CutEdge id2 stamp was) self table) }
    {
        let EdgeTable {
            mut edges,
            mut standings,
        } = self;
        cut(&mut edges, &standings, id2);
        stand(&mut standings, id2, Standing::Cut { stamp })?;
        Ok(EdgeTable { edges, standings })
    }

    /// How many edges there are.
    pub fn count(&self) -> u64
        ensures { result ≡ length self.now.edges }
    {
        self.edges.len()
    }

    /// The edges at the places from `pos` on, at most `most` of them. Goes past those before `pos`, and copies those that
    /// it gives.
    pub fn stretch(&self, alloc: Global, pos: u64, most: u64) -> Result<Edges, OutOfMemory>
        ensures { IfOk result (λ given. given ≡ take most (drop pos self.now.edges)) }
    {
        self.edges.stretch(alloc, pos, most)
    }

    /// The record of the edge to an id. Copies it, after one look-up in each of the two maps.
    pub fn record(&self, id2: Id) -> Result<Option<EdgeState>, OutOfMemory>
        ensures { IfOk result (λ state. state ≡ record_to self.now id2) }
    {
        match self.standings.get(&id2) {
            Some(Standing::Live { time }) => live_record(self.edges.get(*time, id2)),
            Some(Standing::Cut { stamp }) => Ok(Some(EdgeState::Cut { stamp: *stamp })),
            None => Ok(None),
        }
    }
}

/// Takes the edge to an id out, where there is one.
fn cut(edges: &mut EdgesInOrder, standings: &BTreeMap<Id, Standing>, id2: Id)
    requires { StandAsListed edges.old standings.now.entries }
    ensures { edges.new ≡ without_edge id2 edges.old }
{
    if let Some(time) = live_time(standings, id2) {
        edges.remove(time, id2);
    }
}

/// The time of the edge to an id, where it is live.
fn live_time(standings: &BTreeMap<Id, Standing>, id2: Id) -> Option<Time>
    ensures { option_to_list result ≡ live_times (standing_of id2 standings.now.entries) }
{
    match standings.get(&id2) {
        Some(Standing::Live { time }) => Some(*time),
        Some(Standing::Cut { .. }) | None => None,
    }
}

/// Says how the edge to an id stands.
fn stand(
    standings: &mut BTreeMap<Id, Standing>,
    id2: Id,
    standing: Standing,
) -> Result<(), OutOfMemory>
    ensures { OnOk result ((other : Id2) → get nat_cmp standings.new other ≡ (if id2 == other then Some standing else get nat_cmp standings.old other)) }
{
    standings.insert(id2, standing)?;
    Ok(())
}

/// The record of a live edge. Copies its data.
fn live_record(edge: Option<&Edge>) -> Result<Option<EdgeState>, OutOfMemory>
    ensures { IfOk result (λ state. state ≡ option_map live_state (option_copied edge.entry)) }
{
    match edge {
        Some(edge) => Ok(Some(EdgeState::Live {
            time: edge.time,
            payload: edge.payload.clone()?,
            stamp: edge.stamp,
        })),
        None => Ok(None),
    }
}
