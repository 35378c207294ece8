//! Edges in the order of lists.
ghost use Rattle.std.specs.Prelude.{[], ◌≡◌, ◌∷◌, ◌++◌, if◌then◌else◌, IfOk, OnOk, drop, is_ok, length, map, option_copied, option_to_list, take};
ghost use Rattle.graph_model.specs.Edges.{Without, edges_to, insert_edge, without_edge};
ghost use Rattle.list_index.specs.AtKeys.{times_to};

use crate::order_key::OrderKey;
use std::alloc::{AllocError, Global};
use std::collections::BTreeMap;
use std::marker::Model;
use tao_base::{Edge, Edges, Id, OutOfMemory, Time};

/// The edges of a list, the newest first. Contracts see the list.
#[derive(Drop)]
pub struct EdgesInOrder {
    edges: BTreeMap<OrderKey, Edge>,
}

impl Model for EdgesInOrder {
    ghost use Rattle.std.specs.Prelude.{List};
    ghost use Rattle.std.specs.BTreeMap.{values};
    ghost use Rattle.list_index.specs.AtKeys.{AreAtKeys};
    ghost use Rattle.tao_base.specs.declared.edge.Edge.{Edge};

    ghost Value = { List Edge };

    ghost view = { λ l. values l.edges };

    ghost invariant = { λ l. AreAtKeys l.edges };
}

impl EdgesInOrder {
    /// No edges.
    pub fn new(alloc: Global) -> EdgesInOrder
        ensures { result ≡ [] }
    {
        EdgesInOrder {
            edges: BTreeMap::new(alloc),
        }
    }

    /// How many edges there are.
    pub fn len(&self) -> u64
        ensures { result ≡ length self.now }
    {
        self.edges.len() as u64
    }

    /// The edge to an id, which is of that time. One look-up.
    pub fn get(&self, time: Time, id2: Id) -> Option<&Edge>
        requires { times_to id2 self.now ≡ time ∷ [] }
        ensures { option_to_list (option_copied result) ≡ edges_to id2 self.now }
    {
        self.edges.get(&OrderKey::at(time, id2))
    }

    /// Takes the edge to an id out, which is of that time. One look-up.
    pub fn remove(&mut self, time: Time, id2: Id)
        requires { times_to id2 self.old ≡ time ∷ [] }
        ensures { self.new ≡ without_edge id2 self.old }
    {
        self.edges.remove(&OrderKey::at(time, id2));
    }

    /// Puts an edge in its place, where none goes to its id. One look-up. Out of memory changes nothing.
    pub fn insert(&mut self, edge: Edge) -> Result<(), OutOfMemory>
        requires { Without edge.id2 self.old }
        ensures { self.new ≡ (if is_ok result then insert_edge edge self.old else self.old) }
    {
        self.edges.insert(OrderKey::of(&edge), edge)?;
        Ok(())
    }

    /// The edges at the places from `pos` on, at most `most` of them. Goes past those before `pos`, and copies those that
    /// it gives.
    pub fn stretch(&self, alloc: Global, pos: u64, most: u64) -> Result<Edges, OutOfMemory>
        ensures { IfOk result (λ given. given ≡ take most (drop pos self.now)) }
    {
        copies_of(alloc, &self.part(alloc, pos, most)?)
    }

    fn part(&self, alloc: Global, pos: u64, most: u64) -> Result<Vec<&Edge>, AllocError>
        ensures { IfOk result (λ edges. map (λ e. e.now) edges.items ≡ take most (drop pos self.now)) }
    {
        self.edges
            .values()
            .skip(pos as usize)
            .take(most as usize)
            .collect(alloc)
    }
}

fn copies_of(alloc: Global, edges: &[&Edge]) -> Result<Edges, OutOfMemory>
    ensures { IfOk result (λ copies. copies ≡ map (λ e. e.now) edges.now) }
{
    let mut copies = Vec::with_capacity(alloc, edges.len())?;
    for edge in edges {
        push_copy(&mut copies, edge)?;
    }
    Ok(Edges::of(copies))
}

fn push_copy(edges: &mut Vec<Edge>, edge: &Edge) -> Result<(), OutOfMemory>
    ensures { OnOk result (edges.new.items ≡ edges.old.items ++ edge.now ∷ []) }
{
    edges.push(edge.copy()?)?;
    Ok(())
}
