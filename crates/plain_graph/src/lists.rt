//! Association lists: the live edges of an id and a type, the newest first.
ghost use Rattle.std.specs.Prelude.{◌≡◌, IfOk, drop, length, map, take};
ghost use Rattle.graph_model.specs.Edges.{edge_list, live_edges, newest_first};

use crate::changes::changes_at;
use list_index::EdgeTable;
use std::alloc::Global;
use tao_base::{AType, Change, Edges, Entry, Id, Key, OutOfMemory};

/// The edges of a list at the places from `pos` on, at most `most` of them. Takes the time and the
/// memory of `count_of`, and copies the edges that it gives.
pub fn edges_of(
    alloc: Global,
    entries: &[Entry],
    id1: Id,
    atype: AType,
    pos: u64,
    most: u64,
) -> Result<Edges, OutOfMemory>
    ensures { IfOk result (λ edges. edges ≡ take most (drop pos (edge_list entries.now id1 atype))) }
{
    table_of(alloc, entries, id1, atype)?.stretch(alloc, pos, most)
}

/// How many edges a list has. Reads all entries, and takes the list through each of its changes,
/// with a look-up for each among the ids and the edges so far. Refers to each change of the list,
/// and copies each edge that is set.
pub fn count_of(alloc: Global, entries: &[Entry], id1: Id, atype: AType) -> Result<u64, OutOfMemory>
    ensures { IfOk result (λ count. count ≡ length (edge_list entries.now id1 atype)) }
{
    Ok(table_of(alloc, entries, id1, atype)?.count())
}

/// All edges of a list.
pub fn list_of(
    alloc: Global,
    entries: &[Entry],
    id1: Id,
    atype: AType,
) -> Result<Edges, OutOfMemory>
    ensures { IfOk result (λ edges. edges ≡ edge_list entries.now id1 atype) }
{
    let table = table_of(alloc, entries, id1, atype)?;
    table.stretch(alloc, 0, table.count())
}

/// The table of a list.
fn table_of(
    alloc: Global,
    entries: &[Entry],
    id1: Id,
    atype: AType,
) -> Result<EdgeTable, OutOfMemory>
    ensures { IfOk result (λ table. table.edges ≡ edge_list entries.now id1 atype) }
{
    let changes = changes_at(alloc, entries, &Key::List(id1, atype))?;
    table_after_all(alloc, &changes)
}

/// The table that changes leave.
fn table_after_all(alloc: Global, changes: &[&Change]) -> Result<EdgeTable, OutOfMemory>
    ensures { IfOk result (λ table. table.edges ≡ newest_first (live_edges (map (λ c. c.now) changes.now))) }
{
    let mut table = EdgeTable::new(alloc);
    for change in changes {
        table = table.after(change)?;
    }
    Ok(table)
}
