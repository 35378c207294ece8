//! What the entries of a log answer to a query.
ghost use Rattle.std.specs.Prelude.{◌≡◌, IfOk};
ghost use Rattle.graph_model.specs.Answers.{answer as log_answer, assoc_answer};
ghost use Rattle.tao_schema.specs.Schema.{types_of};

use crate::lists::list_of;
use crate::objects::object_of;
use list_prefix::answer_of;
use std::alloc::Global;
use tao_base::{AType, Answer, Entry, Id, OutOfMemory, Query};
use tao_schema::Schema;

/// What the log of these entries answers to a query. A range or a time range gives no more edges
/// than the schema's bound for the type of the list.
///
/// Reads all entries, and takes a list through each of its changes, with a look-up for each among the
/// ids and the edges so far. Refers to each change at the query's key, and copies the object, or each
/// edge that is set, then the list's edges and those that it gives. The one error is out of memory.
pub fn answer(
    alloc: Global,
    entries: &[Entry],
    query: &Query,
    schema: &Schema,
) -> Result<Answer, OutOfMemory>
    ensures { IfOk result (λ found. found ≡ log_answer (types_of schema.now) entries.now query.now) }
{
    match query {
        Query::ObjGet { id } => Ok(Answer::Object(object_of(alloc, entries, *id)?)),
        Query::AssocGet { id1, atype, .. }
        | Query::AssocCount { id1, atype }
        | Query::AssocRange { id1, atype, .. }
        | Query::AssocTimeRange { id1, atype, .. } => {
            of_list(alloc, entries, *id1, *atype, query, schema)
        }
    }
}

fn of_list(
    alloc: Global,
    entries: &[Entry],
    id1: Id,
    atype: AType,
    query: &Query,
    schema: &Schema,
) -> Result<Answer, OutOfMemory>
    ensures { IfOk result (λ found. found ≡ assoc_answer (types_of schema.now) entries.now id1 atype query.now) }
{
    let list = list_of(alloc, entries, id1, atype)?;
    let edges = list.as_slice();
    answer_of(alloc, edges, edges.len() as u64, query, schema.bound(atype))
}
