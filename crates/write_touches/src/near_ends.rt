//! The other ends of edges, where they lie on the same shard.
ghost use Rattle.std.specs.Prelude.{◌≡◌, ◌++◌, IfOk, OnOk, filter, filter_map, not};
ghost use Rattle.std.specs.List.{list_any};
ghost use Rattle.std.specs.Option.{option_to_list};
ghost use Rattle.graph_model.specs.Soundness.{other_end};
ghost use Rattle.write_model.specs.Writes.{is_near, same_edge, when, with_near_ends};
ghost use Rattle.write_touches.specs.Edges.{AreStamped};
ghost use Rattle.tao_schema.specs.Schema.{types_of};

use std::alloc::{AllocError, Global};
use tao_schema::Schema;
use write_model::merges::EdgeUpdate;

/// The same record at the edge's other end, where that lies on the same shard and the type has an
/// inverse.
fn near_end(schema: &Schema, update: &EdgeUpdate) -> Result<Option<EdgeUpdate>, AllocError>
    ensures { IfOk result (λ end. end ≡ when (is_near update.now) (other_end (types_of schema.now) update.now)) }
{
    let (id1, atype, id2, state) = update;
    if id2.shard() != id1.shard() {
        return Ok(None);
    }
    match schema.inverse(*atype) {
        Some(inverse) => Ok(Some((*id2, inverse, *id1, state.clone()?))),
        None => Ok(None),
    }
}

fn add_near_end(
    ends: &mut Vec<EdgeUpdate>,
    schema: &Schema,
    update: &EdgeUpdate,
) -> Result<(), AllocError>
    ensures { OnOk result (ends.new.items ≡ ends.old.items ++ option_to_list (when (is_near update.now) (other_end (types_of schema.now) update.now))) }
{
    if let Some(end) = near_end(schema, update)? {
        ends.push(end)?;
    }
    Ok(())
}

/// The records at the other ends on the same shard.
fn near_ends(
    alloc: Global,
    schema: &Schema,
    updates: &[EdgeUpdate],
) -> Result<Vec<EdgeUpdate>, AllocError>
    ensures { IfOk result (λ ends. ends.items ≡ filter_map (λ u. when (is_near u) (other_end (types_of schema.now) u)) updates.now) }
{
    let mut ends = Vec::new(alloc);
    for update in updates {
        add_near_end(&mut ends, schema, update)?;
    }
    Ok(ends)
}

fn is_same_edge(update: &EdgeUpdate, other: &EdgeUpdate) -> bool
    ensures { result ≡ same_edge update.now other.now }
{
    update.0 == other.0 && update.1 == other.1 && update.2 == other.2
}

fn is_among(update: &EdgeUpdate, updates: &[EdgeUpdate]) -> bool
    ensures { result ≡ list_any (same_edge update.now) updates.now }
{
    updates.iter().any(|other| is_same_edge(update, other))
}

/// Leaves out the ends that are written already: a loop whose type is its own inverse is one record.
fn leave_out(ends: &mut Vec<EdgeUpdate>, updates: &[EdgeUpdate])
    ensures { ends.new.items ≡ filter (λ v. not (list_any (same_edge v) updates.now)) ends.old.items }
{
    ends.retain(|end| !is_among(end, updates));
}

/// The records with those at the other ends on the same shard, each once.
pub fn with_near_ends(
    alloc: Global,
    schema: &Schema,
    mut updates: Vec<EdgeUpdate>,
) -> Result<Vec<EdgeUpdate>, AllocError>
    requires { AreStamped updates.items }
    ensures updates { IfOk result (λ us. us.items ≡ with_near_ends (types_of schema.now) updates.items) }
    ensures stamped { IfOk result (λ us. AreStamped us.items) }
{
    let mut ends = near_ends(alloc, schema, &updates)?;
    leave_out(&mut ends, &updates);
    updates.append(&mut ends)?;
    Ok(updates)
}
