//! What an entry owes to another shard.
ghost use Rattle.std.specs.Prelude.{◌≡◌, ◌++◌, IfOk, IfSome, OnOk, filter_map};
ghost use Rattle.std.specs.Option.{option_to_list};
ghost use Rattle.graph_model.specs.Soundness.{update_at};
ghost use Rattle.write_touches.specs.FarJobs.{far_record, job_for, owed_record};
ghost use Rattle.tao_keeper.specs.Given.{HaveSmallStamps, IsGivenJob, IsPosition};
ghost use Rattle.tao_schema.specs.Schema.{types_of};

use std::alloc::{AllocError, Global};
use tao_base::{Change, EdgeState, Entry, Key, Touch};
use tao_keeper::{Job, JobEdge, JobEdges};
use tao_schema::Schema;
use write_model::merges::EdgeUpdate;

/// The record that a touch writes, where it writes one of an edge.
fn update_of(touch: &Touch) -> Result<Option<EdgeUpdate>, AllocError>
    ensures { IfOk result (λ update. update ≡ update_at touch.now.key touch.now.change) }
{
    match touch.key {
        Key::List(id1, atype) => match &touch.change {
            Change::SetEdge { edge, .. } => {
                let state = EdgeState::Live {
                    time: edge.time,
                    payload: edge.payload.clone()?,
                    stamp: edge.stamp,
                };
                Ok(Some((id1, atype, edge.id2, state)))
            }
            Change::CutEdge { id2, stamp, .. } => {
                Ok(Some((id1, atype, *id2, EdgeState::Cut { stamp: *stamp })))
            }
            Change::PutObject(_) => Ok(None),
            Change::DropObject => Ok(None),
        },
        Key::Obj(_) => Ok(None),
    }
}

/// The record at the edge's other end, where that lies on another shard and the type has an inverse.
fn far_record(schema: &Schema, update: EdgeUpdate) -> Option<JobEdge>
    ensures { result ≡ far_record (types_of schema.now) update }
{
    let (id1, atype, id2, state) = update;
    if id2.shard() == id1.shard() {
        return None;
    }
    let inverse = schema.inverse(atype)?;
    Some((id2, inverse, id1, state))
}

fn add_owed(owed: &mut Vec<JobEdge>, schema: &Schema, touch: &Touch) -> Result<(), AllocError>
    ensures { OnOk result (owed.new.items ≡ owed.old.items ++ option_to_list (owed_record (types_of schema.now) touch.now)) }
{
    if let Some(update) = update_of(touch)? {
        if let Some(end) = far_record(schema, update) {
            owed.push(end)?;
        }
    }
    Ok(())
}

/// The records that touches owe to another shard.
fn owed_records(
    alloc: Global,
    schema: &Schema,
    touches: &[Touch],
) -> Result<Vec<JobEdge>, AllocError>
    ensures { IfOk result (λ owed. owed.items ≡ filter_map (owed_record (types_of schema.now)) touches.now) }
{
    let mut owed = Vec::new(alloc);
    for touch in touches {
        add_owed(&mut owed, schema, touch)?;
    }
    Ok(owed)
}

/// What an entry owes to another shard.
pub fn far_job(alloc: Global, schema: &Schema, entry: &Entry) -> Result<Option<Job>, AllocError>
    requires position { IsPosition entry.now.position }
    requires stamps { HaveSmallStamps entry.now.touches }
    ensures job { IfOk result (λ job. job ≡ job_for (types_of schema.now) entry.now) }
    ensures position { IfOk result (λ job. IfSome job (λ j. j.position ≡ entry.now.position)) }
    ensures given { IfOk result (λ job. IfSome job IsGivenJob) }
{
    let owed = owed_records(alloc, schema, entry.touches.as_slice())?;
    if owed.is_empty() {
        return Ok(None);
    }
    Ok(Some(Job {
        position: entry.position,
        edges: JobEdges::of(owed),
    }))
}
