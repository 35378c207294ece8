//! Entries, data and jobs as bytes.
use entry_codec::{EntryRefusal, Spelled, decode_data};
use std::alloc::Global;
use tao_base::{Bytes, Change, Data, Edge, EdgeState, Entry, Key, Kind, Origin, Touch, Touches};
use tao_keeper::{Job, JobEdge, JobEdges, KeepFail};

fn fail_of(refusal: EntryRefusal) -> KeepFail {
    match refusal {
        EntryRefusal::BadEntry { .. } => KeepFail::Failed,
        EntryRefusal::OutOfMemory => KeepFail::OutOfMemory,
    }
}

/// The entry that the bytes spell.
pub(crate) fn entry_of(alloc: Global, bytes: &[u8]) -> Result<Entry, KeepFail> {
    match Entry::decode(alloc, bytes) {
        Ok(entry) => Ok(entry),
        Err(refusal) => Err(fail_of(refusal)),
    }
}

/// The data that the bytes spell.
pub(crate) fn data_of(alloc: Global, bytes: &[u8]) -> Result<Data, KeepFail> {
    match decode_data(alloc, bytes) {
        Ok(payload) => Ok(payload),
        Err(refusal) => Err(fail_of(refusal)),
    }
}

/// What a record of a job would be set or cut by. The versions are no keys' own.
fn touch_of(edge: &JobEdge) -> Result<Touch, KeepFail> {
    let change = match &edge.3 {
        EdgeState::Live {
            time,
            payload,
            stamp,
        } => Change::SetEdge {
            edge: Edge {
                id2: edge.2,
                time: *time,
                payload: payload.clone()?,
                stamp: *stamp,
            },
            was: None,
        },
        EdgeState::Cut { stamp } => Change::CutEdge {
            id2: edge.2,
            stamp: *stamp,
            was: None,
        },
    };
    Ok(Touch {
        key: Key::List(edge.0, edge.1),
        change,
        version: 1,
    })
}

/// A job's records are spelled as the entry that merges them at the other end.
pub(crate) fn job_bytes(alloc: Global, shard: u16, job: &Job) -> Result<Bytes, KeepFail> {
    let mut touches = Vec::new(alloc);
    for edge in job.edges.as_slice() {
        touches.push(touch_of(edge)?)?;
    }
    let entry = Entry {
        position: job.position,
        kind: Kind::Merge,
        origin: Origin::Merge {
            shard,
            position: job.position,
        },
        touches: Touches::of(touches),
    };
    Ok(entry.encode(alloc)?)
}

fn edge_of(touch: &Touch) -> Result<JobEdge, KeepFail> {
    let Key::List(id1, atype) = touch.key else {
        return Err(KeepFail::Failed);
    };
    match &touch.change {
        Change::SetEdge { edge, .. } => Ok((
            id1,
            atype,
            edge.id2,
            EdgeState::Live {
                time: edge.time,
                payload: edge.payload.clone()?,
                stamp: edge.stamp,
            },
        )),
        Change::CutEdge { id2, stamp, .. } => {
            Ok((id1, atype, *id2, EdgeState::Cut { stamp: *stamp }))
        }
        _ => Err(KeepFail::Failed),
    }
}

/// The job whose records the bytes spell.
pub(crate) fn job_of(alloc: Global, bytes: &[u8]) -> Result<Job, KeepFail> {
    let entry = entry_of(alloc, bytes)?;
    let mut edges = Vec::new(alloc);
    for touch in entry.touches.as_slice() {
        edges.push(edge_of(touch)?)?;
    }
    Ok(Job {
        position: entry.position,
        edges: JobEdges::of(edges),
    })
}
