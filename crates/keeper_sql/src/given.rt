//! What a keeper may hand out: rows are held to it.
ghost use Rattle.std.specs.Prelude.{◌≡◌, ◌<◌, ◌≤◌, All, IfOk, IsTrue, length};
ghost use Rattle.graph_model.specs.Edges.{number_of, state_left};
ghost use Rattle.tao_keeper.specs.Given.{AreGiven, IsGivenEntry, IsGivenJob, IsGivenRole, IsPosition};
ghost use Rattle.tao_base.specs.Stamps.{stamp_of};

use crate::order::is_in_list_order;
use tao_base::{Change, Edge, EdgeState, Edges, Entry};
use tao_keeper::{
    EPOCH_LIMIT, Job, KeepFail, MOST_ENTRIES, REGION_LIMIT, SERIAL_LIMIT, STAMP_LIMIT,
};

/// A number of entries, which is no greater than a log has.
pub(crate) fn few(count: u64) -> Result<u64, KeepFail>
    ensures { IfOk result (λ n. (n ≡ count) × (n ≤ MOST_ENTRIES)) }
{
    if count <= MOST_ENTRIES {
        Ok(count)
    } else {
        Err(KeepFail::Failed)
    }
}

/// Whether a log has that position.
fn is_position(n: u64) -> bool
    ensures { IsTrue result → IsPosition n }
{
    0 < n && n <= MOST_ENTRIES
}

/// A position of a log.
pub(crate) fn position(n: u64) -> Result<u64, KeepFail>
    ensures { IfOk result (λ position. (position ≡ n) × IsPosition position) }
{
    if is_position(n) {
        Ok(n)
    } else {
        Err(KeepFail::Failed)
    }
}

/// A serial.
pub(crate) fn serial(n: u64) -> Result<u64, KeepFail>
    ensures { IfOk result (λ serial. (serial ≡ n) × (serial < SERIAL_LIMIT)) }
{
    if n < SERIAL_LIMIT {
        Ok(n)
    } else {
        Err(KeepFail::Failed)
    }
}

/// An epoch and a master region, which are no greater than promotions and configurations make them.
pub(crate) fn role(epoch: u64, master: u16) -> Result<(u64, u16), KeepFail>
    ensures { IfOk result (λ role. (role ≡ (epoch, master)) × IsGivenRole role) }
{
    if epoch <= EPOCH_LIMIT && master < REGION_LIMIT {
        Ok((epoch, master))
    } else {
        Err(KeepFail::Failed)
    }
}

/// A record whose stamp is small enough.
pub(crate) fn state(found: EdgeState) -> Result<EdgeState, KeepFail>
    ensures { IfOk result (λ given. (given ≡ found) × ((stamp_of given).number < STAMP_LIMIT)) }
{
    if found.stamp().number < STAMP_LIMIT {
        Ok(found)
    } else {
        Err(KeepFail::Failed)
    }
}

/// The number of the stamp that a change leaves, 0 where it leaves no record.
fn number_left(change: &Change) -> u64
    ensures { result ≡ number_of (state_left change.now) }
{
    match change {
        Change::SetEdge { edge, .. } => edge.stamp.number,
        Change::CutEdge { stamp, .. } => stamp.number,
        Change::PutObject(_) => 0,
        Change::DropObject => 0,
    }
}

fn is_given_entry(entry: &Entry) -> bool
    ensures { IsTrue result → IsGivenEntry entry.now }
{
    let touches = entry.touches.as_slice();
    is_position(entry.position)
        && touches.iter().all(|touch| touch.version <= MOST_ENTRIES)
        && touches
            .iter()
            .all(|touch| number_left(&touch.change) < STAMP_LIMIT)
}

/// The entry, where it stands at that position and may be handed out.
pub(crate) fn entry(entry: Entry, position: u64) -> Result<Entry, KeepFail>
    ensures same { IfOk result (λ given. (given ≡ entry) × IsGivenEntry given) }
    ensures at { IfOk result (λ given. given.position ≡ position) }
{
    if entry.position == position && is_given_entry(&entry) {
        Ok(entry)
    } else {
        Err(KeepFail::Failed)
    }
}

fn is_given_job(job: &Job) -> bool
    ensures { IsTrue result → IsGivenJob job.now }
{
    let edges = job.edges.as_slice();
    is_position(job.position)
        && !edges.is_empty()
        && edges.iter().all(|edge| edge.3.stamp().number < STAMP_LIMIT)
}

/// The job, where it is of that position and may be handed out.
pub(crate) fn job(job: Job, position: u64) -> Result<Job, KeepFail>
    ensures { IfOk result (λ given. (given ≡ job) × IsGivenJob given) }
{
    if job.position == position && is_given_job(&job) {
        Ok(job)
    } else {
        Err(KeepFail::Failed)
    }
}

/// Whether there are no more edges than that, and all stamps are small enough.
fn are_bounded(edges: &[Edge], most: u64) -> bool
    ensures { IsTrue result → (length edges.now ≤ most) × All (λ e. e.stamp.number < STAMP_LIMIT) edges.now }
{
    edges.len() as u64 <= most && edges.iter().all(|edge| edge.stamp.number < STAMP_LIMIT)
}

fn are_given(edges: &Vec<Edge>, most: u64) -> Result<bool, KeepFail>
    ensures { IfOk result (λ yes. IsTrue yes → AreGiven most edges.now.items) }
{
    if are_bounded(edges, most) {
        Ok(is_in_list_order(*edges.allocator(), edges)?)
    } else {
        Ok(false)
    }
}

/// The edges, where they may be handed out for so many that were asked for. Takes a look-up for each among the ids of those behind it.
pub(crate) fn edges(edges: Vec<Edge>, most: u64) -> Result<Edges, KeepFail>
    ensures { IfOk result (λ given. (given ≡ edges.items) × AreGiven most given) }
{
    if are_given(&edges, most)? {
        Ok(Edges::of(edges))
    } else {
        Err(KeepFail::Failed)
    }
}
