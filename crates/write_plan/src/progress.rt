//! How far the two ends of a write have come, and what that makes of its next stage and its reply.
ghost use Rattle.std.specs.Prelude.{◌≡◌, ◌⊎◌, IsSome, Some};
ghost use Rattle.write_plan.specs.Plans.{has_other, inverse_said, reply_after, reply_by, stage_after, written_by};

use crate::committed::Committed;
use crate::stage::WriteStage;
use replies::{CallReply, InverseEnd, Reply, ScheduledWhy, WriteReply, Written};
use tao_base::Entry;

/// How far the job of a write has come.
#[derive(Clone, Copy, PartialEq, Eq)]
pub enum OtherEnd {
    /// It is to be merged.
    Due,
    /// It is merged, and to be removed.
    Merged,
    /// It is removed.
    Ended,
    /// It stays open, for that reason.
    Open { why: ScheduledWhy },
}

/// How far a write has come on the way back to its follower.
#[derive(Clone, Copy, PartialEq, Eq)]
pub enum WayBack {
    Ahead,
    /// The leader of a slave region took the changes.
    Relayed,
    /// The follower took the changes.
    Applied,
}

/// The stage after a commit.
pub(crate) fn stage_after(committed: &Committed, job: OtherEnd, back: WayBack) -> WriteStage
    ensures { result ≡ stage_after committed.now job back }
{
    if committed.wrote.job.is_some() {
        match job {
            OtherEnd::Due => return WriteStage::Inverse,
            OtherEnd::Merged => return WriteStage::End,
            OtherEnd::Ended | OtherEnd::Open { .. } => {}
        }
    }
    match back {
        WayBack::Ahead if committed.passed.is_some() => WriteStage::Relay,
        WayBack::Ahead | WayBack::Relayed => WriteStage::Apply,
        WayBack::Applied => WriteStage::Done,
    }
}

/// Whether the edge that was written has another end.
fn has_other(committed: &Committed) -> bool
    ensures { result ≡ has_other committed.now }
{
    committed.wrote.job.is_some() || committed.paired
}

/// What became of the inverse of an edge that was written, which has another end or not.
fn inverse_said(other: bool, job: OtherEnd) -> InverseEnd
    ensures { result ≡ inverse_said other job }
{
    match job {
        OtherEnd::Open { why } => InverseEnd::Scheduled { why },
        _ if other => InverseEnd::Written,
        _ => InverseEnd::None,
    }
}

/// What was written.
fn written_by(retry: bool, said: InverseEnd, entry: &Option<Entry>) -> Written
    ensures { result ≡ written_by retry said entry.now }
{
    match entry {
        None => Written {
            changed: false,
            inverse: InverseEnd::None,
            position: 0,
            retry,
        },
        Some(entry) => Written {
            changed: true,
            inverse: said,
            position: entry.position,
            retry,
        },
    }
}

/// The reply to a write that was carried out.
fn reply_after(committed: &Committed, job: OtherEnd, hops: u64) -> Reply
    ensures { result ≡ reply_after committed.now job hops }
{
    let said = inverse_said(has_other(committed), job);
    Reply::Called(CallReply::Write(WriteReply {
        kind: committed.kind,
        written: written_by(committed.wrote.retry, said, &committed.wrote.entry),
        hops,
    }))
}

/// The reply that refused a write, or else the reply to what was carried out.
pub(crate) fn reply_by(
    refused: Option<Reply>,
    committed: &Option<Committed>,
    job: OtherEnd,
    hops: u64,
) -> Reply
    requires { IsSome refused ⊎ IsSome committed.now }
    ensures { reply_by refused committed.now job hops ≡ Some result }
{
    match refused {
        Some(reply) => reply,
        None => match committed {
            Some(committed) => reply_after(committed, job, hops),
            None => unreachable!(),
        },
    }
}
