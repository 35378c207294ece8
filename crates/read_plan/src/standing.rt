//! Where a read stands between two stages.
ghost use Rattle.std.specs.Prelude.{◌≡◌, true, IfSome, Some, None, is_some};
ghost use Rattle.read_plan.specs.Standings.{
  IsAnsweredFrom,
  after_ask,
  after_given,
  after_keep,
  after_look,
  after_master,
  came_of,
  fill_of,
  has_fill,
  is_fill,
  standing_note,
  stage_of,
  standing_after,
  without_fill,
  without_note,
};

use crate::end::ReadEnd;
use crate::keeping::{kept_or_not, past_bound};
use crate::stages::{ReadResult, ReadStage};
use cache_items::{Kept, Look};
use replies::{KeptOrNot, Reply};
use sealed_item::Fill;
use shard_log::Note;
use shard_tables::{LeaderAnswer, ReadOut};
use std::mem;
use tao_base::Answer;

/// What was given to a read that its follower could not answer.
#[derive(Drop)]
pub enum Given {
    /// A fill, from which the follower is to answer.
    Fill(Fill),
    /// The fill was handed out; it was of this version.
    HandedOut {
        version: u64,
    },
    /// No first edges of the list within the bound of its type decide the query: the answer, with the list's version and
    /// length, and until it is handed out a note of the log.
    Past {
        answer: Answer,
        version: u64,
        total: u64,
        note: Option<Note>,
    },
}

/// Where a read stands: the stage that follows, with what it needs for it.
#[derive(Drop)]
pub enum Standing {
    Looking,
    Asking,
    Mastering,
    Keeping(Given),
    Ended(ReadEnd),
}

impl Standing {
    /// The stage that follows.
    pub(crate) fn stage(&self) -> ReadStage
        ensures { result ≡ stage_of self.now }
    {
        match self {
            Standing::Looking => ReadStage::Look,
            Standing::Asking => ReadStage::Ask,
            Standing::Mastering => ReadStage::Master,
            Standing::Keeping(_) => ReadStage::Keep,
            Standing::Ended(_) => ReadStage::Done,
        }
    }

    /// Whether the follower is to answer from a fill.
    pub(crate) fn has_fill(&self) -> bool
        ensures { result ≡ has_fill self.now }
    {
        match self {
            Standing::Keeping(given) => !matches!(given, Given::Past { .. }),
            _ => false,
        }
    }

    /// Hands out the fill that is there, and keeps its version.
    pub(crate) fn hand_fill(&mut self) -> Option<Fill>
        ensures fill { result ≡ fill_of self.old }
        ensures left { has_fill self.new ≡ has_fill self.old }
        ensures some { IfSome result (λ _. has_fill self.old ≡ true) }
        ensures stage { stage_of self.new ≡ stage_of self.old }
        ensures handed { self.new ≡ without_fill self.old }
    {
        match mem::replace(self, Standing::Looking) {
            Standing::Keeping(Given::Fill(fill)) => {
                let version = fill.version();
                put(self, Standing::Keeping(Given::HandedOut { version }));
                Some(fill)
            }
            other => {
                put(self, other);
                None
            }
        }
    }

    /// Hands out the note that is there.
    pub(crate) fn hand_note(&mut self) -> Option<Note>
        ensures note { result ≡ standing_note self.old }
        ensures handed { self.new ≡ without_note self.old }
        ensures left { has_fill self.new ≡ has_fill self.old }
        ensures stage { stage_of self.new ≡ stage_of self.old }
    {
        match self {
            Standing::Keeping(Given::Past { note, .. }) => note.take(),
            _ => None,
        }
    }
}

/// Takes a read on after a stage that came to this.
pub(crate) fn advance(at: &mut Standing, outcome: ReadResult, critical: bool, bound: u64)
    requires stage { came_of outcome ≡ stage_of at.old }
    requires answered { IsAnsweredFrom at.old outcome }
    ensures { at.new ≡ standing_after critical bound at.old outcome }
{
    let next = standing_after(at, outcome, critical, bound);
    put(at, next);
}

/// Puts a value in the place of another, which is dropped.
fn put<T: Drop>(place: &mut T, value: T)
    ensures { place.new ≡ value }
{
    *place = value;
}

/// Where a read stands after a stage that came to this. Takes out what was given, where the stage kept it.
fn standing_after(at: &mut Standing, outcome: ReadResult, critical: bool, bound: u64) -> Standing
    requires stage { came_of outcome ≡ stage_of at.old }
    requires answered { IsAnsweredFrom at.old outcome }
    ensures { result ≡ standing_after critical bound at.old outcome }
{
    match outcome {
        ReadResult::Look(Ok(look)) => after_look(critical, look),
        ReadResult::Ask(Ok(answer)) => after_ask(answer),
        ReadResult::Master(Ok(out)) => after_master(out),
        ReadResult::Keep(Ok(found)) => after_keep(bound, at, found),
        ReadResult::Look(Err(reply)) => refused(reply),
        ReadResult::Ask(Err(reply)) => refused(reply),
        ReadResult::Master(Err(reply)) => refused(reply),
        ReadResult::Keep(Err(reply)) => refused(reply),
    }
}

fn refused(reply: Reply) -> Standing
    ensures { result ≡ Standing.Ended (ReadEnd.Refused reply) }
{
    Standing::Ended(ReadEnd::Refused(reply))
}

fn answered(answer: Answer, version: u64, kept: KeptOrNot) -> Standing
    ensures { result ≡ Standing.Ended (ReadEnd.Answered answer version kept) }
{
    Standing::Ended(ReadEnd::Answered {
        answer,
        version,
        kept,
    })
}

/// A critical read is never answered by its follower.
fn after_look(critical: bool, look: Look) -> Standing
    ensures { result ≡ after_look critical look }
{
    if critical {
        drop(look);
        return Standing::Mastering;
    }
    match look {
        Look::Hit { answer, version } => answered(answer, version, KeptOrNot::Kept),
        Look::Miss => Standing::Asking,
    }
}

fn after_ask(answer: LeaderAnswer) -> Standing
    ensures { result ≡ after_ask answer }
{
    match answer {
        LeaderAnswer::Filled(fill) => Standing::Keeping(Given::Fill(fill)),
        LeaderAnswer::Past {
            answer,
            version,
            total,
            note,
        } => Standing::Keeping(Given::Past {
            answer,
            version,
            total,
            note: Some(note),
        }),
        LeaderAnswer::Behind { .. } => Standing::Mastering,
    }
}

fn after_master(out: ReadOut) -> Standing
    ensures { result ≡ after_master out }
{
    match out {
        ReadOut::Filled(fill) => Standing::Keeping(Given::Fill(fill)),
        ReadOut::Past {
            answer,
            version,
            total,
            note,
        } => Standing::Keeping(Given::Past {
            answer,
            version,
            total,
            note: Some(note),
        }),
    }
}

fn after_keep(bound: u64, at: &mut Standing, found: Option<(Answer, Kept)>) -> Standing
    requires stage { stage_of at.old ≡ ReadStage.Keep }
    requires answered { has_fill at.old ≡ is_some found }
    ensures { result ≡ after_keep bound at.old found }
{
    match mem::replace(at, Standing::Looking) {
        Standing::Keeping(given) => after_given(bound, given, found),
        _ => unreachable!(),
    }
}

fn after_given(bound: u64, given: Given, found: Option<(Answer, Kept)>) -> Standing
    requires { is_fill given ≡ is_some found }
    ensures { result ≡ after_given bound given found }
{
    match (given, found) {
        (Given::Fill(fill), Some((answer, kept))) => {
            let version = fill.version();
            drop(fill);
            answered(answer, version, kept_or_not(kept))
        }
        (Given::HandedOut { version }, Some((answer, kept))) => {
            answered(answer, version, kept_or_not(kept))
        }
        (
            Given::Past {
                answer,
                version,
                total,
                ..
            },
            None,
        ) => answered(answer, version, past_bound(bound, total)),
        _ => unreachable!(),
    }
}
