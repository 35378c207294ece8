//! What a read takes of a stage, and its note sees with it.
ghost use Rattle.std.specs.Prelude.{◌≡◌, IfErr, IfOk, IfSome, false, true};
ghost use Rattle.cluster_reads.specs.Reads.{IsHandedOut, IsKeptSo, IsPastAt, IsReadOf, EndsFor, StandsAfter, StepsRead};
ghost use Rattle.cluster_reads.specs.Reads.{answered_in, asked_by, wanted_by};
ghost use Rattle.core_model.specs.Reads.{IsRightAnswer, given_of, wanted};
ghost use Rattle.locked_nodes.specs.Begun.{Begun};
ghost use Rattle.locked_nodes.specs.Replies.{RepliesRefused};
ghost use Rattle.log_names.specs.Names.{IsOfLog};
ghost use Rattle.read_plan.specs.Keeping.{kept_or_not};
ghost use Rattle.read_plan.specs.Standings.{stage_of};
ghost use Rattle.read_plan.specs.declared.stages.ReadStage.TheVariants as stage;
ghost use Rattle.shard_log.specs.GrowthLaws.{IsLegalIn};
ghost use Rattle.shard_log.specs.View.{Grows};
ghost use Rattle.locked_nodes.specs.shared_nodes.Nodes.{IsLegalHit};
ghost use Rattle.shared_stores.specs.PastBound.{IsUndecidedGiven};
ghost use Rattle.tao_base.specs.Queries.{query_shard};
ghost use Rattle.tao_schema.specs.Schema.{types_of};

use ask_table::AskNo;
use cache_items::{Kept, Look};
use locked_nodes::shared_nodes::{SharedKept, SharedLook};
use locked_nodes::{Asked, Mastered};
use read_plan::{ReadPlan, ReadResult};
use replies::Reply;
use shard_log::Note;
use shared_stores::Sharing;
use store_replies::out_of_memory;
use tao_base::{Answer, OutOfMemory};

/// A read on its way, and a note of all that its pass and its stages have seen of its shard's log.
#[derive(Drop)]
pub(crate) struct OpenRead {
    pub(crate) plan: ReadPlan,
    pub(crate) seen: Note,
}

/// Takes what a look found.
pub(crate) fn take_look<J: Sharing>(read: &mut OpenRead, looked: Result<SharedLook, OutOfMemory>)
    ghost begun: { Begun }
    requires read { IsReadOf J.making J.log begun read.old.seen read.old.plan }
    requires stage { stage_of read.old.plan.at ≡ stage.Look }
    requires plain { read.old.plan.critical ≡ false }
    requires note { IfOk looked (λ found. IsOfLog J.log (query_shard read.old.plan.query) found.note) }
    requires legal { IfOk looked (λ found.
        IsLegalHit (types_of J.making.settings.schema) found.note (wanted read.old.plan.query read.old.plan.floor) found.look) }
    ensures steps { StepsRead J.making J.log begun read.new.seen 0 read.old.plan read.new.plan }
    ensures refused { EndsFor ⊥ ⊥ read.new.plan.at }
{
    match looked {
        Ok(found) => take_found::<J>(read, found),
        Err(OutOfMemory) => read
            .plan
            .take(ReadResult::Look(Err(out_of_memory())), 0, false),
    }
}

/// Takes what the follower found, in whose note a hit is legal.
fn take_found<J: Sharing>(read: &mut OpenRead, found: SharedLook)
    ghost begun: { Begun }
    requires read { IsReadOf J.making J.log begun read.old.seen read.old.plan }
    requires stage { stage_of read.old.plan.at ≡ stage.Look }
    requires plain { read.old.plan.critical ≡ false }
    requires note { IsOfLog J.log (query_shard read.old.plan.query) found.note }
    requires legal { IsLegalHit (types_of J.making.settings.schema) found.note (wanted read.old.plan.query read.old.plan.floor) found.look }
    ensures steps { StepsRead J.making J.log begun read.new.seen 0 read.old.plan read.new.plan }
    ensures refused { EndsFor ⊥ ⊥ read.new.plan.at }
{
    let SharedLook { look, ask, note } = found;
    read.seen.meet(note);
    read.plan.set_ask(ask);
    read.plan.take(ReadResult::Look(Ok(look)), 0, false);
}

/// Takes the ask of a critical read, which its follower doesn't answer.
pub(crate) fn take_ask<J: Sharing>(read: &mut OpenRead, ask: Option<AskNo>)
    ghost begun: { Begun }
    requires read { IsReadOf J.making J.log begun read.old.seen read.old.plan }
    requires stage { stage_of read.old.plan.at ≡ stage.Look }
    requires critical { read.old.plan.critical ≡ true }
    ensures steps { StepsRead J.making J.log begun read.new.seen 0 read.old.plan read.new.plan }
    ensures refused { EndsFor ⊥ ⊥ read.new.plan.at }
{
    read.plan.set_ask(ask);
    read.plan.take(ReadResult::Look(Ok(Look::Miss)), 0, false);
}

/// Takes what a leader gave, after so many carries.
pub(crate) fn take_asked<J: Sharing>(read: &mut OpenRead, asked: Result<Asked, Reply>, hops: u64)
    ghost begun: { Begun }
    requires read { IsReadOf J.making J.log begun read.old.seen read.old.plan }
    requires stage { stage_of read.old.plan.at ≡ stage.Ask }
    requires given { IfOk asked (λ asked. IsRightAnswer (types_of J.making.settings.schema) (IsOfLog J.log)
        (wanted read.old.plan.query read.old.plan.floor) asked.given) }
    requires past { IfOk asked (λ asked. IsUndecidedGiven (types_of J.making.settings.schema) read.old.plan.query asked.given) }
    ensures steps { StepsRead J.making J.log begun read.new.seen hops read.old.plan read.new.plan }
    ensures after { StandsAfter asked read.new.plan.at }
{
    match asked {
        Ok(came) => {
            let Asked { given, store } = came;
            read.plan.take(ReadResult::Ask(Ok(given)), hops, store);
        }
        Err(reply) => read.plan.take(ReadResult::Ask(Err(reply)), hops, false),
    }
}

/// Takes what the master's store read, after so many carries.
pub(crate) fn take_out<J: Sharing>(read: &mut OpenRead, out: Result<Mastered, Reply>, hops: u64)
    ghost begun: { Begun }
    requires read { IsReadOf J.making J.log begun read.old.seen read.old.plan }
    requires stage { stage_of read.old.plan.at ≡ stage.Master }
    requires given { IfOk out (λ read_out. IsRightAnswer (types_of J.making.settings.schema) (IsOfLog J.log)
        (wanted_by begun (asked_by read.old.plan)) (given_of read_out.out)) }
    requires past { IfOk out (λ read_out. IsUndecidedGiven (types_of J.making.settings.schema) read.old.plan.query (given_of read_out.out)) }
    ensures steps { StepsRead J.making J.log begun read.new.seen hops read.old.plan read.new.plan }
    ensures after { StandsAfter out read.new.plan.at }
{
    match out {
        Ok(mastered) => {
            let Mastered { out, store } = mastered;
            read.plan.take(ReadResult::Master(Ok(out)), hops, store);
        }
        Err(reply) => read.plan.take(ReadResult::Master(Err(reply)), hops, false),
    }
}

/// A note sees what a fill's note and the follower's have seen. Hands out what was answered.
pub(crate) fn see_kept(seen: &mut Note, of_fill: Note, kept: SharedKept) -> (Answer, Kept)
    requires fill { seen.old.log ≡ of_fill.log }
    requires note { seen.old.log ≡ kept.note.log }
    ensures grows { Grows seen.old seen.new }
    ensures fill { Grows of_fill seen.new }
    ensures note { Grows kept.note seen.new }
    ensures answer { result.0 ≡ kept.answer }
    ensures kept { result.1 ≡ kept.kept }
{
    let SharedKept { answer, kept, note } = kept;
    seen.meet(note);
    seen.meet(of_fill);
    (answer, kept)
}

/// Takes what the follower answered from the fill that was handed out.
pub(crate) fn take_kept<J: Sharing>(
    read: &mut OpenRead,
    version: u64,
    came: Result<(Answer, Kept), Reply>,
)
    ghost begun: { Begun }
    requires read { IsHandedOut J.making J.log begun read.old.seen read.old.plan version }
    requires legal { IfOk came (λ r.
        IsLegalIn (types_of J.making.settings.schema) read.old.seen read.old.plan.query read.old.plan.floor r.0 version) }
    requires kept { IfOk came (λ r.
        IsKeptSo (answered_in (types_of J.making.settings.schema) read.old.seen (asked_by read.old.plan) version) (kept_or_not r.1)) }
    requires err { IfErr came (RepliesRefused ⊥ ⊥) }
    ensures steps { StepsRead J.making J.log begun read.new.seen 0 read.old.plan read.new.plan }
    ensures refused { EndsFor ⊥ ⊥ read.new.plan.at }
{
    match came {
        Ok(found) => read.plan.take(ReadResult::Keep(Ok(Some(found))), 0, false),
        Err(reply) => read.plan.take(ReadResult::Keep(Err(reply)), 0, false),
    }
}

/// Takes an answer that was given past the bound, which is legal in its note.
pub(crate) fn take_past<J: Sharing>(read: &mut OpenRead)
    ghost begun: { Begun }
    requires read { IsReadOf J.making J.log begun read.old.seen read.old.plan }
    requires past { IsPastAt read.old.plan.at }
    ensures steps { StepsRead J.making J.log begun read.new.seen 0 read.old.plan read.new.plan }
    ensures refused { EndsFor ⊥ ⊥ read.new.plan.at }
{
    let Some(note) = read.plan.note() else {
        unreachable!();
    };
    read.seen.meet(note);
    read.plan.take(ReadResult::Keep(Ok(None)), 0, false);
}
