//! The reads of sessions.
ghost use Rattle.std.specs.Prelude.{ℕ, ◌≡◌, ◌≢◌, ◌≤◌, ◌<◌, ◌-◌, IfErr, IfOk, Some, length, slice_get, true, false};
ghost use Rattle.cluster_reads.specs.Reads.{EndsRead, IsBegunRead, IsKeptSo, IsReadOf, EndsFor, RepliesToRead, StepsRead};
ghost use Rattle.cluster_reads.specs.Reads.{answered_in, asked_by, asked_with, wanted_by};
ghost use Rattle.counts.specs.Count.{Rose};
ghost use Rattle.core_model.specs.Reads.{IsRightAnswer, IsRightFill, given_of, wanted};
ghost use Rattle.core_model.specs.Serving.{IsFollowerFor, IsLeaderFor};
ghost use Rattle.locked_nodes.specs.Begun.{Begun, begun};
ghost use Rattle.locked_nodes.specs.Passes.{IsPassOf, PassGoesOn};
ghost use Rattle.locked_nodes.specs.Cluster.{MayFail, on_cluster};
ghost use Rattle.locked_nodes.specs.Replies.{RepliesRefused};
ghost use Rattle.log_names.specs.Names.{IsOfLog};
ghost use Rattle.read_plan.specs.Keeping.{kept_or_not};
ghost use Rattle.read_plan.specs.Standings.{has_fill, stage_of};
ghost use Rattle.read_plan.specs.declared.stages.ReadStage.TheVariants as stage;
ghost use Rattle.session_pass.specs.Passes.{ReachesIn};
ghost use Rattle.shard_log.specs.GrowthLaws.{IsLegalIn};
ghost use Rattle.shard_log.specs.View.{Grows, View};
ghost use Rattle.locked_nodes.specs.shared_nodes.Nodes.{IsLegalHit};
ghost use Rattle.shared_stores.specs.PastBound.{IsUndecidedGiven};
ghost use Rattle.tao_base.specs.Queries.{query_key, query_shard};
ghost use Rattle.tao_schema.specs.Schema.{types_of};

use crate::learning::{learn_told, version_told};
use crate::taking::{
    OpenRead, see_kept, take_ask, take_asked, take_kept, take_look, take_out, take_past,
};
use cache_items::Kept;
use core_model::Wanted;
use locked_nodes::core_nodes::{master_store, region_store};
use locked_nodes::shared_nodes::SharedLook;
use locked_nodes::{Asked, LockedNodes, Mastered, carry_over, prepare};
use node_name::NodeName;
use read_plan::{ReadPlan, ReadStage};
use replies::Reply;
use sealed_item::Fill;
use session_pass::Pass;
use shard_log::Note;
use shared_stores::Sharing;
use std::sync::Wait;
use store_replies::out_of_memory;
use tao_base::{Answer, OutOfMemory, Query};
use tao_keeper::Keeper;
use tao_link::Link;

/// A read of a session that is begun, at the floor of its pass. Takes no memory.
pub fn begin_read<K: Keeper, J: Sharing>(
    nodes: &LockedNodes<'_, K, J>,
    pass: &Pass,
    query: Query,
    critical: bool,
) -> ReadPlan
    requires pass { IsPassOf J.making J.log pass.now }
    requires here { query_shard query < J.making.settings.shards }
    ensures { IsBegunRead J.making pass.now query critical result }
{
    let follower = nodes.follower_for(pass.region(), pass.tier(), query.shard());
    let floor = pass.floor(query.key());
    let bound = nodes.schema().bound_of(&query.key());
    let mut plan = ReadPlan::begin(query, pass.region(), pass.tier(), floor, critical, follower);
    plan.set_bound(bound);
    plan
}

/// The stage `look` of a read.
fn look_stage<K: Keeper, J: Sharing, R: Wait>(
    nodes: &LockedNodes<'_, K, J>,
    rt: &R,
    read: &mut OpenRead,
)
    ghost begun: { Begun }
    requires read { IsReadOf J.making J.log begun read.old.seen read.old.plan }
    requires stage { stage_of read.old.plan.at ≡ stage.Look }
    ensures steps { StepsRead J.making J.log begun read.new.seen 0 read.old.plan read.new.plan }
    ensures refused { EndsFor ⊥ ⊥ read.new.plan.at }
{
    if read.plan.is_critical() {
        look_past(nodes, rt, read);
    } else {
        look_first(nodes, rt, read);
    }
}

/// The stage `look` of a critical read: its follower isn't to answer.
fn look_past<K: Keeper, J: Sharing, R: Wait>(
    nodes: &LockedNodes<'_, K, J>,
    rt: &R,
    read: &mut OpenRead,
)
    ghost begun: { Begun }
    requires read { IsReadOf J.making J.log begun read.old.seen read.old.plan }
    requires stage { stage_of read.old.plan.at ≡ stage.Look }
    requires critical { read.old.plan.critical ≡ true }
    ensures steps { StepsRead J.making J.log begun read.new.seen 0 read.old.plan read.new.plan }
    ensures refused { EndsFor ⊥ ⊥ read.new.plan.at }
{
    let ask = nodes.ask_at_once(rt, read.plan.follower(), read.plan.query());
    take_ask::<J>(read, ask);
}

/// The stage `look` of a read that isn't critical.
fn look_first<K: Keeper, J: Sharing, R: Wait>(
    nodes: &LockedNodes<'_, K, J>,
    rt: &R,
    read: &mut OpenRead,
)
    ghost begun: { Begun }
    requires read { IsReadOf J.making J.log begun read.old.seen read.old.plan }
    requires stage { stage_of read.old.plan.at ≡ stage.Look }
    requires plain { read.old.plan.critical ≡ false }
    ensures steps { StepsRead J.making J.log begun read.new.seen 0 read.old.plan read.new.plan }
    ensures refused { EndsFor ⊥ ⊥ read.new.plan.at }
{
    let looked = look_at(nodes, rt, &read.plan);
    take_look::<J>(read, looked);
}

/// Lets the read's follower look.
fn look_at<K: Keeper, J: Sharing, R: Wait>(
    nodes: &LockedNodes<'_, K, J>,
    rt: &R,
    plan: &ReadPlan,
) -> Result<SharedLook, OutOfMemory>
    requires serves { IsFollowerFor J.making.settings (query_shard plan.now.query) plan.now.follower }
    ensures note { IfOk result (λ found. IsOfLog J.log (query_shard plan.now.query) found.note) }
    ensures legal { IfOk result (λ found.
        IsLegalHit (types_of J.making.settings.schema) found.note (wanted plan.now.query plan.now.floor) found.look) }
{
    let (query, floor) = (plan.query(), plan.floor());
    let read = Wanted { query, floor };
    nodes.look(rt, plan.follower(), &read)
}

/// Ends the ask of a read, where a stage gave it nothing.
fn end_refused<K: Keeper, J: Sharing, R: Wait, T>(
    nodes: &LockedNodes<'_, K, J>,
    rt: &R,
    plan: &ReadPlan,
    came: &Result<T, Reply>,
) {
    if came.is_err() {
        nodes.end_ask(rt, plan.follower(), plan.ask());
    }
}

/// The stage `ask` of a read: its question goes over the link to the leader that the region prefers, and what that gives comes back.
fn ask_stage<K: Keeper, J: Sharing, R: Wait, L: Link>(
    nodes: &LockedNodes<'_, K, J>,
    rt: &R,
    link: &mut L,
    read: &mut OpenRead,
)
    ghost begun: { Begun }
    requires read { IsReadOf J.making J.log begun read.old.seen read.old.plan }
    requires stage { stage_of read.old.plan.at ≡ stage.Ask }
    ensures steps { StepsRead J.making J.log begun read.new.seen ((L.shown link.new).carries - (L.shown link.old).carries)
        read.old.plan read.new.plan }
    ensures carries { (L.shown link.old).carries ≤ (L.shown link.new).carries }
    ensures later { (L.shown link.old).faults ≤ (L.shown link.new).faults }
    ensures refused { EndsFor (Rose (L.shown link.old).faults (L.shown link.new).faults) (MayFail K.state) read.new.plan.at }
{
    let carries = link.carries();
    let asked = ask_over(nodes, rt, link, &read.plan);
    end_refused(nodes, rt, &read.plan, &asked);
    let hops = link.carries().saturating_sub(carries);
    take_asked::<J>(read, asked, hops);
}

/// Asks the leader over the link.
fn ask_over<K: Keeper, J: Sharing, R: Wait, L: Link>(
    nodes: &LockedNodes<'_, K, J>,
    rt: &R,
    link: &mut L,
    plan: &ReadPlan,
) -> Result<Asked, Reply>
    requires home { plan.now.region < length J.making.settings.regions }
    requires serves { IsFollowerFor J.making.settings (query_shard plan.now.query) plan.now.follower }
    ensures given { IfOk result (λ asked. IsRightAnswer (types_of J.making.settings.schema) (IsOfLog J.log)
        (wanted plan.now.query plan.now.floor) asked.given) }
    ensures past { IfOk result (λ asked. IsUndecidedGiven (types_of J.making.settings.schema) plan.now.query asked.given) }
    ensures carries { (L.shown link.old).carries ≤ (L.shown link.new).carries }
    ensures later { (L.shown link.old).faults ≤ (L.shown link.new).faults }
    ensures err { IfErr result (RepliesRefused (Rose (L.shown link.old).faults (L.shown link.new).faults) (MayFail K.state)) }
{
    let shard = plan.query().shard();
    let leader = nodes.leader_for(plan.region(), shard);
    carry_over(link, plan.follower(), leader)?;
    let asked = ask_at(nodes, rt, leader, plan)?;
    carry_over(link, leader, plan.follower())?;
    Ok(asked)
}

/// Asks a leader, and the store of the read's region.
fn ask_at<K: Keeper, J: Sharing, R: Wait>(
    nodes: &LockedNodes<'_, K, J>,
    rt: &R,
    leader: NodeName,
    plan: &ReadPlan,
) -> Result<Asked, Reply>
    requires serves { IsLeaderFor J.making.settings (query_shard plan.now.query) leader }
    ensures given { IfOk result (λ asked. IsRightAnswer (types_of J.making.settings.schema) (IsOfLog J.log)
        (wanted plan.now.query plan.now.floor) asked.given) }
    ensures past { IfOk result (λ asked. IsUndecidedGiven (types_of J.making.settings.schema) plan.now.query asked.given) }
    ensures err { IfErr result (RepliesRefused ⊥ (MayFail K.state)) }
{
    let (query, floor) = (plan.query(), plan.floor());
    let at = region_store(plan.region(), query.shard());
    let read = Wanted { query, floor };
    nodes.ask(rt, leader, at, &read)
}

/// The stage `master` of a read: its question goes over the link to the master's store, and what that reads comes back. The read's note then has seen
/// all that the store had.
fn master_stage<K: Keeper, J: Sharing, R: Wait, L: Link>(
    nodes: &LockedNodes<'_, K, J>,
    rt: &R,
    link: &mut L,
    read: &mut OpenRead,
)
    ghost begun: { Begun }
    requires read { IsReadOf J.making J.log begun read.old.seen read.old.plan }
    requires stage { stage_of read.old.plan.at ≡ stage.Master }
    ensures steps { StepsRead J.making J.log begun read.new.seen ((L.shown link.new).carries - (L.shown link.old).carries)
        read.old.plan read.new.plan }
    ensures carries { (L.shown link.old).carries ≤ (L.shown link.new).carries }
    ensures later { (L.shown link.old).faults ≤ (L.shown link.new).faults }
    ensures refused { EndsFor (Rose (L.shown link.old).faults (L.shown link.new).faults) (MayFail K.state) read.new.plan.at }
{
    let carries = link.carries();
    let out = read_right(nodes, rt, link, read);
    end_refused(nodes, rt, &read.plan, &out);
    let hops = link.carries().saturating_sub(carries);
    take_out::<J>(read, out, hops);
}

/// Asks the master's store over the link, at the version that the read must reach. The plan stays.
fn read_right<K: Keeper, J: Sharing, R: Wait, L: Link>(
    nodes: &LockedNodes<'_, K, J>,
    rt: &R,
    link: &mut L,
    read: &mut OpenRead,
) -> Result<Mastered, Reply>
    ghost begun: { Begun }
    requires read { IsReadOf J.making J.log begun read.old.seen read.old.plan }
    requires stage { stage_of read.old.plan.at ≡ stage.Master }
    ensures read { IsReadOf J.making J.log begun read.new.seen read.new.plan }
    ensures plan { read.new.plan ≡ read.old.plan }
    ensures given { IfOk result (λ read_out. IsRightAnswer (types_of J.making.settings.schema) (IsOfLog J.log)
        (wanted_by begun (asked_by read.new.plan)) (given_of read_out.out)) }
    ensures past { IfOk result (λ read_out. IsUndecidedGiven (types_of J.making.settings.schema) read.new.plan.query (given_of read_out.out)) }
    ensures carries { (L.shown link.old).carries ≤ (L.shown link.new).carries }
    ensures later { (L.shown link.old).faults ≤ (L.shown link.new).faults }
    ensures err { IfErr result (RepliesRefused (Rose (L.shown link.old).faults (L.shown link.new).faults) (MayFail K.state)) }
{
    read_over(nodes, rt, link, &read.plan, &mut read.seen)
}

/// Asks the master's store over the link.
#[tactic(auto, using(locked_nodes::proofs::Seeing::stays_seen))]
fn read_over<K: Keeper, J: Sharing, R: Wait, L: Link>(
    nodes: &LockedNodes<'_, K, J>,
    rt: &R,
    link: &mut L,
    plan: &ReadPlan,
    seen: &mut Note,
) -> Result<Mastered, Reply>
    requires log { IsOfLog J.log (query_shard plan.now.query) seen.old }
    ensures given { IfOk result (λ read. (floor : ℕ) → ReachesIn seen.old (query_key plan.now.query) floor
        → IsRightAnswer (types_of J.making.settings.schema) (IsOfLog J.log) (wanted plan.now.query floor) (given_of read.out)) }
    ensures past { IfOk result (λ read. IsUndecidedGiven (types_of J.making.settings.schema) plan.now.query (given_of read.out)) }
    ensures grows { Grows seen.old seen.new }
    ensures carries { (L.shown link.old).carries ≤ (L.shown link.new).carries }
    ensures later { (L.shown link.old).faults ≤ (L.shown link.new).faults }
    ensures err { IfErr result (RepliesRefused (Rose (L.shown link.old).faults (L.shown link.new).faults) (MayFail K.state)) }
{
    let query = plan.query();
    let at = master_store(nodes.config(), query.shard());
    let store = NodeName::Store(at);
    carry_over(link, plan.follower(), store)?;
    let read = nodes.read_store(rt, at, query, seen)?;
    carry_over(link, store, plan.follower())?;
    Ok(read)
}

/// The stage `keep` of a read: the follower answers from the fill that was given, and keeps it or not. Without a fill the answer is the one that was
/// given.
fn keep_stage<K: Keeper, J: Sharing, R: Wait>(
    nodes: &LockedNodes<'_, K, J>,
    rt: &R,
    read: &mut OpenRead,
)
    ghost begun: { Begun }
    requires read { IsReadOf J.making J.log begun read.old.seen read.old.plan }
    requires stage { stage_of read.old.plan.at ≡ stage.Keep }
    ensures steps { StepsRead J.making J.log begun read.new.seen 0 read.old.plan read.new.plan }
    ensures refused { EndsFor ⊥ ⊥ read.new.plan.at }
{
    if read.plan.has_fill() {
        keep_given(nodes, rt, read);
    } else {
        nodes.end_ask(rt, read.plan.follower(), read.plan.ask());
        take_past::<J>(read);
    }
}

/// Answers from the fill that was given.
fn keep_given<K: Keeper, J: Sharing, R: Wait>(
    nodes: &LockedNodes<'_, K, J>,
    rt: &R,
    read: &mut OpenRead,
)
    ghost begun: { Begun }
    requires read { IsReadOf J.making J.log begun read.old.seen read.old.plan }
    requires fill { has_fill read.old.plan.at ≡ true }
    ensures steps { StepsRead J.making J.log begun read.new.seen 0 read.old.plan read.new.plan }
    ensures refused { EndsFor ⊥ ⊥ read.new.plan.at }
{
    let Some(fill) = read.plan.fill() else {
        unreachable!();
    };
    let version = fill.version();
    let came = keep_over(nodes, rt, &read.plan, &mut read.seen, fill);
    take_kept::<J>(read, version, came);
}

/// Lets the follower answer from the fill. The read's note sees the fill's, and the follower's.
#[tactic(auto, using(locked_nodes::proofs::Seeing::stays_seen))]
fn keep_over<K: Keeper, J: Sharing, R: Wait>(
    nodes: &LockedNodes<'_, K, J>,
    rt: &R,
    plan: &ReadPlan,
    seen: &mut Note,
    fill: Fill,
) -> Result<(Answer, Kept), Reply>
    requires serves { IsFollowerFor J.making.settings (query_shard plan.now.query) plan.now.follower }
    requires fill { IsRightFill (types_of J.making.settings.schema) (IsOfLog J.log) (wanted plan.now.query plan.now.floor) fill }
    requires log { IsOfLog J.log (query_shard plan.now.query) seen.old }
    ensures grows { Grows seen.old seen.new }
    ensures legal { IfOk result (λ r. IsLegalIn (types_of J.making.settings.schema) seen.new plan.now.query plan.now.floor r.0 fill.version) }
    ensures kept { IfOk result (λ r.
        IsKeptSo (answered_in (types_of J.making.settings.schema) seen.new (asked_by plan.now) fill.version) (kept_or_not r.1)) }
    ensures err { IfErr result (RepliesRefused ⊥ ⊥) }
{
    let mut fill = fill;
    let Ok(of_fill) = fill.split_note() else {
        nodes.end_ask(rt, plan.follower(), plan.ask());
        return Err(out_of_memory());
    };
    let (query, floor) = (plan.query(), plan.floor());
    let read = Wanted { query, floor };
    match nodes.keep(rt, plan.follower(), &read, plan.ask(), fill) {
        Ok(kept) => Ok(see_kept(seen, of_fill, kept)),
        Err(OutOfMemory) => Err(out_of_memory()),
    }
}

/// Does the stage of a read that follows, where it hasn't ended.
fn step<K: Keeper, J: Sharing, R: Wait, L: Link>(
    nodes: &LockedNodes<'_, K, J>,
    rt: &R,
    link: &mut L,
    read: &mut OpenRead,
)
    ghost begun: { Begun }
    requires read { IsReadOf J.making J.log begun read.old.seen read.old.plan }
    requires goes_on { stage_of read.old.plan.at ≢ stage.Done }
    ensures steps { StepsRead J.making J.log begun read.new.seen ((L.shown link.new).carries - (L.shown link.old).carries)
        read.old.plan read.new.plan }
    ensures carries { (L.shown link.old).carries ≤ (L.shown link.new).carries }
    ensures later { (L.shown link.old).faults ≤ (L.shown link.new).faults }
    ensures refused { EndsFor (Rose (L.shown link.old).faults (L.shown link.new).faults) (MayFail K.state) read.new.plan.at }
{
    match read.plan.next() {
        ReadStage::Look => look_stage(nodes, rt, read),
        ReadStage::Ask => ask_stage(nodes, rt, link, read),
        ReadStage::Master => master_stage(nodes, rt, link, read),
        ReadStage::Keep => keep_stage(nodes, rt, read),
        ReadStage::Done => unreachable!(),
    }
}

/// Does the stages of a read until it has its reply. Hands out the note of all that was seen.
fn run_read<K: Keeper, J: Sharing, R: Wait, L: Link>(
    nodes: &LockedNodes<'_, K, J>,
    rt: &R,
    link: &mut L,
    read: OpenRead,
) -> (Reply, Note)
    ghost begun: { Begun }
    requires read { IsReadOf J.making J.log begun read.seen read.plan }
    requires carries { begun.carries ≡ (L.shown link.old).carries }
    requires faults { begun.faults ≡ (L.shown link.old).faults }
    requires going { EndsFor ⊥ ⊥ read.plan.at }
    requires hops { read.plan.hops ≡ 0 }
    ensures log { IsOfLog J.log (query_shard read.plan.query) result.1 }
    ensures grows { Grows begun.seen result.1 }
    ensures ends { EndsRead (on_cluster K.TELLS K.state J.making J.log) begun (asked_by read.plan) result.1 (L.shown link.new) result.0 }
{
    let mut read = read;
    for _ in rt.forever() {
        if read.plan.next() == ReadStage::Done {
            break;
        }
        step(nodes, rt, link, &mut read);
    }
    let OpenRead { plan, seen } = read;
    (plan.finish(), seen)
}

/// A read of a session, at the floor of its pass. A critical one is answered by the master, and misses nothing that the pass had seen.
///
/// An answer is legal in what the pass has then seen, at that floor, and for a critical read at the key's version in what the pass had seen before. The
/// session learns the version that it is told, and nothing else; where the answer isn't kept, the pass has seen why. The hops are the carries that the
/// link counted. A refusal teaches the session nothing: the link failed in this call, a keeper did, or there was no memory.
pub fn read<K: Keeper, J: Sharing, R: Wait, L: Link>(
    nodes: &LockedNodes<'_, K, J>,
    rt: &R,
    pass: &mut Pass,
    link: &mut L,
    query: Query,
    critical: bool,
) -> Reply
    requires pass { IsPassOf J.making J.log pass.old }
    requires here { query_shard query < J.making.settings.shards }
    ensures pass { IsPassOf J.making J.log pass.new }
    ensures on { PassGoesOn pass.old pass.new }
    ensures replies { (seen : View) → slice_get pass.old.notes (query_shard query) ≡ Some seen
        → RepliesToRead (on_cluster K.TELLS K.state J.making J.log) (begun seen (L.shown link.old)) (asked_with J.making pass.old query critical)
        pass.old pass.new (L.shown link.new) result }
{
    let key = query.key();
    let Ok(seen) = prepare::<J>(pass, key.shard()) else {
        return out_of_memory();
    };
    let plan = begin_read(nodes, pass, query, critical);
    let (reply, seen) = run_read(nodes, rt, link, OpenRead { plan, seen });
    learn_told::<J>(pass, &key, seen, version_told(&reply));
    reply
}
