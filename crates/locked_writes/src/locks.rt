//! The locks of a write's stages: each call finds the nodes by their names, locks them in their order, and does one hold.
ghost use Rattle.std.specs.Prelude.{◌≡◌, ◌<◌, IfErr, IfOk, IfSome, IsTrue, None, Some, if◌then◌else◌};
ghost use Rattle.core_model.specs.Asked.{lent_call};
ghost use Rattle.core_model.specs.Serving.{IsFollowerFor, IsLeaderFor};
ghost use Rattle.graph_model.specs.Soundness.{is_client};
ghost use Rattle.graph_model.specs.Told.{WhereTold};
ghost use Rattle.locked_nodes.specs.Cluster.{MayFail};
ghost use Rattle.locked_writes.specs.Writes.{CommitsIn, MergesSince, RefusesSeen, SeenWhereTold, StaysOpenFor};
ghost use Rattle.log_names.specs.Names.{IsOfLog};
ghost use Rattle.shard_log.specs.View.{Grows};
ghost use Rattle.shard_tables.specs.Written.{LiesOn, StandsIn};
ghost use Rattle.shared_stores.specs.Asked.{asked_of_seen, lent_owed};
ghost use Rattle.shared_stores.specs.Owed.{IsDoneIn, IsOwedIn};
ghost use Rattle.tao_base.specs.Writes.{ChangesType, write_shard};
ghost use Rattle.tao_schema.specs.Schema.{types_of};

use crate::writing;
use crate::writing::{CommitPlace, CommittedThere, HeldMerge, MergePlace, NotMerged, unmerged};
use core_model::AuthoredWrite;
use locked_nodes::LockedNodes;
use locked_nodes::core_nodes::master_store;
use locked_nodes::shared_nodes::SharedMerge;
use node_name::NodeName;
use replies::{Refusal, ScheduledWhy};
use shard_log::Note;
use shared_stores::{CountedNote, OwedJob, Sharing};
use std::sync::Wait;
use tao_base::{Entry, StoreName};
use tao_keeper::Keeper;

/// The stage `commit`, under the leader's lock and then the store's. The caller's note sees all that the store has.
pub fn commit<K: Keeper, J: Sharing, R: Wait>(
    nodes: &LockedNodes<'_, K, J>,
    rt: &R,
    place: CommitPlace,
    call: &AuthoredWrite<'_>,
    seen: &mut Note,
) -> Result<CommittedThere, Refusal>
    requires serves { IsLeaderFor J.making.settings (write_shard call.now.write.now) place.leader }
    requires at { place.store.shard ≡ write_shard call.now.write.now }
    requires log { IsOfLog J.log (write_shard call.now.write.now) seen.old }
    requires client { IsTrue (is_client call.now.origin) }
    requires changes { ChangesType (types_of J.making.settings.schema) call.now.write.now }
    ensures grows { Grows seen.old seen.new }
    ensures commits { IfOk result (λ done. CommitsIn K.TELLS J.making J.log (lent_call call.now) seen.old done.wrote) }
    ensures sees { IfOk result (λ done. Grows done.wrote.note seen.new) }
    ensures spare { IfOk result (λ done. done.spare ≡ done.wrote.note) }
    ensures relay { IfOk result (λ done. done.relay ≡ (if place.passes then Some done.wrote.note else None)) }
    ensures refused { IfErr result (RefusesSeen (SeenWhereTold K.TELLS
        (asked_of_seen J.making (write_shard call.now.write.now) seen.new.entries (lent_call call.now))) (MayFail K.state)) }
{
    let Some(leader) = nodes.leader(place.leader) else {
        return Err(Refusal::Memory { position: 0 });
    };
    let Some(store) = nodes.store(place.store) else {
        return Err(Refusal::Memory { position: 0 });
    };
    let mut leader = leader.lock(rt);
    let mut store = store.lock(rt);
    let around = nodes.around();
    writing::commit(&mut leader, &mut store, &around, place, call, seen)
}

/// The stage `inverse`, under the lock of the leader that merges, and then those of both stores, the one of the lower place first. What is answered begins
/// with what the other note had seen of the log where the job is owed.
pub fn merge<K: Keeper, J: Sharing, R: Wait>(
    nodes: &LockedNodes<'_, K, J>,
    rt: &R,
    place: MergePlace,
    owed: &OwedJob<'_>,
    seen: &mut Note,
    there: Note,
) -> Result<SharedMerge, NotMerged>
    requires serves { IsLeaderFor J.making.settings owed.now.to place.leader }
    requires near { place.near.shard ≡ owed.now.from }
    requires far { place.far.shard ≡ owed.now.to }
    requires owed { IsOwedIn K.TELLS J.making J.log seen.old (lent_owed owed.now) }
    requires there { IsOfLog J.log owed.now.to there }
    ensures grows { Grows seen.old seen.new }
    ensures since { IfOk result (λ merge. Grows there merge.wrote.note) }
    ensures writes { IfOk result (λ merge. WhereTold K.TELLS
        (MergesSince owed.now.from owed.now.job.now there.entries merge.wrote.note.entries merge.wrote.entry)) }
    ensures merged { IfOk result (λ merge. IsDoneIn J.making J.log merge.done (lent_owed owed.now)) }
    ensures note { IfOk result (λ merge. merge.wrote.note ≡ merge.done) }
    ensures stands { IfOk result (λ merge. IfSome merge.wrote.entry (StandsIn merge.wrote.note)) }
    ensures lies { IfOk result (λ merge. IfSome merge.wrote.entry (LiesOn merge.wrote.note owed.now.to)) }
    ensures told { IfOk result (λ merge. merge.done.log.told ≡ K.TELLS) }
    ensures log { IfErr result (λ left. IfSome left.seen (IsOfLog J.log owed.now.to)) }
    ensures seen_told { IfErr result (λ left. IfSome left.seen (λ note. note.log.told ≡ K.TELLS)) }
    ensures why { IfErr result (λ left. StaysOpenFor (MayFail K.state) J.making.settings.log_max left.seen left.why) }
{
    let Some(leader) = nodes.leader(place.leader) else {
        drop(there);
        return Err(unmerged());
    };
    let mut leader = leader.lock(rt);
    let Some((mut near, mut far)) = nodes.lock_stores(rt, place.near, place.far) else {
        drop(there);
        return Err(unmerged());
    };
    let around = nodes.around();
    let held = HeldMerge {
        around,
        place,
        there,
    };
    writing::merge(&mut leader, &mut near, &mut far, held, owed, seen)
}

/// The stage `end`, under the lock of the store of the job's entry.
pub fn end<K: Keeper, J: Sharing, R: Wait>(
    nodes: &LockedNodes<'_, K, J>,
    rt: &R,
    at: StoreName,
    owed: &OwedJob<'_>,
    seen: &mut Note,
    done: CountedNote,
) -> Result<(), ScheduledWhy>
    requires at { at.shard ≡ owed.now.from }
    requires owed { IsOwedIn K.TELLS J.making J.log seen.old (lent_owed owed.now) }
    requires done { IsDoneIn J.making J.log done (lent_owed owed.now) }
    ensures grows { Grows seen.old seen.new }
    ensures why { IfErr result (StaysOpenFor (MayFail K.state) J.making.settings.log_max None) }
{
    let Some(store) = nodes.store(at) else {
        drop(done);
        return Err(ScheduledWhy::Memory);
    };
    let mut store = store.lock(rt);
    writing::end(&mut store, at, owed, seen, done)
}

/// The stage `relay`, under the leader's lock.
pub fn relay<K: Keeper, J: Sharing, R: Wait>(
    nodes: &LockedNodes<'_, K, J>,
    rt: &R,
    name: NodeName,
    shard: u16,
    entry: &Entry,
    note: Note,
)
    requires serves { IsLeaderFor J.making.settings shard name }
    requires log { IsOfLog J.log shard note }
    requires stands { StandsIn note entry.now }
    requires here { LiesOn note shard entry.now }
{
    match nodes.leader(name) {
        Some(shared) => {
            let mut leader = shared.lock(rt);
            writing::relay(&mut leader, nodes.schema(), name, shard, entry, note);
        }
        None => drop(note),
    }
}

/// The stage `apply`, under the follower's lock.
pub fn apply<K: Keeper, J: Sharing, R: Wait>(
    nodes: &LockedNodes<'_, K, J>,
    rt: &R,
    name: NodeName,
    shard: u16,
    entry: &Entry,
    note: Note,
)
    requires serves { IsFollowerFor J.making.settings shard name }
    requires log { IsOfLog J.log shard note }
    requires stands { StandsIn note entry.now }
    requires here { LiesOn note shard entry.now }
{
    match nodes.follower(name) {
        Some(shared) => {
            let mut follower = shared.lock(rt);
            writing::apply(&mut follower, nodes.schema(), name, shard, entry, note);
        }
        None => drop(note),
    }
}

/// Puts a message of an entry into the inbox of each follower of the master's region that serves its shard. What finds no memory is lost.
pub fn notify<K: Keeper, J: Sharing, R: Wait>(
    nodes: &LockedNodes<'_, K, J>,
    rt: &R,
    shard: u16,
    entry: &Entry,
    note: &mut Note,
)
    requires here { shard < J.making.settings.shards }
    requires log { IsOfLog J.log shard note.old }
    requires stands { StandsIn note.old entry.now }
    requires lies { LiesOn note.old shard entry.now }
    ensures { note.new ≡ note.old }
{
    let at = master_store(nodes.config(), shard);
    nodes.notify(rt, at, entry, note);
}
