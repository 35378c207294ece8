//! What is done of a write while locks are held. The values are known by their types alone, so their names and roles are compared; the branch that can't
//! come answers want of memory.
ghost use Rattle.std.specs.Prelude.{◌≡◌, IfErr, IfOk, IfSome, IsTrue, None, Some, if◌then◌else◌, is_some};
ghost use Rattle.std.specs.Option.{option_map};
ghost use Rattle.core_model.specs.Asked.{lent_call, settings};
ghost use Rattle.core_model.specs.Serving.{IsFollowerFor, IsLeaderFor};
ghost use Rattle.core_model.specs.Writes.{AppliesTo};
ghost use Rattle.graph_model.specs.Soundness.{is_client};
ghost use Rattle.graph_model.specs.Told.{WhereTold};
ghost use Rattle.locked_nodes.specs.Cluster.{MayFail};
ghost use Rattle.locked_writes.specs.Writes.{CommitsIn, MergesSince, RefusesSeen, SeenWhereTold, StaysOpenFor};
ghost use Rattle.log_names.specs.Names.{IsOfLog};
ghost use Rattle.shared_stores.specs.node_stages.Relays.{RelaysTo};
ghost use Rattle.shared_stores.specs.node_stages.Stages.{FollowerDoes, LeaderDoes};
ghost use Rattle.shard_log.specs.View.{Grows, as_note};
ghost use Rattle.shard_tables.specs.Written.{LiesOn, StandsIn};
ghost use Rattle.shared_stores.specs.Asked.{asked_of_seen, lent_owed};
ghost use Rattle.shared_stores.specs.Owed.{IsDoneIn, IsOwedIn};
ghost use Rattle.tao_base.specs.Writes.{ChangesType, write_shard};
ghost use Rattle.tao_schema.specs.Schema.{types_of};

use core_model::{Around, AuthoredWrite};
use locked_nodes::shared_nodes::{SharedFollower, SharedLeader, SharedMerge};
use node_name::NodeName;
use replies::{Refusal, ScheduledWhy};
use shard_log::Note;
use shard_tables::{StoreRole, Wrote};
use shared_stores::{CountedNote, OwedJob, SharedStore, Sharing};
use store_replies::{refused_as, why_left_open};
use tao_base::{Entry, OutOfMemory, StoreName};
use tao_keeper::Keeper;
use tao_schema::Schema;

/// Where a write is committed: by which leader, at which store, and whether a leader of a slave region was passed on the way there.
#[derive(Clone, Copy)]
pub struct CommitPlace {
    pub leader: NodeName,
    pub store: StoreName,
    pub passes: bool,
}

/// What a commit wrote, and notes for its way back, which have seen the same.
#[derive(Drop)]
pub struct CommittedThere {
    pub wrote: Wrote,
    /// For the leader that was passed; none where none was.
    pub relay: Option<Note>,
    /// For the follower.
    pub spare: Note,
}

/// Notes of a shard's log, which are taken before a write is committed, since nothing may fail for memory after it: for its way back, and for its caller.
#[derive(Drop)]
struct CommitNotes {
    relay: Option<Note>,
    spare: Note,
    own: Note,
}

/// Where a job is merged: by which leader, at which store, and the store of its entry.
#[derive(Clone, Copy)]
pub struct MergePlace {
    pub leader: NodeName,
    pub near: StoreName,
    pub far: StoreName,
}

/// What stands around a merge, where it is done, and a note of the log there.
#[derive(Drop)]
pub(crate) struct HeldMerge<'c> {
    pub(crate) around: Around<'c>,
    pub(crate) place: MergePlace,
    pub(crate) there: Note,
}

/// Why a job isn't merged, and what was then seen of the log where it is owed.
#[derive(Drop)]
pub struct NotMerged {
    pub why: ScheduledWhy,
    pub seen: Option<Note>,
}

/// A job isn't merged, for want of memory.
pub(crate) fn unmerged() -> NotMerged
    ensures { result ≡ record { why = ScheduledWhy.Memory; seen = None } }
{
    NotMerged {
        why: ScheduledWhy::Memory,
        seen: None,
    }
}

/// Whether it is the store of that name, and its shard's master.
fn is_master<K: Keeper, J: Sharing>(store: &SharedStore<K, J>, at: StoreName) -> bool
    ensures { IsTrue result → (store.now.store.name ≡ at) × (store.now.store.role ≡ StoreRole.Master) }
{
    store.name() == at && store.store.role() == StoreRole::Master
}

fn take_notes<K: Keeper, J: Sharing>(
    store: &mut SharedStore<K, J>,
    passes: bool,
) -> Result<CommitNotes, OutOfMemory>
    ensures store { store.new.store ≡ store.old.store }
    ensures keeper { store.new.keeper ≡ store.old.keeper }
    ensures notes { store.new.notes.items ≡ store.old.notes.items }
    ensures spare { IfOk result (λ notes. notes.spare.log ≡ store.old.store.view.log) }
    ensures own { IfOk result (λ notes. notes.own.log ≡ store.old.store.view.log) }
    ensures relay { IfOk result (λ notes. IfSome notes.relay (λ note. note.log ≡ store.old.store.view.log)) }
    ensures passes { IfOk result (λ notes. is_some notes.relay ≡ passes) }
{
    let spare = store.note()?;
    let own = store.note()?;
    let relay = if passes { Some(store.note()?) } else { None };
    Ok(CommitNotes { relay, spare, own })
}

/// The notes, which then have seen all that the master's store has. Takes no memory.
fn renewed<K: Keeper, J: Sharing>(store: &mut SharedStore<K, J>, notes: CommitNotes) -> CommitNotes
    requires master { store.old.store.role ≡ StoreRole.Master }
    requires spare { notes.spare.log ≡ store.old.store.view.log }
    requires own { notes.own.log ≡ store.old.store.view.log }
    requires relay { IfSome notes.relay (λ note. note.log ≡ store.old.store.view.log) }
    ensures store { store.new.store ≡ store.old.store }
    ensures keeper { store.new.keeper ≡ store.old.keeper }
    ensures spare { result.spare ≡ as_note store.old.store.view }
    ensures own { result.own ≡ as_note store.old.store.view }
    ensures relay { result.relay ≡ option_map (λ _. as_note store.old.store.view) notes.relay }
{
    let CommitNotes { relay, spare, own } = notes;
    let spare = store.store.renew(spare);
    let own = store.store.renew(own);
    let relay = match relay {
        Some(note) => Some(store.store.renew(note)),
        None => None,
    };
    CommitNotes { relay, spare, own }
}

/// The stage `commit`: the write of a client is made at the leader and the store. The caller's note sees all that the store has: where the write is refused,
/// what made it so.
pub(crate) fn commit<K: Keeper, J: Sharing>(
    leader: &mut SharedLeader<J>,
    store: &mut SharedStore<K, J>,
    around: &Around<'_>,
    place: CommitPlace,
    call: &AuthoredWrite<'_>,
    seen: &mut Note,
) -> Result<CommittedThere, Refusal>
    requires schema { (settings around.now).schema ≡ J.making.settings.schema }
    requires serves { IsLeaderFor J.making.settings (write_shard call.now.write.now) place.leader }
    requires at { place.store.shard ≡ write_shard call.now.write.now }
    requires log { IsOfLog J.log (write_shard call.now.write.now) seen.old }
    requires client { IsTrue (is_client call.now.origin) }
    requires changes { ChangesType (types_of J.making.settings.schema) call.now.write.now }
    ensures grows { Grows seen.old seen.new }
    ensures commits { IfOk result (λ done. CommitsIn K.TELLS J.making J.log (lent_call call.now) seen.old done.wrote) }
    ensures sees { IfOk result (λ done. Grows done.wrote.note seen.new) }
    ensures spare { IfOk result (λ done. done.spare ≡ done.wrote.note) }
    ensures relay { IfOk result (λ done. done.relay ≡ (if place.passes then Some done.wrote.note else None)) }
    ensures refused { IfErr result (RefusesSeen (SeenWhereTold K.TELLS
        (asked_of_seen J.making (write_shard call.now.write.now) seen.new.entries (lent_call call.now))) (MayFail K.state)) }
{
    if leader.name() != place.leader || !is_master(store, place.store) {
        return Err(Refusal::Memory { position: 0 });
    }
    let Ok(notes) = take_notes(store, place.passes) else {
        return Err(Refusal::Memory { position: 0 });
    };
    match leader.commit(around, store, call, seen) {
        Ok(wrote) => {
            let CommitNotes { relay, spare, own } = renewed(store, notes);
            seen.meet(own);
            Ok(CommittedThere {
                wrote,
                relay,
                spare,
            })
        }
        Err(refusal) => {
            drop(notes);
            Err(refused_as(refusal, store.faults()))
        }
    }
}

/// The stage `inverse`: a job is merged at the leader and the store where it is owed; each of the two stores sees the other's whole log. The caller's note
/// of the job's own log sees all of that, and what is answered begins with what the other one had seen of the log there.
pub(crate) fn merge<K: Keeper, J: Sharing>(
    leader: &mut SharedLeader<J>,
    near: &mut SharedStore<K, J>,
    far: &mut SharedStore<K, J>,
    held: HeldMerge<'_>,
    owed: &OwedJob<'_>,
    seen: &mut Note,
) -> Result<SharedMerge, NotMerged>
    requires schema { (settings held.around).schema ≡ J.making.settings.schema }
    requires serves { IsLeaderFor J.making.settings owed.now.to held.place.leader }
    requires near { held.place.near.shard ≡ owed.now.from }
    requires far { held.place.far.shard ≡ owed.now.to }
    requires owed { IsOwedIn K.TELLS J.making J.log seen.old (lent_owed owed.now) }
    requires there { IsOfLog J.log owed.now.to held.there }
    ensures grows { Grows seen.old seen.new }
    ensures since { IfOk result (λ merge. Grows held.entry.there merge.wrote.note) }
    ensures writes { IfOk result (λ merge. WhereTold K.TELLS
        (MergesSince owed.now.from owed.now.job.now held.entry.there.entries merge.wrote.note.entries merge.wrote.entry)) }
    ensures merged { IfOk result (λ merge. IsDoneIn J.making J.log merge.done (lent_owed owed.now)) }
    ensures note { IfOk result (λ merge. merge.wrote.note ≡ merge.done) }
    ensures stands { IfOk result (λ merge. IfSome merge.wrote.entry (StandsIn merge.wrote.note)) }
    ensures lies { IfOk result (λ merge. IfSome merge.wrote.entry (LiesOn merge.wrote.note owed.now.to)) }
    ensures told { IfOk result (λ merge. merge.done.log.told ≡ K.TELLS) }
    ensures log { IfErr result (λ left. IfSome left.seen (IsOfLog J.log owed.now.to)) }
    ensures seen_told { IfErr result (λ left. IfSome left.seen (λ note. note.log.told ≡ K.TELLS)) }
    ensures why { IfErr result (λ left. StaysOpenFor (MayFail K.state) J.making.settings.log_max left.seen left.why) }
{
    let HeldMerge {
        around,
        place,
        mut there,
    } = held;
    if leader.name() != place.leader || !is_master(near, place.near) || !is_master(far, place.far) {
        drop(there);
        return Err(unmerged());
    }
    let Ok(()) = far.meet(&mut there) else {
        drop(there);
        return Err(unmerged());
    };
    match leader.merge(&around, near, far, owed, seen, &mut there) {
        Ok(merge) => Ok(merge),
        Err(refusal) => Err(NotMerged {
            why: why_left_open(&refusal),
            seen: Some(there),
        }),
    }
}

/// The stage `end`: the job of an entry is ended at its store, which has seen its records where they are owed.
pub(crate) fn end<K: Keeper, J: Sharing>(
    store: &mut SharedStore<K, J>,
    at: StoreName,
    owed: &OwedJob<'_>,
    seen: &mut Note,
    done: CountedNote,
) -> Result<(), ScheduledWhy>
    requires at { at.shard ≡ owed.now.from }
    requires owed { IsOwedIn K.TELLS J.making J.log seen.old (lent_owed owed.now) }
    requires done { IsDoneIn J.making J.log done (lent_owed owed.now) }
    ensures grows { Grows seen.old seen.new }
    ensures why { IfErr result (StaysOpenFor (MayFail K.state) J.making.settings.log_max None) }
{
    if !is_master(store, at) {
        drop(done);
        return Err(ScheduledWhy::Memory);
    }
    match store.end(owed, seen, done) {
        Ok(()) => Ok(()),
        Err(refusal) => Err(why_left_open(&refusal)),
    }
}

/// The stage `relay`: the leader of a slave region takes the changes of an entry.
pub(crate) fn relay<J: Sharing>(
    leader: &mut SharedLeader<J>,
    schema: &Schema,
    name: NodeName,
    shard: u16,
    entry: &Entry,
    note: Note,
)
    requires schema { schema.now ≡ J.making.settings.schema }
    requires serves { IsLeaderFor J.making.settings shard name }
    requires log { IsOfLog J.log shard note }
    requires stands { StandsIn note entry.now }
    requires here { LiesOn note shard entry.now }
    ensures does { leader.old.name ≡ name
        → LeaderDoes (RelaysTo (types_of J.making.settings.schema) shard (Some entry.now) note) leader.old.node leader.new.node }
{
    if leader.name() == name {
        leader.relay(schema, shard, entry, note);
    } else {
        drop(note);
    }
}

/// The stage `apply`: the follower takes the changes of an entry.
pub(crate) fn apply<J: Sharing>(
    follower: &mut SharedFollower<J>,
    schema: &Schema,
    name: NodeName,
    shard: u16,
    entry: &Entry,
    note: Note,
)
    requires schema { schema.now ≡ J.making.settings.schema }
    requires serves { IsFollowerFor J.making.settings shard name }
    requires log { IsOfLog J.log shard note }
    requires stands { StandsIn note entry.now }
    requires here { LiesOn note shard entry.now }
    ensures does { follower.old.name ≡ name
        → FollowerDoes (AppliesTo (types_of J.making.settings.schema) shard entry.now note) follower.old.node follower.new.node }
{
    if follower.name() == name {
        follower.apply(schema, shard, entry, note);
    } else {
        drop(note);
    }
}
