//! A slave's store follows its master's: one entry is added to it under both stores' locks, and then, these released, the leader and the followers of its
//! region that serve the shard get a message of the entry.
ghost use Rattle.std.specs.Prelude.{◌≡◌, IfErr, IfOk, IfSome, IsTrue};
ghost use Rattle.cluster_pumps.specs.Hands.{store_hand};
ghost use Rattle.cluster_pumps.specs.Pumps.{IsSeenMove, PumpsAs, entry_of};
ghost use Rattle.core_model.specs.Stores.{IsConfiguredStore, role_in};
ghost use Rattle.locked_nodes.specs.Cluster.{MayFail};
ghost use Rattle.region_stream.specs.Following.{CallsBoth, CountsEmpties};
ghost use Rattle.shard_tables.specs.Refusals.{IsOfReads};
ghost use Rattle.shard_tables.specs.declared.refusal.StoreRefusal.TheVariants.{KeeperFault as Failed};
ghost use Rattle.tao_keeper.specs.KeeperState.{KeepsTables};

use crate::pumping::Pumped;
use core_model::role_in;
use locked_nodes::LockedNodes;
use locked_nodes::core_nodes::master_store;
use region_stream::Follow;
use shard_log::Note;
use shard_log::growth::notes_are_sound;
use shard_tables::{StoreRefusal, StoreRole};
use shared_stores::{SharedStore, Sharing, follow};
use std::sync::Wait;
use tao_base::{Entry, StoreName};
use tao_keeper::Keeper;

/// An entry that a slave's store took, and a note of the shard's log that has seen it.
#[derive(Drop)]
pub(crate) struct Moved {
    pub(crate) entry: Entry,
    pub(crate) note: Note,
}

/// Whether it is the store of that name, in that role.
fn is_store<K: Keeper, J: Sharing>(
    store: &SharedStore<K, J>,
    at: StoreName,
    role: StoreRole,
) -> bool
    ensures { IsTrue result → (store.now.store.name ≡ at) × (store.now.store.role ≡ role) }
{
    store.name() == at && store.store.role() == role
}

/// A step of the stream while both locks are held. The note for the messages is taken before it, since nothing may fail once the store took the entry; the
/// master's log doesn't grow meanwhile.
fn step<K: Keeper, J: Sharing>(
    stream: &mut Follow,
    master: &mut SharedStore<K, J>,
    slave: &mut SharedStore<K, J>,
) -> Result<Option<Moved>, StoreRefusal>
    requires shard { master.old.store.name.shard ≡ slave.old.store.name.shard }
    requires master { master.old.store.role ≡ StoreRole.Master }
    requires slave { slave.old.store.role ≡ StoreRole.Slave }
    ensures empties { CountsEmpties stream.old stream.new (entry_of result) }
    ensures seen { IfOk result (λ moved. IfSome moved (IsSeenMove J.log slave.old.store.name.shard)) }
    ensures refused { IfErr result IsOfReads }
    ensures calls { CallsBoth (K.state master.old.keeper) (K.state master.new.keeper) (K.state slave.old.keeper) (K.state slave.new.keeper) result }
    ensures stores { IfErr result (λ _. (master.new.store ≡ master.old.store) × (slave.new.store ≡ slave.old.store)) }
    ensures master { KeepsTables K.TELLS (K.state master.old.keeper) (K.state master.new.keeper) }
    ensures slave { IfErr result (λ _. KeepsTables K.TELLS (K.state slave.old.keeper) (K.state slave.new.keeper)) }
{
    let note = master.note()?;
    notes_are_sound(&note);
    match follow(stream, master, slave) {
        Ok(Some(entry)) => Ok(Some(Moved { entry, note })),
        Ok(None) => {
            drop(note);
            Ok(None)
        }
        Err(refusal) => {
            drop(note);
            Err(refusal)
        }
    }
}

/// The step, where these are the master's store and the slave's store of those names. What isn't can't come, and answers want of memory.
fn step_between<K: Keeper, J: Sharing>(
    stream: &mut Follow,
    master: &mut SharedStore<K, J>,
    slave: &mut SharedStore<K, J>,
    from: StoreName,
    to: StoreName,
) -> Result<Option<Moved>, StoreRefusal>
    requires shard { from.shard ≡ to.shard }
    ensures empties { CountsEmpties stream.old stream.new (entry_of result) }
    ensures seen { IfOk result (λ moved. IfSome moved (IsSeenMove J.log to.shard)) }
    ensures refused { IfErr result IsOfReads }
    ensures cause { IfErr result (λ refusal. refusal ≡ Failed → MayFail K.state) }
{
    if !is_store(master, from, StoreRole::Master) || !is_store(slave, to, StoreRole::Slave) {
        return Err(StoreRefusal::OutOfMemory);
    }
    step(stream, master, slave)
}

/// Adds the master's next entry to a store's log, under both stores' locks. None where the logs are equally long.
///
/// A refusal changes neither log. `KeeperFault` comes only where the count of faults of one of the keepers rose.
fn follow_master<K: Keeper, J: Sharing, R: Wait>(
    nodes: &LockedNodes<'_, K, J>,
    rt: &R,
    stream: &mut Follow,
    at: StoreName,
) -> Result<Option<Moved>, StoreRefusal>
    ensures empties { CountsEmpties stream.old stream.new (entry_of result) }
    ensures seen { IfOk result (λ moved. IfSome moved (IsSeenMove J.log at.shard)) }
    ensures refused { IfErr result IsOfReads }
    ensures cause { IfErr result (λ refusal. refusal ≡ Failed → MayFail K.state) }
{
    let from = master_store(nodes.config(), at.shard);
    let Some((mut master, mut slave)) = nodes.lock_stores(rt, from, at) else {
        return Err(StoreRefusal::OutOfMemory);
    };
    step_between(stream, &mut master, &mut slave, from, at)
}

/// Puts messages of an entry that a store took into the inboxes of the leader that its region prefers, and of each follower of the region that serves the
/// shard. What finds no memory is lost.
fn tell_region<K: Keeper, J: Sharing, R: Wait>(
    nodes: &LockedNodes<'_, K, J>,
    rt: &R,
    at: StoreName,
    moved: Moved,
)
    requires here { IsConfiguredStore J.making.settings at }
    requires seen { IsSeenMove J.log at.shard moved }
{
    let Moved { entry, mut note } = moved;
    let leader = nodes.leader_for(at.region, at.shard);
    nodes.tell(rt, leader, at.shard, &entry, &mut note);
    nodes.notify(rt, at, &entry, &mut note);
}

/// A slave's store takes an entry, and its region is told of it. A master's store has nothing to take.
pub(crate) fn pump_store<K: Keeper, J: Sharing, R: Wait>(
    nodes: &LockedNodes<'_, K, J>,
    rt: &R,
    at: StoreName,
    stream: &mut Follow,
) -> Pumped
    requires { IsConfiguredStore J.making.settings at }
    ensures { PumpsAs (MayFail K.state) J.making J.log (store_hand at stream.old) (store_hand at stream.new) result }
{
    match role_in(nodes.config(), at) {
        StoreRole::Master => Pumped::Empty,
        StoreRole::Slave => pump_slave(nodes, rt, at, stream),
    }
}

fn pump_slave<K: Keeper, J: Sharing, R: Wait>(
    nodes: &LockedNodes<'_, K, J>,
    rt: &R,
    at: StoreName,
    stream: &mut Follow,
) -> Pumped
    requires here { IsConfiguredStore J.making.settings at }
    requires slave { role_in J.making.settings at ≡ StoreRole.Slave }
    ensures { PumpsAs (MayFail K.state) J.making J.log (store_hand at stream.old) (store_hand at stream.new) result }
{
    match follow_master(nodes, rt, stream, at) {
        Ok(Some(moved)) => {
            let position = moved.entry.position;
            tell_region(nodes, rt, at, moved);
            Pumped::Delivered {
                shard: at.shard,
                position,
                dropped: 0,
            }
        }
        Ok(None) => Pumped::Empty,
        Err(refusal) => Pumped::Failed(refusal),
    }
}
