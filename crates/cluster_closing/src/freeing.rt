//! What lies behind the locks of a cluster is taken out of them.
ghost use Rattle.std.specs.Prelude.{◌≡◌, ◌≤◌, [], false, length};
ghost use Rattle.std.specs.Vec.{vec_len};
ghost use Rattle.cluster_closing.specs.Freeing.{AreEachFreed, GainsStore, HasRoomLeft};
ghost use Rattle.core_model.specs.Fleet.{EachIs};
ghost use Rattle.core_model.specs.Stores.{store_count};
ghost use Rattle.keepers.specs.Shown.{told_in};
ghost use Rattle.cluster_opening.specs.locked_nodes.Room.{IsRoomFor};
ghost use Rattle.shared_nodes.specs.Nodes.{IsSharedNode};
ghost use Rattle.shared_stores.specs.Locked.{IsSharedStore, locked};
ghost use Rattle.unlocked_nodes.specs.Unlocked.{IsFreedFollower, MaySettle};

use crate::closed::Closed;
use cluster_opening::locked_nodes::{LockedNodes, LockedParts, RoomParts, Tiered, put_last};
use core_model::Named;
use core_nodes::{Fleet, FleetParts};
use follower_cache::Follower;
use leader_tier::Leader;
use shard_tables::StoreNode;
use shared_nodes::{SharedFollower, SharedLeader};
use shared_stores::{CountedNote, SharedStore, Sharing};
use std::sync::Mutex;
use tao_keeper::Keeper;
use unlocked_nodes::Unlocked;

/// A leader out of its lock; the messages that wait for it are lost.
fn free_leader<J: Sharing>(leader: Named<Tiered<SharedLeader<J>, J>>) -> Named<Leader>
    ensures { IsSharedNode J.making J.log result.name result.node }
{
    let Named { node, .. } = leader;
    let Tiered { node, inbox } = node;
    drop(inbox);
    node.into_inner().into_node()
}

/// The leaders out of their locks, in their order.
fn free_leaders<J: Sharing>(
    leaders: Vec<Named<Tiered<SharedLeader<J>, J>>>,
    room: Vec<Named<Leader>>,
) -> Vec<Named<Leader>>
    requires { IsRoomFor (vec_len leaders) room }
    ensures { EachIs (λ name node. IsSharedNode J.making J.log name node) result.items }
{
    let mut freed = room;
    for leader in leaders {
        put_last(&mut freed, free_leader(leader));
    }
    freed
}

/// Loses all refills, which nobody will ask for.
fn lose_refills(follower: &mut Follower)
    ensures none { follower.new.refills ≡ [] }
    ensures node { follower.new.node ≡ follower.old.node }
{
    while let Some(refill) = follower.next_refill() {
        drop(refill);
    }
}

/// A follower out of its lock; the messages that wait for it and its refills are lost.
fn free_follower<J: Sharing>(follower: Named<Tiered<SharedFollower<J>, J>>) -> Named<Follower>
    ensures { IsFreedFollower J.making J.log result.name result.node }
{
    let Named { node, .. } = follower;
    let Tiered { node, inbox } = node;
    drop(inbox);
    let Named { name, mut node } = node.into_inner().into_node();
    lose_refills(&mut node);
    Named { name, node }
}

/// The followers out of their locks, in their order.
fn free_followers<J: Sharing>(
    followers: Vec<Named<Tiered<SharedFollower<J>, J>>>,
    room: Vec<Named<Follower>>,
) -> Vec<Named<Follower>>
    requires { IsRoomFor (vec_len followers) room }
    ensures { EachIs (IsFreedFollower J.making J.log) result.items }
{
    let mut freed = room;
    for follower in followers {
        put_last(&mut freed, free_follower(follower));
    }
    freed
}

/// Stores out of their locks, with their keepers and notes at the same places.
struct FreedStores<K> {
    stores: Vec<StoreNode>,
    keepers: Vec<K>,
    noted: Vec<Vec<CountedNote>>,
}

/// Adds a store, its keeper and its notes. Takes no memory.
fn put_store<K: Keeper + Drop, J: Sharing>(freed: &mut FreedStores<K>, shared: SharedStore<K, J>)
    requires room { HasRoomLeft 1 freed.old }
    ensures { GainsStore (λ store keeper notes. IsSharedStore K.TELLS J.making J.log (locked store (K.state keeper).told notes))
        freed.old freed.new }
{
    let SharedStore {
        store,
        keeper,
        notes,
        ..
    } = shared;
    put_last(&mut freed.stores, store);
    put_last(&mut freed.keepers, keeper);
    put_last(&mut freed.noted, notes);
}

/// The stores out of their locks, in their order. Takes no memory.
fn free_stores<K: Keeper + Drop, J: Sharing>(
    stores: Vec<Mutex<SharedStore<K, J>>>,
    room: FreedStores<K>,
) -> FreedStores<K>
    requires stores { IsRoomFor (vec_len stores) room.stores }
    requires keepers { IsRoomFor (vec_len stores) room.keepers }
    requires noted { IsRoomFor (vec_len stores) room.noted }
    ensures many { length result.keepers.items ≡ vec_len stores }
    ensures shared { AreEachFreed (λ store keeper notes. IsSharedStore K.TELLS J.making J.log (locked store (K.state keeper).told notes)) result }
{
    let mut freed = room;
    for store in stores {
        put_store(&mut freed, store.into_inner());
    }
    freed
}

/// Closes a cluster, which nobody calls any more: its nodes, stores and keepers are taken out of their locks, and the messages that wait are lost.
/// Takes no memory.
pub fn close<'c, K: Keeper + Drop, J: Sharing>(nodes: LockedNodes<'c, K, J>) -> Closed<'c, K, J>
    ensures ready { MaySettle K.TELLS J.making J.log (told_in K.state J.making.settings.shards result.keepers.items) result.unlocked }
    ensures many { length result.keepers.items ≡ store_count J.making.settings }
{
    let LockedParts {
        alloc,
        config,
        topology,
        leaders,
        followers,
        stores,
        cuts,
        room,
    } = nodes.into_parts();
    drop(cuts);
    let room = room.into_inner().into_parts();
    let RoomParts {
        leaders: leaders_room,
        followers: followers_room,
        stores: stores_room,
        keepers,
        noted,
    } = room;
    let leaders = free_leaders(leaders, leaders_room);
    let followers = free_followers(followers, followers_room);
    let FreedStores {
        stores,
        keepers,
        noted,
    } = free_stores(
        stores,
        FreedStores {
            stores: stores_room,
            keepers,
            noted,
        },
    );
    let fleet = Fleet::of_parts(FleetParts {
        leaders,
        followers,
        stores,
    });
    let unlocked = Unlocked {
        fleet,
        noted,
        met: false,
    };
    Closed::of(alloc, config, topology, unlocked, keepers)
}
