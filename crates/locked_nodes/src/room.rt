//! Room for the nodes, stores and keepers of a cluster once they are taken out of their locks.
ghost use Rattle.std.proofs.Props.{props};
ghost use Rattle.std.specs.Prelude.{◌≡◌, ◌≤◌, ◌<◌, ◌+◌, ◌++◌, ◌∷◌, []};
ghost use Rattle.std.specs.Vec.{vec_capacity, vec_len};
ghost use Rattle.locked_nodes.specs.Room.{HasRoomFor};

use core_model::Named;
use core_model::follower_cache::Follower;
use core_model::leader_tier::Leader;
use shard_tables::StoreNode;
use shared_nodes::shared_stores::{CountedNote, Sharing};
use std::marker::PhantomData;

/// Lists in which there is nothing yet.
#[derive(Drop)]
pub struct RoomParts<K> {
    pub leaders: Vec<Named<Leader>>,
    pub followers: Vec<Named<Follower>>,
    pub stores: Vec<StoreNode>,
    pub keepers: Vec<K>,
    /// The notes of each store: of a master one of each shard's log, of a slave none.
    pub noted: Vec<Vec<CountedNote>>,
}

/// Room for all nodes of a cluster, for its stores, and for their keepers and notes. It is taken with the nodes, so that whoever takes these out of their
/// locks needs no memory.
#[derive(Drop)]
pub struct Room<K, J: Sharing> {
    parts: RoomParts<K>,
    of: PhantomData<J>,
    ghost kept: { HasRoomFor J.making.settings parts } by { Prim.hlevel props },
}

impl<K, J: Sharing> Room<K, J> {
    /// These lists, which have room enough. Takes no memory.
    pub fn of(parts: RoomParts<K>) -> Room<K, J>
        requires { HasRoomFor J.making.settings parts }
    {
        Room {
            parts,
            of: PhantomData,
        }
    }

    /// The lists. Takes no memory.
    pub fn into_parts(self) -> RoomParts<K>
        ensures { HasRoomFor J.making.settings result }
    {
        self.parts
    }
}

/// Adds one where there is room for it. Takes no memory.
pub fn put_last<T>(all: &mut Vec<T>, last: T)
    requires { vec_len all.old < vec_capacity all.old }
    ensures items { all.new.items ≡ all.old.items ++ last ∷ [] }
    ensures len { vec_len all.new ≡ vec_len all.old + 1 }
    ensures room { vec_capacity all.old ≤ vec_capacity all.new }
{
    match all.push(last) {
        Ok(()) => (),
        Err(_) => unreachable!(),
    }
}
