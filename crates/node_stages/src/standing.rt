//! Where stores and nodes stand: how far they have come with shards, and notes of what they have seen of their logs.
ghost use Rattle.std.specs.Prelude.{◌≡◌, All, IfErr, IfOk, IsSome, Some, length};
ghost use Rattle.graph_model.specs.Told.{WhereTold};
ghost use Rattle.node_stages.specs.Standing.{StandWith};
ghost use Rattle.served_shards.specs.Served.{low_at, served_at, view_at};
ghost use Rattle.shard_tables.specs.Refusals.{IsOfReads};
ghost use Rattle.shard_tables.specs.Stores.{IsStoreOf, note_of};
ghost use Rattle.tao_keeper.specs.KeeperState.{CallsKeeper, KeepsTables};

use crate::cache::Cache;
use shard_log::Note;
use shard_tables::{StoreNode, StoreRefusal};
use std::alloc::Global;
use tao_base::OutOfMemory;
use tao_keeper::Keeper;

/// How far a store or a node has come with a shard, and a note of what it has seen of the log.
#[derive(Drop)]
pub struct Measure {
    pub low: u64,
    pub note: Note,
}

/// Where a node stands with the shards that it serves: a mark for each, in order, and a note of its log.
#[derive(Drop)]
pub struct Stand {
    pub lows: Vec<u64>,
    pub notes: Vec<Note>,
}

/// The length of a store's log, and a note that has seen all that the store has. One call of the keeper.
pub fn measure_store<K: Keeper>(
    store: &mut StoreNode,
    keepers: &mut K,
) -> Result<Measure, StoreRefusal>
    requires keeper { IsStoreOf K.TELLS (K.state keepers.old).told store.old }
    ensures low { IfOk result (λ m. WhereTold K.TELLS (m.low ≡ length ((K.state keepers.old).told store.old.name).log)) }
    ensures note { IfOk result (λ m. m.note ≡ note_of store.old) }
    ensures same { store.new ≡ store.old }
    ensures refused { IfErr result IsOfReads }
    ensures tables { KeepsTables K.TELLS (K.state keepers.old) (K.state keepers.new) }
    ensures calls { CallsKeeper StoreRefusal.KeeperFault (K.state keepers.old) (K.state keepers.new) result }
{
    let low = store.length(keepers)?;
    let note = store.note()?;
    Ok(Measure { low, note })
}

/// The low-water mark of a node for a shard, and a note of what it has seen of the log.
fn measure_cache<C: Cache>(cache: &mut C, shard: u16) -> Result<Measure, OutOfMemory>
    requires served { IsSome (served_at shard (C.node cache.old).served) }
    ensures low { IfOk result (λ m. m.low ≡ low_at shard (C.node cache.old).served) }
    ensures note { IfOk result (λ m. view_at shard (C.node cache.old).served ≡ Some m.note) }
    ensures same { cache.new ≡ cache.old }
{
    let low = cache.mark(shard);
    let note = cache.note(shard)?;
    Ok(Measure { low, note })
}

/// Where a node stands with these shards, in order.
pub fn stand_of<C: Cache>(
    alloc: Global,
    cache: &mut C,
    shards: &[u16],
) -> Result<Stand, OutOfMemory>
    requires served { All (λ shard. IsSome (served_at shard (C.node cache.old).served)) shards.now }
    ensures stands { IfOk result (StandWith (C.node cache.old).served shards.now) }
    ensures same { cache.new ≡ cache.old }
{
    let mut lows = Vec::new(alloc);
    let mut notes = Vec::new(alloc);
    for shard in shards {
        let Measure { low, note } = measure_cache(cache, *shard)?;
        lows.push(low)?;
        notes.push(note)?;
    }
    Ok(Stand { lows, notes })
}
