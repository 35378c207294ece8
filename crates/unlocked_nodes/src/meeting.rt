//! What stores and nodes have seen of the shards' logs meets the masters' stores, which have the whole logs.
ghost use Rattle.std.specs.Prelude.{◌≡◌, ◌<◌, OnOk, length};
ghost use Rattle.unlocked_nodes.specs.Looking.{AreOfLog, AreOfLogs, HasMetAt, HaveMet, MeetsMaster, NodeIsOfLogs, NotedAreOfLogs, NotesAreOfLogs};
ghost use Rattle.core_model.specs.Consistent.{AreSeen};
ghost use Rattle.core_model.specs.Fleet.{EachIs};
ghost use Rattle.core_model.specs.Pens.{AreFirstNotes, IsSeen, pens_of};
ghost use Rattle.core_model.specs.Stores.{AreStores, FollowMasters, store_count};
ghost use Rattle.shard_log.specs.View.{Grows};
ghost use Rattle.shard_tables.specs.declared.store.StoreRole.TheVariants.{Master};
ghost use Rattle.unlocked_nodes.specs.Unlocked.{notes_of};

use core_model::{Named, masters_are_regions, serves_in_turn, store_place};
use core_nodes::master_store;
use node_name::NodeName;
use node_stages::Cache;
use shard_log::Note;
use shard_tables::{StoreNode, StoreRole};
use shared_stores::CountedNote;
use tao_base::OutOfMemory;
use topology::Config;

/// The note sees all that the store of a shard's master has. What stands at its place is known by its name alone, so that is compared; the branch that can't
/// come answers want of memory.
pub fn meet_master(
    config: &Config,
    stores: &mut [StoreNode],
    shard: u16,
    note: &mut Note,
) -> Result<(), OutOfMemory>
    requires one_log { AreOfLog config.now shard stores.old note.old.log }
    ensures met { OnOk result (MeetsMaster config.now shard stores.old note.old note.new) }
    ensures grows { Grows note.old note.new }
    ensures same { stores.new ≡ stores.old }
{
    let at = master_store(config, shard);
    let place = store_place(config, at);
    if place >= stores.len() {
        return Err(OutOfMemory);
    }
    let store = &mut stores[place];
    if store.name() != at || store.role() != StoreRole::Master {
        return Err(OutOfMemory);
    }
    store.meet(note)
}

/// The note begins its shard's log, where this is answered.
fn meet_note(
    config: &Config,
    stores: &mut [StoreNode],
    shard: u16,
    note: Note,
) -> Result<(), OutOfMemory>
    requires stores { AreStores config.now (store_count config.now) stores.old }
    requires here { shard < config.now.shards }
    requires one_log { (pens_of stores.old shard).log ≡ note.log }
    ensures seen { OnOk result (IsSeen (pens_of stores.old) shard note) }
    ensures same { stores.new ≡ stores.old }
{
    masters_are_regions(config);
    let mut note = note;
    meet_master(config, stores, shard, &mut note)
}

/// What each store has seen begins its shard's log, where this is answered.
pub(crate) fn meet_stores(config: &Config, stores: &mut [StoreNode]) -> Result<(), OutOfMemory>
    requires stores { AreStores config.now (store_count config.now) stores.old }
    requires logs { AreOfLogs stores.old }
    ensures follow { OnOk result (FollowMasters stores.old) }
    ensures same { stores.new ≡ stores.old }
{
    for place in 0..stores.len() {
        let store = &mut stores[place];
        let shard = store.name().shard;
        let note = store.note()?;
        meet_note(config, stores, shard, note)?;
    }
    Ok(())
}

/// Each of the notes, one of each shard's log, begins that, where this is answered.
fn meet_first(
    config: &Config,
    stores: &mut [StoreNode],
    notes: &mut [CountedNote],
) -> Result<(), OutOfMemory>
    requires stores { AreStores config.now (store_count config.now) stores.old }
    requires logs { NotesAreOfLogs (pens_of stores.old) config.now.shards notes.old }
    ensures first { OnOk result (AreFirstNotes (pens_of stores.old) config.now.shards notes.old) }
    ensures same { stores.new ≡ stores.old }
    ensures notes { notes.new ≡ notes.old }
{
    if notes.len() != usize::from(config.shards) {
        return Err(OutOfMemory);
    }
    for shard in 0..config.shards {
        let note = notes[usize::from(shard)].split()?;
        meet_note(config, stores, shard, note.into_note())?;
    }
    Ok(())
}

/// Each note of a master's store begins its log, where this is answered.
fn meet_role(
    config: &Config,
    stores: &mut [StoreNode],
    role: StoreRole,
    notes: &mut Vec<CountedNote>,
) -> Result<(), OutOfMemory>
    requires stores { AreStores config.now (store_count config.now) stores.old }
    requires logs { NotesAreOfLogs (pens_of stores.old) config.now.shards notes.old.items }
    ensures met { OnOk result (role ≡ Master → AreFirstNotes (pens_of stores.old) config.now.shards notes.old.items) }
    ensures same { stores.new ≡ stores.old }
    ensures notes { notes.new.items ≡ notes.old.items }
{
    match role {
        StoreRole::Master => meet_first(config, stores, notes.as_mut_slice()),
        StoreRole::Slave => Ok(()),
    }
}

/// Each note of each master's store begins its log, where this is answered.
pub(crate) fn meet_noted(
    config: &Config,
    stores: &mut [StoreNode],
    noted: &mut [Vec<CountedNote>],
) -> Result<(), OutOfMemory>
    requires stores { AreStores config.now (store_count config.now) stores.old }
    requires long { length noted.old ≡ length stores.old }
    requires logs { NotedAreOfLogs (pens_of stores.old) config.now.shards (notes_of noted.old) }
    ensures met { OnOk result (HaveMet config.now.shards stores.old (notes_of noted.old)) }
    ensures same { stores.new ≡ stores.old }
    ensures noted { notes_of noted.new ≡ notes_of noted.old }
{
    for place in 0..stores.len() {
        let role = stores[place].role();
        let notes = &mut noted[place];
        meet_role(config, stores, role, notes)?;
    }
    Ok(())
}

/// What a node has seen of a shard's log begins that, where this is answered.
fn meet_shard<C: Cache>(
    config: &Config,
    stores: &mut [StoreNode],
    name: NodeName,
    cache: &mut C,
    shard: u16,
) -> Result<(), OutOfMemory>
    requires stores { AreStores config.now (store_count config.now) stores.old }
    requires here { shard < config.now.shards }
    requires logs { NodeIsOfLogs config.now (pens_of stores.old) name (C.node cache.old) }
    ensures seen { OnOk result (HasMetAt (pens_of stores.old) shard (C.node cache.old)) }
    ensures same { stores.new ≡ stores.old }
    ensures cache { cache.new ≡ cache.old }
{
    if !serves_in_turn(config, name, shard) {
        return Ok(());
    }
    let note = cache.note(shard)?;
    meet_note(config, stores, shard, note)
}

/// What a node has seen begins its shards' logs, where this is answered.
fn meet_cache<C: Cache>(
    config: &Config,
    stores: &mut [StoreNode],
    name: NodeName,
    cache: &mut C,
) -> Result<(), OutOfMemory>
    requires stores { AreStores config.now (store_count config.now) stores.old }
    requires logs { NodeIsOfLogs config.now (pens_of stores.old) name (C.node cache.old) }
    ensures seen { OnOk result (AreSeen (pens_of stores.old) (C.node cache.old).served) }
    ensures same { stores.new ≡ stores.old }
    ensures cache { cache.new ≡ cache.old }
{
    for shard in 0..config.shards {
        meet_shard(config, stores, name, cache, shard)?;
    }
    Ok(())
}

/// What each node has seen begins its shards' logs, where this is answered.
pub(crate) fn meet_caches<C: Cache>(
    config: &Config,
    stores: &mut [StoreNode],
    caches: &mut [Named<C>],
) -> Result<(), OutOfMemory>
    requires stores { AreStores config.now (store_count config.now) stores.old }
    requires logs { EachIs (λ name cache. NodeIsOfLogs config.now (pens_of stores.old) name (C.node cache)) caches.old }
    ensures seen { OnOk result (EachIs (λ name cache. AreSeen (pens_of stores.old) (C.node cache).served) caches.old) }
    ensures same { stores.new ≡ stores.old }
    ensures caches { caches.new ≡ caches.old }
{
    for place in 0..caches.len() {
        let cache = &mut caches[place];
        let name = cache.name;
        meet_cache(config, stores, name, &mut cache.node)?;
    }
    Ok(())
}
