//! What goes through a stand-in, and what the leader beside it is told of that.
ghost use Rattle.std.specs.Prelude.{◌≡◌, IfOk, IfSome, OnOk, Some, true};
ghost use Rattle.keeper_map.specs.MapKeeper.{told_by};
ghost use Rattle.served_shards.specs.Served.{log_at};
ghost use Rattle.shard_tables.specs.Written.{StandsIn};
ghost use Rattle.shard_tables.specs.declared.store.StoreRole.TheVariants.{Master};
ghost use Rattle.store_tests.specs.Stores.{AreSound, IsStoreAs};
ghost use Rattle.tao_base.specs.Ids.{shard_of};
ghost use Rattle.tao_keeper.specs.Table.{Stays};
ghost use Rattle.tao_schema.specs.Schema.{types_of};

use crate::jobs::due_job;
use crate::rig::{FAR, HERE, THERE, add, empty_keeper, one_note, open_master, schema};
use changeset::Changeset;
use keeper_map::MapKeeper;
use leader_tier::Leader;
use shard_log::Note;
use shard_tables::{LeaderAnswer, StoreNode, StoreRefusal};
use std::alloc::Global;
use std::test::Fail;
use tao_base::{Entry, Id, Key, OutOfMemory, Query};
use tao_schema::Schema;

/// A leader of two items that serves the other shard, and has processed nothing.
fn leader_of(alloc: Global, store: &mut StoreNode) -> Result<Leader, OutOfMemory>
    ensures same { store.new ≡ store.old }
    ensures log { IfOk result (λ leader. log_at 1 leader.served ≡ Some store.old.view.log) }
{
    let note = store.note()?;
    let notes = one_note(alloc, note)?;
    Leader::make(alloc, 2, &[1], &[0], notes)
}

/// The version of what was filled.
fn filled_version(given: &LeaderAnswer) -> Option<u64> {
    match given {
        LeaderAnswer::Filled(fill) => Some(fill.version()),
        LeaderAnswer::Past { .. } | LeaderAnswer::Behind { .. } => None,
    }
}

/// Reads an object through the leader. The version of what it was filled with.
fn read_through(
    alloc: Global,
    schema: &Schema,
    leader: &mut Leader,
    store: &mut StoreNode,
    keeper: &mut MapKeeper,
    id: Id,
) -> Result<Option<u64>, StoreRefusal>
    requires there { shard_of id ≡ 1 }
    requires log { log_at 1 leader.old.served ≡ Some store.old.view.log }
    requires master { IsStoreAs Master (told_by keeper.old) store.old }
    ensures same { store.new ≡ store.old }
    ensures master { IsStoreAs Master (told_by keeper.new) store.new }
    ensures stays { Stays (told_by keeper.old) (told_by keeper.new) }
    ensures log { log_at 1 leader.new.served ≡ Some store.old.view.log }
{
    let given = leader.answer(alloc, store, keeper, schema, &Query::ObjGet { id }, 0)?;
    Ok(filled_version(&given))
}

/// The leader takes the changeset of the entry's first touch.
fn hand(leader: &mut Leader, schema: &Schema, entry: &Entry, note: Note) -> Result<(), OutOfMemory>
    requires log { log_at 1 leader.old.served ≡ Some note.log }
    requires stands { StandsIn note entry.now }
{
    if entry.touches.as_slice().is_empty() {
        return Ok(());
    }
    let change = Changeset::of(entry, 0, note)?;
    if change.key().shard() == 1 {
        leader.take_changeset(schema, change);
    }
    Ok(())
}

/// Merges a job through the leader as a stand-in. The position of the entry that was written.
fn merge(
    alloc: Global,
    schema: &Schema,
    leader: &mut Leader,
    store: &mut StoreNode,
    keeper: &mut MapKeeper,
) -> Result<Option<u64>, Fail>
    requires named { store.old.name ≡ THERE }
    requires master { IsStoreAs Master (told_by keeper.old) store.old }
{
    let job = due_job(alloc, keeper, store)?;
    let wrote = leader.merge(alloc, false, store, keeper, schema, HERE.shard, &job)?;
    Ok(wrote.entry.map(|entry| entry.position))
}

/// What is seen of an object that a stand-in adds.
#[derive(Clone, Copy, Debug, PartialEq, Eq)]
struct Seen {
    /// The version of what the leader was filled with before.
    filled: Option<u64>,
    /// The position of the object's entry.
    added: u64,
    /// The leader's version of it, once it was handed the changeset.
    held: Option<u64>,
    /// The position of the entry of a merge behind it.
    merged: Option<u64>,
}

fn see(alloc: Global, schema: &Schema, keeper: &mut MapKeeper) -> Result<Seen, Fail>
    requires sound { AreSound (types_of schema.now) (told_by keeper.old) }
{
    let id = Id::read(FAR).ok_or("an id")?;
    if id.shard() != 1 {
        return Err("an id of another shard")?;
    }
    let mut store = open_master(alloc, keeper, THERE)?;
    let mut leader = leader_of(alloc, &mut store)?;
    let filled = read_through(alloc, schema, &mut leader, &mut store, keeper, id)?;
    let (entry, note) = add(alloc, schema, &mut store, keeper, 1)?;
    hand(&mut leader, schema, &entry, note)?;
    let held = leader.item(Key::Obj(id)).map(|item| item.version);
    let merged = merge(alloc, schema, &mut leader, &mut store, keeper)?;
    Ok(Seen {
        filled,
        added: entry.position,
        held,
        merged,
    })
}

#[test]
fn a_stand_in_writes_and_the_leader_takes_the_changeset(rt: HostRuntime) -> Result<(), Fail> {
    let alloc = rt.alloc();
    let schema = schema(alloc)?;
    let mut keeper = empty_keeper(alloc);
    let seen = see(alloc, &schema, &mut keeper)?;
    let expected = Seen {
        filled: Some(0),
        added: 1,
        held: Some(1),
        merged: Some(2),
    };
    assert_eq!(rt; seen, expected);
    Ok(())
}
