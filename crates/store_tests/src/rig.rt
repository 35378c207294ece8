//! Keepers in memory and the stores over them, with what is written there.
ghost use Rattle.std.specs.Prelude.{◌≡◌, [], ◌∷◌, IfOk};
ghost use Rattle.keeper_map.specs.MapKeeper.{told_by};
ghost use Rattle.shard_tables.specs.Written.{StandsIn};
ghost use Rattle.shard_tables.specs.declared.store.StoreRole.TheVariants.{Master};
ghost use Rattle.store_tests.specs.Stores.{AreSound, IsStoreAs};
ghost use Rattle.tao_base.specs.EdgeTypes.{EdgeTypes};
ghost use Rattle.tao_keeper.specs.Given.{HaveSmallStamps};
ghost use Rattle.tao_keeper.specs.Table.{Stays, empty_table};
ghost use Rattle.tao_schema.specs.Schema.{types_of};

use keeper_map::{Fails, MapKeeper};
use leader_tier::Leader;
use shard_log::Note;
use shard_tables::{StoreNode, Wrote};
use std::alloc::{AllocError, Global};
use std::test::Fail;
use tao_base::{Data, Entry, OType, Origin, StoreName, Text, Write};
use tao_schema::{AssocLine, Schema};

/// The master's store of the first shard.
pub(crate) const HERE: StoreName = StoreName {
    region: 0,
    shard: 0,
};

/// The master's store of the other shard.
pub(crate) const THERE: StoreName = StoreName {
    region: 0,
    shard: 1,
};

/// A slave's store of the first shard.
pub(crate) const WEST: StoreName = StoreName {
    region: 1,
    shard: 0,
};

/// The first id of the other shard.
pub(crate) const FAR: u64 = (1 << 48) + 1;

/// How many entries a log may have.
pub(crate) const LOG_MAX: u64 = 9;

/// A type of objects, and one of edges without an inverse.
pub(crate) fn schema(alloc: Global) -> Result<Schema, Fail> {
    let objects = vec![in alloc; Text::copy_of(alloc, "user")?]?;
    let saw = AssocLine {
        name: Text::copy_of(alloc, "saw")?,
        inverse: None,
        bound: 2,
    };
    let assocs = vec![in alloc; saw]?;
    Ok(Schema::read(alloc, &objects, &assocs)?)
}

/// A keeper that nothing was written to, whose calls don't fail.
pub(crate) fn empty_keeper(alloc: Global) -> MapKeeper
    ensures empty { (at : StoreName) → told_by result at ≡ empty_table }
    ensures sound { (types : EdgeTypes) → AreSound types (told_by result) }
{
    let fails = Fails {
        calls: Vec::new(alloc),
        commits: Vec::new(alloc),
        from: None,
    };
    MapKeeper::make(alloc, fails)
}

/// A keeper that nothing was written to, of whose calls the one with this number fails.
pub(crate) fn keeper_failing_at(alloc: Global, number: Option<u64>) -> Result<MapKeeper, AllocError>
    ensures sound { IfOk result (λ keeper. (types : EdgeTypes) → AreSound types (told_by keeper)) }
{
    let mut calls = Vec::new(alloc);
    if let Some(number) = number {
        calls.push(number)?;
    }
    let fails = Fails {
        calls,
        commits: Vec::new(alloc),
        from: None,
    };
    Ok(MapKeeper::make(alloc, fails))
}

/// The master's store of this name.
pub(crate) fn open_master(
    alloc: Global,
    keeper: &mut MapKeeper,
    name: StoreName,
) -> Result<StoreNode, Fail>
    ensures master { IfOk result (IsStoreAs Master (told_by keeper.new)) }
    ensures named { IfOk result (λ store. store.name ≡ name) }
    ensures stays { Stays (told_by keeper.old) (told_by keeper.new) }
{
    Ok(StoreNode::open_master(alloc, keeper, name, LOG_MAX)?)
}

/// The note alone.
pub(crate) fn one_note(alloc: Global, note: Note) -> Result<Vec<Note>, AllocError>
    ensures { IfOk result (λ notes. notes.items ≡ note ∷ []) }
{
    Ok(vec![in alloc; note]?)
}

/// Adds an object to the master's shard by the write of this number, through a leader that stands in for the preferred one: it serves
/// no shard. The entry, with a note that has seen it.
pub(crate) fn add(
    alloc: Global,
    schema: &Schema,
    master: &mut StoreNode,
    keeper: &mut MapKeeper,
    seq: u64,
) -> Result<(Entry, Note), Fail>
    requires master { IsStoreAs Master (told_by keeper.old) master.old }
    requires sound { AreSound (types_of schema.now) (told_by keeper.old) }
    ensures master { IsStoreAs Master (told_by keeper.new) master.new }
    ensures sound { AreSound (types_of schema.now) (told_by keeper.new) }
    ensures named { master.new.name ≡ master.old.name }
    ensures log { master.new.view.log ≡ master.old.view.log }
    ensures note { IfOk result (λ added. added.1.log ≡ master.old.view.log) }
    ensures stands { IfOk result (λ added. StandsIn added.1 added.0) }
{
    let write = Write::ObjAdd {
        shard: master.name().shard,
        otype: OType(0),
        payload: Data::empty(alloc),
    };
    let origin = Origin::Client { session: 1, seq };
    let mut leader = Leader::make(alloc, 1, &[], &[], Vec::new(alloc))?;
    let wrote = leader.write(alloc, false, master, keeper, schema, origin, &write)?;
    let Wrote { entry, note, .. } = wrote;
    let Some(entry) = entry else {
        return Err("an object without an entry")?;
    };
    Ok((entry, note))
}

/// The entry of the position in the master's log, with a note that has seen it.
pub(crate) fn entry_of(
    master: &mut StoreNode,
    keeper: &mut MapKeeper,
    position: u64,
) -> Result<(Entry, Note), Fail>
    requires master { IsStoreAs Master (told_by keeper.old) master.old }
    ensures same { master.new ≡ master.old }
    ensures stays { Stays (told_by keeper.old) (told_by keeper.new) }
    ensures log { IfOk result (λ found. found.1.log ≡ master.old.view.log) }
    ensures stands { IfOk result (λ found. StandsIn found.1 found.0) }
    ensures small { IfOk result (λ found. HaveSmallStamps found.0.touches) }
{
    let found = master.entry(keeper, position)?;
    let Some(entry) = found else {
        return Err("no entry of this position")?;
    };
    if entry.position != position {
        return Err("an entry of another position")?;
    }
    Ok((entry, master.note()?))
}
