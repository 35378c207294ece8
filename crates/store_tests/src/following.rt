//! A slave's store that follows its master's, step by step. Each of them has a keeper of its own.
ghost use Rattle.std.specs.Prelude.{◌≡◌, ◌≤◌, IfOk, IsTrue, length};
ghost use Rattle.keeper_map.specs.MapKeeper.{told_by};
ghost use Rattle.store_tests.specs.Stores.{AreSound, Follows};
ghost use Rattle.tao_base.specs.declared.id.StoreName.{StoreName};
ghost use Rattle.tao_keeper.specs.Table.{Stays, empty_table};
ghost use Rattle.tao_schema.specs.Schema.{types_of};

use crate::rig::{HERE, LOG_MAX, WEST, add, empty_keeper, entry_of, open_master, schema};
use keeper_map::MapKeeper;
use region_stream::{Applied, Follow, apply};
use shard_tables::StoreNode;
use std::alloc::Global;
use std::process::Abort;
use std::test::Fail;
use tao_keeper::{KeepFail, Keeper};
use tao_schema::Schema;

#[derive(Clone, Copy, Debug)]
enum Step {
    /// The master adds an object, by the write of this number.
    Add(u64),
    /// The master's next entry is moved to the slave.
    Follow,
    /// The master's entry of this position is applied to the slave.
    Apply(u64),
}

/// What came of a step.
#[derive(Clone, Copy, Debug, PartialEq, Eq)]
enum Came {
    /// The position of the entry that was added.
    Added(u64),
    /// The position of the entry that was moved, if there was one.
    Moved(Option<u64>),
    /// What became of the entry that was applied.
    Verdict(Applied),
}

/// Whether the master's next entry is a live one: the cut of its log is within what the slave has.
fn is_live(
    master: &StoreNode,
    near: &mut MapKeeper,
    slave: &StoreNode,
    far: &mut MapKeeper,
) -> Result<bool, KeepFail>
    ensures live { IfOk result (λ live. IsTrue live → (told_by near.new master.now.name).cut ≤ length (told_by far.new slave.now.name).log) }
    ensures near { Stays (told_by near.old) (told_by near.new) }
    ensures far { Stays (told_by far.old) (told_by far.new) }
{
    let cut = near.cut_of(master.name())?;
    let length = far.length(slave.name())?;
    Ok(cut <= length)
}

/// Moves the master's next entry to the slave.
fn move_next(
    master: &mut StoreNode,
    near: &mut MapKeeper,
    slave: &mut StoreNode,
    far: &mut MapKeeper,
) -> Result<Came, Fail>
    requires follows { Follows (told_by near.old) (told_by far.old) master.old slave.old }
    ensures follows { Follows (told_by near.new) (told_by far.new) master.new slave.new }
    ensures stays { Stays (told_by near.old) (told_by near.new) }
{
    if !is_live(master, near, slave, far)? {
        return Err("an old entry")?;
    }
    let moved = Follow::make().step(master, near, slave, far)?;
    Ok(Came::Moved(moved.map(|entry| entry.position)))
}

/// Applies the master's entry of the position to the slave.
fn apply_at(
    master: &mut StoreNode,
    near: &mut MapKeeper,
    slave: &mut StoreNode,
    far: &mut MapKeeper,
    position: u64,
) -> Result<Came, Fail>
    requires follows { Follows (told_by near.old) (told_by far.old) master.old slave.old }
    ensures follows { Follows (told_by near.new) (told_by far.new) master.new slave.new }
    ensures stays { Stays (told_by near.old) (told_by near.new) }
{
    let (entry, note) = entry_of(master, near, position)?;
    Ok(Came::Verdict(apply(slave, far, &entry, note)?))
}

/// Does a step.
fn play(
    alloc: Global,
    schema: &Schema,
    master: &mut StoreNode,
    near: &mut MapKeeper,
    slave: &mut StoreNode,
    far: &mut MapKeeper,
    step: Step,
) -> Result<Came, Fail>
    requires follows { Follows (told_by near.old) (told_by far.old) master.old slave.old }
    requires sound { AreSound (types_of schema.now) (told_by near.old) }
    ensures follows { Follows (told_by near.new) (told_by far.new) master.new slave.new }
    ensures sound { AreSound (types_of schema.now) (told_by near.new) }
{
    match step {
        Step::Add(seq) => {
            let (entry, _) = add(alloc, schema, master, near, seq)?;
            Ok(Came::Added(entry.position))
        }
        Step::Follow => move_next(master, near, slave, far),
        Step::Apply(position) => apply_at(master, near, slave, far, position),
    }
}

/// Each step with what comes of it.
const STEPS: [(Step, Came); 8] = [
    (Step::Follow, Came::Moved(None)),
    (Step::Add(1), Came::Added(1)),
    (Step::Add(2), Came::Added(2)),
    // An entry that others come before, or that was applied before, leaves the store.
    (Step::Apply(2), Came::Verdict(Applied::Gap { next: 1 })),
    (Step::Apply(1), Came::Verdict(Applied::Applied)),
    (Step::Apply(1), Came::Verdict(Applied::Old)),
    (Step::Follow, Came::Moved(Some(2))),
    (Step::Follow, Came::Moved(None)),
];

/// The master's store and the slave's, each over a keeper without tables.
fn opened(
    alloc: Global,
    near: &mut MapKeeper,
    far: &MapKeeper,
) -> Result<(StoreNode, StoreNode), Fail>
    requires empty { (at : StoreName) → told_by far.now at ≡ empty_table }
    ensures follows { IfOk result (λ stores. Follows (told_by near.new) (told_by far.now) stores.0 stores.1) }
    ensures stays { Stays (told_by near.old) (told_by near.new) }
{
    let mut master = open_master(alloc, near, HERE)?;
    let slave = StoreNode::slave(WEST, master.note()?, LOG_MAX);
    Ok((master, slave))
}

fn assert_steps(rt: &impl Abort, alloc: Global, schema: &Schema) -> Result<(), Fail> {
    let (mut near, mut far) = (empty_keeper(alloc), empty_keeper(alloc));
    let (mut master, mut slave) = opened(alloc, &mut near, &far)?;
    for (step, came) in STEPS {
        let said = play(
            alloc,
            schema,
            &mut master,
            &mut near,
            &mut slave,
            &mut far,
            step,
        )?;
        assert_eq!(rt; said, came, "{step:?}");
    }
    Ok(())
}

#[test]
fn a_slave_follows_its_master(rt: HostRuntime) -> Result<(), Fail> {
    let schema = schema(rt.alloc())?;
    assert_steps(&rt, rt.alloc(), &schema)
}
