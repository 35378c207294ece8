//! What a trim of the master's log leaves: a write whose entry is old is refused, and the log is whole.
ghost use Rattle.keeper_map.specs.MapKeeper.{told_by};
ghost use Rattle.shard_tables.specs.declared.store.StoreRole.TheVariants.{Master};
ghost use Rattle.store_tests.specs.Stores.{AreSound, IsStoreAs};
ghost use Rattle.tao_keeper.specs.Table.{Stays};
ghost use Rattle.tao_schema.specs.Schema.{types_of};

use crate::rig::{HERE, empty_keeper, open_master, schema};
use keeper_map::MapKeeper;
use log_trim::trim;
use shard_tables::{StoreNode, StoreRefusal, Wrote, whole_log};
use std::alloc::Global;
use std::process::Abort;
use std::test::Fail;
use tao_base::{Data, Entry, OType, Origin, Write};
use tao_schema::Schema;

#[derive(Clone, Copy, Debug)]
enum Step {
    /// The write of this number is sent, for the first time or again.
    Write(u64),
    /// The log is trimmed to these marks.
    Trim([u64; 2]),
    /// The whole log is read.
    Read,
}

/// What came of a step.
#[derive(Clone, Copy, Debug, PartialEq, Eq)]
enum Came {
    /// The position of the entry that was added.
    Added(u64),
    /// The position of the entry that the write has since it was first sent.
    Stood(u64),
    /// The cut, and the position of the write's entry, which is old.
    TooOld(u64, u64),
    /// The cut that then stands.
    Cut(u64),
    /// How many entries there are, if each stands at its own position.
    Entries(Option<u64>),
}

/// What came of a write.
fn came_of(made: Result<Wrote, StoreRefusal>) -> Result<Came, Fail> {
    match made {
        Ok(Wrote { entry, retry, .. }) => {
            let entry = entry.ok_or("an object without an entry")?;
            if retry {
                return Ok(Came::Stood(entry.position));
            }
            Ok(Came::Added(entry.position))
        }
        Err(StoreRefusal::TooOld { cut, position }) => Ok(Came::TooOld(cut, position)),
        Err(refusal) => Err(refusal)?,
    }
}

/// Sends the write of this number, which adds an object.
fn write(
    alloc: Global,
    schema: &Schema,
    master: &mut StoreNode,
    keeper: &mut MapKeeper,
    seq: u64,
) -> Result<Came, Fail>
    requires master { IsStoreAs Master (told_by keeper.old) master.old }
    requires sound { AreSound (types_of schema.now) (told_by keeper.old) }
    ensures master { IsStoreAs Master (told_by keeper.new) master.new }
    ensures sound { AreSound (types_of schema.now) (told_by keeper.new) }
{
    let write = Write::ObjAdd {
        shard: master.name().shard,
        otype: OType(0),
        payload: Data::empty(alloc),
    };
    let origin = Origin::Client { session: 1, seq };
    came_of(master.write(alloc, keeper, schema, origin, &write))
}

/// Trims the log.
fn trim_to(
    schema: &Schema,
    master: &mut StoreNode,
    keeper: &mut MapKeeper,
    marks: [u64; 2],
) -> Result<Came, Fail>
    requires master { IsStoreAs Master (told_by keeper.old) master.old }
    requires sound { AreSound (types_of schema.now) (told_by keeper.old) }
    ensures master { IsStoreAs Master (told_by keeper.new) master.new }
    ensures sound { AreSound (types_of schema.now) (told_by keeper.new) }
{
    Ok(Came::Cut(trim(master, keeper, &marks)?))
}

/// How many entries there are, if each stands at its own position.
fn count_of(log: &[Entry]) -> Option<u64> {
    for place in 0..log.len() {
        if log[place].position != place as u64 + 1 {
            return None;
        }
    }
    Some(log.len() as u64)
}

/// Reads the whole log.
fn read(alloc: Global, keeper: &mut MapKeeper) -> Result<Came, Fail>
    ensures { Stays (told_by keeper.old) (told_by keeper.new) }
{
    let log = whole_log(alloc, keeper, HERE)?;
    Ok(Came::Entries(count_of(&log)))
}

/// Does a step.
fn play(
    alloc: Global,
    schema: &Schema,
    master: &mut StoreNode,
    keeper: &mut MapKeeper,
    step: Step,
) -> Result<Came, Fail>
    requires master { IsStoreAs Master (told_by keeper.old) master.old }
    requires sound { AreSound (types_of schema.now) (told_by keeper.old) }
    ensures master { IsStoreAs Master (told_by keeper.new) master.new }
    ensures sound { AreSound (types_of schema.now) (told_by keeper.new) }
{
    match step {
        Step::Write(seq) => write(alloc, schema, master, keeper, seq),
        Step::Trim(marks) => trim_to(schema, master, keeper, marks),
        Step::Read => read(alloc, keeper),
    }
}

/// Each step with what comes of it.
const STEPS: [(Step, Came); 14] = [
    (Step::Write(1), Came::Added(1)),
    (Step::Write(2), Came::Added(2)),
    (Step::Write(3), Came::Added(3)),
    // The cut comes to the least mark, and never goes back.
    (Step::Trim([3, 1]), Came::Cut(1)),
    (Step::Trim([0, 2]), Came::Cut(1)),
    (Step::Trim([2, 2]), Came::Cut(2)),
    // What was written up to the cut is refused when it is sent again, and what was written past it is answered.
    (Step::Write(1), Came::TooOld(2, 1)),
    (Step::Write(2), Came::TooOld(2, 2)),
    (Step::Write(3), Came::Stood(3)),
    (Step::Read, Came::Entries(Some(3))),
    (Step::Write(4), Came::Added(4)),
    // The cut doesn't pass the log's end.
    (Step::Trim([9, 9]), Came::Cut(4)),
    (Step::Write(4), Came::TooOld(4, 4)),
    (Step::Read, Came::Entries(Some(4))),
];

fn assert_steps(rt: &impl Abort, alloc: Global, schema: &Schema) -> Result<(), Fail> {
    let mut keeper = empty_keeper(alloc);
    let mut master = open_master(alloc, &mut keeper, HERE)?;
    for (step, came) in STEPS {
        let said = play(alloc, schema, &mut master, &mut keeper, step)?;
        assert_eq!(rt; said, came, "{step:?}");
    }
    Ok(())
}

#[test]
fn a_trim_leaves_the_log_whole(rt: HostRuntime) -> Result<(), Fail> {
    let schema = schema(rt.alloc())?;
    assert_steps(&rt, rt.alloc(), &schema)
}
