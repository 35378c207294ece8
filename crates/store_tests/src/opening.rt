//! The opening of a shard's stores over what one keeper has.
ghost use Rattle.std.specs.Prelude.{IfOk};
ghost use Rattle.keeper_map.specs.MapKeeper.{told_by};
ghost use Rattle.store_tests.specs.Stores.{AreSound, Follows};
ghost use Rattle.tao_schema.specs.Schema.{types_of};

use crate::rig::{HERE, LOG_MAX, WEST, add, empty_keeper, entry_of, open_master, schema};
use keeper_map::MapKeeper;
use region_stream::{Applied, ShardRefusal, ShardStores, apply, open_shard};
use shard_tables::StoreNode;
use std::alloc::Global;
use std::test::Fail;
use tao_base::StoreName;
use tao_schema::Schema;

/// Writes the store's log: an object for each of these numbers.
pub(crate) fn write_log(
    alloc: Global,
    keeper: &mut MapKeeper,
    schema: &Schema,
    name: StoreName,
    seqs: &[u64],
) -> Result<(), Fail>
    requires { AreSound (types_of schema.now) (told_by keeper.old) }
    ensures { AreSound (types_of schema.now) (told_by keeper.new) }
{
    let mut store = open_master(alloc, keeper, name)?;
    for seq in seqs {
        add(alloc, schema, &mut store, keeper, *seq)?;
    }
    Ok(())
}

/// A keeper that has these logs.
fn keeper_of(alloc: Global, east: &[u64], west: &[u64]) -> Result<MapKeeper, Fail> {
    let schema = schema(alloc)?;
    let mut keeper = empty_keeper(alloc);
    write_log(alloc, &mut keeper, &schema, HERE, east)?;
    write_log(alloc, &mut keeper, &schema, WEST, west)?;
    Ok(keeper)
}

/// Why the stores of these logs aren't opened. None where they are.
fn refusal_of(alloc: Global, east: &[u64], west: &[u64]) -> Result<Option<ShardRefusal>, Fail> {
    let mut keeper = keeper_of(alloc, east, west)?;
    Ok(open_shard(alloc, &mut keeper, HERE, &[WEST], LOG_MAX).err())
}

/// The shard's master and its slave, opened over the keeper's logs.
fn opened(alloc: Global, keeper: &mut MapKeeper) -> Result<(StoreNode, StoreNode), Fail>
    ensures { IfOk result (λ stores. Follows (told_by keeper.new) (told_by keeper.new) stores.0 stores.1) }
{
    let ShardStores { master, mut slaves } = open_shard(alloc, keeper, HERE, &[WEST], LOG_MAX)?;
    let Some(slave) = slaves.pop() else {
        return Err("no slave")?;
    };
    Ok((master, slave))
}

/// The slave's log isn't its master's first at this position.
const fn disagree(position: u64) -> Option<ShardRefusal> {
    Some(ShardRefusal::Disagree {
        store: WEST,
        position,
    })
}

#[test]
fn stores_are_opened_where_their_logs_agree(rt: HostRuntime) -> Result<(), Fail> {
    let rows: [(&[u64], &[u64], Option<ShardRefusal>); 6] = [
        // The slave's log begins its master's.
        (&[], &[], None),
        (&[1, 2], &[1], None),
        (&[1, 2], &[1, 2], None),
        // Another entry stands at the position.
        (&[1], &[2], disagree(1)),
        (&[1, 2], &[1, 3], disagree(2)),
        // The slave's log goes on past its master's.
        (&[1], &[1, 2], disagree(2)),
    ];
    for (east, west, refusal) in rows {
        assert_eq!(rt;
            refusal_of(rt.alloc(), east, west)?,
            refusal,
            "{east:?} {west:?}"
        );
    }
    Ok(())
}

#[test]
fn an_opened_slave_takes_the_next_entry(rt: HostRuntime) -> Result<(), Fail> {
    let alloc = rt.alloc();
    let mut keeper = keeper_of(alloc, &[1, 2], &[1])?;
    let (mut master, mut slave) = opened(alloc, &mut keeper)?;
    let (entry, note) = entry_of(&mut master, &mut keeper, 2)?;
    assert_eq!(rt; slave.name(), WEST);
    assert_eq!(rt;
        apply(&mut slave, &mut keeper, &entry, note)?,
        Applied::Applied
    );
    assert_eq!(rt; slave.length(&mut keeper)?, 2);
    Ok(())
}
