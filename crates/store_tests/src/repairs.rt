//! A repair of one record, over a keeper and over two.
use crate::jobs::due_job;
use crate::rig::{HERE, THERE, empty_keeper, open_master};
use edge_repair::{run_between, run_first};
use keeper_map::MapKeeper;
use std::alloc::Global;
use std::test::Fail;
use tao_link::{Link, SteadyLink};

/// The position of the entry that the repair wrote, and how many carries it took.
type Repaired = (Option<u64>, u64);

fn repair_over_one(alloc: Global, keeper: &mut MapKeeper) -> Result<Repaired, Fail> {
    let mut from = open_master(alloc, keeper, HERE)?;
    let mut to = open_master(alloc, keeper, THERE)?;
    let job = due_job(alloc, keeper, &to)?;
    let mut link = SteadyLink::make();
    let repaired = run_first(alloc, &mut from, &mut to, keeper, &mut link, &job)?;
    Ok((repaired.wrote.map(|entry| entry.position), link.carries()))
}

fn repair_over_two(
    alloc: Global,
    near: &mut MapKeeper,
    far: &mut MapKeeper,
) -> Result<Repaired, Fail> {
    let mut from = open_master(alloc, near, HERE)?;
    let mut to = open_master(alloc, far, THERE)?;
    let job = due_job(alloc, far, &to)?;
    let mut link = SteadyLink::make();
    let repaired = run_between(alloc, &mut from, near, &mut to, far, &mut link, &job)?;
    Ok((repaired.wrote.map(|entry| entry.position), link.carries()))
}

#[test]
fn a_repair_merges_the_job(rt: HostRuntime) -> Result<(), Fail> {
    let alloc = rt.alloc();
    let (mut near, mut far) = (empty_keeper(alloc), empty_keeper(alloc));
    assert_eq!(rt; repair_over_two(alloc, &mut near, &mut far)?, (Some(1), 2));
    let mut both = empty_keeper(alloc);
    assert_eq!(rt; repair_over_one(alloc, &mut both)?, (Some(1), 2));
    Ok(())
}
