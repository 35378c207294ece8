//! With memory, a table is made: no contract says so, since out of memory needs no cause.
use crate::CloneTable;
use node_name::NodeName;
use std::alloc::Global;
use std::process::Abort;
use std::test::Fail;
use tao_base::Text;
use tao_schema::{AssocLine, Schema};
use topology::{Config, MasterRegions, Name, Region, Regions, Tier, Tiers, Topology};

/// The follower that serves the shard by itself.
const PREFERRED: NodeName = NodeName::Follower {
    region: 0,
    tier: 0,
    index: 0,
};

/// The other follower of its tier.
const OTHER: NodeName = NodeName::Follower {
    region: 0,
    tier: 0,
    index: 1,
};

#[test]
fn a_clone_takes_the_odd_sessions(rt: HostRuntime) -> Result<(), Fail> {
    let alloc = rt.alloc();
    let config = config(&rt, alloc)?;
    let topology = Topology::make(alloc, &config)?;
    let mut table = CloneTable::make(alloc, &config)?;
    assert!(rt; table.set(OTHER, 0, true));
    assert!(rt; !table.set(OTHER, 0, true));
    assert!(rt; table.pick(&topology, 0, 0, 0, 1) == Some(OTHER));
    assert!(rt; table.pick(&topology, 0, 0, 0, 2) == Some(PREFERRED));
    Ok(())
}

/// One shard, in one region with one tier of two followers.
fn config(rt: &impl Abort, alloc: Global) -> Result<Config, Fail> {
    let regions = regions(alloc)?;
    assert!(rt; 0 < regions.as_slice().len());
    Ok(Config {
        schema: schema(alloc)?,
        shards: 1,
        regions,
        masters: MasterRegions::of(vec![in alloc; 0; 1]?).ok_or("masters")?,
        log_max: 1,
        cache_items: 1,
    })
}

fn regions(alloc: Global) -> Result<Regions, Fail> {
    let mut tiers = Vec::new(alloc);
    tiers.push(Tier {
        name: name(alloc, "t1")?,
        followers: 2,
    })?;
    let mut regions = Vec::new(alloc);
    regions.push(Region {
        name: name(alloc, "east")?,
        leaders: 1,
        tiers: Tiers::of(tiers).ok_or("tiers")?,
    })?;
    Ok(Regions::of(regions).ok_or("regions")?)
}

fn name(alloc: Global, text: &str) -> Result<Name, Fail> {
    Ok(Name::read(Text::copy_of(alloc, text)?).ok_or("a name")?)
}

fn schema(alloc: Global) -> Result<Schema, Fail> {
    let objects = vec![in alloc; Text::copy_of(alloc, "user")?]?;
    let likes = AssocLine {
        name: Text::copy_of(alloc, "likes")?,
        inverse: None,
        bound: 1,
    };
    let assocs = vec![in alloc; likes]?;
    Ok(Schema::read(alloc, &objects, &assocs)?)
}
