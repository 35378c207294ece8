//! The requests of two seeds, beside what a program outside of this repository gives, which was written from the workload's table alone.
ghost use Rattle.std.specs.Prelude.{IsTrue};
ghost use Rattle.topology.specs.Named.{in_range};

use load_gen::Workload;
use requests::{
    CacheRequest, Call, EdgeName, QueryText, ReadCall, Request, StoreRequest, WriteCall, WriteText,
};
use std::alloc::{AllocError, Global};
use std::process::Abort;
use std::test::Fail;
use tao_base::{Data, Text};
use tao_schema::{AssocLine, Schema};
use topology::{Config, MasterRegions, Name, Region, Regions, Tier, Tiers};

/// The requests of seed 0 and one call over one shard.
const SEED_0: [&str; 3] = ["open 1 east t1", "assoc_count 1 37 likes", "settle"];

/// The requests of seed 7 and 20 calls over two regions.
const SEED_7: [&str; 25] = [
    "open 1 east t1",
    "open 2 east t2",
    "open 3 west t1",
    "open 4 west t2",
    "deliver west/t2/0 0",
    "assoc_add 2 2 281474976710676 friend 1125899906842664 686",
    "assoc_delete 4 3 31 likes 562949953421318",
    "stream east 7",
    "assoc_range 2 1688849860263985 likes 0 10",
    "assoc_add 1 6 281474976710700 friend 18 350",
    "assoc_delete 2 7 844424930131978 comments 1125899906842627",
    "assoc_delete 4 8 11 friend 5",
    "assoc_add 3 9 562949953421335 liked_by 1407374883553299 74",
    "assoc_add 1 10 7 comments 1970324836974626 363",
    "obj_add 4 11 1 user n=11",
    "assoc_add 1 12 562949953421334 liked_by 1688849860263960 808",
    "assoc_delete 3 13 1407374883553281 liked_by 36",
    "assoc_range 1 281474976710706 liked_by 0 10",
    "assoc_count 4 844424930131994 likes",
    "assoc_count 3 9 comments",
    "assoc_range 2 1970324836974609 liked_by 0 10",
    "assoc_delete 1 18 844424930131970 comments 45",
    "assoc_add 2 19 844424930131997 friend 1407374883553285 482",
    "assoc_add 3 20 1970324836974620 liked_by 562949953421313 170",
    "settle",
];

#[test]
fn one_call_over_one_shard(rt: HostRuntime) -> Result<(), Fail> {
    let alloc = rt.alloc();
    let mut regions = Vec::new(alloc);
    regions.push(region(alloc, "east", 1, &[("t1", 1)])?)?;
    let assocs = lines(alloc, &[("likes", "")])?;
    let config = config(&rt, alloc, 1, &texts(alloc, &["user"])?, &assocs, regions)?;
    compare(&rt, alloc, Workload::make(alloc, &config, 0, 1)?, &SEED_0)
}

#[test]
fn twenty_calls_over_two_regions(rt: HostRuntime) -> Result<(), Fail> {
    let alloc = rt.alloc();
    let mut regions = Vec::new(alloc);
    regions.push(region(alloc, "east", 2, &[("t1", 2), ("t2", 2)])?)?;
    regions.push(region(alloc, "west", 1, &[("t1", 1), ("t2", 1)])?)?;
    let types = [
        ("friend", "friend"),
        ("likes", "liked_by"),
        ("liked_by", "likes"),
        ("comments", ""),
    ];
    let objects = texts(alloc, &["user", "post", "comment"])?;
    let config = config(&rt, alloc, 8, &objects, &lines(alloc, &types)?, regions)?;
    compare(&rt, alloc, Workload::make(alloc, &config, 7, 20)?, &SEED_7)
}

/// Compares all requests with their rows. After the last one there is none, also when asked again.
fn compare(
    rt: &impl Abort,
    alloc: Global,
    mut workload: Workload,
    rows: &[&str],
) -> Result<(), Fail> {
    for row in rows {
        let came = workload.next(alloc)?;
        assert_eq!(rt; said(alloc, &came)?.as_str(), *row);
    }
    for _ in 0..2 {
        let came = workload.next(alloc)?;
        assert_eq!(rt; said(alloc, &came)?.as_str(), "");
    }
    Ok(())
}

fn text(alloc: Global, text: &str) -> Result<Text, AllocError> {
    Text::copy_of(alloc, text)
}

fn texts(alloc: Global, rows: &[&str]) -> Result<Vec<Text>, AllocError> {
    let mut texts = Vec::new(alloc);
    for row in rows {
        texts.push(text(alloc, row)?)?;
    }
    Ok(texts)
}

/// Association types by their names and the names of their inverses, empty where there is none.
fn lines(alloc: Global, rows: &[(&str, &str)]) -> Result<Vec<AssocLine>, AllocError> {
    let mut lines = Vec::new(alloc);
    for (name, inverse) in rows {
        let inverse = text(alloc, inverse)?;
        lines.push(AssocLine {
            name: text(alloc, name)?,
            inverse: if inverse.as_str().is_empty() {
                None
            } else {
                Some(inverse)
            },
            bound: 6_000,
        })?;
    }
    Ok(lines)
}

/// A region with tiers of so many followers.
fn region(alloc: Global, name: &str, leaders: u16, rows: &[(&str, u16)]) -> Result<Region, Fail> {
    let mut tiers = Vec::new(alloc);
    for (tier, followers) in rows {
        tiers.push(Tier {
            name: Name::read(text(alloc, tier)?).ok_or("a tier's name")?,
            followers: *followers,
        })?;
    }
    Ok(Region {
        name: Name::read(text(alloc, name)?).ok_or("a region's name")?,
        leaders,
        tiers: Tiers::of(tiers).ok_or("tiers")?,
    })
}

/// A configuration whose first region is the master of all shards.
fn config(
    rt: &impl Abort,
    alloc: Global,
    shards: u16,
    objects: &[Text],
    assocs: &[AssocLine],
    regions: Vec<Region>,
) -> Result<Config, Fail>
    requires { IsTrue (in_range 1 64 shards) }
{
    let regions = Regions::of(regions).ok_or("regions")?;
    assert!(rt; 0 < regions.as_slice().len());
    Ok(Config {
        schema: Schema::read(alloc, objects, assocs)?,
        shards,
        regions,
        masters: MasterRegions::of(vec![in alloc; 0; 1]?).ok_or("masters")?,
        log_max: 16_384,
        cache_items: 1_024,
    })
}

/// A request as its word and its fields; nothing where none came.
fn said(alloc: Global, came: &Option<Request>) -> Result<String, AllocError> {
    match came {
        None => String::from_str(alloc, ""),
        Some(Request::Open(open)) => {
            let (region, tier) = (open.region.as_str(), open.tier.as_str());
            format!(in alloc; "open {} {region} {tier}", open.session)
        }
        Some(Request::Call(Call::Write(write))) => write_said(alloc, write),
        Some(Request::Call(Call::Read(read))) => read_said(alloc, read),
        Some(Request::Cache(CacheRequest::Deliver(name))) => {
            let node = name.node.as_str();
            format!(in alloc; "deliver {node} {}", name.message)
        }
        Some(
            Request::Store(
                StoreRequest::Stream {
                    region,
                    shard,
                    position: None,
                },
            ),
        ) => {
            let region = region.as_str();
            format!(in alloc; "stream {region} {shard}")
        }
        Some(Request::Store(StoreRequest::Settle)) => String::from_str(alloc, "settle"),
        Some(_) => String::from_str(alloc, "another request"),
    }
}

fn write_said(alloc: Global, call: &WriteCall) -> Result<String, AllocError> {
    let (session, seq) = (call.session, call.seq);
    match &call.write {
        WriteText::ObjAdd {
            shard,
            otype,
            payload,
        } => {
            let (otype, payload) = (otype.as_str(), data_said(alloc, payload)?);
            let payload = payload.as_str();
            format!(in alloc; "obj_add {session} {seq} {shard} {otype}{payload}")
        }
        WriteText::AssocAdd {
            edge,
            time,
            payload,
        } => {
            let (edge, payload) = (edge_said(alloc, edge)?, data_said(alloc, payload)?);
            let (edge, payload) = (edge.as_str(), payload.as_str());
            format!(in alloc; "assoc_add {session} {seq} {edge} {time}{payload}")
        }
        WriteText::AssocDelete { edge } => {
            let edge = edge_said(alloc, edge)?;
            let edge = edge.as_str();
            format!(in alloc; "assoc_delete {session} {seq} {edge}")
        }
        _ => String::from_str(alloc, "another write"),
    }
}

fn read_said(alloc: Global, call: &ReadCall) -> Result<String, AllocError> {
    let session = call.session;
    match &call.query {
        QueryText::AssocRange { list, pos, limit } => {
            let (id1, atype) = (list.id1.number(), list.atype.as_str());
            format!(in alloc; "assoc_range {session} {id1} {atype} {pos} {limit}")
        }
        QueryText::AssocCount { list } => {
            let (id1, atype) = (list.id1.number(), list.atype.as_str());
            format!(in alloc; "assoc_count {session} {id1} {atype}")
        }
        _ => String::from_str(alloc, "another read"),
    }
}

fn edge_said(alloc: Global, edge: &EdgeName) -> Result<String, AllocError> {
    let (id1, id2) = (edge.list.id1.number(), edge.id2.number());
    let atype = edge.list.atype.as_str();
    format!(in alloc; "{id1} {atype} {id2}")
}

/// The pairs of data, each after a space.
fn data_said(alloc: Global, payload: &Data) -> Result<String, AllocError> {
    let mut said = String::new(alloc);
    for pair in payload.pairs() {
        let (key, value) = (pair.key.as_str(), pair.value.as_str());
        said.push_str(format!(in alloc; " {key}={value}")?.as_str())?;
    }
    Ok(said)
}
