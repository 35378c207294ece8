//! `Conn`, one connection as a piece of work.
ghost use Rattle.std.specs.Prelude.{IfSome};
ghost use Rattle.session_pass.specs.Floors.{HasNoFloors};
ghost use Rattle.shared_tiers.specs.locked_nodes.Passes.{IsPassOf};

use crate::talking::talk;
use core_model::tier_count;
use read_herds::Herd;
use session_pass::Pass;
use shared_stores::Sharing;
use shared_tiers::Cluster;
use std::alloc::AllocGlobal;
use std::random::RandomSource;
use std::sync::Wait;
use tao_io::{Sink, Source, Status};
use tao_keeper::Keeper;
use tao_link::SteadyLink;
use work_server::Work;

/// One connection to a cluster, which is to be talked over: its source and its sink, with a link of its own.
#[derive(Drop)]
pub struct Conn<'a, 'c, W, R, S, K: Keeper, J: Sharing> {
    pub rt: &'a W,
    pub cluster: &'a Cluster<'c, K, J>,
    pub herd: &'a Herd,
    pub input: R,
    pub output: S,
    pub link: SteadyLink,
}

/// The pass of a connection that has no session yet: it has no number and is of the first tier, which every configuration has. None for want of memory.
#[tactic(auto, using(crate::proofs::StepLemmas::no_floors))]
fn unnamed_pass<W: Wait, K: Keeper, J: Sharing>(rt: &W, cluster: &Cluster<'_, K, J>) -> Option<Pass>
    ensures pass { IfSome result (IsPassOf J.making J.log) }
    ensures untold { IfSome result (λ pass. HasNoFloors pass.floors) }
{
    let config = cluster.config();
    if config.regions.as_slice().is_empty() || tier_count(config, 0) == 0 {
        return None;
    }
    match cluster.pass(rt, 0, 0, 0) {
        Ok(pass) => Some(pass),
        Err(_) => None,
    }
}

impl<
    W: Wait + RandomSource + AllocGlobal,
    R: Source + Drop,
    S: Sink + Drop,
    K: Keeper,
    J: Sharing,
> Work for Conn<'_, '_, W, R, S, K, J> {
    /// Talks over the connection by a pass of its own. The status is that of `talk`, and 7 where there was no memory for the pass.
    fn run(self) -> Status {
        let Conn {
            rt,
            cluster,
            herd,
            mut input,
            mut output,
            mut link,
        } = self;
        match unnamed_pass(rt, cluster) {
            Some(mut pass) => talk(
                rt,
                cluster,
                herd,
                &mut pass,
                &mut input,
                &mut output,
                &mut link,
            ),
            None => Status { code: 7 },
        }
    }
}
