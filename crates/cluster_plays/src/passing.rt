//! The passes of sessions.
ghost use Rattle.std.specs.Prelude.{◌≡◌, [], IfSome};
ghost use Rattle.shared_tiers.specs.locked_nodes.Passes.{IsPassOf};

use core_model::tier_count;
use keepers::SteadyKeeper;
use session_pass::Pass;
use shared_stores::Sharing;
use shared_tiers::Cluster;
use std::sync::Wait;

/// A cluster over keepers that never fail.
pub type Steady<'c, J> = Cluster<'c, SteadyKeeper, J>;

/// The pass of a session of a tier, by the places of its region and of the tier in that, which was told of nothing yet. None for want of memory, or where the
/// tier isn't configured.
pub fn pass_of<J: Sharing, R: Wait>(
    rt: &R,
    cluster: &Steady<'_, J>,
    session: u32,
    home: (u16, u16),
) -> Option<Pass>
    ensures pass { IfSome result (IsPassOf J.making J.log) }
    ensures untold { IfSome result (λ pass. pass.floors ≡ []) }
{
    let (region, tier) = home;
    let config = cluster.config();
    if usize::from(region) >= config.regions.as_slice().len()
        || tier >= tier_count(config, region)
    {
        return None;
    }
    match cluster.pass(rt, session, region, tier) {
        Ok(pass) => Some(pass),
        Err(_) => None,
    }
}
