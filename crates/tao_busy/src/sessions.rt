//! The passes of a thread: one for each session of the workload.
ghost use Rattle.std.specs.Prelude.{◌≡◌, ◌≤◌, ◌<◌, ◌+◌, ◌*◌, IfOk, OnOk, length};
ghost use Rattle.core_model.specs.Fleet.{regions_of};
ghost use Rattle.load_shares.specs.Seen.{EachPass};
ghost use Rattle.shared_tiers.specs.locked_nodes.Nodes.{HasTier};
ghost use Rattle.shared_tiers.specs.locked_nodes.Passes.{IsPassOf};
ghost use Rattle.tao_busy.specs.Refusing.{AreNumbered, HaveEachSession};
ghost use Rattle.topology.specs.Counts.{tier_count};

use cluster_hands::region_count;
use core_model::tier_count;
use session_pass::Pass;
use shared_stores::Sharing;
use shared_tiers::Cluster;
use std::alloc::Global;
use std::sync::Wait;
use tao_base::OutOfMemory;
use tao_keeper::Keeper;

/// Adds the pass of a tier, which comes next: its session is the next one.
fn add_pass<K: Keeper, J: Sharing, R: Wait>(
    rt: &R,
    cluster: &Cluster<'_, K, J>,
    region: u16,
    tier: u16,
    passes: &mut Vec<Pass>,
) -> Result<(), OutOfMemory>
    requires home { region < length J.making.settings.regions }
    requires tier { HasTier J.making.settings region tier }
    requires passes { EachPass (IsPassOf J.making J.log) passes.old.items }
    requires numbered { AreNumbered passes.old.items }
    requires few { length passes.old.items < 4294967295 }
    ensures passes { OnOk result (EachPass (IsPassOf J.making J.log) passes.new.items) }
    ensures numbered { OnOk result (AreNumbered passes.new.items) }
    ensures more { OnOk result (length passes.new.items ≡ length passes.old.items + 1) }
{
    let session = passes.len() as u32 + 1;
    let pass = cluster.pass(rt, session, region, tier)?;
    passes.push(pass)?;
    Ok(())
}

/// Adds the passes of a region's tiers, in their order.
fn add_passes<K: Keeper, J: Sharing, R: Wait>(
    rt: &R,
    cluster: &Cluster<'_, K, J>,
    region: u16,
    passes: &mut Vec<Pass>,
) -> Result<(), OutOfMemory>
    requires home { region < length J.making.settings.regions }
    requires passes { EachPass (IsPassOf J.making J.log) passes.old.items }
    requires numbered { AreNumbered passes.old.items }
    requires few { length passes.old.items ≤ region * 65535 }
    ensures passes { OnOk result (EachPass (IsPassOf J.making J.log) passes.new.items) }
    ensures numbered { OnOk result (AreNumbered passes.new.items) }
    ensures more { OnOk result (length passes.new.items ≡ length passes.old.items + tier_count (regions_of J.making.settings) region) }
    ensures few { OnOk result (length passes.new.items ≤ (region + 1) * 65535) }
{
    for tier in 0..tier_count(cluster.config(), region) {
        add_pass(rt, cluster, region, tier, passes)?;
    }
    Ok(())
}

/// A pass for each session of a workload: one for each tier of the configuration, by numbers from 1.
pub(crate) fn open_passes<K: Keeper, J: Sharing, R: Wait>(
    rt: &R,
    alloc: Global,
    cluster: &Cluster<'_, K, J>,
) -> Result<Vec<Pass>, OutOfMemory>
    ensures passes { IfOk result (λ passes. EachPass (IsPassOf J.making J.log) passes.items) }
    ensures sessions { IfOk result (λ passes. HaveEachSession J.making.settings passes.items) }
{
    let mut passes = Vec::new(alloc);
    for region in 0..region_count(cluster.config()) {
        add_passes(rt, cluster, region, &mut passes)?;
    }
    Ok(passes)
}
