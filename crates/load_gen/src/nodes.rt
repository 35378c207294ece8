//! The cache nodes of a configuration, in order.
ghost use Rattle.std.specs.Prelude.{◌≡◌, ◌≤◌, IfOk, length, map};
ghost use Rattle.std.specs.List.{range_with_len};
ghost use Rattle.load_gen.specs.Nodes.{nodes_from, region_nodes};
ghost use Rattle.node_name.specs.declared.NodeName.TheVariants.{Follower as FollowerName, Leader as LeaderName};

use node_name::NodeName;
use std::alloc::{AllocError, Global};
use topology::Region;

/// The leaders of a region that has so many.
fn leaders(alloc: Global, region: u16, count: u16) -> Result<Vec<NodeName>, AllocError>
    ensures { IfOk result (λ nodes. nodes.items ≡ map (LeaderName region) (range_with_len 0 count)) }
{
    (0..count)
        .map(|index| NodeName::Leader { region, index })
        .collect(alloc)
}

/// The followers of a tier that has so many.
fn followers(alloc: Global, region: u16, tier: u16, count: u16) -> Result<Vec<NodeName>, AllocError>
    ensures { IfOk result (λ nodes. nodes.items ≡ map (FollowerName region tier) (range_with_len 0 count)) }
{
    (0..count)
        .map(|index| NodeName::Follower {
            region,
            tier,
            index,
        })
        .collect(alloc)
}

/// The cache nodes of the region at a place: its leaders, then its tiers' followers.
#[tactic(auto, using(crate::proofs::Few::few_tiers))]
fn region_nodes(alloc: Global, place: u16, region: &Region) -> Result<Vec<NodeName>, AllocError>
    ensures { IfOk result (λ nodes. nodes.items ≡ region_nodes place region.now) }
{
    let mut nodes = leaders(alloc, place, region.leaders)?;
    let tiers = region.tiers.as_slice();
    for (tier_place, tier) in tiers.iter().enumerate() {
        let of_tier = followers(alloc, place, tier_place as u16, tier.followers)?;
        nodes.extend_from_slice(&of_tier)?;
    }
    Ok(nodes)
}

/// The cache nodes of the regions, region by region.
pub(crate) fn cache_nodes(alloc: Global, regions: &[Region]) -> Result<Vec<NodeName>, AllocError>
    requires { length regions.now ≤ 4 }
    ensures { IfOk result (λ nodes. nodes.items ≡ nodes_from 0 regions.now) }
{
    let mut nodes = Vec::new(alloc);
    for (place, region) in regions.iter().enumerate() {
        let of_region = region_nodes(alloc, place as u16, region)?;
        nodes.extend_from_slice(&of_region)?;
    }
    Ok(nodes)
}
