//! How many followers a region's tiers have.
ghost use Rattle.std.specs.Prelude.{◌≡◌, ◌≤◌, All, IfOk, IsTrue, length, map, slice_get, unwrap_or};
ghost use Rattle.topology.specs.Counts.{KeepCounts, counts_of};
ghost use Rattle.topology.specs.Regions.{is_region};

use std::alloc::{AllocError, Global};
use std::marker::Model;
use topology::tiers::Tiers;
use topology::{Region, Regions};

/// How many leaders a region has, and how many followers each of its tiers.
#[derive(Drop)]
pub(crate) struct Counts {
    leaders: u16,
    followers: Vec<u16>,
}

impl Model for Counts {
    ghost use Rattle.topology.specs.Counts.{KeepCounts, NodeCounts};

    ghost Value = { NodeCounts };

    ghost view = { λ c. record { leaders = c.leaders; followers = c.followers.items } };

    ghost invariant = { λ c. KeepCounts (record { leaders = c.leaders; followers = c.followers.items }) };
}

impl Counts {
    /// Those of a region.
    fn of(alloc: Global, region: &Region) -> Result<Counts, AllocError>
        requires { IsTrue (is_region region.now) }
        ensures counts { IfOk result (λ counts. counts ≡ counts_of region.now) }
        ensures few { IfOk result KeepCounts }
    {
        Ok(Counts {
            leaders: region.leaders,
            followers: follower_counts(alloc, &region.tiers)?,
        })
    }

    /// How many tiers.
    pub(crate) fn tiers(&self) -> u16
        ensures { result ≡ length self.now.followers }
    {
        self.followers.len() as u16
    }

    /// How many followers the tier at a place has. None where there is no such tier.
    pub(crate) fn followers(&self, tier: u16) -> u16
        ensures { result ≡ unwrap_or (slice_get self.now.followers tier) 0 }
    {
        match self.followers.get(usize::from(tier)) {
            Some(count) => *count,
            None => 0,
        }
    }
}

fn follower_counts(alloc: Global, tiers: &Tiers) -> Result<Vec<u16>, AllocError>
    ensures few { IfOk result (λ counts. (length counts.items ≤ 4) × All (λ count. (1 ≤ count) × (count ≤ 4)) counts.items) }
    ensures counts { IfOk result (λ counts. counts.items ≡ map (λ tier. tier.followers) tiers.now) }
{
    tiers
        .as_slice()
        .iter()
        .map(|tier| tier.followers)
        .collect(alloc)
}

/// How many nodes each region has.
pub(crate) fn region_counts(alloc: Global, regions: &Regions) -> Result<Vec<Counts>, AllocError>
    ensures few { IfOk result (λ counts. (length counts.items ≤ 4) × All KeepCounts counts.items) }
    ensures counts { IfOk result (λ counts. counts.items ≡ map counts_of regions.now) }
{
    let regions = regions.as_slice();
    let mut counts = Vec::with_capacity(alloc, regions.len())?;
    for region in regions {
        counts.push(Counts::of(alloc, region)?)?;
    }
    Ok(counts)
}
