//! The regions.
ghost use Rattle.std.specs.Prelude.{◌≡◌, List};
ghost use Rattle.std.specs.List.{list_all};
ghost use Rattle.topology.specs.Regions.{are_regions, is_region};

use super::name::Name;
use super::named::{Named, are_different};
use super::tiers::Tiers;
use std::marker::Model;

/// The most regions.
pub const MAX_REGIONS: usize = 4;

/// The most leaders of a region.
pub const MAX_LEADERS: u16 = 4;

/// A region: its name, the number of its leaders, which share the shards between them, and its tiers.
#[derive(Drop)]
pub struct Region {
    pub name: Name,
    pub leaders: u16,
    pub tiers: Tiers,
}

impl Named for Region {
    ghost named = { λ region. region.name };

    fn name(&self) -> &str {
        self.name.as_str()
    }
}

/// The regions, 1 to 4, under names of their own, each with 1 to 4 leaders. A region is its place
/// among them.
#[derive(Drop)]
pub struct Regions {
    regions: Vec<Region>,
}

impl Model for Regions {
    ghost use Rattle.std.specs.Prelude.{List, IsTrue};
    ghost use Rattle.topology.specs.Regions.{are_regions};
    ghost use Rattle.topology.specs.declared.regions.Region.{Region};

    ghost Value = { List Region };

    ghost view = { λ r. r.regions.items };

    ghost invariant = { λ r. IsTrue (are_regions r.regions.items) };
}

impl Regions {
    ghost use Rattle.std.specs.Prelude.{IsTrue};
    ghost use Rattle.std.specs.Bool.{then_some};
    ghost use Rattle.topology.specs.Regions.{are_regions, region_at};

    /// The regions of a vector, unless they break a rule. Takes no memory.
    pub fn of(regions: Vec<Region>) -> Option<Regions>
        ensures { result ≡ then_some (are_regions regions.items) regions.items }
    {
        if are_regions(regions.as_slice()) {
            Some(Regions { regions })
        } else {
            None
        }
    }

    /// The regions, each at its place.
    pub fn as_slice(&self) -> &[Region]
        ensures value { result.now ≡ self.now }
        ensures rules { IsTrue (are_regions self.now) }
    {
        self.regions.as_slice()
    }

    /// The place of the region of a name. Compares the name with each.
    pub fn find(&self, name: &str) -> Option<u16>
        ensures { result ≡ region_at self.now name.now }
    {
        for (place, region) in self.regions.iter().enumerate() {
            if name == region.name.as_str() {
                return Some(place as u16);
            }
        }
        None
    }

    /// The vector given back. Takes no memory.
    pub fn into_vec(self) -> Vec<Region>
        ensures { result.items ≡ self }
    {
        self.regions
    }
}

fn are_regions(regions: &[Region]) -> bool
    ensures { result ≡ are_regions regions.now }
{
    1 <= regions.len()
        && regions.len() <= MAX_REGIONS
        && keep_rules(regions)
        && are_different(regions)
}

/// Whether each region keeps the rules of its own.
fn keep_rules(regions: &[Region]) -> bool
    ensures { result ≡ list_all is_region regions.now }
{
    regions.iter().all(is_region)
}

fn is_region(region: &Region) -> bool
    ensures { result ≡ is_region region.now }
{
    1 <= region.leaders && region.leaders <= MAX_LEADERS
}
