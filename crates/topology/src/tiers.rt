//! The follower tiers of a region.
ghost use Rattle.std.specs.Prelude.{◌≡◌, List};
ghost use Rattle.std.specs.List.{list_all};
ghost use Rattle.topology.specs.Tiers.{are_tiers, is_reserved, is_tier};

use super::name::Name;
use super::named::{Named, are_different};
use std::marker::Model;

/// The most tiers of a region.
pub const MAX_TIERS: usize = 4;

/// The most followers of a tier.
pub const MAX_FOLLOWERS: u16 = 4;

/// A tier: its name and the number of its followers, which share the shards between them.
#[derive(Drop)]
pub struct Tier {
    pub name: Name,
    pub followers: u16,
}

impl Named for Tier {
    ghost named = { λ tier. tier.name };

    fn name(&self) -> &str {
        self.name.as_str()
    }
}

/// The tiers of a region, 1 to 4, under names of their own: none is `leader` or `store`, which are
/// names of other nodes. Each has 1 to 4 followers. A tier is its place among them.
#[derive(Drop)]
pub struct Tiers {
    tiers: Vec<Tier>,
}

impl Model for Tiers {
    ghost use Rattle.std.specs.Prelude.{List, IsTrue};
    ghost use Rattle.topology.specs.Tiers.{are_tiers};
    ghost use Rattle.topology.specs.declared.tiers.Tier.{Tier};

    ghost Value = { List Tier };

    ghost view = { λ t. t.tiers.items };

    ghost invariant = { λ t. IsTrue (are_tiers t.tiers.items) };
}

impl Tiers {
    ghost use Rattle.std.specs.Prelude.{IsTrue};
    ghost use Rattle.std.specs.Bool.{then_some};
    ghost use Rattle.topology.specs.Tiers.{are_tiers, tier_at};

    /// The tiers of a vector, unless they break a rule. Takes no memory.
    pub fn of(tiers: Vec<Tier>) -> Option<Tiers>
        ensures { result ≡ then_some (are_tiers tiers.items) tiers.items }
    {
        if are_tiers(tiers.as_slice()) {
            Some(Tiers { tiers })
        } else {
            None
        }
    }

    /// The tiers, each at its place.
    pub fn as_slice(&self) -> &[Tier]
        ensures value { result.now ≡ self.now }
        ensures rules { IsTrue (are_tiers self.now) }
    {
        self.tiers.as_slice()
    }

    /// The place of the tier of a name. Compares the name with each.
    pub fn find(&self, name: &str) -> Option<u16>
        ensures { result ≡ tier_at self.now name.now }
    {
        for (place, tier) in self.tiers.iter().enumerate() {
            if name == tier.name.as_str() {
                return Some(place as u16);
            }
        }
        None
    }

    /// The vector given back. Takes no memory.
    pub fn into_vec(self) -> Vec<Tier>
        ensures { result.items ≡ self }
    {
        self.tiers
    }
}

fn are_tiers(tiers: &[Tier]) -> bool
    ensures { result ≡ are_tiers tiers.now }
{
    1 <= tiers.len() && tiers.len() <= MAX_TIERS && keep_rules(tiers) && are_different(tiers)
}

/// Whether each tier keeps the rules of its own.
fn keep_rules(tiers: &[Tier]) -> bool
    ensures { result ≡ list_all is_tier tiers.now }
{
    tiers.iter().all(is_tier)
}

fn is_tier(tier: &Tier) -> bool
    ensures { result ≡ is_tier tier.now }
{
    !is_reserved(tier.name.as_str()) && 1 <= tier.followers && tier.followers <= MAX_FOLLOWERS
}

/// Whether a region's other nodes are named so.
fn is_reserved(name: &str) -> bool
    ensures { result ≡ is_reserved name.now }
{
    name == "leader" || name == "store"
}
