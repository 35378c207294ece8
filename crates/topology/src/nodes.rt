//! The texts of nodes.
ghost use Rattle.std.specs.Prelude.{◌≡◌, IfOk};
ghost use Rattle.topology.specs.Nodes.{region_name, tier_name, spelled};

use super::config::Config;
use super::regions::Region;
use node_name::NodeName;
use std::alloc::{AllocError, Global};
use tao_base::Text;

impl Config {
    ghost use Rattle.std.specs.Prelude.{◌≡◌, IfOk};
    ghost use Rattle.topology.specs.Nodes.{node_text, region_name};

    /// The text of a node, by the names of its region and tier: `region/leader/index`,
    /// `region/tier/index` or `region/store/shard`, with the number in decimal. A region or tier that
    /// the configuration lacks has the empty name. Takes time in the length of the text.
    pub fn node_text(&self, alloc: Global, node: NodeName) -> Result<Text, AllocError>
        ensures { IfOk result (λ text. text ≡ node_text self.now node) }
    {
        let regions = self.regions.as_slice();
        let (region, word, number) = match node {
            NodeName::Store(store) => (store.region, "store", store.shard),
            NodeName::Leader { region, index } => (region, "leader", index),
            NodeName::Follower {
                region,
                tier,
                index,
            } => (region, tier_name(regions, region, tier), index),
        };
        spelled(alloc, region_name(regions, region), word, number)
    }

    /// The name of the region at a place; the empty text where there is none.
    pub fn region_name(&self, place: u16) -> &str
        ensures { result.now ≡ region_name self.now.regions place }
    {
        region_name(self.regions.as_slice(), place)
    }
}

fn region_name(regions: &[Region], place: u16) -> &str
    ensures { result.now ≡ region_name regions.now place }
{
    match regions.get(usize::from(place)) {
        Some(region) => region.name.as_str(),
        None => "",
    }
}

/// The name of the tier at a place of a region; the empty text where there is none.
fn tier_name(regions: &[Region], region: u16, place: u16) -> &str
    ensures { result.now ≡ tier_name regions.now region place }
{
    let Some(region) = regions.get(usize::from(region)) else {
        return "";
    };
    match region.tiers.as_slice().get(usize::from(place)) {
        Some(tier) => tier.name.as_str(),
        None => "",
    }
}

fn spelled(alloc: Global, region: &str, word: &str, number: u16) -> Result<Text, AllocError>
    ensures { IfOk result (λ text. text ≡ spelled region.now word.now number) }
{
    Ok(Text::of(format!(in alloc; "{region}/{word}/{number}")?))
}
