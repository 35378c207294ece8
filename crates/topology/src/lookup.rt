//! Tiers and nodes by their names.
ghost use Rattle.std.specs.Prelude.{◌≡◌, option_map};
ghost use Rattle.topology.specs.Lookup.{leaders_of, followers_of, number_below, parts, is_padded};

use super::config::Config;
use super::regions::Region;
use node_name::NodeName;
use tao_base::StoreName;

impl Config {
    ghost use Rattle.std.specs.Prelude.{◌≡◌};
    ghost use Rattle.topology.specs.Lookup.{node_at, node_in, tier_in};

    /// The place of the tier of a name in the region at a place. Compares the name with each.
    pub fn find_tier(&self, region: u16, name: &str) -> Option<u16>
        ensures { result ≡ tier_in self.now.regions region name.now }
    {
        let region = self.regions.as_slice().get(usize::from(region))?;
        region.tiers.find(name)
    }

    /// The configured node of a text, as `node_text` makes it. Takes time in the length of the text, and
    /// compares the names in it with each of their like.
    pub fn node(&self, text: &str) -> Option<NodeName>
        ensures { result ≡ node_at self.now text.now }
    {
        let (region, rest) = parts(text)?;
        let (word, number) = parts(rest)?;
        self.node_in(self.regions.find(region)?, word, number)
    }

    /// The node of a region that a word and a number mean.
    fn node_in(&self, region: u16, word: &str, number: &str) -> Option<NodeName>
        ensures { result ≡ node_in self.now region word.now number.now }
    {
        let regions = self.regions.as_slice();
        if word == "store" {
            let shard = number_below(self.shards, number)?;
            Some(NodeName::Store(StoreName { region, shard }))
        } else if word == "leader" {
            let index = number_below(leaders_of(regions, region), number)?;
            Some(NodeName::Leader { region, index })
        } else {
            let tier = self.find_tier(region, word)?;
            let index = number_below(followers_of(regions, region, tier), number)?;
            Some(NodeName::Follower {
                region,
                tier,
                index,
            })
        }
    }
}

fn leaders_of(regions: &[Region], region: u16) -> u16
    ensures { result ≡ leaders_of regions.now region }
{
    match regions.get(usize::from(region)) {
        Some(region) => region.leaders,
        None => 0,
    }
}

fn followers_of(regions: &[Region], region: u16, tier: u16) -> u16
    ensures { result ≡ followers_of regions.now region tier }
{
    let Some(region) = regions.get(usize::from(region)) else {
        return 0;
    };
    match region.tiers.as_slice().get(usize::from(tier)) {
        Some(tier) => tier.followers,
        None => 0,
    }
}

/// What stands before the first `/` of a text, and what after it.
fn parts(text: &str) -> Option<(&str, &str)>
    ensures { option_map (λ p. (p.0.now, p.1.now)) result ≡ parts text.now }
{
    text.split_once('/')
}

/// The number below the count that a text is, in decimal without leading zeros.
fn number_below(count: u16, text: &str) -> Option<u16>
    ensures { result ≡ number_below count text.now }
{
    if is_padded(text.as_bytes()) {
        return None;
    }
    let Ok(number) = text.parse::<u16>() else {
        return None;
    };
    if number < count { Some(number) } else { None }
}

/// Whether a sign or a zero too many stands before a number.
fn is_padded(digits: &[u8]) -> bool
    ensures { result ≡ is_padded digits.now }
{
    match digits {
        [] => false,
        [first, ..] => *first == b'+' || (*first == b'0' && 1 < digits.len()),
    }
}
