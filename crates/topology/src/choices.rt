//! Who serves.
ghost use Rattle.std.specs.Prelude.{◌≡◌, ◌↔◌, ◌<◌, ◌%◌, All, IfSome, IsFalse, IsNone, IsTrue, length};
ghost use Rattle.topology.specs.Choices.{serving_follower};

use super::counts::Counts;
use super::states::{Topology, follower_count, leader_count, tier_count};
use node_name::NodeName;

impl Topology {
    ghost use Rattle.topology.specs.Choices.{chosen_follower, chosen_leader, followers_in_turn, leaders_in_turn, master_region, may_lead, preferred_leader};
    ghost use Rattle.topology.specs.States.{is_cache, is_up};

    /// The follower of a region at which a session of a tier reads a shard: its own tier's that serves the shard, or
    /// the next tier's, round about, that is up. None exactly where none of them is up.
    #[tactic(auto, using(crate::proofs::Found::find_none))]
    pub fn follower(&self, region: u16, tier: u16, shard: u16) -> Option<NodeName>
        ensures chosen { result ≡ chosen_follower self.now region tier shard }
        ensures up { IfSome result (λ node. IsTrue (is_up self.now node)) }
        ensures none { IsNone result ↔ All (λ node. IsFalse (is_up self.now node)) (followers_in_turn self.now.regions region tier shard) }
    {
        self.first_follower(region, tier, shard)
    }

    fn first_follower(&self, region: u16, tier: u16, shard: u16) -> Option<NodeName>
        ensures { result ≡ chosen_follower self.now region tier shard }
    {
        let regions = self.counts();
        let tiers = tier_count(regions, region);
        (tier..tiers)
            .chain(0..tier.min(tiers))
            .map(|tier| serving_follower(regions, region, tier, shard))
            .find(|node| self.is_up(*node))
    }

    /// The leader of a region that serves a shard: the preferred one, or the next index round about that is up and
    /// that the session's tier, given by its region and place, doesn't suspect. None exactly where there is none such.
    #[tactic(auto, using(crate::proofs::Found::find_none))]
    pub fn leader(&self, by: (u16, u16), region: u16, shard: u16) -> Option<NodeName>
        ensures chosen { result ≡ chosen_leader self.now by region shard }
        ensures serves { IfSome result (λ node. IsTrue (may_lead self.now by node)) }
        ensures none { IsNone result ↔ All (λ node. IsFalse (may_lead self.now by node)) (leaders_in_turn self.now.regions region shard) }
    {
        self.first_leader(by, region, shard)
    }

    fn first_leader(&self, by: (u16, u16), region: u16, shard: u16) -> Option<NodeName>
        ensures { result ≡ chosen_leader self.now by region shard }
    {
        let leaders = leader_count(self.counts(), region);
        let first = remainder(shard, leaders);
        (first..leaders)
            .chain(0..first.min(leaders))
            .map(|index| NodeName::Leader { region, index })
            .find(|node| self.is_up(*node) && !self.suspects(by.0, by.1, *node))
    }

    /// The preferred leader of a region for a shard, up or not.
    pub fn preferred(&self, region: u16, shard: u16) -> NodeName
        ensures preferred { result ≡ preferred_leader self.now region shard }
        ensures configured { region < length self.now.regions → IsTrue (is_cache self.now.regions result) }
    {
        NodeName::Leader {
            region,
            index: remainder(shard, leader_count(self.counts(), region)),
        }
    }

    /// The region whose store of a shard is the master.
    pub fn master(&self, shard: u16) -> u16
        ensures master { result ≡ master_region self.now shard }
        ensures configured { result < length self.now.regions }
    {
        let masters = self.masters();
        masters[usize::from(shard) % masters.len()]
    }
}

/// The follower of a tier that serves a shard.
fn serving_follower(regions: &[Counts], region: u16, tier: u16, shard: u16) -> NodeName
    ensures { result ≡ serving_follower regions.now region tier shard }
{
    NodeName::Follower {
        region,
        tier,
        index: remainder(shard, follower_count(regions, region, tier)),
    }
}

/// The shard itself where there are no nodes to share it.
fn remainder(shard: u16, count: u16) -> u16
    ensures { result ≡ shard % count }
{
    if count == 0 { shard } else { shard % count }
}
