//! Which follower a session reads at.
ghost use Rattle.std.specs.List.{find};
ghost use Rattle.node_name.specs.declared.NodeName.TheVariants.{Follower};
ghost use Rattle.std.specs.Prelude.{◌≡◌, ◌↔◌, ◌<◌, All, IfSome, IsNone, IsTrue, [], length, option_map, slice_get};
ghost use Rattle.shard_clone.specs.Picks.{at_turn, has_server, is_able, is_other, other_servers, picked, servers_in, tiers_in_turn};
ghost use Rattle.topology.specs.Choices.{serving_follower};

use crate::table::{CloneTable, remainder};
use node_name::NodeName;
use topology::Topology;

impl CloneTable {
    /// The follower of a region at which a session of a tier reads a shard. In the session's tier those that are up
    /// and serve the shard stand in a row, the preferred one first and then the others in order of index, and the
    /// session takes the one at its own number modulo theirs. Where there is none, it is so in the next tier, round
    /// about. None exactly where no tier has one. Takes no memory.
    #[tactic(auto, using(crate::proofs::Rows::none_picked))]
    pub fn pick(
        &self,
        topology: &Topology,
        region: u16,
        tier: u16,
        shard: u16,
        session: u32,
    ) -> Option<NodeName>
        requires { self.now.regions ≡ topology.now.regions }
        ensures picked { result ≡ picked self.now topology.now region tier shard session }
        ensures able { IfSome result (λ node. IsTrue (is_able self.now topology.now shard node)) }
        ensures none { IsNone result ↔ All (λ t. servers_in self.now topology.now region t shard ≡ []) (tiers_in_turn self.now region tier) }
    {
        self.pick_in_turn(topology, region, tier, shard, session)
    }

    fn pick_in_turn(
        &self,
        topology: &Topology,
        region: u16,
        tier: u16,
        shard: u16,
        session: u32,
    ) -> Option<NodeName>
        ensures { result ≡ picked self.now topology.now region tier shard session }
    {
        match self.first_tier(topology, region, tier, shard) {
            Some(found) => self.server_in_turn(topology, region, found, shard, session),
            None => None,
        }
    }

    /// The first tier in turn that has a follower which is up and serves the shard.
    fn first_tier(&self, topology: &Topology, region: u16, tier: u16, shard: u16) -> Option<u16>
        ensures { result ≡ find (has_server self.now topology.now region shard) (tiers_in_turn self.now region tier) }
    {
        let tiers = self.tier_count(region);
        (tier..tiers).chain(0..tier.min(tiers)).find(|tier| 0
            < self.server_count(topology, region, *tier, shard))
    }

    /// The follower of a tier whose turn it is.
    #[tactic(auto, using(crate::proofs::Rows::none_of_none))]
    fn server_in_turn(
        &self,
        topology: &Topology,
        region: u16,
        tier: u16,
        shard: u16,
        session: u32,
    ) -> Option<NodeName>
        ensures { result ≡ at_turn session (servers_in self.now topology.now region tier shard) }
    {
        let count = self.server_count(topology, region, tier, shard);
        if count == 0 {
            return None;
        }
        self.server_at(topology, region, tier, shard, session as usize % count)
    }

    /// How many followers of a tier are up and serve the shard.
    #[tactic(auto, using(crate::proofs::Rows::servers_with, crate::proofs::Rows::servers_without))]
    fn server_count(&self, topology: &Topology, region: u16, tier: u16, shard: u16) -> usize
        ensures { result ≡ length (servers_in self.now topology.now region tier shard) }
    {
        let others = self.other_count(topology, region, tier, shard);
        if self.is_able(topology, shard, self.first(region, tier, shard)) {
            1 + others
        } else {
            others
        }
    }

    /// The follower at a place among those of a tier that are up and serve the shard.
    #[tactic(auto, using(crate::proofs::Rows::first_at, crate::proofs::Rows::rest_at, crate::proofs::Rows::others_at))]
    fn server_at(
        &self,
        topology: &Topology,
        region: u16,
        tier: u16,
        shard: u16,
        place: usize,
    ) -> Option<NodeName>
        ensures { result ≡ slice_get (servers_in self.now topology.now region tier shard) place }
    {
        let first = self.first(region, tier, shard);
        if !self.is_able(topology, shard, first) {
            return self.other_at(topology, region, tier, shard, place);
        }
        if place == 0 {
            return Some(first);
        }
        self.other_at(topology, region, tier, shard, place - 1)
    }

    /// How many followers of a tier besides the preferred one are up and serve the shard.
    #[tactic(auto, using(crate::proofs::Rows::few_others))]
    fn other_count(&self, topology: &Topology, region: u16, tier: u16, shard: u16) -> usize
        ensures count { result ≡ length (other_servers self.now topology.now region tier shard) }
        ensures few { result < 65536 }
    {
        (0..self.follower_count(region, tier))
            .filter(|index| self.is_other(topology, region, tier, shard, *index))
            .count()
    }

    /// The one at a place among these.
    fn other_at(
        &self,
        topology: &Topology,
        region: u16,
        tier: u16,
        shard: u16,
        place: usize,
    ) -> Option<NodeName>
        ensures { result ≡ option_map (λ index. Follower region tier index) (slice_get (other_servers self.now topology.now region tier shard) place) }
    {
        let index = self.other_index(topology, region, tier, shard, place)?;
        Some(NodeName::Follower {
            region,
            tier,
            index,
        })
    }

    #[tactic(auto, using(crate::proofs::Rows::found_here, crate::proofs::Rows::found_later, crate::proofs::Rows::found_on, crate::proofs::Rows::found_none))]
    fn other_index(
        &self,
        topology: &Topology,
        region: u16,
        tier: u16,
        shard: u16,
        place: usize,
    ) -> Option<u16>
        ensures { result ≡ slice_get (other_servers self.now topology.now region tier shard) place }
    {
        let mut left = place;
        let count = self.follower_count(region, tier);
        for index in 0..count {
            if self.is_other(topology, region, tier, shard, index) {
                if left == 0 {
                    return Some(index);
                }
                left -= 1;
            }
        }
        None
    }

    fn is_other(&self, topology: &Topology, region: u16, tier: u16, shard: u16, index: u16) -> bool
        ensures { result ≡ is_other self.now topology.now region tier shard index }
    {
        index != remainder(shard, self.follower_count(region, tier))
            && self.is_able(
                topology,
                shard,
                NodeName::Follower {
                    region,
                    tier,
                    index,
                },
            )
    }

    fn is_able(&self, topology: &Topology, shard: u16, node: NodeName) -> bool
        ensures { result ≡ is_able self.now topology.now shard node }
    {
        topology.is_up(node) && self.serves(node, shard)
    }

    /// The preferred follower of a tier.
    fn first(&self, region: u16, tier: u16, shard: u16) -> NodeName
        ensures { result ≡ serving_follower self.now.regions region tier shard }
    {
        NodeName::Follower {
            region,
            tier,
            index: remainder(shard, self.follower_count(region, tier)),
        }
    }
}
