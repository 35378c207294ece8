//! Which nodes are up, and which leaders a tier suspects.
ghost use Rattle.std.specs.Prelude.{◌≡◌, ◌≢◌, ◌↔◌, ◌<◌, ◌≤◌, ◌^◌, All, IfOk, IsFalse, IsTrue, length, map, ℕ};
ghost use Rattle.topology.specs.Counts.{KeepCounts, counts_of, follower_count, leader_count, tier_count};
ghost use Rattle.topology.specs.Lookup.{followers_of, leaders_of};
ghost use Rattle.topology.specs.States.{SetsUp, all_up, is_cache, is_up, node_place};
ghost use Rattle.topology.specs.Suspicions.{SetsTrust, is_leader, leader_index, may_suspect, suspects, suspicion_of, suspicion_place, ChangesTrust};

use super::config::Config;
use super::counts::Counts;
use super::flags::Flags;
use super::regions::{Region, Regions};
use node_name::NodeName;
use std::alloc::{AllocError, Global};
use std::marker::Model;
use tao_base::OutOfMemory;

/// The nodes of a configuration: which of its cache nodes are up, and which leaders a tier suspects. Contracts see
/// the numbers of its nodes, its masters, and the flags of both.
///
/// Each call takes time in the number of a region's leaders or tiers at most, 4. Only `make` takes memory.
#[derive(Drop)]
pub struct Topology {
    regions: Vec<Counts>,
    masters: Vec<u16>,
    down: Flags,
    suspected: Flags,
}

impl Model for Topology {
    ghost use Rattle.topology.specs.States.{KeepPlaces, NodeStates};

    ghost Value = { NodeStates };

    ghost view = { λ t. record { regions = t.regions.items; masters = t.masters.items; down = t.down; suspected = t.suspected } };

    ghost invariant = { λ t. KeepPlaces (record { regions = t.regions.items; masters = t.masters.items; down = t.down; suspected = t.suspected }) };
}

impl Topology {
    /// The nodes of a configuration. Each is up and trusted.
    #[tactic(auto, using(crate::proofs::Found::leaders_counted, crate::proofs::Found::followers_counted))]
    pub fn make(alloc: Global, config: &Config) -> Result<Topology, OutOfMemory>
        ensures made { IfOk result (λ t. t ≡ all_up config.now) }
        ensures leaders { IfOk result (λ t. (region : ℕ) → leader_count t.regions region ≡ leaders_of config.now.regions region) }
        ensures followers { IfOk result (λ t. (region tier : ℕ) → follower_count t.regions region tier ≡ followers_of config.now.regions region tier) }
    {
        Ok(Topology {
            regions: counts(alloc, &config.regions)?,
            masters: config.masters.as_slice().to_vec(alloc)?,
            down: Flags::make(alloc, 80)?,
            suspected: Flags::make(alloc, 256)?,
        })
    }

    /// Whether a node is up. A store always is, and a cache node that the configuration lacks never is.
    pub fn is_up(&self, node: NodeName) -> bool
        ensures { result ≡ is_up self.now node }
    {
        match node {
            NodeName::Store(_) => true,
            _ => is_cache(&self.regions, node) && !self.down.at(node_place(node)),
        }
    }

    /// A cache node is now up or down. Answers whether that is a change. A store, and a node that the configuration
    /// lacks, is no cache node of it: then the answer is false, and nothing changes.
    pub fn set_up(&mut self, node: NodeName, up: bool) -> bool
        ensures changed { IsTrue result ↔ (IsTrue (is_cache self.old.regions node) × (is_up self.old node ≢ up)) }
        ensures set { IsTrue result → SetsUp node up self.old self.new }
        ensures same { IsFalse result → self.new ≡ self.old }
    {
        if !is_cache(&self.regions, node) || self.is_up(node) == up {
            return false;
        }
        self.down.set(node_place(node), !up);
        true
    }

    /// A tier of a region now trusts a leader, of any region, or suspects it. Answers whether that is a change. Where
    /// the tier isn't configured, or the node is no configured leader, the answer is false, and nothing changes.
    pub fn set_trust(&mut self, region: u16, tier: u16, leader: NodeName, trusted: bool) -> bool
        ensures changed { IsTrue result ↔ ChangesTrust (suspicion_of region tier leader) trusted self.old }
        ensures set { IsTrue result → SetsTrust (suspicion_of region tier leader) trusted self.old self.new }
        ensures same { IsFalse result → self.new ≡ self.old }
    {
        if !may_suspect(&self.regions, region, tier, leader)
            || self.suspects(region, tier, leader) != trusted
        {
            return false;
        }
        self.suspected
            .set(suspicion_place(region, tier, leader), !trusted);
        true
    }

    /// Whether a tier of a region suspects a leader.
    pub(crate) fn suspects(&self, region: u16, tier: u16, leader: NodeName) -> bool
        ensures { result ≡ suspects self.now (suspicion_of region tier leader) }
    {
        may_suspect(&self.regions, region, tier, leader)
            && self.suspected.at(suspicion_place(region, tier, leader))
    }

    /// How many nodes each region has.
    pub(crate) fn counts(&self) -> &[Counts]
        ensures counts { result.now ≡ self.now.regions }
        ensures keep { All KeepCounts result.now }
    {
        self.regions.as_slice()
    }

    /// The places of the master regions.
    pub(crate) fn masters(&self) -> &[u16]
        ensures masters { result.now ≡ self.now.masters }
        ensures some { 1 ≤ length result.now }
        ensures regions { All (λ place. place < length self.now.regions) result.now }
    {
        self.masters.as_slice()
    }
}

/// How many nodes each region has.
fn counts(alloc: Global, regions: &Regions) -> Result<Vec<Counts>, AllocError>
    ensures few { IfOk result (λ counts. (length counts.items ≤ 4) × All KeepCounts counts.items) }
    ensures counts { IfOk result (λ counts. counts.items ≡ map counts_of regions.now) }
{
    let regions = regions.as_slice();
    let mut counts = Vec::with_capacity(alloc, regions.len())?;
    for region in regions {
        counts.push(Counts::of(alloc, region)?)?;
    }
    Ok(counts)
}

/// Whether a node is a leader or a follower of the configuration.
fn is_cache(regions: &[Counts], node: NodeName) -> bool
    ensures { result ≡ is_cache regions.now node }
{
    match node {
        NodeName::Store(_) => false,
        NodeName::Leader { region, index } => index < leader_count(regions, region),
        NodeName::Follower {
            region,
            tier,
            index,
        } => index < follower_count(regions, region, tier),
    }
}

pub(crate) fn leader_count(regions: &[Counts], region: u16) -> u16
    ensures { result ≡ leader_count regions.now region }
{
    match regions.get(usize::from(region)) {
        Some(counts) => counts.leaders(),
        None => 0,
    }
}

pub(crate) fn tier_count(regions: &[Counts], region: u16) -> u16
    ensures { result ≡ tier_count regions.now region }
{
    match regions.get(usize::from(region)) {
        Some(counts) => counts.tiers(),
        None => 0,
    }
}

pub(crate) fn follower_count(regions: &[Counts], region: u16, tier: u16) -> u16
    ensures { result ≡ follower_count regions.now region tier }
{
    match regions.get(usize::from(region)) {
        Some(counts) => counts.followers(tier),
        None => 0,
    }
}

/// Whether a tier is configured, and a node is a configured leader of any region.
fn may_suspect(regions: &[Counts], region: u16, tier: u16, leader: NodeName) -> bool
    ensures { result ≡ may_suspect regions.now (suspicion_of region tier leader) }
{
    tier < tier_count(regions, region) && is_leader(regions, leader)
}

fn is_leader(regions: &[Counts], node: NodeName) -> bool
    ensures { result ≡ is_leader regions.now node }
{
    match node {
        NodeName::Leader { region, index } => index < leader_count(regions, region),
        _ => false,
    }
}

/// The place of a suspicion's flag.
fn suspicion_place(region: u16, tier: u16, leader: NodeName) -> usize
    ensures { result ≡ suspicion_place (suspicion_of region tier leader) }
{
    (usize::from(region) * 4 + usize::from(tier)) * 16 + leader_index(leader)
}

fn leader_index(node: NodeName) -> usize
    ensures place { result ≡ leader_index node }
    ensures bound { result < 2 ^ 20 }
{
    match node {
        NodeName::Leader { region, index } => usize::from(region) * 4 + usize::from(index),
        _ => 0,
    }
}

/// The place of a cache node's flag.
fn node_place(node: NodeName) -> usize
    ensures { result ≡ node_place node }
{
    match node {
        NodeName::Store(_) => 0,
        NodeName::Leader { region, index } => usize::from(region) * 20 + usize::from(index),
        NodeName::Follower {
            region,
            tier,
            index,
        } => usize::from(region) * 20 + 4 + usize::from(tier) * 4 + usize::from(index),
    }
}
