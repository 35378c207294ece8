//! The names that draws choose among.
ghost use Rattle.std.specs.Prelude.{◌≡◌, ◌≤◌, ◌*◌, ◌++◌, IfOk, IsTrue, OnOk, length, map};
ghost use Rattle.std.specs.List.{flat_map};
ghost use Rattle.load_gen.specs.Names.{names_of, tiers_of};
ghost use Rattle.load_gen.specs.Nodes.{nodes_from};
ghost use Rattle.tao_schema.specs.AssocTypes.{names_of as assoc_names};
ghost use Rattle.topology.specs.Nodes.{node_text};
ghost use Rattle.topology.specs.Regions.{are_regions};

use super::nodes::cache_nodes;
use std::alloc::{AllocError, Global};
use std::marker::Model;
use tao_base::Text;
use tao_schema::AssocLine;
use topology::{Config, Region};

/// A tier, by the names of its region and of itself.
#[derive(Drop)]
pub(crate) struct TierName {
    pub region: Text,
    pub tier: Text,
}

/// The names that draws choose among, each kind at least once, and the number of shards.
#[derive(Drop)]
pub(crate) struct Names {
    shards: u16,
    regions: Vec<Text>,
    tiers: Vec<TierName>,
    nodes: Vec<Text>,
    objects: Vec<Text>,
    assocs: Vec<Text>,
}

impl Model for Names {
    ghost use Rattle.load_gen.specs.Names.{HasNames, NameLists};

    ghost Value = { NameLists };

    ghost use Rattle.load_gen.specs.NamesView.{lists_of};

    ghost view = { lists_of };

    ghost invariant = { λ n. HasNames (lists_of n) };
}

impl Names {
    ghost use Rattle.std.specs.Prelude.{◌≡◌, IfOk};
    ghost use Rattle.load_gen.specs.Names.{names_of};

    /// Those of a configuration.
    pub(crate) fn of(alloc: Global, config: &Config) -> Result<Names, AllocError>
        ensures { IfOk result (λ names. names ≡ names_of config.now) }
    {
        let regions = config.regions.as_slice();
        Ok(Names {
            shards: config.shards,
            regions: region_names(alloc, regions)?,
            tiers: tier_names(alloc, regions)?,
            nodes: node_texts(alloc, config)?,
            objects: config.schema.objects.as_slice().to_vec(alloc)?,
            assocs: assoc_names(alloc, config.schema.assocs.as_slice())?,
        })
    }

    pub(crate) fn shards(&self) -> u16
        ensures shards { result ≡ self.now.shards }
        ensures some { 1 ≤ result }
        ensures few { result ≤ 64 }
    {
        self.shards
    }

    pub(crate) fn regions(&self) -> &[Text]
        ensures names { result.now ≡ self.now.regions }
        ensures some { 1 ≤ length result.now }
    {
        self.regions.as_slice()
    }

    pub(crate) fn tiers(&self) -> &[TierName]
        ensures names { result.now ≡ self.now.tiers }
        ensures some { 1 ≤ length result.now }
        ensures few { length result.now ≤ 16 }
    {
        self.tiers.as_slice()
    }

    /// The texts of the leaders and followers.
    pub(crate) fn nodes(&self) -> &[Text]
        ensures names { result.now ≡ self.now.nodes }
        ensures some { 1 ≤ length result.now }
    {
        self.nodes.as_slice()
    }

    /// The names of the object types.
    pub(crate) fn objects(&self) -> &[Text]
        ensures names { result.now ≡ self.now.objects }
        ensures some { 1 ≤ length result.now }
    {
        self.objects.as_slice()
    }

    /// The names of the association types.
    pub(crate) fn assocs(&self) -> &[Text]
        ensures names { result.now ≡ self.now.assocs }
        ensures some { 1 ≤ length result.now }
    {
        self.assocs.as_slice()
    }
}

/// The names of the regions.
fn region_names(alloc: Global, regions: &[Region]) -> Result<Vec<Text>, AllocError>
    ensures { IfOk result (λ names. names.items ≡ map (λ region. region.name) regions.now) }
{
    let mut names = Vec::with_capacity(alloc, regions.len())?;
    for region in regions {
        names.push(Text::copy_of(alloc, region.name.as_str())?)?;
    }
    Ok(names)
}

/// The tiers of the regions, region by region.
fn tier_names(alloc: Global, regions: &[Region]) -> Result<Vec<TierName>, AllocError>
    requires { length regions.now ≤ 4 }
    ensures names { IfOk result (λ names. names.items ≡ flat_map tiers_of regions.now) }
    ensures some { IfOk result (λ names. length regions.now ≤ length names.items) }
    ensures few { IfOk result (λ names. length names.items ≤ 4 * length regions.now) }
{
    let mut names = Vec::new(alloc);
    for region in regions {
        add_tiers(alloc, region, &mut names)?;
    }
    Ok(names)
}

/// Adds the tiers of a region.
#[tactic(auto, using(crate::proofs::Few::few_tiers))]
fn add_tiers(alloc: Global, region: &Region, names: &mut Vec<TierName>) -> Result<(), AllocError>
    ensures added { OnOk result (names.new.items ≡ names.old.items ++ tiers_of region.now) }
    ensures some { 1 ≤ length (tiers_of region.now) }
    ensures few { length (tiers_of region.now) ≤ 4 }
{
    let tiers = region.tiers.as_slice();
    for tier in tiers {
        names.push(TierName {
            region: Text::copy_of(alloc, region.name.as_str())?,
            tier: Text::copy_of(alloc, tier.name.as_str())?,
        })?;
    }
    Ok(())
}

/// The texts of the cache nodes, in their order.
fn node_texts(alloc: Global, config: &Config) -> Result<Vec<Text>, AllocError>
    ensures { IfOk result (λ texts. texts.items ≡ map (node_text config.now) (nodes_from 0 config.now.regions)) }
{
    let nodes = cache_nodes(alloc, config.regions.as_slice())?;
    let mut texts = Vec::with_capacity(alloc, nodes.len())?;
    for node in &nodes {
        texts.push(config.node_text(alloc, *node)?)?;
    }
    Ok(texts)
}

/// The names of the association types.
fn assoc_names(alloc: Global, lines: &[AssocLine]) -> Result<Vec<Text>, AllocError>
    ensures { IfOk result (λ names. names.items ≡ assoc_names lines.now) }
{
    let mut names = Vec::with_capacity(alloc, lines.len())?;
    for line in lines {
        names.push(Text::copy_of(alloc, line.name.as_str())?)?;
    }
    Ok(names)
}
