//! The names of regions, tiers, types and shards, and the shards of ids.
ghost use Rattle.std.specs.Prelude.{Ok, Err, IfOk, ◌≡◌};
ghost use Rattle.replies.specs.declared.refusals.NameRefused.TheVariants.{NoShard};
ghost use Rattle.outcomes.specs.Results.{Gives};
ghost use Rattle.request_check.specs.Refusal.{name_unless_memory};

use crate::kind::NodeKind;
use crate::refusal::NameError;
use node_name::NodeName;
use replies::NameRefused;
use std::alloc::{AllocError, Global};
use tao_base::{AType, Id, OType, StoreName, Text};
use topology::Config;

/// A tier: the place of its region, and its own in that region.
#[derive(Clone, Copy)]
pub(crate) struct TierPlace {
    pub region: u16,
    pub tier: u16,
}

/// The names of a configuration: one that it lacks is what the request is refused for.
#[derive(Clone, Copy)]
pub(crate) struct Names<'c> {
    pub alloc: Global,
    pub config: &'c Config,
}

impl Names<'_> {
    ghost use Rattle.std.specs.Prelude.{◌≡◌, IfOk};
    ghost use Rattle.request_check.specs.Names.{settings, region_named, tier_named, atype_named, otype_named, configured_shard, configured_id};
    ghost use Rattle.request_check.specs.Names.{tier_text, node_named, store_named};

    pub(crate) fn region(&self, name: &str) -> Result<u16, NameError>
        ensures { Gives name_unless_memory result (region_named (settings self.now) name.now) }
    {
        let config = self.config;
        match config.regions.find(name) {
            Some(region) => Ok(region),
            None => {
                let name = Text::copy_of(self.alloc, name)?;
                Err(NameError::Refused(NameRefused::NoTier { name }))
            }
        }
    }

    pub(crate) fn tier(&self, region: &str, tier: &str) -> Result<TierPlace, NameError>
        ensures { Gives name_unless_memory result (tier_named (settings self.now) region.now tier.now) }
    {
        let place = self.region(region)?;
        match self.config.find_tier(place, tier) {
            Some(tier) => Ok(TierPlace {
                region: place,
                tier,
            }),
            None => {
                let name = self.tier_text(region, tier)?;
                Err(NameError::Refused(NameRefused::NoTier { name }))
            }
        }
    }

    /// The text of a tier: its region's name and its own.
    fn tier_text(&self, region: &str, tier: &str) -> Result<Text, AllocError>
        ensures { IfOk result (λ text. text ≡ tier_text region.now tier.now) }
    {
        Ok(Text::of(format!(in self.alloc; "{region}/{tier}")?))
    }

    pub(crate) fn atype(&self, name: &str) -> Result<AType, NameError>
        ensures { Gives name_unless_memory result (atype_named (settings self.now) name.now) }
    {
        let config = self.config;
        match config.schema.atype(name) {
            Some(atype) => Ok(atype),
            None => {
                let name = Text::copy_of(self.alloc, name)?;
                Err(NameError::Refused(NameRefused::UnknownType { name }))
            }
        }
    }

    pub(crate) fn otype(&self, name: &str) -> Result<OType, NameError>
        ensures { Gives name_unless_memory result (otype_named (settings self.now) name.now) }
    {
        let config = self.config;
        match config.schema.otype(name) {
            Some(otype) => Ok(otype),
            None => {
                let name = Text::copy_of(self.alloc, name)?;
                Err(NameError::Refused(NameRefused::UnknownType { name }))
            }
        }
    }

    /// Refuses a shard that isn't configured.
    pub(crate) fn shard(&self, shard: u16) -> Result<(), NameError>
        ensures { Gives name_unless_memory result (configured_shard (settings self.now) shard) }
    {
        let config = self.config;
        if shard < config.shards {
            Ok(())
        } else {
            Err(NameError::Refused(NameRefused::NoShard { shard }))
        }
    }

    /// The store of a region's name and a shard: the region is looked up first.
    pub(crate) fn store(&self, region: &str, shard: u16) -> Result<StoreName, NameError>
        ensures { Gives name_unless_memory result (store_named (settings self.now) region.now shard) }
    {
        let region = self.region(region)?;
        self.shard(shard)?;
        Ok(StoreName { region, shard })
    }

    /// Refuses an id of a shard that isn't configured.
    pub(crate) fn id(&self, id: Id) -> Result<(), NameError>
        ensures { Gives name_unless_memory result (configured_id (settings self.now) id) }
    {
        self.shard(id.shard())
    }

    /// The node of a text, where it is of the kind.
    pub(crate) fn node(&self, kind: NodeKind, name: &Text) -> Result<NodeName, NameError>
        ensures { Gives name_unless_memory result (node_named (settings self.now) kind name.now) }
    {
        match self.config.node(name.as_str()) {
            Some(node) if kind.takes(node) => Ok(node),
            _ => {
                let name = Text::copy_of(self.alloc, name.as_str())?;
                Err(NameError::Refused(NameRefused::NoNode { name }))
            }
        }
    }
}
