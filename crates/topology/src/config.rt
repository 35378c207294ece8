//! The configuration.
use super::masters::MasterRegions;
use super::regions::Regions;
use std::marker::Model;
use tao_schema::Schema;

/// The most shards.
pub const MAX_SHARDS: u16 = 64;

/// The most entries of a shard's log.
pub const MAX_LOG: u64 = 65_536;

/// The most items of a cache node.
pub const MAX_CACHE_ITEMS: u64 = 65_536;

/// A configuration: the types, the number of shards, the regions, the master regions, the most entries
/// of a shard's log, and the most items of a cache node. Each master is one of the regions, and each
/// number is in its range.
#[derive(Drop)]
pub struct Config {
    pub schema: Schema,
    pub shards: u16,
    pub regions: Regions,
    pub masters: MasterRegions,
    pub log_max: u64,
    pub cache_items: usize,
}

impl Model for Config {
    ghost use Rattle.topology.specs.Config.{Settings, KeepRules};

    ghost Value = { Settings };

    ghost use Rattle.topology.specs.ConfigView.{settings_of};

    ghost view = { settings_of };

    ghost invariant = { λ c. KeepRules (settings_of c) };
}
