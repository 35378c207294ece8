//! Where the entry of an origin stands.
ghost use Rattle.std.specs.Prelude.{◌≡◌, if◌then◌else◌, None, OnOk, Some};
ghost use Rattle.log_index.specs.Positions.{kept_position, same_origin};
ghost use Rattle.tao_base.specs.declared.entry.Origin.{Origin as OriginValue};

use std::alloc::Global;
use std::collections::BTreeMap;
use tao_base::{Origin, OutOfMemory};

/// The position of the entry of each origin.
#[derive(Drop)]
pub struct Positions {
    clients: BTreeMap<(u32, u64), u64>,
    merges: BTreeMap<(u16, u64), u64>,
}

impl Positions {
    pub fn new(alloc: Global) -> Positions
        ensures { (origin : OriginValue) → kept_position result origin ≡ None }
    {
        Positions {
            clients: BTreeMap::new(alloc),
            merges: BTreeMap::new(alloc),
        }
    }

    pub fn find(&self, origin: Origin) -> Option<u64>
        ensures { result ≡ kept_position self.now origin }
    {
        match origin {
            Origin::Client { session, seq } => self.clients.get(&(session, seq)).copied(),
            Origin::Merge { shard, position } => self.merges.get(&(shard, position)).copied(),
        }
    }

    pub fn put(&mut self, origin: Origin, stands: u64) -> Result<(), OutOfMemory>
        ensures { OnOk result ((other : OriginValue) → kept_position self.new other
            ≡ (if same_origin origin other then Some stands else kept_position self.old other)) }
    {
        match origin {
            Origin::Client { session, seq } => {
                self.clients.insert((session, seq), stands)?;
            }
            Origin::Merge { shard, position } => {
                self.merges.insert((shard, position), stands)?;
            }
        }
        Ok(())
    }
}
