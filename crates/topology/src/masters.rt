//! The master regions of the shards.
ghost use Rattle.std.specs.Prelude.{◌≡◌};

use std::marker::Model;

/// The most entries of the list of masters.
pub const MAX_MASTERS: usize = 64;

/// The places of the master regions, 1 to 64: the master of a shard is the entry at the shard modulo
/// their number.
#[derive(Drop)]
pub struct MasterRegions {
    places: Vec<u16>,
}

impl Model for MasterRegions {
    ghost use Rattle.std.specs.Prelude.{List, ℕ, IsTrue, length};
    ghost use Rattle.topology.specs.Named.{in_range};

    ghost Value = { List ℕ };

    ghost view = { λ m. m.places.items };

    ghost invariant = { λ m. IsTrue (in_range 1 64 (length m.places.items)) };
}

impl MasterRegions {
    ghost use Rattle.std.specs.Prelude.{IsTrue, length};
    ghost use Rattle.std.specs.Bool.{then_some};
    ghost use Rattle.topology.specs.Named.{in_range};

    /// The masters of a vector, unless it is empty or too long. Takes no memory.
    pub fn of(places: Vec<u16>) -> Option<MasterRegions>
        ensures { result ≡ then_some (in_range 1 64 (length places.items)) places.items }
    {
        if places.is_empty() || MAX_MASTERS < places.len() {
            None
        } else {
            Some(MasterRegions { places })
        }
    }

    /// The places, in order: that of a shard is at the shard modulo their number.
    pub fn as_slice(&self) -> &[u16]
        ensures value { result.now ≡ self.now }
        ensures rules { IsTrue (in_range 1 64 (length self.now)) }
    {
        self.places.as_slice()
    }

    /// The vector given back. Takes no memory.
    pub fn into_vec(self) -> Vec<u16>
        ensures { result.items ≡ self }
    {
        self.places
    }
}
