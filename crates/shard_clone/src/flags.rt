//! Flags at places.
ghost use Rattle.std.specs.Prelude.{◌≡◌, ◌<◌, false, IfOk, length, replicate, slice_index_or, slice_set};

use std::alloc::{AllocError, Global};
use std::marker::Model;

/// Flags at the places below a count.
#[derive(Drop)]
pub(crate) struct Flags {
    bits: Vec<bool>,
}

impl Model for Flags {
    ghost use Rattle.std.specs.Prelude.{Bool, List};

    ghost Value = { List Bool };

    ghost view = { λ flags. flags.bits.items };
}

impl Flags {
    /// None is set.
    pub(crate) fn make(alloc: Global, count: usize) -> Result<Flags, AllocError>
        ensures { IfOk result (λ flags. flags ≡ replicate count false) }
    {
        Ok(Flags {
            bits: vec![in alloc; false; count]?,
        })
    }

    pub(crate) fn at(&self, place: usize) -> bool
        ensures { result ≡ slice_index_or self.now place false }
    {
        match self.bits.get(place) {
            Some(set) => *set,
            None => false,
        }
    }

    pub(crate) fn set(&mut self, place: usize, set: bool)
        requires { place < length self.old }
        ensures { self.new ≡ slice_set self.old place set }
    {
        self.bits[place] = set;
    }
}
