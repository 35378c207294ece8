//! The ring of bits: that of a position stands at the position modulo the window.
ghost use Rattle.low_water.specs.RingWords.{Absorbs, IsClear, IsClearAbove, PutsBit, bit};
ghost use Rattle.std.specs.Prelude.{◌≡◌, ◌+◌, ◌%◌, ◌≤◌, IfOk};

use std::alloc::{AllocError, Global};
use std::marker::Model;

/// How far ahead of the low-water mark a position may be marked.
pub const WINDOW: u64 = 1024;

/// A bit for each position of a window, wherever it begins. Contracts see the list of the bits.
#[derive(Drop)]
pub struct Ring {
    bits: Vec<bool>,
}

impl Model for Ring {
    ghost use Rattle.std.specs.Prelude.{◌≡◌, Bool, List, length};

    ghost Value = { List Bool };

    ghost view = { λ r. r.bits.items };

    ghost invariant = { λ r. length r.bits.items ≡ 1024 };
}

impl Ring {
    /// No bit is set.
    pub fn make(alloc: Global) -> Result<Ring, AllocError>
        ensures { IfOk result IsClear }
    {
        Ok(Ring {
            bits: vec![in alloc; false; 1024]?,
        })
    }

    pub fn is_set(&self, position: u64) -> bool
        ensures { result ≡ bit self.now position }
    {
        self.bits[slot(position)]
    }

    pub fn put(&mut self, position: u64, set: bool)
        ensures { PutsBit self.old self.new position set }
    {
        self.bits[slot(position)] = set;
    }

    /// Clears the bits after `low` that are set without a gap, and answers the position of the last of
    /// them, `low` where there is none.
    pub fn absorb(&mut self, low: u64, top: u64) -> u64
        requires low_top { low ≤ top }
        requires near { top ≤ low + 1024 }
        requires above { IsClearAbove self.old low top }
        ensures { Absorbs self.old self.new low top result }
    {
        let mut at = low;
        while at < top && self.is_set(at + 1) {
            self.put(at + 1, false);
            at += 1;
        }
        at
    }

    /// Clears the bits after `low`.
    pub fn wipe(&mut self, low: u64, top: u64)
        requires low_top { low ≤ top }
        requires near { top ≤ low + 1024 }
        requires above { IsClearAbove self.old low top }
        ensures { IsClear self.new }
    {
        for position in low..top {
            self.put(position + 1, false);
        }
    }
}

/// The place of a position in the ring.
fn slot(position: u64) -> usize
    ensures { result ≡ position % 1024 }
{
    (position % WINDOW) as usize
}
