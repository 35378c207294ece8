//! The low-water mark of a shard's log: a node processed every position up to it.
//!
//! Contracts see the marks as the low-water mark and the list of the marked positions above it, in
//! rising order. The low-water mark is the greatest number such that all positions above the first
//! one up to it were marked while at most 1,024 ahead of it and not forgotten since.
//!
//! What it promises. The low-water mark is the greatest number up to which all positions were marked within the
//! window and not forgotten; it falls at a restart alone.
//!
//! The contracts that say so: `LowWater::mark` and its kin; the law `low_is_greatest` over all calls.
#![tactic(auto)]

ghost use Rattle.low_water.specs.Marks.{AddsMark, IsGreatest, IsWindow, is_marked, marks, top_of, with_mark};
ghost use Rattle.std.specs.Prelude.{◌≡◌, ℕ, ◌≤◌, [], IfOk, IsTrue};

pub mod laws;
mod ring;

use ring::{Ring, WINDOW};
use std::alloc::Global;
use std::marker::Model;
use tao_base::OutOfMemory;

/// The marked positions of one shard's log. Takes a kilobyte.
#[derive(Drop)]
pub struct LowWater {
    ring: Ring,
    low: u64,
    top: u64,
}

impl Model for LowWater {
    ghost use Rattle.low_water.specs.Marks.{Marks, marks};

    ghost Value = { Marks };

    ghost use Rattle.low_water.specs.Ring.{IsRing};
    ghost use Rattle.low_water.specs.RingWords.{ahead_of};

    ghost view = { λ a. marks a.low (ahead_of a.ring a.low) };

    ghost invariant = { IsRing };
}

impl LowWater {
    /// Begins with every position up to `low` marked and none above it.
    pub fn make(alloc: Global, low: u64) -> Result<LowWater, OutOfMemory>
        ensures { IfOk result (λ new. new ≡ marks low []) }
    {
        Ok(LowWater {
            ring: Ring::make(alloc)?,
            low,
            top: low,
        })
    }

    /// The low-water mark.
    pub fn low(&self) -> u64
        ensures value { result ≡ self.now.low }
        ensures greatest { IsGreatest self.now }
        ensures window { IsWindow self.now }
    {
        self.low
    }

    /// The greatest marked position: `low()` where none is above it.
    pub fn top(&self) -> u64
        ensures value { result ≡ top_of self.now }
        ensures marked { IsTrue (is_marked self.now result) }
        ensures greatest { (q : ℕ) → IsTrue (is_marked self.now q) → q ≤ result }
    {
        self.top
    }

    /// Marks a position that is at most 1,024 ahead of the low-water mark, and raises that over what
    /// is marked without a gap. Any other position is ignored. Takes constant time, amortised over
    /// the marks.
    pub fn mark(&mut self, position: u64)
        ensures after { self.new ≡ with_mark position self.old }
        ensures marked { AddsMark self.old self.new position }
        ensures greatest { IsGreatest self.new }
        ensures later { self.old.low ≤ self.new.low }
    {
        if position <= self.low || position - self.low > WINDOW {
            return;
        }
        self.ring.put(position, true);
        self.top = self.top.max(position);
        self.low = self.ring.absorb(self.low, self.top);
    }

    /// Forgets the positions that are marked above the low-water mark: they count as not marked until
    /// they are marked again. Takes a step for each position up to the top.
    pub fn forget_ahead(&mut self)
        ensures { self.new ≡ marks self.old.low [] }
    {
        self.ring.wipe(self.low, self.top);
        self.top = self.low;
    }

    /// Forgets every mark and begins anew at `low`. Takes a step for each position up to the top.
    pub fn restart(&mut self, low: u64)
        ensures { self.new ≡ marks low [] }
    {
        self.forget_ahead();
        self.low = low;
        self.top = low;
    }
}
