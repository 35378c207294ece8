//! The open asks of a cache node: for each the mark with which it began, and the greatest version
//! that its key was raised to since.
//!
//! Contracts see the open asks as a list, in the order in which they began, and how many numbers
//! were given.
//!
//! What it promises. An open ask has the mark given at its beginning and the greatest version raised on its key
//! since; no number is given twice; full exactly at 256.
//!
//! The contracts that say so: `AskTable::begin`, `raise`, `end`, `end_shard`, `end_all`; the law
//! `open_asks_tell_the_calls` over all calls.
#![tactic(auto)]

ghost use Rattle.ask_table.specs.Asks.{IsTable, asks_of, is_full, shown, with_ask, with_floor, without_ask, without_asks, without_shard};
ghost use Rattle.ask_table.specs.Open.{is_numbered};
ghost use Rattle.std.specs.Option.{option_map};
ghost use Rattle.std.specs.Prelude.{◌≡◌, ◌+◌, ◌↔◌, [], find as find_word, IfNone, IfOk, IfSome, IsNone, IsTrue, OnSome};

pub mod ask;
pub mod laws;

pub use ask::{Ask, AskNo};
use std::alloc::Global;
use std::marker::Model;
use tao_base::{Key, OutOfMemory};

/// The most asks that are open at once.
pub const MAX_ASKS: usize = 256;

/// The open asks of a node. Takes the memory of the most that can be open.
#[derive(Drop)]
pub struct AskTable {
    asks: Vec<Ask>,
    given: u64,
}

impl Model for AskTable {
    ghost use Rattle.ask_table.specs.Asks.{Asks, IsTable, asks_of};
    ghost use Rattle.std.specs.Prelude.{◌≤◌, vec_capacity};

    ghost Value = { Asks };

    ghost view = { λ t. asks_of t.asks.items t.given };

    ghost invariant = { λ t. IsTable (asks_of t.asks.items t.given) × (256 ≤ vec_capacity t.asks) };
}

impl AskTable {
    /// No ask is open, and no number was given.
    pub fn make(alloc: Global) -> Result<AskTable, OutOfMemory>
        ensures { IfOk result (λ table. table ≡ asks_of [] 0) }
    {
        Ok(AskTable {
            asks: Vec::with_capacity(alloc, MAX_ASKS)?,
            given: 0,
        })
    }

    /// Whether no ask can begin: 256 are open, or 2^64 - 1 numbers were given.
    pub fn is_full(&self) -> bool
        ensures value { result ≡ is_full self.now }
        ensures table { IsTable self.now }
    {
        self.asks.len() >= MAX_ASKS || self.given == u64::MAX
    }

    /// Begins an ask on the key, with the mark of the moment and floor 0, under the next number.
    /// None, and nothing changed, exactly where the table is full. Takes no memory.
    pub fn begin(&mut self, key: Key, low: u64) -> Option<AskNo>
        ensures full { IsNone result ↔ IsTrue (is_full self.old) }
        ensures number { IfSome result (λ ask. ask ≡ self.old.given + 1) }
        ensures begun { OnSome result (self.new ≡ with_ask key low self.old) }
        ensures none { IfNone result (self.new ≡ self.old) }
    {
        if self.is_full() {
            return None;
        }
        self.given += 1;
        let number = AskNo::of(self.given);
        let ask = Ask {
            number,
            key,
            mark: low,
            floor: 0,
        };
        if self.asks.push(ask).is_err() {
            unreachable!();
        }
        Some(number)
    }

    /// Raises the floor of each ask on the key to the version, where it is lower. Looks at each open
    /// ask, and takes no memory.
    pub fn raise(&mut self, key: Key, version: u64)
        ensures { self.new ≡ with_floor key version self.old }
    {
        for ask in self.asks.iter_mut() {
            ask.raise(&key, version);
        }
    }

    /// Ends an ask, and answers its key, mark and floor. None exactly where it isn't open. Looks at
    /// each open ask, and takes no memory.
    pub fn end(&mut self, ask: AskNo) -> Option<(Key, u64, u64)>
        ensures shown { result ≡ option_map shown (find_word (is_numbered ask) self.old.asks) }
        ensures ended { self.new ≡ without_ask ask self.old }
    {
        let found = self.find(ask)?;
        self.asks.retain(|open| !open.is_numbered(ask));
        Some((found.key, found.mark, found.floor))
    }

    /// The key of an open ask. None exactly where it isn't open. Looks at each open ask, and takes no memory.
    pub fn key_of(&self, ask: AskNo) -> Option<Key>
        ensures { result ≡ option_map (λ a. a.key) (find_word (is_numbered ask) self.now.asks) }
    {
        match self.find(ask) {
            Some(found) => Some(found.key),
            None => None,
        }
    }

    fn find(&self, ask: AskNo) -> Option<Ask>
        ensures { result ≡ find_word (is_numbered ask) self.now.asks }
    {
        self.asks.iter().copied().find(|open| open.is_numbered(ask))
    }

    /// Ends each open ask on a key of the shard. Looks at each open ask, and takes no memory.
    pub fn end_shard(&mut self, shard: u16)
        ensures { self.new ≡ without_shard shard self.old }
    {
        self.asks.retain(|open| !open.is_on_shard(shard));
    }

    /// Ends every open ask. Takes no memory.
    pub fn end_all(&mut self)
        ensures { self.new ≡ without_asks self.old }
    {
        self.asks.clear();
    }
}
