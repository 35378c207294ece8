//! `Floors`, what a session was told of.
ghost use Rattle.std.specs.Prelude.{◌≡◌, ◌+◌, ◌<◌, ◌≤◌, [], ◌∷◌, IfOk, OnOk, length};
ghost use Rattle.session_pass.specs.Floors.{LearnsTouches, floor_at, with_learnt};

use indexmap::IndexMap;
use std::alloc::Global;
use std::marker::Model;
use tao_base::{Key, OutOfMemory, Touch};

/// The greatest version of each key that a session was told of.
#[derive(Drop)]
pub(crate) struct Floors {
    versions: IndexMap<Key, u64>,
}

impl Model for Floors {
    ghost use Rattle.indexmap.specs.IndexMap.{spare};
    ghost use Rattle.session_pass.specs.Floors.{FloorTable};

    ghost Value = { FloorTable };

    ghost view = { λ f. record { floors = f.versions.entries; spare = spare f.versions } };
}

impl Floors {
    /// No key has a floor, and so many keys may be added.
    pub(crate) fn make(alloc: Global, spare: usize) -> Result<Floors, OutOfMemory>
        ensures floors { IfOk result (λ made. made.floors ≡ []) }
        ensures spare { IfOk result (λ made. spare ≤ made.spare) }
    {
        Ok(Floors {
            versions: IndexMap::with_capacity(alloc, spare)?,
        })
    }

    pub(crate) fn at(&self, key: &Key) -> u64
        ensures { result ≡ floor_at self.now.floors key.now }
    {
        match self.versions.get(key) {
            Some(version) => *version,
            None => 0,
        }
    }

    /// Makes room for so many keys more.
    pub(crate) fn reserve(&mut self, spare: usize) -> Result<(), OutOfMemory>
        ensures floors { self.new.floors ≡ self.old.floors }
        ensures ok { OnOk result (spare ≤ self.new.spare) }
        ensures spare { self.old.spare ≤ self.new.spare }
    {
        self.versions.reserve(spare)?;
        Ok(())
    }

    /// Raises the floor of a key to the version, if it is lower. Takes no memory.
    pub(crate) fn learn(&mut self, key: &Key, version: u64)
        requires { 0 < self.old.spare }
        ensures floors { self.new.floors ≡ with_learnt key.now version self.old.floors }
        ensures spare { self.old.spare ≤ self.new.spare + 1 }
    {
        if self.at(key) < version {
            let _ = self.versions.insert(*key, version);
        }
    }

    /// Learns what the touches say of the keys of a shard. Takes no memory.
    pub(crate) fn learn_touches(&mut self, shard: u16, touches: &[Touch])
        requires { length touches.now ≤ self.old.spare }
        ensures learns { LearnsTouches shard touches.now self.old.floors self.new.floors }
        ensures spare { self.old.spare ≤ self.new.spare + length touches.now }
    {
        for touch in touches {
            self.learn_touch(shard, touch);
        }
    }

    /// Learns what a touch says of its key, if that is of the shard.
    fn learn_touch(&mut self, shard: u16, touch: &Touch)
        requires { 0 < self.old.spare }
        ensures learns { LearnsTouches shard (touch.now ∷ []) self.old.floors self.new.floors }
        ensures spare { self.old.spare ≤ self.new.spare + 1 }
    {
        if touch.key.shard() == shard {
            self.learn(&touch.key, touch.version);
        }
    }
}
