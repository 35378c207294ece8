//! The passes of a cluster's sessions.
ghost use Rattle.std.specs.Prelude.{◌≡◌, ◌<◌, [], IfOk, length};
ghost use Rattle.locked_nodes.specs.Nodes.{HasTier};
ghost use Rattle.locked_nodes.specs.Passes.{AreOfTheirLogs, IsPassOf};
ghost use Rattle.log_names.specs.Names.{IsOfLog};

use crate::nodes::LockedNodes;
use core_nodes::master_store;
use session_pass::Pass;
use shard_log::Note;
use shared_nodes::shared_stores::{SharedStore, Sharing};
use std::sync::Wait;
use tao_base::{OutOfMemory, StoreName};
use tao_keeper::Keeper;

/// A note of the log of the store's shard, if the store is of that name.
fn note_of_store<K: Keeper, J: Sharing>(
    store: &mut SharedStore<K, J>,
    at: StoreName,
) -> Result<Note, OutOfMemory>
    ensures { IfOk result (IsOfLog J.log at.shard) }
{
    if store.name() != at {
        return Err(OutOfMemory);
    }
    store.note()
}

impl<'c, K: Keeper, J: Sharing> LockedNodes<'c, K, J> {
    /// A note of a shard's log, taken under the lock of its master's store.
    fn shard_note<R: Wait>(&self, rt: &R, shard: u16) -> Result<Note, OutOfMemory>
        ensures { IfOk result (IsOfLog J.log shard) }
    {
        let at = master_store(self.config, shard);
        match self.store(at) {
            Some(store) => note_of_store(&mut store.lock(rt), at),
            None => Err(OutOfMemory),
        }
    }

    /// Notes of all shards' logs, in order.
    fn shard_notes<R: Wait>(&self, rt: &R) -> Result<Vec<Note>, OutOfMemory>
        ensures long { IfOk result (λ notes. length notes.items ≡ J.making.settings.shards) }
        ensures notes { IfOk result (λ notes. AreOfTheirLogs J.log notes.items) }
    {
        let config = self.config;
        let mut notes = Vec::new(self.alloc);
        for shard in 0..config.shards {
            let note = self.shard_note(rt, shard)?;
            notes.push(note)?;
        }
        Ok(notes)
    }

    /// The pass of a session of a configured tier, by its place in its region, which was told of nothing yet. It has a note of each shard's log, in their
    /// order, each taken under the lock of the shard's master's store. The one error is out of memory.
    pub fn pass<R: Wait>(
        &self,
        rt: &R,
        session: u32,
        region: u16,
        tier: u16,
    ) -> Result<Pass, OutOfMemory>
        requires home { region < length J.making.settings.regions }
        requires tier { HasTier J.making.settings region tier }
        ensures pass { IfOk result (IsPassOf J.making J.log) }
        ensures session { IfOk result (λ pass. pass.session ≡ session) }
        ensures region { IfOk result (λ pass. pass.region ≡ region) }
        ensures tier { IfOk result (λ pass. pass.tier ≡ tier) }
        ensures floors { IfOk result (λ pass. pass.floors ≡ []) }
    {
        let notes = self.shard_notes(rt)?;
        Pass::make(self.alloc, session, region, tier, notes)
    }
}
