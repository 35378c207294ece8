//! Merges of what entries of other shards owe to this one.
ghost use Rattle.std.specs.Prelude.{◌≡◌, ◌<◌, IfErr, IfOk, None};
ghost use Rattle.write_model.specs.MergeLaws.{MayBeMerged};
ghost use Rattle.graph_model.specs.Told.{WhereTold};
ghost use Rattle.shard_tables.specs.Jobs.{made_merge};
ghost use Rattle.shard_tables.specs.StoreCommits.{CanCommit, HasNoCommit};
ghost use Rattle.shard_tables.specs.Stores.{IsStoreOf, length_of};
ghost use Rattle.shard_tables.specs.WriteDone.{MergeDone, StoreGains, asked_merge_at};
ghost use Rattle.shard_tables.specs.declared.store.StoreRole.TheVariants.{Master};
ghost use Rattle.tao_keeper.specs.Given.{HaveSmallRecords, HaveSmallStamps};

use super::refusal::StoreRefusal;
use super::store::StoreNode;
use super::writes::{Wrote, add_entry};
use std::alloc::Global;
use tao_base::{Entry, Kind, Origin, Touch, Touches};
use tao_keeper::{Commit, Job, Keeper};
use write_touches::news_touches;

/// What a merge with these touches commits: its entry, where the log has room for it.
fn merge_commit(
    store: &StoreNode,
    from: u16,
    position: u64,
    touches: Vec<Touch>,
) -> Result<Commit, StoreRefusal>
    requires master { store.now.role ≡ Master }
    requires stamps { HaveSmallStamps touches.items }
    ensures entry { IfOk result (λ commit. commit.entry ≡ made_merge (length_of store.now) from position touches.items) }
    ensures job { IfOk result (λ commit. commit.job ≡ None) }
    ensures can { IfOk result (CanCommit store.now) }
    ensures room { IfOk result (λ _. length_of store.now < store.now.log_max) }
    ensures refusals { IfErr result (HasNoCommit store.now) }
{
    let length = store.room()?;
    let entry = Entry {
        position: length + 1,
        kind: Kind::Merge,
        origin: Origin::Merge {
            shard: from,
            position,
        },
        touches: Touches::of(touches),
    };
    Ok(Commit { entry, job: None })
}

impl StoreNode {
    /// Merges records that an entry of another shard owes to this one: adds the one entry that writes those of them that are
    /// later than what stands here, or none where none is later. A refusal changes no table, and not the log.
    ///
    /// Refused as `LogFull` where an entry would be written for which the log has no room. `KeeperFault` comes only where the
    /// keeper's count of faults rose, and `OutOfMemory` where there was no memory.
    pub fn merge<M: Keeper>(
        &mut self,
        alloc: Global,
        keeper: &mut M,
        from: u16,
        job: &Job,
    ) -> Result<Wrote, StoreRefusal>
        requires master { self.old.role ≡ Master }
        requires keeper { IsStoreOf M.TELLS (M.state keeper.old).told self.old }
        requires position { 0 < job.now.position }
        requires stamps { HaveSmallRecords job.now.edges }
        requires may { WhereTold M.TELLS
            (MayBeMerged self.old.name.shard ((M.state keeper.old).told self.old.name).log from job.now.position job.now.edges) }
        ensures done { MergeDone M.TELLS self.old.name (asked_merge_at (M.state keeper.old).told self.old from job.now)
            (M.state keeper.old) (M.state keeper.new) result }
        ensures store { StoreGains M.TELLS (M.state keeper.new).told self.old self.new result }
    {
        let note = self.note()?;
        let touches = news_touches(alloc, keeper, self.name(), job.edges.as_slice())?;
        if touches.is_empty() {
            return Ok(Wrote::nothing(note));
        }
        let commit = merge_commit(self, from, job.position, touches)?;
        add_entry(self, keeper, commit, note)
    }
}
