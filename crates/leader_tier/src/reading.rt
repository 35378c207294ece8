//! Reads of a leader.
ghost use Rattle.std.specs.Prelude.{◌≡◌, IfErr, IfOk, None, OnErr, Some};
ghost use Rattle.tao_base.specs.Queries.{query_shard};
ghost use Rattle.cache_node.specs.cache_items.HandedOn.{HandsOn};
ghost use Rattle.leader_tier.specs.LeaderReads.{GivesAnswer, AreAnswersSeen, IsLegalAt, KeepsGiven, ReadsStore, asked_read, at_floor};
ghost use Rattle.cache_node.specs.served_shards.Served.{log_at};
ghost use Rattle.shard_tables.specs.ReadOuts.{IsFor, read_note};
ghost use Rattle.shard_tables.specs.Refusals.{IsOfReads};
ghost use Rattle.shard_tables.specs.Stores.{IsStoreOf};
ghost use Rattle.tao_keeper.specs.Growing.{LogsGrow};
ghost use Rattle.tao_keeper.specs.KeeperState.{CallsKeeper, KeepsTables};
ghost use Rattle.tao_schema.specs.Schema.{types_of};

use crate::leader::Leader;
use cache_node::sealed_item::laws::fills_are_sealed;
use shard_tables::{LeaderAnswer, ReadOut, StoreNode, StoreRefusal};
use std::alloc::Global;
use tao_base::Query;
use tao_keeper::Keeper;
use tao_schema::Schema;

/// What a store read, where it has come to the floor, and else the version that it has. A leader answers so, and so does a store in its place.
pub fn at_floor(floor: u64, out: ReadOut) -> LeaderAnswer
    ensures { result ≡ at_floor floor out }
{
    match out {
        ReadOut::Filled(fill) => {
            let version = fill.version();
            if version < floor {
                drop(fill);
                return LeaderAnswer::Behind { version };
            }
            LeaderAnswer::Filled(fill)
        }
        ReadOut::Past {
            answer,
            version,
            total,
            note,
        } => {
            if version < floor {
                drop(answer);
                drop(note);
                return LeaderAnswer::Behind { version };
            }
            LeaderAnswer::Past {
                answer,
                version,
                total,
                note,
            }
        }
    }
}

impl Leader {
    /// Answers a read with a floor. An item of the leader's own serves where it has the floor's version or more and a front
    /// within the bound decides the query: the shortest one is handed on, as of the low-water mark, with no call of the
    /// keeper, and the item then stands first. Else the store is read: what it has is handed on where its version has come to
    /// the floor, and a copy of a fill is kept where it is as of every marked position and there is memory. It is behind
    /// exactly where its version is below the floor, and nothing is kept then.
    ///
    /// `KeeperFault` comes only where the keeper's count of faults rose, and `OutOfMemory` where there was no memory; the
    /// leader stays as it was.
    ///
    /// Costs a copy of what is handed on of its own, or what the store's read costs and a copy of the fill.
    pub fn answer<M: Keeper>(
        &mut self,
        alloc: Global,
        store: &mut StoreNode,
        keeper: &mut M,
        schema: &Schema,
        query: &Query,
        floor: u64,
    ) -> Result<LeaderAnswer, StoreRefusal>
        requires log { log_at (query_shard query.now) self.old.served ≡ Some store.old.view.log }
        requires keeper { IsStoreOf M.TELLS (M.state keeper.old).told store.old }
        ensures given { IfOk result (λ given. GivesAnswer (asked_read (types_of schema.now) self.old query.now floor) store.old given self.new
            (M.state keeper.old) (M.state keeper.new)) }
        ensures legal { IfOk result (IsLegalAt (types_of schema.now) query.now floor) }
        ensures err { OnErr result (self.new ≡ self.old) }
        ensures refused { IfErr result IsOfReads }
        ensures same { store.new ≡ store.old }
        ensures tables { KeepsTables M.TELLS (M.state keeper.old) (M.state keeper.new) }
        ensures logs { LogsGrow M.TELLS (M.state keeper.old).told (M.state keeper.new).told }
        ensures keeper { IsStoreOf M.TELLS (M.state keeper.new).told store.new }
        ensures calls { CallsKeeper StoreRefusal.KeeperFault (M.state keeper.old) (M.state keeper.new) result }
    {
        match self.serve(schema, query, floor)? {
            Some(fill) => {
                fills_are_sealed(&fill);
                Ok(LeaderAnswer::Filled(fill))
            }
            None => self.answer_of_store(alloc, store, keeper, schema, query, floor),
        }
    }

    // Answers a read of the store, where no item of the leader's own serves.
    fn answer_of_store<M: Keeper>(
        &mut self,
        alloc: Global,
        store: &mut StoreNode,
        keeper: &mut M,
        schema: &Schema,
        query: &Query,
        floor: u64,
    ) -> Result<LeaderAnswer, StoreRefusal>
        requires none { HandsOn (types_of schema.now) self.old query.now floor None }
        requires log { log_at (query_shard query.now) self.old.served ≡ Some store.old.view.log }
        requires keeper { IsStoreOf M.TELLS (M.state keeper.old).told store.old }
        ensures given { IfOk result (λ given. ReadsStore (asked_read (types_of schema.now) self.old query.now floor) store.old given self.new
            (M.state keeper.old) (M.state keeper.new)) }
        ensures legal { IfOk result (IsLegalAt (types_of schema.now) query.now floor) }
        ensures err { OnErr result (self.new ≡ self.old) }
        ensures refused { IfErr result IsOfReads }
        ensures same { store.new ≡ store.old }
        ensures tables { KeepsTables M.TELLS (M.state keeper.old) (M.state keeper.new) }
        ensures logs { LogsGrow M.TELLS (M.state keeper.old).told (M.state keeper.new).told }
        ensures keeper { IsStoreOf M.TELLS (M.state keeper.new).told store.new }
        ensures calls { CallsKeeper StoreRefusal.KeeperFault (M.state keeper.old) (M.state keeper.new) result }
    {
        let out = store.read(alloc, keeper, schema, query)?;
        Ok(self.hand_out(schema, query, floor, out))
    }

    // Hands out what the store read, where it has come to the floor, and keeps a copy of a fill.
    fn hand_out(
        &mut self,
        _schema: &Schema,
        query: &Query,
        floor: u64,
        out: ReadOut,
    ) -> LeaderAnswer
        requires fits { IsFor (types_of _schema.now) query.now out }
        requires seen { AreAnswersSeen (types_of _schema.now) query.now out }
        requires log { log_at (query_shard query.now) self.old.served ≡ Some (read_note out).log }
        ensures given { result ≡ at_floor floor out }
        ensures legal { IsLegalAt (types_of _schema.now) query.now floor result }
        ensures keeps { KeepsGiven self.old result self.new }
    {
        match at_floor(floor, out) {
            LeaderAnswer::Filled(mut fill) => {
                fills_are_sealed(&fill);
                let _kept = self.keep_copy(&mut fill);
                LeaderAnswer::Filled(fill)
            }
            LeaderAnswer::Past {
                answer,
                version,
                total,
                note,
            } => {
                LeaderAnswer::Past {
                    answer,
                    version,
                    total,
                    note,
                }
            }
            LeaderAnswer::Behind { version } => LeaderAnswer::Behind { version },
        }
    }
}
