//! The locks of the nodes: each call finds a node by its name, locks it, and does one hold.
ghost use Rattle.std.specs.Prelude.{ℕ, ◌≡◌, IfErr, IfOk};
ghost use Rattle.core_model.specs.Asked.{lent_read, settings};
ghost use Rattle.core_model.specs.Reads.{IsRightAnswer, IsRightFill, given_of, wanted};
ghost use Rattle.core_model.specs.Serving.{IsFollowerFor, IsLeaderFor};
ghost use Rattle.locked_nodes.specs.Cluster.{MayFail};
ghost use Rattle.locked_nodes.specs.Replies.{RepliesRefused};
ghost use Rattle.log_names.specs.Names.{IsOfLog};
ghost use Rattle.session_pass.specs.Passes.{ReachesIn};
ghost use Rattle.shard_log.specs.GrowthLaws.{IsLegalIn};
ghost use Rattle.shard_log.specs.View.{Grows};
ghost use Rattle.shared_nodes.specs.Nodes.{IsKeptAsSeen, IsLegalHit};
ghost use Rattle.shared_nodes.specs.shared_stores.PastBound.{IsUndecidedGiven};
ghost use Rattle.tao_base.specs.Queries.{query_key, query_shard};
ghost use Rattle.tao_schema.specs.Schema.{types_of};

use crate::holds;
use crate::holds::{Asked, Mastered};
use crate::nodes::LockedNodes;
use ask_table::AskNo;
use core_model::{Around, Wanted};
use node_name::NodeName;
use replies::Reply;
use sealed_item::Fill;
use shard_log::Note;
use shared_nodes::shared_stores::Sharing;
use shared_nodes::{SharedKept, SharedLook};
use std::sync::Wait;
use store_replies::out_of_memory;
use tao_base::{OutOfMemory, Query, StoreName};
use tao_keeper::Keeper;

impl<'c, K: Keeper, J: Sharing> LockedNodes<'c, K, J> {
    /// What stands around every call.
    pub fn around(&self) -> Around<'_>
        ensures { (settings result).schema ≡ J.making.settings.schema }
    {
        Around {
            alloc: self.alloc,
            config: self.config,
        }
    }

    /// The stage `look`, under the follower's lock.
    pub fn look<R: Wait>(
        &self,
        rt: &R,
        name: NodeName,
        read: &Wanted<'_>,
    ) -> Result<SharedLook, OutOfMemory>
        requires serves { IsFollowerFor J.making.settings (query_shard read.now.query.now) name }
        ensures note { IfOk result (λ found. IsOfLog J.log (query_shard read.now.query.now) found.note) }
        ensures legal { IfOk result (λ found. IsLegalHit (types_of J.making.settings.schema) found.note (lent_read read.now) found.look) }
    {
        let Some(shared) = self.follower(name) else {
            return Err(OutOfMemory);
        };
        let mut follower = shared.lock(rt);
        holds::look(&mut follower, self.schema(), name, read)
    }

    /// The stage `look` of a critical read, under the follower's lock.
    pub fn ask_at_once<R: Wait>(&self, rt: &R, name: NodeName, query: &Query) -> Option<AskNo>
        requires serves { IsFollowerFor J.making.settings (query_shard query.now) name }
    {
        let Some(shared) = self.follower(name) else {
            return None;
        };
        let mut follower = shared.lock(rt);
        holds::ask_at_once(&mut follower, name, query)
    }

    /// The stage `keep`, under the follower's lock.
    pub fn keep<R: Wait>(
        &self,
        rt: &R,
        name: NodeName,
        read: &Wanted<'_>,
        ask: Option<AskNo>,
        fill: Fill,
    ) -> Result<SharedKept, OutOfMemory>
        requires serves { IsFollowerFor J.making.settings (query_shard read.now.query.now) name }
        requires fill { IsRightFill (types_of J.making.settings.schema) (IsOfLog J.log) (lent_read read.now) fill }
        ensures note { IfOk result (λ kept. IsOfLog J.log (query_shard read.now.query.now) kept.note) }
        ensures legal { IfOk result (λ kept.
            IsLegalIn (types_of J.making.settings.schema) fill.note read.now.query.now read.now.floor kept.answer fill.version) }
        ensures why { IfOk result (λ kept. IsKeptAsSeen kept.note (query_key read.now.query.now) kept.kept) }
    {
        let Some(shared) = self.follower(name) else {
            return Err(OutOfMemory);
        };
        let mut follower = shared.lock(rt);
        holds::keep(&mut follower, self.schema(), name, read, ask, fill)
    }

    /// Ends the ask of a read, under the follower's lock.
    pub fn end_ask<R: Wait>(&self, rt: &R, name: NodeName, ask: Option<AskNo>) {
        if let Some(shared) = self.follower(name) {
            let mut follower = shared.lock(rt);
            follower.end_ask(ask);
        }
    }

    /// The stage `ask`, under the leader's lock and then that of its region's store.
    pub fn ask<R: Wait>(
        &self,
        rt: &R,
        name: NodeName,
        at: StoreName,
        read: &Wanted<'_>,
    ) -> Result<Asked, Reply>
        requires serves { IsLeaderFor J.making.settings (query_shard read.now.query.now) name }
        requires at { at.shard ≡ query_shard read.now.query.now }
        ensures given { IfOk result (λ asked. IsRightAnswer (types_of J.making.settings.schema) (IsOfLog J.log) (lent_read read.now) asked.given) }
        ensures past { IfOk result (λ asked. IsUndecidedGiven (types_of J.making.settings.schema) read.now.query.now asked.given) }
        ensures err { IfErr result (RepliesRefused ⊥ (MayFail K.state)) }
    {
        let Some(leader) = self.leader(name) else {
            return Err(out_of_memory());
        };
        let Some(store) = self.store(at) else {
            return Err(out_of_memory());
        };
        let mut leader = leader.lock(rt);
        let mut store = store.lock(rt);
        let around = self.around();
        holds::ask(&mut leader, &mut store, &around, name, at, read)
    }

    /// The stage `master`, under the store's lock. The note sees all that the store has.
    #[tactic(auto, using(crate::proofs::Seeing::stays_seen))]
    pub fn read_store<R: Wait>(
        &self,
        rt: &R,
        at: StoreName,
        query: &Query,
        note: &mut Note,
    ) -> Result<Mastered, Reply>
        requires at { at.shard ≡ query_shard query.now }
        requires log { IsOfLog J.log (query_shard query.now) note.old }
        ensures given { IfOk result (λ read. (floor : ℕ) → ReachesIn note.old (query_key query.now) floor
            → IsRightAnswer (types_of J.making.settings.schema) (IsOfLog J.log) (wanted query.now floor) (given_of read.out)) }
        ensures past { IfOk result (λ read. IsUndecidedGiven (types_of J.making.settings.schema) query.now (given_of read.out)) }
        ensures grows { Grows note.old note.new }
        ensures err { IfErr result (RepliesRefused ⊥ (MayFail K.state)) }
    {
        let Some(store) = self.store(at) else {
            return Err(out_of_memory());
        };
        let mut store = store.lock(rt);
        let around = self.around();
        holds::read(&mut store, &around, at, query, note)
    }
}
