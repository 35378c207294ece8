//! Audits.
ghost use Rattle.tao_core.specs.StoreReplies.{AnswersAudit};
ghost use Rattle.tao_keeper.specs.KeeperState.{IsLater, KeepsTables};

use crate::refusals::failed_as;
use core_nodes::master_store;
use plain_graph::answer;
use replies::Reply;
use request_check::CheckedRead;
use shard_tables::whole_log;
use std::alloc::Global;
use store_replies::out_of_memory;
use tao_base::OutOfMemory;
use tao_keeper::Keeper;
use topology::Config;

/// Answers an audit from all entries of the log of the query's shard, as the definitions say. Costs
/// a call of the keeper for each entry, and holds them all.
pub(crate) fn audit<K: Keeper>(
    alloc: Global,
    config: &Config,
    keepers: &mut K,
    call: &CheckedRead,
) -> Reply
    ensures does { AnswersAudit K.TELLS config.now (K.state keepers.old) call.now result (K.state keepers.new) }
    ensures stays { KeepsTables K.TELLS (K.state keepers.old) (K.state keepers.new) }
    ensures later { IsLater (K.state keepers.old) (K.state keepers.new) }
{
    let at = master_store(config, call.query.shard());
    let log = match whole_log(alloc, keepers, at) {
        Ok(log) => log,
        Err(fail) => return failed_as(fail, keepers.faults()),
    };
    match answer(alloc, &log, &call.query, &config.schema) {
        Ok(answer) => Reply::Audited {
            answer,
            position: log.len() as u64,
        },
        Err(OutOfMemory) => out_of_memory(),
    }
}
