//! What an audit finds of one log.
ghost use Rattle.std.specs.Prelude.{IsErrOf};
ghost use Rattle.load_audit.specs.Auditing.{AuditsLog};
ghost use Rattle.load_audit.specs.declared.audits.AuditRefusal.TheVariants.{Failed as AuditFailed};
ghost use Rattle.tao_keeper.specs.declared.keeper.KeepFail.TheVariants.{Failed as KeeperFailed};

use crate::audits::AuditRefusal;
use crate::live::live_edges;
use crate::writes::ListedWrites;
use std::alloc::Global;
use tao_base::Entry;

/// How many entries a log has, and how many edges it leaves live.
#[derive(Clone, Copy)]
pub(crate) struct LogFound {
    pub(crate) length: u64,
    pub(crate) live: u64,
}

/// Audits the log of a shard, which was read whole. No keeper is called.
pub(crate) fn audit_log(
    alloc: Global,
    writes: &ListedWrites<'_>,
    shard: u16,
    log: &[Entry],
) -> Result<LogFound, AuditRefusal>
    ensures audits { AuditsLog writes.now shard log.now result }
    ensures no_fault { IsErrOf result (AuditFailed KeeperFailed) → ⊥ }
{
    match writes.first_strange(log)? {
        Some(position) => Err(AuditRefusal::Stranger { shard, position }),
        None => {
            let live = live_edges(alloc, log)?;
            Ok(LogFound {
                length: log.len() as u64,
                live,
            })
        }
    }
}
