//! How a stage that gives no answer is refused.
//!
//! What it promises. Each refusal of a store is replied as itself, with the count of the keeper's faults where the keeper failed; a carry that failed
//! with the count of the link's. That there was no memory is replied in one way. A job that a store doesn't merge or end stays open, for the reason that
//! the store gave.
//!
//! The contracts that say so: `out_of_memory`, `refused_as`, `link_fault`, `why_left_open`.
#![tactic(auto)]

ghost use Rattle.std.specs.Prelude.{◌≡◌};
ghost use Rattle.shard_tables.specs.Jobs.{IsOfMerges};
ghost use Rattle.store_replies.specs.Refused.{refused_as, why_left_open};

use replies::{Refusal, Reply, ScheduledWhy, StoreRefused, When};
use shard_tables::StoreRefusal;

/// The reply that there was no memory, before anything is committed.
pub fn out_of_memory() -> Reply
    ensures { result ≡ Reply.Refused (Refusal.Memory 0) }
{
    Reply::Refused(Refusal::Memory { position: 0 })
}

/// How a store's refusal is said, where the keepers have counted so many faults.
pub fn refused_as(refusal: StoreRefusal, faults: u64) -> Refusal
    ensures { result ≡ refused_as faults refusal }
{
    let refused = match refusal {
        StoreRefusal::TooOld { cut, position } => StoreRefused::TooOld { cut, position },
        StoreRefusal::SeqReused { position } => StoreRefused::SeqReused { position },
        StoreRefusal::ShardFull { serial } => StoreRefused::ShardFull { serial },
        StoreRefusal::StampFull { number } => StoreRefused::StampFull { number },
        StoreRefusal::LogFull { length } => StoreRefused::LogFull { length },
        StoreRefusal::KeeperFault => StoreRefused::KeeperFault { count: faults },
        StoreRefusal::OutOfMemory => return Refusal::Memory { position: 0 },
    };
    Refusal::Store(refused)
}

/// A carry failed, where the link has counted so many faults.
pub fn link_fault(faults: u64, when: When) -> Refusal
    ensures { result ≡ Refusal.Store (StoreRefused.LinkFault faults when) }
{
    Refusal::Store(StoreRefused::LinkFault {
        count: faults,
        when,
    })
}

/// Why a job is left open that the store refused to merge or to end.
pub fn why_left_open(refusal: &StoreRefusal) -> ScheduledWhy
    requires { IsOfMerges refusal.now }
    ensures { result ≡ why_left_open refusal.now }
{
    match refusal {
        StoreRefusal::KeeperFault => ScheduledWhy::KeeperFault,
        StoreRefusal::LogFull { .. } => ScheduledWhy::LogFull,
        StoreRefusal::OutOfMemory => ScheduledWhy::Memory,
        _ => unreachable!(),
    }
}
