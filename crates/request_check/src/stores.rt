//! What is asked of stores.
ghost use Rattle.outcomes.specs.Results.{Gives};
ghost use Rattle.request_check.specs.Refusal.{name_unless_memory};
ghost use Rattle.request_check.specs.Names.{settings};
ghost use Rattle.request_check.specs.Stores.{checked_repair, checked_store};

use crate::calls::checked_read_call;
use crate::checked::CheckedRead;
use crate::names::Names;
use crate::refusal::NameError;
use requests::StoreRequest;

/// What is asked of stores.
#[derive(Drop)]
pub enum CheckedStore {
    /// Without a position the entry that the region's store takes next.
    Stream {
        region: u16,
        shard: u16,
        position: Option<u64>,
    },
    /// The entries up to the position are old from then on.
    Trim {
        region: u16,
        shard: u16,
        position: u64,
    },
    Repair {
        shard: u16,
    },
    Settle,
    Audit(CheckedRead),
}

pub(crate) fn checked_store(
    names: &Names<'_>,
    asked: &StoreRequest,
) -> Result<CheckedStore, NameError>
    ensures { Gives name_unless_memory result (checked_store (settings names.now) asked.now) }
{
    match asked {
        StoreRequest::Stream {
            region,
            shard,
            position,
        } => {
            let store = names.store(region.as_str(), *shard)?;
            Ok(CheckedStore::Stream {
                region: store.region,
                shard: store.shard,
                position: *position,
            })
        }
        StoreRequest::Trim {
            region,
            shard,
            position,
        } => {
            let store = names.store(region.as_str(), *shard)?;
            Ok(CheckedStore::Trim {
                region: store.region,
                shard: store.shard,
                position: *position,
            })
        }
        StoreRequest::Repair { shard } => checked_repair(names, *shard),
        StoreRequest::Settle => Ok(CheckedStore::Settle),
        StoreRequest::Audit(call) => checked_read_call(names, call).map(CheckedStore::Audit),
    }
}

fn checked_repair(names: &Names<'_>, shard: u16) -> Result<CheckedStore, NameError>
    ensures { Gives name_unless_memory result (checked_repair (settings names.now) shard) }
{
    names.shard(shard)?;
    Ok(CheckedStore::Repair { shard })
}
