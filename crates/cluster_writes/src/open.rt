//! A write on its way.
ghost use Rattle.std.specs.Prelude.{◌≡◌, ◌≢◌, ◌<◌, IfSome, Some};
ghost use Rattle.core_model.specs.Jobs.{far_shard};
ghost use Rattle.shared_stores.specs.Asked.{lent_owed};
ghost use Rattle.shared_stores.specs.Owed.{owed_by};
ghost use Rattle.tao_base.specs.Writes.{write_shard};
ghost use Rattle.write_plan.specs.Plans.{answered_entry, answered_job};

use core_model::far_shard;
use shard_log::Note;
use shared_stores::{CountedNote, OwedJob};
use topology::Config;
use write_plan::WritePlan;

/// A write on its way, and notes of all that its pass and its stages have seen: of its shard's log, and of the log where its job is owed, once that is done
/// there, or where it isn't merged.
#[derive(Drop)]
pub(crate) struct OpenWrite {
    pub(crate) plan: WritePlan,
    pub(crate) seen: Note,
    pub(crate) done: Option<CountedNote>,
    pub(crate) far: Option<Note>,
}

/// What the entry of a write owes to another shard of the configuration. None where it owes nothing there, as keepers that don't tell their tables may say
/// of a write that was made before.
pub(crate) fn owed_of<'p>(config: &Config, plan: &'p WritePlan) -> Option<OwedJob<'p>>
    ensures owed { IfSome result (λ owed. lent_owed owed ≡ owed_by (write_shard plan.now.write) owed.job.now owed.entry.now) }
    ensures job { IfSome result (λ owed. answered_job plan.now ≡ Some owed.job.now) }
    ensures entry { IfSome result (λ owed. answered_entry plan.now ≡ Some owed.entry.now) }
    ensures away { IfSome result (λ owed. owed.to ≢ owed.from) }
    ensures there { IfSome result (λ owed. owed.to < config.now.shards) }
{
    let (Some(entry), Some(job)) = (plan.entry(), plan.job()) else {
        return None;
    };
    let (from, to) = (plan.write().shard(), far_shard(job));
    if to == from || to >= config.shards {
        return None;
    }
    Some(OwedJob {
        from,
        to,
        entry,
        job,
    })
}
