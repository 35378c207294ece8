//! A job that the first shard owes to the other one.
ghost use Rattle.std.specs.Prelude.{◌≡◌, ◌<◌, ◌∷◌, [], IfOk, IsTrue, true};
ghost use Rattle.edge_repair.specs.Calls.{MayTakeJob};
ghost use Rattle.edge_repair.specs.JobBetween.{job_between};
ghost use Rattle.graph_model.specs.Soundness.{IsNewOrigin};
ghost use Rattle.keeper_map.specs.MapKeeper.{told_by};
ghost use Rattle.shard_tables.specs.declared.store.StoreRole.TheVariants.{Master};
ghost use Rattle.store_tests.specs.Stores.{IsStoreAs};
ghost use Rattle.tao_base.specs.Ids.{shard_of};
ghost use Rattle.tao_base.specs.Stamps.{stamp_of};
ghost use Rattle.tao_base.specs.declared.entry.Origin.TheVariants.{Merge};
ghost use Rattle.tao_keeper.specs.Table.{Stays};

use crate::rig::{FAR, HERE, THERE};
use keeper_map::MapKeeper;
use shard_tables::StoreNode;
use std::alloc::{AllocError, Global};
use std::test::Fail;
use tao_base::{AType, EdgeState, Id, Origin, Stamp};
use tao_keeper::{Job, JobEdge, JobEdges, KeepFail, Keeper, STAMP_LIMIT};

/// The position of the entry whose job it is.
const POSITION: u64 = 3;

/// The record that a cut left at the other end.
pub(crate) fn cut_end() -> Result<JobEdge, &'static str> {
    let far = Id::read(FAR).ok_or("an id")?;
    let near = Id::read(1).ok_or("an id")?;
    let stamp = Stamp {
        number: 1,
        shard: 0,
    };
    Ok((far, AType(0), near, EdgeState::Cut { stamp }))
}

/// Whether the record is of an edge from the shard of the other ends to the first shard, with a small stamp.
pub(crate) fn is_of_there(end: &JobEdge) -> bool
    ensures here { IsTrue result → shard_of end.now.0 ≡ 1 }
    ensures there { IsTrue result → shard_of end.now.2 ≡ 0 }
    ensures small { IsTrue result → (stamp_of end.now.3).number < STAMP_LIMIT }
{
    end.0.shard() == 1 && end.2.shard() == 0 && end.3.stamp().number < STAMP_LIMIT
}

/// Whether no job of the position was merged with an entry.
fn find_no_merge(keeper: &mut MapKeeper) -> Result<bool, KeepFail>
    ensures new { IfOk result (λ new. IsTrue new → IsNewOrigin (told_by keeper.old THERE).log (Merge 0 POSITION)) }
    ensures stays { Stays (told_by keeper.old) (told_by keeper.new) }
{
    let origin = Origin::Merge {
        shard: 0,
        position: POSITION,
    };
    Ok(keeper.origin(THERE, origin)?.is_none())
}

/// The job that has this record alone.
pub(crate) fn job_of(alloc: Global, end: JobEdge) -> Result<Job, AllocError>
    ensures position { IfOk result (λ job. job.position ≡ POSITION) }
    ensures edges { IfOk result (λ job. job.edges ≡ end ∷ []) }
{
    Ok(Job {
        position: POSITION,
        edges: JobEdges::of(vec![in alloc; end]?),
    })
}

/// A job that may be merged.
pub(crate) fn due_job(alloc: Global, keeper: &mut MapKeeper, to: &StoreNode) -> Result<Job, Fail>
    requires named { to.now.name ≡ THERE }
    requires master { IsStoreAs Master (told_by keeper.old) to.now }
    ensures due { IfOk result (λ due. MayTakeJob true (told_by keeper.new) (job_between HERE to.now due)) }
    ensures stays { Stays (told_by keeper.old) (told_by keeper.new) }
{
    let end = cut_end()?;
    if !is_of_there(&end) || !find_no_merge(keeper)? {
        return Err("a job that may not be merged")?;
    }
    Ok(job_of(alloc, end)?)
}
