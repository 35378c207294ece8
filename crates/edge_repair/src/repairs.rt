//! Repairs: a job is carried to the other store, merged there, and ended where it is open.
ghost use Rattle.std.specs.Prelude.{◌≡◌, All, IfErr, OnErr, OnOk};
ghost use Rattle.edge_repair.specs.Calls.{CallsEither, IsOfEnds, MayTakeJob, PassesOn};
ghost use Rattle.edge_repair.specs.Carries.{CarriesBy};
ghost use Rattle.edge_repair.specs.JobBetween.{job_between};
ghost use Rattle.edge_repair.specs.Merging.{GainsBy, MergesBy, RepairsAs};
ghost use Rattle.edge_repair.specs.declared.refusal.RepairRefusal.TheVariants.{KeeperFault};
ghost use Rattle.graph_model.specs.Records.{HasStamp};
ghost use Rattle.graph_model.specs.Told.{WhereTold};
ghost use Rattle.shard_log.specs.View.{Grows};
ghost use Rattle.shard_tables.specs.Jobs.{IsOfMerges};
ghost use Rattle.shard_tables.specs.Stores.{IsStoreOf};
ghost use Rattle.shard_tables.specs.declared.store.StoreRole.TheVariants.{Master};
ghost use Rattle.tao_keeper.specs.Growing.{LogsGrow};
ghost use Rattle.tao_keeper.specs.KeeperState.{CallsKeeper};
ghost use Rattle.tao_keeper.specs.Table.{Changes, after_end};

use crate::refusal::RepairRefusal;
use node_name::NodeName;
use shard_tables::{StoreNode, StoreRefusal};
use std::alloc::Global;
use tao_base::{Entry, StoreName};
use tao_keeper::{Job, Keeper};
use tao_link::Link;

/// What a repair wrote.
#[derive(Drop)]
pub struct RepairOutcome {
    /// The entry that merged the job at the other store; none where all of its records were there.
    pub wrote: Option<Entry>,
}

/// A refusal of a merge or of the end of a job, passed on.
pub fn passed_on(refusal: StoreRefusal) -> RepairRefusal
    requires { IsOfMerges refusal }
    ensures { PassesOn refusal result }
{
    match refusal {
        StoreRefusal::KeeperFault => RepairRefusal::KeeperFault,
        StoreRefusal::LogFull { length } => RepairRefusal::LogFull { length },
        StoreRefusal::OutOfMemory => RepairRefusal::OutOfMemory,
        StoreRefusal::ShardFull { .. }
        | StoreRefusal::StampFull { .. }
        | StoreRefusal::TooOld { .. }
        | StoreRefusal::SeqReused { .. } => unreachable!(),
    }
}

/// Carries a job of one store to another one, merges it there, and carries the answer back, also that of a merge that was
/// refused. The refusal of the merge stands where the carry back fails as well. The job stays open.
///
/// `LinkFault` comes only where the link's count of faults rose, `KeeperFault` only where the keeper's did. Costs a merge.
pub fn merge_far<M: Keeper, L: Link>(
    alloc: Global,
    from: StoreName,
    to: &mut StoreNode,
    keeper: &mut M,
    link: &mut L,
    job: &Job,
) -> Result<RepairOutcome, RepairRefusal>
    requires { MayTakeJob M.TELLS (M.state keeper.old).told (job_between from to.old job.now) }
    ensures merges { WhereTold M.TELLS
        (MergesBy (job_between from to.old job.now) (L.shown link.new).failed (M.state keeper.old).told (M.state keeper.new).told result) }
    ensures done { WhereTold M.TELLS (OnOk result (All (HasStamp ((M.state keeper.new).told to.old.name).log) job.now.edges)) }
    ensures logs { LogsGrow M.TELLS (M.state keeper.old).told (M.state keeper.new).told }
    ensures to { GainsBy to.old to.new result }
    ensures grows { Grows to.old.view to.new.view }
    ensures keeper { IsStoreOf M.TELLS (M.state keeper.new).told to.new }
    ensures carries { CarriesBy (job_between from to.old job.now) (L.shown link.old) (L.shown link.new) result }
    ensures calls { CallsKeeper KeeperFault (M.state keeper.old) (M.state keeper.new) result }
{
    let here = NodeName::Store(from);
    let there = NodeName::Store(to.name());
    link.carry(here, there)?;
    let merged = to.merge(alloc, keeper, from.shard, job);
    let back = link.carry(there, here);
    let wrote = merged.map_err(passed_on)?;
    back?;
    Ok(RepairOutcome { wrote: wrote.entry })
}

/// Ends the job of a position at its own store, once it is merged at the other one. A refusal leaves it open. Costs one call of the
/// keeper.
pub fn end_here<M: Keeper>(
    from: &mut StoreNode,
    keeper: &mut M,
    position: u64,
) -> Result<(), RepairRefusal>
    requires { IsStoreOf M.TELLS (M.state keeper.old).told from.old }
    ensures ends { WhereTold M.TELLS (Changes result (M.state keeper.old).told (M.state keeper.new).told from.old.name
        (after_end ((M.state keeper.old).told from.old.name) position)) }
    ensures logs { LogsGrow M.TELLS (M.state keeper.old).told (M.state keeper.new).told }
    ensures refusals { IfErr result IsOfEnds }
    ensures same { from.new ≡ from.old }
    ensures keeper { IsStoreOf M.TELLS (M.state keeper.new).told from.new }
    ensures calls { CallsKeeper KeeperFault (M.state keeper.old) (M.state keeper.new) result }
{
    from.end_job(keeper, position).map_err(passed_on)
}

/// Repairs what a job of one store owes to another one: merges it there, and then ends it. Two hops, to the other store and
/// back, each a carry of the link. A merge that was refused is carried back as well, and its refusal stands where that
/// carry fails.
///
/// Each refusal leaves the job open. `LogFull` leaves everything as it was. `LinkFault` comes only where the link's count of
/// faults rose, and its failed carry says which of the two it was: after a failed carry to the other store nothing has
/// changed, after a failed carry back the job is merged. `KeeperFault` comes only where the keeper's count of faults rose,
/// and `OutOfMemory` where there was no memory; after both the job may be merged.
///
/// Costs a merge, and one call of the keeper for the end.
#[tactic(auto, using(crate::proofs::Tables::refused_repairs))]
pub fn run_first<M: Keeper, L: Link>(
    alloc: Global,
    from: &mut StoreNode,
    to: &mut StoreNode,
    keeper: &mut M,
    link: &mut L,
    job: &Job,
) -> Result<RepairOutcome, RepairRefusal>
    requires master { from.old.role ≡ Master }
    requires keeper { IsStoreOf M.TELLS (M.state keeper.old).told from.old }
    requires other { MayTakeJob M.TELLS (M.state keeper.old).told (job_between from.old.name to.old job.now) }

    // The tables: the merge, and then the end. A refusal leaves the table of the job's store.
    ensures answer { WhereTold M.TELLS
        (RepairsAs (job_between from.old.name to.old job.now) (L.shown link.new).failed (M.state keeper.old).told (M.state keeper.new).told result) }
    ensures done { WhereTold M.TELLS (OnOk result (All (HasStamp ((M.state keeper.new).told to.old.name).log) job.now.edges)) }
    ensures open { WhereTold M.TELLS (OnErr result ((M.state keeper.new).told from.old.name ≡ (M.state keeper.old).told from.old.name)) }
    ensures logs { LogsGrow M.TELLS (M.state keeper.old).told (M.state keeper.new).told }

    // The stores.
    ensures from { from.new ≡ from.old }
    ensures to { GainsBy to.old to.new result }
    ensures grows { Grows to.old.view to.new.view }
    ensures from_keeper { IsStoreOf M.TELLS (M.state keeper.new).told from.new }
    ensures to_keeper { IsStoreOf M.TELLS (M.state keeper.new).told to.new }

    ensures carries { CarriesBy (job_between from.old.name to.old job.now) (L.shown link.old) (L.shown link.new) result }
    ensures calls { CallsKeeper KeeperFault (M.state keeper.old) (M.state keeper.new) result }
{
    let repaired = merge_far(alloc, from.name(), to, keeper, link, job)?;
    end_here(from, keeper, job.position)?;
    Ok(repaired)
}

/// The same with a keeper for each of the two stores. `KeeperFault` comes only where one of their counts of faults rose.
pub fn run_between<F: Keeper, T: Keeper, L: Link>(
    alloc: Global,
    from: &mut StoreNode,
    from_keeper: &mut F,
    to: &mut StoreNode,
    to_keeper: &mut T,
    link: &mut L,
    job: &Job,
) -> Result<RepairOutcome, RepairRefusal>
    requires master { from.old.role ≡ Master }
    requires keeper { IsStoreOf F.TELLS (F.state from_keeper.old).told from.old }
    requires other { MayTakeJob T.TELLS (T.state to_keeper.old).told (job_between from.old.name to.old job.now) }

    // The tables: the merge at the other store, and the end of the job, which no refusal ends.
    ensures merges { WhereTold T.TELLS
        (MergesBy (job_between from.old.name to.old job.now) (L.shown link.new).failed (T.state to_keeper.old).told (T.state to_keeper.new).told result) }
    ensures done { WhereTold T.TELLS (OnOk result (All (HasStamp ((T.state to_keeper.new).told to.old.name).log) job.now.edges)) }
    ensures ends { WhereTold F.TELLS (Changes result (F.state from_keeper.old).told (F.state from_keeper.new).told from.old.name
        (after_end ((F.state from_keeper.old).told from.old.name) job.now.position)) }
    ensures from_logs { LogsGrow F.TELLS (F.state from_keeper.old).told (F.state from_keeper.new).told }
    ensures to_logs { LogsGrow T.TELLS (T.state to_keeper.old).told (T.state to_keeper.new).told }

    // The stores.
    ensures from { from.new ≡ from.old }
    ensures to { GainsBy to.old to.new result }
    ensures grows { Grows to.old.view to.new.view }
    ensures from_keeper { IsStoreOf F.TELLS (F.state from_keeper.new).told from.new }
    ensures to_keeper { IsStoreOf T.TELLS (T.state to_keeper.new).told to.new }

    ensures carries { CarriesBy (job_between from.old.name to.old job.now) (L.shown link.old) (L.shown link.new) result }
    ensures calls { CallsEither (F.state from_keeper.old) (F.state from_keeper.new) (T.state to_keeper.old) (T.state to_keeper.new) result }
{
    let repaired = merge_far(alloc, from.name(), to, to_keeper, link, job)?;
    end_here(from, from_keeper, job.position)?;
    Ok(repaired)
}
