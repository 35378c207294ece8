//! The keeper in memory.
ghost use Rattle.std.specs.Prelude.{◌≡◌, ◌≤◌, ◌<◌, false, IfOk, IfSome, drop, length, option_copied, take};
ghost use Rattle.graph_model.specs.Edges.{edge_list, edge_record, number_of};
ghost use Rattle.graph_model.specs.Log.{object, version, additions};
ghost use Rattle.graph_model.specs.Soundness.{CanFollow};
ghost use Rattle.tao_base.specs.declared.id.StoreName.{StoreName as Store};
ghost use Rattle.tao_keeper.specs.Given.{AreGiven, HaveSmallStamps, IsGivenEntry, IsGivenJob, IsGivenRole, IsPosition};
ghost use Rattle.keeper_map.specs.MapKeeper.{call_plan, shown_by, told_by};
ghost use Rattle.counts.specs.Planned.{from_one};
ghost use Rattle.keeper_map.specs.Plan.{CallsAsPlanned, CommitsAsPlanned, mended};
ghost use Rattle.tao_keeper.specs.Table.{Changes, IsLeastJob, IsJobAt, OpensAs, ReachesLive, StandsAt, Stays, empty_table, live_entry, old_entry, role_store};
ghost use Rattle.tao_keeper.specs.Table.{after_commit, after_cut, after_cut_back, after_end, after_job, after_open, after_role};

use crate::plan::{Fails, FaultPlan};
use crate::stores::StoreTables;
use std::alloc::{AllocError, Global};
use tao_base::{AType, EdgeState, Edges, Entry, Id, Key, Object, Origin, StoreName};
use tao_keeper::{Commit, Job, KeepFail, Keeper, MOST_ENTRIES, Opened, SERIAL_LIMIT, STAMP_LIMIT};

/// A keeper that holds its tables in memory. It fails exactly where its plan says so, and tells everything.
///
/// No call copies a log. Each finds its store by one look-up, and what it asks of the graph by a look-up or two in the
/// log's index; what more it takes is said at the call. Only a call that the plan fails goes through the plan's numbers.
/// Where there was no memory for the index each call reads the log itself, until the next call that changes the log
/// makes the index anew.
#[derive(Drop)]
pub struct MapKeeper {
    stores: StoreTables,
    plan: FaultPlan,
}

impl MapKeeper {
    /// A keeper with no stores. The calls and the commits whose numbers are listed fail, and every call from `from` on, and
    /// no others: the first call has the number 1, and so has the first commit.
    pub fn make(alloc: Global, fails: Fails) -> MapKeeper
        ensures empty { (at : Store) → told_by result at ≡ empty_table }
        ensures calls { (call_plan result).calls ≡ from_one fails.calls.items }
        ensures commits { (call_plan result).commits ≡ from_one fails.commits.items }
        ensures from { (call_plan result).from ≡ fails.from }
        ensures planned { (call_plan result).is_mended ≡ false }
        ensures faults { (call_plan result).faults ≡ 0 }
    {
        MapKeeper {
            stores: StoreTables::new(alloc),
            plan: FaultPlan::of(fails),
        }
    }

    /// Takes away all failures that were planned, so that no call fails from now on. Keeps all tables, and what was counted.
    pub fn mend(&mut self)
        ensures tables { told_by self.new ≡ told_by self.old }
        ensures plan { call_plan self.new ≡ mended (call_plan self.old) }
    {
        self.plan.mend();
    }
}

fn copied_job(job: Option<&Job>) -> Result<Option<Job>, AllocError>
    ensures { IfOk result (λ copy. copy ≡ option_copied job.entry) }
{
    match job {
        Some(job) => Ok(Some(job.clone()?)),
        None => Ok(None),
    }
}

fn copied_entry(entry: Option<&Entry>) -> Result<Option<Entry>, AllocError>
    ensures { IfOk result (λ copy. copy ≡ option_copied entry.entry) }
{
    match entry {
        Some(entry) => Ok(Some(entry.clone()?)),
        None => Ok(None),
    }
}

impl Keeper for MapKeeper {
    ghost use Rattle.std.specs.Prelude.{true};
    ghost use Rattle.keeper_map.specs.StoreLaws.{told_cut_within, told_of_entries, told_sound};

    const TELLS: bool = true;

    ghost TELLS = { true };

    ghost state = { shown_by };

    ghost sound = { λ keeper at _. told_sound keeper.stores.tables at };

    ghost cut_within = { λ keeper at _. told_cut_within keeper.stores.tables at };

    ghost of_entries = { λ keeper at _. told_of_entries keeper.stores.tables at };

    /// Copies the line of a store that is opened first.
    fn open(&mut self, at: StoreName, line: &[u8]) -> Result<Opened, KeepFail>
        ensures answer { IfOk result (λ opened. OpensAs opened (told_by self.old at) line.now) }
        ensures changes { Changes result (told_by self.old) (told_by self.new) at (after_open (told_by self.old at) line.now) }
        ensures plan { CallsAsPlanned (call_plan self.old) (call_plan self.new) result }
    {
        self.plan.begin_call()?;
        Ok(self.stores.open(at, line)?)
    }

    /// Copies the record.
    fn edge(
        &mut self,
        at: StoreName,
        id1: Id,
        atype: AType,
        id2: Id,
    ) -> Result<Option<EdgeState>, KeepFail>
        ensures answer { IfOk result (λ state. state ≡ edge_record (told_by self.old at).log id1 atype id2) }
        ensures small { IfOk result (λ state. number_of state < STAMP_LIMIT) }
        ensures stays { Stays (told_by self.old) (told_by self.new) }
        ensures plan { CallsAsPlanned (call_plan self.old) (call_plan self.new) result }
    {
        self.plan.begin_call()?;
        Ok(self.stores.log(at).record(id1, atype, id2)?)
    }

    /// Goes past the edges before `pos`, and copies those that it gives.
    fn edges(
        &mut self,
        at: StoreName,
        id1: Id,
        atype: AType,
        pos: u64,
        most: u64,
    ) -> Result<Edges, KeepFail>
        ensures answer { IfOk result (λ edges. edges ≡ take most (drop pos (edge_list (told_by self.old at).log id1 atype))) }
        ensures given { IfOk result (AreGiven most) }
        ensures stays { Stays (told_by self.old) (told_by self.new) }
        ensures plan { CallsAsPlanned (call_plan self.old) (call_plan self.new) result }
    {
        self.plan.begin_call()?;
        Ok(self.stores.log(at).edges(id1, atype, pos, most)?)
    }

    /// Copies the object.
    fn object(&mut self, at: StoreName, id: Id) -> Result<Option<Object>, KeepFail>
        ensures answer { IfOk result (λ found. found ≡ object (told_by self.old at).log id) }
        ensures stays { Stays (told_by self.old) (told_by self.new) }
        ensures plan { CallsAsPlanned (call_plan self.old) (call_plan self.new) result }
    {
        self.plan.begin_call()?;
        Ok(self.stores.log(at).object(id)?)
    }

    /// Reads no edge, and copies nothing.
    fn count(&mut self, at: StoreName, id1: Id, atype: AType) -> Result<u64, KeepFail>
        ensures answer { IfOk result (λ count. count ≡ length (edge_list (told_by self.old at).log id1 atype)) }
        ensures few { IfOk result (λ count. count ≤ MOST_ENTRIES) }
        ensures stays { Stays (told_by self.old) (told_by self.new) }
        ensures plan { CallsAsPlanned (call_plan self.old) (call_plan self.new) result }
    {
        self.plan.begin_call()?;
        Ok(self.stores.log(at).count(id1, atype)?)
    }

    /// Reads no entry, and takes no memory.
    fn version(&mut self, at: StoreName, key: Key) -> Result<u64, KeepFail>
        ensures answer { IfOk result (λ count. count ≡ version (told_by self.old at).log key) }
        ensures few { IfOk result (λ count. count ≤ MOST_ENTRIES) }
        ensures stays { Stays (told_by self.old) (told_by self.new) }
        ensures plan { CallsAsPlanned (call_plan self.old) (call_plan self.new) result }
    {
        self.plan.begin_call()?;
        Ok(self.stores.log(at).version(key))
    }

    /// Reads no entry, and takes no memory.
    fn length(&mut self, at: StoreName) -> Result<u64, KeepFail>
        ensures answer { IfOk result (λ count. count ≡ length (told_by self.old at).log) }
        ensures few { IfOk result (λ count. count ≤ MOST_ENTRIES) }
        ensures stays { Stays (told_by self.old) (told_by self.new) }
        ensures plan { CallsAsPlanned (call_plan self.old) (call_plan self.new) result }
    {
        self.plan.begin_call()?;
        Ok(self.stores.log(at).as_slice().len() as u64)
    }

    /// Reads no other entry, and copies this one.
    fn entry(&mut self, at: StoreName, position: u64) -> Result<Option<Entry>, KeepFail>
        ensures answer { IfOk result (λ found. found ≡ live_entry (told_by self.old at) position) }
        ensures given { IfOk result (λ found. IfSome found IsGivenEntry) }
        ensures stays { Stays (told_by self.old) (told_by self.new) }
        ensures plan { CallsAsPlanned (call_plan self.old) (call_plan self.new) result }
    {
        self.plan.begin_call()?;
        Ok(copied_entry(self.stores.entry(at, position))?)
    }

    /// Reads no other entry, and copies this one. Old entries lie in memory with the live ones.
    fn old_entry(&mut self, at: StoreName, position: u64) -> Result<Option<Entry>, KeepFail>
        ensures answer { IfOk result (λ found. found ≡ old_entry (told_by self.old at) position) }
        ensures given { IfOk result (λ found. IfSome found IsGivenEntry) }
        ensures stays { Stays (told_by self.old) (told_by self.new) }
        ensures plan { CallsAsPlanned (call_plan self.old) (call_plan self.new) result }
    {
        self.plan.begin_call()?;
        Ok(copied_entry(self.stores.old_entry(at, position))?)
    }

    /// Reads no entry, and takes no memory.
    fn cut_of(&mut self, at: StoreName) -> Result<u64, KeepFail>
        ensures answer { IfOk result (λ cut. cut ≡ (told_by self.old at).cut) }
        ensures few { IfOk result (λ cut. cut ≤ MOST_ENTRIES) }
        ensures stays { Stays (told_by self.old) (told_by self.new) }
        ensures plan { CallsAsPlanned (call_plan self.old) (call_plan self.new) result }
    {
        self.plan.begin_call()?;
        Ok(self.stores.cut_of(at))
    }

    /// Sets one number: moves no entry, takes no memory and gives none back.
    fn cut(&mut self, at: StoreName, upto: u64) -> Result<(), KeepFail>
        requires may { ReachesLive (told_by self.old at) upto }
        ensures changes { Changes result (told_by self.old) (told_by self.new) at (after_cut (told_by self.old at) upto) }
        ensures plan { CallsAsPlanned (call_plan self.old) (call_plan self.new) result }
    {
        self.plan.begin_call()?;
        self.stores.set_cut(at, upto);
        Ok(())
    }

    /// Reads no entry, and takes no memory.
    fn last_serial(&mut self, at: StoreName) -> Result<u64, KeepFail>
        ensures answer { IfOk result (λ serial. serial ≡ additions (told_by self.old at).log) }
        ensures small { IfOk result (λ serial. serial < SERIAL_LIMIT) }
        ensures stays { Stays (told_by self.old) (told_by self.new) }
        ensures plan { CallsAsPlanned (call_plan self.old) (call_plan self.new) result }
    {
        self.plan.begin_call()?;
        Ok(self.stores.log(at).added())
    }

    /// One look-up, which takes no memory.
    fn origin(&mut self, at: StoreName, origin: Origin) -> Result<Option<u64>, KeepFail>
        ensures answer { IfOk result (StandsAt (told_by self.old at).log origin) }
        ensures within { IfOk result (λ found. IfSome found IsPosition) }
        ensures stays { Stays (told_by self.old) (told_by self.new) }
        ensures plan { CallsAsPlanned (call_plan self.old) (call_plan self.new) result }
    {
        self.plan.begin_call()?;
        Ok(self.stores.log(at).position(origin))
    }

    /// Reads no other job, and copies this one.
    fn first_job(&mut self, at: StoreName) -> Result<Option<Job>, KeepFail>
        ensures answer { IfOk result (IsLeastJob (told_by self.old at).jobs) }
        ensures given { IfOk result (λ found. IfSome found IsGivenJob) }
        ensures stays { Stays (told_by self.old) (told_by self.new) }
        ensures plan { CallsAsPlanned (call_plan self.old) (call_plan self.new) result }
    {
        self.plan.begin_call()?;
        Ok(copied_job(self.stores.first_job(at))?)
    }

    /// One look-up, and copies this one.
    fn job(&mut self, at: StoreName, position: u64) -> Result<Option<Job>, KeepFail>
        ensures answer { IfOk result (IsJobAt (told_by self.old at).jobs position) }
        ensures given { IfOk result (λ found. IfSome found IsGivenJob) }
        ensures stays { Stays (told_by self.old) (told_by self.new) }
        ensures plan { CallsAsPlanned (call_plan self.old) (call_plan self.new) result }
    {
        self.plan.begin_call()?;
        Ok(copied_job(self.stores.job(at, position))?)
    }

    /// One look-up, which takes no memory.
    fn end_job(&mut self, at: StoreName, position: u64) -> Result<(), KeepFail>
        ensures changes { Changes result (told_by self.old) (told_by self.new) at (after_end (told_by self.old at) position) }
        ensures plan { CallsAsPlanned (call_plan self.old) (call_plan self.new) result }
    {
        self.plan.begin_call()?;
        self.stores.end_job(at, position);
        Ok(())
    }

    /// Copies the entry that is added and its job, and for the index the objects and edges that the entry sets. Two
    /// look-ups for each key that it touches and for its job's position, and one for its origin.
    fn commit(&mut self, at: StoreName, commit: &Commit) -> Result<(), KeepFail>
        requires stamps { HaveSmallStamps commit.now.entry.touches }
        requires job { IfSome commit.now.job (λ job. job.position ≡ commit.now.entry.position) }
        requires given { IfSome commit.now.job IsGivenJob }
        requires room { length (told_by self.old at).log < MOST_ENTRIES }
        requires follows { CanFollow (told_by self.old at).log commit.now.entry }
        ensures changes { Changes result (told_by self.old) (told_by self.new) at (after_commit (told_by self.old at) commit.now.entry commit.now.job) }
        ensures plan { CommitsAsPlanned (call_plan self.old) (call_plan self.new) result }
    {
        self.plan.begin_commit()?;
        let entry = commit.entry.clone()?;
        let job = copied_job(commit.job.as_ref())?;
        self.stores.add(at, entry, job)?;
        Ok(())
    }

    /// Takes no memory.
    fn role(&mut self, shard: u16) -> Result<Option<(u64, u16)>, KeepFail>
        ensures answer { IfOk result (λ role. role ≡ (told_by self.old (role_store shard)).role) }
        ensures given { IfOk result (λ role. IfSome role IsGivenRole) }
        ensures stays { Stays (told_by self.old) (told_by self.new) }
        ensures plan { CallsAsPlanned (call_plan self.old) (call_plan self.new) result }
    {
        self.plan.begin_call()?;
        Ok(self.stores.role(shard))
    }

    /// Takes memory for the first region's store of the shard alone, where nothing was written to it.
    fn set_role(&mut self, shard: u16, epoch: u64, region: u16) -> Result<(), KeepFail>
        requires given { IsGivenRole (epoch, region) }
        ensures changes { Changes result (told_by self.old) (told_by self.new) (role_store shard)
            (after_role (told_by self.old (role_store shard)) epoch region) }
        ensures plan { CallsAsPlanned (call_plan self.old) (call_plan self.new) result }
    {
        self.plan.begin_call()?;
        Ok(self.stores.set_role(shard, epoch, region)?)
    }

    /// Copies the job, and does two look-ups for its position.
    fn open_job(&mut self, at: StoreName, job: &Job) -> Result<(), KeepFail>
        requires given { IsGivenJob job.now }
        requires within { job.now.position ≤ length (told_by self.old at).log }
        ensures changes { Changes result (told_by self.old) (told_by self.new) at (after_job (told_by self.old at) job.now) }
        ensures plan { CallsAsPlanned (call_plan self.old) (call_plan self.new) result }
    {
        self.plan.begin_call()?;
        let job = job.clone()?;
        Ok(self.stores.open_job(at, job)?)
    }

    /// Moves the entries that are taken away into their row, where one is asked for, and else drops them. Goes over all open
    /// jobs, and makes the index anew, which reads all entries that are left. Takes memory for the row, and for the index.
    fn cut_back(&mut self, at: StoreName, length: u64, row: Option<u64>) -> Result<(), KeepFail>
        requires may { ReachesLive (told_by self.old at) length }
        ensures changes { Changes result (told_by self.old) (told_by self.new) at (after_cut_back (told_by self.old at) length row) }
        ensures plan { CallsAsPlanned (call_plan self.old) (call_plan self.new) result }
    {
        self.plan.begin_call()?;
        Ok(self.stores.cut_back(at, length, row)?)
    }

    fn calls(&self) -> u64 {
        self.plan.calls()
    }

    fn faults(&self) -> u64 {
        self.plan.faults()
    }
}
