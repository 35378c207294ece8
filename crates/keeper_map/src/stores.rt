//! The tables of all stores, in memory.
ghost use Rattle.std.specs.Prelude.{[], ◌≡◌, ◌<◌, ◌≤◌, All, IfOk, IfSome, IsSome, OnOk, length, option_copied};
ghost use Rattle.graph_model.specs.Soundness.{CanFollow, IsSound};
ghost use Rattle.tao_base.specs.declared.id.StoreName.{StoreName as Store};
ghost use Rattle.tao_keeper.specs.Given.{HaveSmallStamps, IsGivenEntry, IsGivenJob, IsGivenRole};
ghost use Rattle.keeper_map.specs.Store.{store_cmp, store_key, tables_of};
ghost use Rattle.std.specs.BTreeMap.{get};
ghost use Rattle.tao_keeper.specs.Table.{Becomes, Changes, IsLeastJob, IsJobAt, OpensAs, ReachesLive, Stays, empty_table, live_entry, old_entry, role_store};
ghost use Rattle.tao_keeper.specs.Table.{after_commit, after_cut, after_cut_back, after_end, after_job, after_open, after_role};

use super::store::StoreTable;
use log_index::IndexedLog;
use std::alloc::{AllocError, Global};
use std::collections::BTreeMap;
use tao_base::{Entry, StoreName};
use tao_keeper::{Job, MOST_ENTRIES, Opened};

/// The tables of the stores that something was written to.
#[derive(Drop)]
pub struct StoreTables {
    alloc: Global,
    tables: BTreeMap<(u16, u16), StoreTable>,
    empty: IndexedLog,
    ghost empty_is: { empty ≡ [] },
}

impl StoreTables {
    pub fn new(alloc: Global) -> StoreTables
        ensures { (name : Store) → tables_of result.tables name ≡ empty_table }
    {
        StoreTables {
            alloc,
            tables: BTreeMap::new(alloc),
            empty: IndexedLog::new(alloc),
        }
    }

    /// The log of a store.
    pub fn log(&self, at: StoreName) -> &IndexedLog
        ensures log { result.now ≡ (tables_of self.now.tables at).log }
        ensures sound { IsSound result.now }
        ensures few { length result.now ≤ MOST_ENTRIES }
        ensures stamps { All (λ entry. HaveSmallStamps entry.touches) result.now }
    {
        match self.table(at) {
            Some(table) => table.log(),
            None => &self.empty,
        }
    }

    fn table(&self, at: StoreName) -> Option<&StoreTable>
        ensures { option_copied result ≡ get store_cmp self.now.tables (store_key at) }
    {
        self.tables.get(&key_of(at))
    }

    /// Sees to it that a store has a table. One that has none gets an empty one.
    fn make_table(&mut self, at: StoreName) -> Result<(), AllocError>
        ensures stays { Stays (tables_of self.old.tables) (tables_of self.new.tables) }
        ensures there { OnOk result (IsSome (get store_cmp self.new.tables (store_key at))) }
    {
        match self.table(at) {
            Some(_) => Ok(()),
            None => {
                self.tables.insert(key_of(at), StoreTable::new(self.alloc))?;
                Ok(())
            }
        }
    }

    /// Opens a store with a line.
    pub fn open(&mut self, at: StoreName, line: &[u8]) -> Result<Opened, AllocError>
        ensures answer { IfOk result (λ opened. OpensAs opened (tables_of self.old.tables at) line.now) }
        ensures changes { Changes result (tables_of self.old.tables) (tables_of self.new.tables) at
            (after_open (tables_of self.old.tables at) line.now) }
    {
        self.make_table(at)?;
        match self.tables.get_mut(&key_of(at)) {
            Some(table) => table.open(self.alloc, line),
            None => unreachable!(),
        }
    }

    /// How many entries of a store are old.
    pub fn cut_of(&self, at: StoreName) -> u64
        ensures cut { result ≡ (tables_of self.now.tables at).cut }
        ensures few { result ≤ MOST_ENTRIES }
    {
        match self.table(at) {
            Some(table) => table.cut_of(),
            None => 0,
        }
    }

    /// Makes this a store's cut. A store that nothing was written to has no other cut than 0.
    pub fn set_cut(&mut self, at: StoreName, upto: u64)
        requires { ReachesLive (tables_of self.old.tables at) upto }
        ensures { Becomes (tables_of self.old.tables) (tables_of self.new.tables) at (after_cut (tables_of self.old.tables at) upto) }
    {
        if let Some(table) = self.tables.get_mut(&key_of(at)) {
            table.set_cut(upto);
        }
    }

    /// The live entry at a position in a store.
    pub fn entry(&self, at: StoreName, position: u64) -> Option<&Entry>
        ensures entry { option_copied result ≡ live_entry (tables_of self.now.tables at) position }
        ensures given { IfSome (option_copied result) IsGivenEntry }
    {
        self.table(at)?.entry(position)
    }

    /// The old entry at a position in a store.
    pub fn old_entry(&self, at: StoreName, position: u64) -> Option<&Entry>
        ensures entry { option_copied result ≡ old_entry (tables_of self.now.tables at) position }
        ensures given { IfSome (option_copied result) IsGivenEntry }
    {
        self.table(at)?.old_entry(position)
    }

    /// The epoch and the master region of a shard.
    pub fn role(&self, shard: u16) -> Option<(u64, u16)>
        ensures role { result ≡ (tables_of self.now.tables (role_store shard)).role }
        ensures given { IfSome result IsGivenRole }
    {
        self.table(first_store(shard))?.role()
    }

    /// Stores the epoch and the master region of a shard.
    pub fn set_role(&mut self, shard: u16, epoch: u64, region: u16) -> Result<(), AllocError>
        requires { IsGivenRole (epoch, region) }
        ensures { Changes result (tables_of self.old.tables) (tables_of self.new.tables) (role_store shard)
            (after_role (tables_of self.old.tables (role_store shard)) epoch region) }
    {
        let at = first_store(shard);
        self.make_table(at)?;
        match self.tables.get_mut(&key_of(at)) {
            Some(table) => table.set_role(epoch, region),
            None => unreachable!(),
        }
        Ok(())
    }

    /// The open job of the least position in a store.
    pub fn first_job(&self, at: StoreName) -> Option<&Job>
        ensures job { IsLeastJob (tables_of self.now.tables at).jobs (option_copied result) }
        ensures given { IfSome (option_copied result) IsGivenJob }
    {
        self.table(at)?.first_job()
    }

    /// The open job of a position in a store.
    pub fn job(&self, at: StoreName, position: u64) -> Option<&Job>
        ensures job { IsJobAt (tables_of self.now.tables at).jobs position (option_copied result) }
        ensures given { IfSome (option_copied result) IsGivenJob }
    {
        self.table(at)?.job(position)
    }

    /// Ends the job of a position in a store, where one is open.
    pub fn end_job(&mut self, at: StoreName, position: u64)
        ensures { Becomes (tables_of self.old.tables) (tables_of self.new.tables) at
            (after_end (tables_of self.old.tables at) position) }
    {
        if let Some(table) = self.tables.get_mut(&key_of(at)) {
            table.end_job(position);
        }
    }

    /// Opens a job in a store, unless one of its position is open. An error doesn't.
    pub fn open_job(&mut self, at: StoreName, job: Job) -> Result<(), AllocError>
        requires given { IsGivenJob job }
        requires within { job.position ≤ length (tables_of self.old.tables at).log }
        ensures { Changes result (tables_of self.old.tables) (tables_of self.new.tables) at
            (after_job (tables_of self.old.tables at) job) }
    {
        self.make_table(at)?;
        match self.tables.get_mut(&key_of(at)) {
            Some(table) => table.open_job(job),
            None => unreachable!(),
        }
    }

    /// Takes away the entries of a store past a length, with their jobs, and keeps them as a row of what was lost, where an
    /// epoch is given. An error does nothing.
    pub fn cut_back(&mut self, at: StoreName, len: u64, row: Option<u64>) -> Result<(), AllocError>
        requires { ReachesLive (tables_of self.old.tables at) len }
        ensures { Changes result (tables_of self.old.tables) (tables_of self.new.tables) at
            (after_cut_back (tables_of self.old.tables at) len row) }
    {
        self.make_table(at)?;
        match self.tables.get_mut(&key_of(at)) {
            Some(table) => table.cut_back(len, row),
            None => unreachable!(),
        }
    }

    /// Adds an entry at the end of a store's log, and opens its job, where it has one. An error does neither.
    pub fn add(&mut self, at: StoreName, entry: Entry, job: Option<Job>) -> Result<(), AllocError>
        requires stamps { HaveSmallStamps entry.touches }
        requires job { IfSome job (λ job. job.position ≡ entry.position) }
        requires given { IfSome job IsGivenJob }
        requires room { length (tables_of self.old.tables at).log < MOST_ENTRIES }
        requires follows { CanFollow (tables_of self.old.tables at).log entry }
        ensures { Changes result (tables_of self.old.tables) (tables_of self.new.tables) at
            (after_commit (tables_of self.old.tables at) entry job) }
    {
        self.make_table(at)?;
        match self.tables.get_mut(&key_of(at)) {
            Some(table) => table.add(entry, job),
            None => unreachable!(),
        }
    }
}

/// The store that keeps the epoch and the master region of a shard.
fn first_store(shard: u16) -> StoreName
    ensures { result ≡ role_store shard }
{
    StoreName { region: 0, shard }
}

#[tactic(auto, unfolding(crate::specs::Store::store_key))]
fn key_of(name: StoreName) -> (u16, u16)
    ensures { result ≡ store_key name }
{
    (name.region, name.shard)
}
