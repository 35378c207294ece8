//! The keeper.
ghost use Rattle.std.specs.Prelude.{◌≡◌, ◌≤◌, IsErrOf};
ghost use Rattle.counts.specs.Count.{Rose};
ghost use Rattle.tao_keeper.specs.declared.keeper.KeepFail.TheVariants.{Failed};

use crate::rows::Tables;
use crate::{cutting, reading, writing};
use counts::Count;
use std::alloc::Global;
use tao_base::{AType, EdgeState, Edges, Entry, Id, Key, Object, Origin, StoreName};
use tao_keeper::{Commit, Job, KeepFail, Keeper, Opened};

/// A keeper of tables that stand in a file, or in memory, and are read and written by SQL. It tells nothing of them. Of what
/// a statement is refused for, all but out of memory is a fault, and so is a row that no keeper may hand out.
///
/// A commit is one transaction, and on the disk when it is answered. So is a cut, whose cost over a file is that of the entries that become old and not of
/// the log, and so is a cut back, which costs as much as committing the entries that stay, all at once.
#[derive(Drop)]
pub struct SqlKeeper {
    alloc: Global,
    tables: Tables,
    calls: Count,
    faults: Count,
}

impl SqlKeeper {
    /// A keeper of these tables, which was not called yet.
    pub(crate) fn over(alloc: Global, tables: Tables) -> SqlKeeper {
        SqlKeeper {
            alloc,
            tables,
            calls: Count::new(),
            faults: Count::new(),
        }
    }

    /// Lets go of the tables; a file may then be opened again. Dropping does the same, but a crate that drops a keeper proves anew
    /// how all that SQL holds is dropped.
    pub fn close(self) {
        drop(self);
    }
}

/// Counts a fault where a call failed.
fn counted<T>(faults: &mut Count, outcome: Result<T, KeepFail>) -> Result<T, KeepFail>
    ensures same { result ≡ outcome }
    ensures later { faults.old ≤ faults.new }
    ensures failed { IsErrOf result Failed → Rose faults.old faults.new }
{
    if matches!(&outcome, Err(KeepFail::Failed)) {
        faults.rise();
    }
    outcome
}

/// Whether a store takes a line: its first is the same, or is kept now.
fn open_with(tables: &mut Tables, at: StoreName, line: &[u8]) -> Result<Opened, KeepFail> {
    match reading::first_line(tables, at)? {
        Some(first) => {
            if first.as_slice() == line {
                Ok(Opened::Ready)
            } else {
                Ok(Opened::OtherLine)
            }
        }
        None => {
            writing::keep_line(tables, at, line)?;
            Ok(Opened::Ready)
        }
    }
}

impl Keeper for SqlKeeper {
    ghost use Rattle.std.specs.Prelude.{false};
    ghost use Rattle.keeper_sql.specs.Untold.{of_nothing_told};
    ghost use Rattle.tao_keeper.specs.Table.{empty_table};

    const TELLS: bool = false;

    ghost TELLS = { false };

    ghost state = { λ keeper. record { told = λ _. empty_table; calls = keeper.calls; faults = keeper.faults } };

    ghost sound = { λ _ _. of_nothing_told };

    ghost cut_within = { λ _ _. of_nothing_told };

    ghost of_entries = { λ _ _. of_nothing_told };

    fn open(&mut self, at: StoreName, line: &[u8]) -> Result<Opened, KeepFail> {
        self.calls.rise();
        let opened = open_with(&mut self.tables, at, line);
        counted(&mut self.faults, opened)
    }

    fn edge(
        &mut self,
        at: StoreName,
        id1: Id,
        atype: AType,
        id2: Id,
    ) -> Result<Option<EdgeState>, KeepFail> {
        self.calls.rise();
        let found = reading::edge(self.alloc, &mut self.tables, at, id1, atype, id2);
        counted(&mut self.faults, found)
    }

    fn edges(
        &mut self,
        at: StoreName,
        id1: Id,
        atype: AType,
        pos: u64,
        most: u64,
    ) -> Result<Edges, KeepFail> {
        self.calls.rise();
        let edges = reading::edges(self.alloc, &mut self.tables, at, id1, atype, pos, most);
        counted(&mut self.faults, edges)
    }

    fn object(&mut self, at: StoreName, id: Id) -> Result<Option<Object>, KeepFail> {
        self.calls.rise();
        let found = reading::object(self.alloc, &mut self.tables, at, id);
        counted(&mut self.faults, found)
    }

    fn count(&mut self, at: StoreName, id1: Id, atype: AType) -> Result<u64, KeepFail> {
        self.calls.rise();
        let count = reading::count(&mut self.tables, at, id1, atype);
        counted(&mut self.faults, count)
    }

    fn version(&mut self, at: StoreName, key: Key) -> Result<u64, KeepFail> {
        self.calls.rise();
        let version = reading::version(&mut self.tables, at, key);
        counted(&mut self.faults, version)
    }

    fn length(&mut self, at: StoreName) -> Result<u64, KeepFail> {
        self.calls.rise();
        let length = reading::length(&mut self.tables, at);
        counted(&mut self.faults, length)
    }

    fn entry(&mut self, at: StoreName, position: u64) -> Result<Option<Entry>, KeepFail> {
        self.calls.rise();
        let found = reading::entry(self.alloc, &mut self.tables, at, position);
        counted(&mut self.faults, found)
    }

    fn old_entry(&mut self, at: StoreName, position: u64) -> Result<Option<Entry>, KeepFail> {
        self.calls.rise();
        let found = reading::old_entry(self.alloc, &mut self.tables, at, position);
        counted(&mut self.faults, found)
    }

    fn cut_of(&mut self, at: StoreName) -> Result<u64, KeepFail> {
        self.calls.rise();
        let cut = reading::cut_of(&mut self.tables, at);
        counted(&mut self.faults, cut)
    }

    fn cut(&mut self, at: StoreName, upto: u64) -> Result<(), KeepFail> {
        self.calls.rise();
        let moved = cutting::cut(&mut self.tables, at, upto);
        counted(&mut self.faults, moved)
    }

    fn last_serial(&mut self, at: StoreName) -> Result<u64, KeepFail> {
        self.calls.rise();
        let serial = reading::last_serial(&mut self.tables, at);
        counted(&mut self.faults, serial)
    }

    fn origin(&mut self, at: StoreName, origin: Origin) -> Result<Option<u64>, KeepFail> {
        self.calls.rise();
        let found = reading::origin(&mut self.tables, at, origin);
        counted(&mut self.faults, found)
    }

    fn first_job(&mut self, at: StoreName) -> Result<Option<Job>, KeepFail> {
        self.calls.rise();
        let found = reading::first_job(self.alloc, &mut self.tables, at);
        counted(&mut self.faults, found)
    }

    fn job(&mut self, at: StoreName, position: u64) -> Result<Option<Job>, KeepFail> {
        self.calls.rise();
        let found = reading::job(self.alloc, &mut self.tables, at, position);
        counted(&mut self.faults, found)
    }

    fn end_job(&mut self, at: StoreName, position: u64) -> Result<(), KeepFail> {
        self.calls.rise();
        let ended = writing::end_job(&mut self.tables, at, position);
        counted(&mut self.faults, ended)
    }

    fn commit(&mut self, at: StoreName, commit: &Commit) -> Result<(), KeepFail> {
        self.calls.rise();
        let added = writing::add(self.alloc, &mut self.tables, at, commit);
        counted(&mut self.faults, added)
    }

    fn role(&mut self, shard: u16) -> Result<Option<(u64, u16)>, KeepFail> {
        self.calls.rise();
        let role = reading::role(&mut self.tables, shard);
        counted(&mut self.faults, role)
    }

    fn set_role(&mut self, shard: u16, epoch: u64, region: u16) -> Result<(), KeepFail> {
        self.calls.rise();
        let stored = writing::set_role(&mut self.tables, shard, epoch, region);
        counted(&mut self.faults, stored)
    }

    fn open_job(&mut self, at: StoreName, job: &Job) -> Result<(), KeepFail> {
        self.calls.rise();
        let opened = writing::open_job(self.alloc, &mut self.tables, at, job);
        counted(&mut self.faults, opened)
    }

    fn cut_back(&mut self, at: StoreName, length: u64, row: Option<u64>) -> Result<(), KeepFail> {
        self.calls.rise();
        let taken = cutting::cut_back(self.alloc, &mut self.tables, at, length, row);
        counted(&mut self.faults, taken)
    }

    fn calls(&self) -> u64 {
        self.calls.value()
    }

    fn faults(&self) -> u64 {
        self.faults.value()
    }
}
