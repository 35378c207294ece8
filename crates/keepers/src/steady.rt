//! The keeper in memory that never fails.
ghost use Rattle.std.specs.Prelude.{◌≡◌, true};
ghost use Rattle.tao_base.specs.declared.id.StoreName.{StoreName as Store};
ghost use Rattle.tao_keeper.specs.Table.{empty_table};
ghost use Rattle.keeper_map.specs.MapKeeper.{call_plan};

use keeper_map::{Fails, MapKeeper};
use std::alloc::Global;
use tao_base::{AType, EdgeState, Edges, Entry, Id, Key, Object, Origin, StoreName};
use tao_keeper::{Commit, Job, KeepFail, Keeper, Opened};

/// The keeper in memory without a plan: a call of it fails as out of memory alone, and its count of faults is always 0.
#[derive(Drop)]
pub struct SteadyKeeper {
    keeper: MapKeeper,
    ghost mended: { (call_plan keeper).is_mended ≡ true },
}

impl SteadyKeeper {
    ghost use Rattle.keepers.specs.Steady.{shown_steady};

    /// A keeper with no stores. Takes no memory.
    pub fn make(alloc: Global) -> SteadyKeeper
        ensures { (at : Store) → (shown_steady result).told at ≡ empty_table }
    {
        let mut keeper = MapKeeper::make(
            alloc,
            Fails {
                calls: Vec::new(alloc),
                commits: Vec::new(alloc),
                from: None,
            },
        );
        keeper.mend();
        SteadyKeeper { keeper }
    }
}

impl Keeper for SteadyKeeper {
    ghost use Rattle.std.specs.Prelude.{true};
    ghost use Rattle.keeper_map.specs.StoreLaws.{told_cut_within, told_of_entries, told_sound};
    ghost use Rattle.keepers.specs.Steady.{shown_steady};

    const TELLS: bool = true;

    ghost TELLS = { true };

    ghost state = { shown_steady };

    ghost sound = { λ keeper at _. told_sound keeper.keeper.stores.tables at };

    ghost cut_within = { λ keeper at _. told_cut_within keeper.keeper.stores.tables at };

    ghost of_entries = { λ keeper at _. told_of_entries keeper.keeper.stores.tables at };

    fn open(&mut self, at: StoreName, line: &[u8]) -> Result<Opened, KeepFail> {
        self.keeper.open(at, line)
    }

    fn edge(
        &mut self,
        at: StoreName,
        id1: Id,
        atype: AType,
        id2: Id,
    ) -> Result<Option<EdgeState>, KeepFail> {
        self.keeper.edge(at, id1, atype, id2)
    }

    fn edges(
        &mut self,
        at: StoreName,
        id1: Id,
        atype: AType,
        pos: u64,
        most: u64,
    ) -> Result<Edges, KeepFail> {
        self.keeper.edges(at, id1, atype, pos, most)
    }

    fn object(&mut self, at: StoreName, id: Id) -> Result<Option<Object>, KeepFail> {
        self.keeper.object(at, id)
    }

    fn count(&mut self, at: StoreName, id1: Id, atype: AType) -> Result<u64, KeepFail> {
        self.keeper.count(at, id1, atype)
    }

    fn version(&mut self, at: StoreName, key: Key) -> Result<u64, KeepFail> {
        self.keeper.version(at, key)
    }

    fn length(&mut self, at: StoreName) -> Result<u64, KeepFail> {
        self.keeper.length(at)
    }

    fn entry(&mut self, at: StoreName, position: u64) -> Result<Option<Entry>, KeepFail> {
        self.keeper.entry(at, position)
    }

    fn old_entry(&mut self, at: StoreName, position: u64) -> Result<Option<Entry>, KeepFail> {
        self.keeper.old_entry(at, position)
    }

    fn cut_of(&mut self, at: StoreName) -> Result<u64, KeepFail> {
        self.keeper.cut_of(at)
    }

    fn cut(&mut self, at: StoreName, upto: u64) -> Result<(), KeepFail> {
        self.keeper.cut(at, upto)
    }

    fn last_serial(&mut self, at: StoreName) -> Result<u64, KeepFail> {
        self.keeper.last_serial(at)
    }

    fn origin(&mut self, at: StoreName, origin: Origin) -> Result<Option<u64>, KeepFail> {
        self.keeper.origin(at, origin)
    }

    fn first_job(&mut self, at: StoreName) -> Result<Option<Job>, KeepFail> {
        self.keeper.first_job(at)
    }

    fn job(&mut self, at: StoreName, position: u64) -> Result<Option<Job>, KeepFail> {
        self.keeper.job(at, position)
    }

    fn end_job(&mut self, at: StoreName, position: u64) -> Result<(), KeepFail> {
        self.keeper.end_job(at, position)
    }

    fn commit(&mut self, at: StoreName, commit: &Commit) -> Result<(), KeepFail> {
        self.keeper.commit(at, commit)
    }

    fn role(&mut self, shard: u16) -> Result<Option<(u64, u16)>, KeepFail> {
        self.keeper.role(shard)
    }

    fn set_role(&mut self, shard: u16, epoch: u64, region: u16) -> Result<(), KeepFail> {
        self.keeper.set_role(shard, epoch, region)
    }

    fn open_job(&mut self, at: StoreName, job: &Job) -> Result<(), KeepFail> {
        self.keeper.open_job(at, job)
    }

    fn cut_back(&mut self, at: StoreName, length: u64, row: Option<u64>) -> Result<(), KeepFail> {
        self.keeper.cut_back(at, length, row)
    }

    fn calls(&self) -> u64 {
        self.keeper.calls()
    }

    fn faults(&self) -> u64 {
        0
    }
}
