//! A keeper of keepers whose number stays, whatever is done with it.
ghost use Rattle.std.specs.Prelude.{◌≡◌, length};
ghost use Rattle.keepers.specs.Shown.{kept, shards_of, strays_of};

use keepers::Keepers;
use std::marker::{Brand, PhantomData};
use tao_base::{AType, EdgeState, Edges, Entry, Id, Key, Object, Origin, StoreName};
use tao_keeper::{Commit, Job, KeepFail, Keeper, Opened};

/// How many shards each region has, and how many keepers there are. Each call of a program picks them.
///
/// What is generic over a keeper says nothing of their number. So the type of a keeper that it is lent has this parameter.
pub trait Places {
    ghost use Rattle.std.specs.Prelude.{ℕ};

    /// How many shards each region has.
    ghost shards: { ℕ };

    /// How many keepers there are.
    ghost count: { ℕ };
}

impl Places for Brand {
    ghost shards = { 0 };

    ghost count = { 0 };
}

/// A keeper of keepers, so many, with so many shards in each region.
#[derive(Drop)]
pub struct PlacedKeepers<M, P: Places> {
    pub keepers: Keepers<M>,
    of: PhantomData<P>,
    pub ghost shards: { shards_of keepers ≡ P.shards },
    pub ghost many: { length (kept keepers) ≡ P.count },
}

impl<M, P: Places> PlacedKeepers<M, P> {
    /// These keepers, in order of region, then of shard. Takes no memory.
    pub fn of(keepers: Vec<M>, shards: u16) -> PlacedKeepers<M, P>
        requires shards { shards ≡ P.shards }
        requires count { length keepers.items ≡ P.count }
        ensures kept { kept result.keepers ≡ keepers.items }
        ensures shards { shards_of result.keepers ≡ shards }
        ensures strays { strays_of result.keepers ≡ 0 }
    {
        PlacedKeepers {
            keepers: Keepers::of(keepers, shards),
            of: PhantomData,
        }
    }

    /// The keepers, in their order. Takes no memory.
    pub fn into_keepers(self) -> Vec<M>
        ensures kept { result.items ≡ kept self.keepers }
        ensures count { length result.items ≡ P.count }
    {
        self.keepers.into_keepers()
    }
}

impl<M: Keeper, P: Places> Keeper for PlacedKeepers<M, P> {
    ghost use Rattle.keepers.specs.KeeperLaws.{of_entries_in, sound_in, within_in};
    ghost use Rattle.keepers.specs.Shown.{shown_by};

    const TELLS: bool = M::TELLS;

    ghost TELLS = { M.TELLS };

    ghost state = { λ placed. shown_by M.state placed.keepers };

    ghost sound = { λ placed at told. sound_in M.TELLS M.state M.sound placed.keepers at told };

    ghost cut_within = { λ placed at told. within_in M.TELLS M.state M.cut_within placed.keepers at told };

    ghost of_entries = { λ placed at told. of_entries_in M.TELLS M.state M.of_entries placed.keepers at told };

    fn open(&mut self, at: StoreName, line: &[u8]) -> Result<Opened, KeepFail> {
        self.keepers.open(at, line)
    }

    fn edge(
        &mut self,
        at: StoreName,
        id1: Id,
        atype: AType,
        id2: Id,
    ) -> Result<Option<EdgeState>, KeepFail> {
        self.keepers.edge(at, id1, atype, id2)
    }

    fn edges(
        &mut self,
        at: StoreName,
        id1: Id,
        atype: AType,
        pos: u64,
        most: u64,
    ) -> Result<Edges, KeepFail> {
        self.keepers.edges(at, id1, atype, pos, most)
    }

    fn object(&mut self, at: StoreName, id: Id) -> Result<Option<Object>, KeepFail> {
        self.keepers.object(at, id)
    }

    fn count(&mut self, at: StoreName, id1: Id, atype: AType) -> Result<u64, KeepFail> {
        self.keepers.count(at, id1, atype)
    }

    fn version(&mut self, at: StoreName, key: Key) -> Result<u64, KeepFail> {
        self.keepers.version(at, key)
    }

    fn length(&mut self, at: StoreName) -> Result<u64, KeepFail> {
        self.keepers.length(at)
    }

    fn entry(&mut self, at: StoreName, position: u64) -> Result<Option<Entry>, KeepFail> {
        self.keepers.entry(at, position)
    }

    fn old_entry(&mut self, at: StoreName, position: u64) -> Result<Option<Entry>, KeepFail> {
        self.keepers.old_entry(at, position)
    }

    fn cut_of(&mut self, at: StoreName) -> Result<u64, KeepFail> {
        self.keepers.cut_of(at)
    }

    fn cut(&mut self, at: StoreName, upto: u64) -> Result<(), KeepFail> {
        self.keepers.cut(at, upto)
    }

    fn last_serial(&mut self, at: StoreName) -> Result<u64, KeepFail> {
        self.keepers.last_serial(at)
    }

    fn origin(&mut self, at: StoreName, origin: Origin) -> Result<Option<u64>, KeepFail> {
        self.keepers.origin(at, origin)
    }

    fn first_job(&mut self, at: StoreName) -> Result<Option<Job>, KeepFail> {
        self.keepers.first_job(at)
    }

    fn job(&mut self, at: StoreName, position: u64) -> Result<Option<Job>, KeepFail> {
        self.keepers.job(at, position)
    }

    fn end_job(&mut self, at: StoreName, position: u64) -> Result<(), KeepFail> {
        self.keepers.end_job(at, position)
    }

    fn commit(&mut self, at: StoreName, commit: &Commit) -> Result<(), KeepFail> {
        self.keepers.commit(at, commit)
    }

    fn role(&mut self, shard: u16) -> Result<Option<(u64, u16)>, KeepFail> {
        self.keepers.role(shard)
    }

    fn set_role(&mut self, shard: u16, epoch: u64, region: u16) -> Result<(), KeepFail> {
        self.keepers.set_role(shard, epoch, region)
    }

    fn open_job(&mut self, at: StoreName, job: &Job) -> Result<(), KeepFail> {
        self.keepers.open_job(at, job)
    }

    fn cut_back(&mut self, at: StoreName, length: u64, row: Option<u64>) -> Result<(), KeepFail> {
        self.keepers.cut_back(at, length, row)
    }

    fn calls(&self) -> u64 {
        self.keepers.calls()
    }

    fn faults(&self) -> u64 {
        self.keepers.faults()
    }
}
