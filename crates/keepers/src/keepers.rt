//! A keeper of keepers.
ghost use Rattle.std.specs.Prelude.{◌≡◌, ◌≤◌, ◌<◌, Err, IfOk, IfSome, drop, length, take};
ghost use Rattle.counts.specs.Count.{Counted};
ghost use Rattle.graph_model.specs.Edges.{edge_list, edge_record, number_of};
ghost use Rattle.graph_model.specs.Log.{object, version, additions};
ghost use Rattle.graph_model.specs.Soundness.{CanFollow};
ghost use Rattle.graph_model.specs.Told.{WhereTold};
ghost use Rattle.keepers.specs.Shown.{KeepsOthers, kept, place_of, shards_of, shown_by, strays_of, told_by, total};
ghost use Rattle.tao_keeper.specs.Given.{AreGiven, HaveSmallStamps, IsGivenEntry, IsGivenJob, IsGivenRole, IsPosition};
ghost use Rattle.tao_keeper.specs.KeeperState.{IsCall, KeepsTables};
ghost use Rattle.tao_keeper.specs.Table.{Changes, IsLeastJob, IsJobAt, OpensAs, ReachesLive, StandsAt};
ghost use Rattle.tao_keeper.specs.Table.{after_commit, after_cut, after_cut_back, after_end, after_job, after_open, after_role, live_entry, old_entry};
ghost use Rattle.tao_keeper.specs.Table.{role_store};
ghost use Rattle.tao_keeper.specs.declared.keeper.KeepFail.TheVariants.{Failed};

use counts::Count;
use tao_base::{AType, EdgeState, Edges, Entry, Id, Key, Object, Origin, StoreName};
use tao_keeper::{Commit, Job, KeepFail, Keeper, MOST_ENTRIES, Opened, SERIAL_LIMIT, STAMP_LIMIT};

/// A keeper for each store, in order of region, then of shard, which together are one keeper.
///
/// What it tells of a store is what the store's keeper tells of it, and a call on a store is one call of that keeper, which
/// leaves the others as they were. Its counts are those of its keepers added up, and as any count stand still at the last
/// value. Where no keeper stands for a store, that store is empty, and each call on it fails: it is counted here, as a call and
/// as a fault, and nothing is written.
///
/// The role of a shard is kept by the keeper of the first region's store.
#[derive(Drop)]
pub struct Keepers<M> {
    shards: u16,
    keepers: Vec<M>,
    strays: Count,
}

impl<M> Keepers<M> {
    /// These keepers, in order of region, then of shard, with so many shards in each region. Takes no memory.
    pub fn of(keepers: Vec<M>, shards: u16) -> Keepers<M>
        ensures keepers { kept result ≡ keepers.items }
        ensures shards { shards_of result ≡ shards }
        ensures strays { strays_of result ≡ 0 }
    {
        Keepers {
            shards,
            keepers,
            strays: Count::new(),
        }
    }

    /// The keepers, in their order. Takes no memory.
    pub fn into_keepers(self) -> Vec<M>
        ensures { result.items ≡ kept self }
    {
        self.keepers
    }

    /// The place of the keeper of a store: past the last one where none stands for the store.
    fn place(&self, at: StoreName) -> usize
        ensures { result ≡ place_of (shards_of self.now) at }
    {
        usize::from(at.region) * usize::from(self.shards) + usize::from(at.shard)
    }
}

/// The store that keeps the epoch and the master region of a shard.
fn first_store(shard: u16) -> StoreName
    ensures { result ≡ role_store shard }
{
    StoreName { region: 0, shard }
}

/// What a call answers on a store that no keeper stands for. It is counted.
fn stray<T>(strays: &mut Count) -> Result<T, KeepFail>
    ensures answer { result ≡ Err Failed }
    ensures counted { Counted strays.old strays.new }
{
    strays.rise();
    Err(KeepFail::Failed)
}

/// How many calls the keepers counted, and these more.
fn total_calls<M: Keeper>(keepers: &[M], more: u64) -> u64
    ensures { result ≡ total (λ keeper. (M.state keeper).calls) more keepers.now }
{
    let mut calls = more;
    for keeper in keepers {
        calls = calls.saturating_add(keeper.calls());
    }
    calls
}

/// How many faults the keepers counted, and these more.
fn total_faults<M: Keeper>(keepers: &[M], more: u64) -> u64
    ensures { result ≡ total (λ keeper. (M.state keeper).faults) more keepers.now }
{
    let mut faults = more;
    for keeper in keepers {
        faults = faults.saturating_add(keeper.faults());
    }
    faults
}

impl<M: Keeper> Keeper for Keepers<M> {
    ghost use Rattle.keepers.specs.KeeperLaws.{of_entries_in, sound_in, within_in};

    const TELLS: bool = M::TELLS;

    ghost TELLS = { M.TELLS };

    ghost state = { shown_by M.state };

    ghost sound = { λ all at told. sound_in M.TELLS M.state M.sound all at told };

    ghost cut_within = { λ all at told. within_in M.TELLS M.state M.cut_within all at told };

    ghost of_entries = { λ all at told. of_entries_in M.TELLS M.state M.of_entries all at told };

    fn open(&mut self, at: StoreName, line: &[u8]) -> Result<Opened, KeepFail>
        ensures answer { WhereTold M.TELLS (IfOk result (λ opened. OpensAs opened (told_by M.state self.old at) line.now)) }
        ensures changes { WhereTold M.TELLS (Changes result (told_by M.state self.old) (told_by M.state self.new) at
            (after_open (told_by M.state self.old at) line.now)) }
        ensures call { IsCall (shown_by M.state self.old) (shown_by M.state self.new) result }
        ensures others { KeepsOthers at self.old self.new }
    {
        let place = self.place(at);
        match self.keepers.get_mut(place) {
            Some(keeper) => keeper.open(at, line),
            None => stray(&mut self.strays),
        }
    }

    fn edge(
        &mut self,
        at: StoreName,
        id1: Id,
        atype: AType,
        id2: Id,
    ) -> Result<Option<EdgeState>, KeepFail>
        ensures answer { WhereTold M.TELLS (IfOk result (λ found. found ≡ edge_record (told_by M.state self.old at).log id1 atype id2)) }
        ensures small { IfOk result (λ found. number_of found < STAMP_LIMIT) }
        ensures stays { KeepsTables M.TELLS (shown_by M.state self.old) (shown_by M.state self.new) }
        ensures call { IsCall (shown_by M.state self.old) (shown_by M.state self.new) result }
        ensures others { KeepsOthers at self.old self.new }
    {
        let place = self.place(at);
        match self.keepers.get_mut(place) {
            Some(keeper) => keeper.edge(at, id1, atype, id2),
            None => stray(&mut self.strays),
        }
    }

    fn edges(
        &mut self,
        at: StoreName,
        id1: Id,
        atype: AType,
        pos: u64,
        most: u64,
    ) -> Result<Edges, KeepFail>
        ensures answer { WhereTold M.TELLS (IfOk result (λ edges. edges ≡ take most (drop pos (edge_list (told_by M.state self.old at).log id1 atype)))) }
        ensures given { IfOk result (AreGiven most) }
        ensures stays { KeepsTables M.TELLS (shown_by M.state self.old) (shown_by M.state self.new) }
        ensures call { IsCall (shown_by M.state self.old) (shown_by M.state self.new) result }
        ensures others { KeepsOthers at self.old self.new }
    {
        let place = self.place(at);
        match self.keepers.get_mut(place) {
            Some(keeper) => keeper.edges(at, id1, atype, pos, most),
            None => stray(&mut self.strays),
        }
    }

    fn object(&mut self, at: StoreName, id: Id) -> Result<Option<Object>, KeepFail>
        ensures answer { WhereTold M.TELLS (IfOk result (λ found. found ≡ object (told_by M.state self.old at).log id)) }
        ensures stays { KeepsTables M.TELLS (shown_by M.state self.old) (shown_by M.state self.new) }
        ensures call { IsCall (shown_by M.state self.old) (shown_by M.state self.new) result }
        ensures others { KeepsOthers at self.old self.new }
    {
        let place = self.place(at);
        match self.keepers.get_mut(place) {
            Some(keeper) => keeper.object(at, id),
            None => stray(&mut self.strays),
        }
    }

    fn count(&mut self, at: StoreName, id1: Id, atype: AType) -> Result<u64, KeepFail>
        ensures answer { WhereTold M.TELLS (IfOk result (λ count. count ≡ length (edge_list (told_by M.state self.old at).log id1 atype))) }
        ensures few { IfOk result (λ count. count ≤ MOST_ENTRIES) }
        ensures stays { KeepsTables M.TELLS (shown_by M.state self.old) (shown_by M.state self.new) }
        ensures call { IsCall (shown_by M.state self.old) (shown_by M.state self.new) result }
        ensures others { KeepsOthers at self.old self.new }
    {
        let place = self.place(at);
        match self.keepers.get_mut(place) {
            Some(keeper) => keeper.count(at, id1, atype),
            None => stray(&mut self.strays),
        }
    }

    fn version(&mut self, at: StoreName, key: Key) -> Result<u64, KeepFail>
        ensures answer { WhereTold M.TELLS (IfOk result (λ count. count ≡ version (told_by M.state self.old at).log key)) }
        ensures few { IfOk result (λ count. count ≤ MOST_ENTRIES) }
        ensures stays { KeepsTables M.TELLS (shown_by M.state self.old) (shown_by M.state self.new) }
        ensures call { IsCall (shown_by M.state self.old) (shown_by M.state self.new) result }
        ensures others { KeepsOthers at self.old self.new }
    {
        let place = self.place(at);
        match self.keepers.get_mut(place) {
            Some(keeper) => keeper.version(at, key),
            None => stray(&mut self.strays),
        }
    }

    fn length(&mut self, at: StoreName) -> Result<u64, KeepFail>
        ensures answer { WhereTold M.TELLS (IfOk result (λ count. count ≡ length (told_by M.state self.old at).log)) }
        ensures few { IfOk result (λ count. count ≤ MOST_ENTRIES) }
        ensures stays { KeepsTables M.TELLS (shown_by M.state self.old) (shown_by M.state self.new) }
        ensures call { IsCall (shown_by M.state self.old) (shown_by M.state self.new) result }
        ensures others { KeepsOthers at self.old self.new }
    {
        let place = self.place(at);
        match self.keepers.get_mut(place) {
            Some(keeper) => keeper.length(at),
            None => stray(&mut self.strays),
        }
    }

    fn entry(&mut self, at: StoreName, position: u64) -> Result<Option<Entry>, KeepFail>
        ensures answer { WhereTold M.TELLS (IfOk result (λ found. found ≡ live_entry (told_by M.state self.old at) position)) }
        ensures given { IfOk result (λ found. IfSome found IsGivenEntry) }
        ensures stays { KeepsTables M.TELLS (shown_by M.state self.old) (shown_by M.state self.new) }
        ensures call { IsCall (shown_by M.state self.old) (shown_by M.state self.new) result }
        ensures others { KeepsOthers at self.old self.new }
    {
        let place = self.place(at);
        match self.keepers.get_mut(place) {
            Some(keeper) => keeper.entry(at, position),
            None => stray(&mut self.strays),
        }
    }

    fn old_entry(&mut self, at: StoreName, position: u64) -> Result<Option<Entry>, KeepFail>
        ensures answer { WhereTold M.TELLS (IfOk result (λ found. found ≡ old_entry (told_by M.state self.old at) position)) }
        ensures given { IfOk result (λ found. IfSome found IsGivenEntry) }
        ensures stays { KeepsTables M.TELLS (shown_by M.state self.old) (shown_by M.state self.new) }
        ensures call { IsCall (shown_by M.state self.old) (shown_by M.state self.new) result }
        ensures others { KeepsOthers at self.old self.new }
    {
        let place = self.place(at);
        match self.keepers.get_mut(place) {
            Some(keeper) => keeper.old_entry(at, position),
            None => stray(&mut self.strays),
        }
    }

    fn cut_of(&mut self, at: StoreName) -> Result<u64, KeepFail>
        ensures answer { WhereTold M.TELLS (IfOk result (λ cut. cut ≡ (told_by M.state self.old at).cut)) }
        ensures few { IfOk result (λ cut. cut ≤ MOST_ENTRIES) }
        ensures stays { KeepsTables M.TELLS (shown_by M.state self.old) (shown_by M.state self.new) }
        ensures call { IsCall (shown_by M.state self.old) (shown_by M.state self.new) result }
        ensures others { KeepsOthers at self.old self.new }
    {
        let place = self.place(at);
        match self.keepers.get_mut(place) {
            Some(keeper) => keeper.cut_of(at),
            None => stray(&mut self.strays),
        }
    }

    fn cut(&mut self, at: StoreName, upto: u64) -> Result<(), KeepFail>
        requires may { WhereTold M.TELLS (ReachesLive (told_by M.state self.old at) upto) }
        requires few { upto ≤ MOST_ENTRIES }
        ensures changes { WhereTold M.TELLS (Changes result (told_by M.state self.old) (told_by M.state self.new) at
            (after_cut (told_by M.state self.old at) upto)) }
        ensures call { IsCall (shown_by M.state self.old) (shown_by M.state self.new) result }
        ensures others { KeepsOthers at self.old self.new }
    {
        let place = self.place(at);
        match self.keepers.get_mut(place) {
            Some(keeper) => keeper.cut(at, upto),
            None => stray(&mut self.strays),
        }
    }

    fn last_serial(&mut self, at: StoreName) -> Result<u64, KeepFail>
        ensures answer { WhereTold M.TELLS (IfOk result (λ serial. serial ≡ additions (told_by M.state self.old at).log)) }
        ensures small { IfOk result (λ serial. serial < SERIAL_LIMIT) }
        ensures stays { KeepsTables M.TELLS (shown_by M.state self.old) (shown_by M.state self.new) }
        ensures call { IsCall (shown_by M.state self.old) (shown_by M.state self.new) result }
        ensures others { KeepsOthers at self.old self.new }
    {
        let place = self.place(at);
        match self.keepers.get_mut(place) {
            Some(keeper) => keeper.last_serial(at),
            None => stray(&mut self.strays),
        }
    }

    fn origin(&mut self, at: StoreName, origin: Origin) -> Result<Option<u64>, KeepFail>
        ensures answer { WhereTold M.TELLS (IfOk result (StandsAt (told_by M.state self.old at).log origin)) }
        ensures within { IfOk result (λ found. IfSome found IsPosition) }
        ensures stays { KeepsTables M.TELLS (shown_by M.state self.old) (shown_by M.state self.new) }
        ensures call { IsCall (shown_by M.state self.old) (shown_by M.state self.new) result }
        ensures others { KeepsOthers at self.old self.new }
    {
        let place = self.place(at);
        match self.keepers.get_mut(place) {
            Some(keeper) => keeper.origin(at, origin),
            None => stray(&mut self.strays),
        }
    }

    fn first_job(&mut self, at: StoreName) -> Result<Option<Job>, KeepFail>
        ensures answer { WhereTold M.TELLS (IfOk result (IsLeastJob (told_by M.state self.old at).jobs)) }
        ensures given { IfOk result (λ found. IfSome found IsGivenJob) }
        ensures stays { KeepsTables M.TELLS (shown_by M.state self.old) (shown_by M.state self.new) }
        ensures call { IsCall (shown_by M.state self.old) (shown_by M.state self.new) result }
        ensures others { KeepsOthers at self.old self.new }
    {
        let place = self.place(at);
        match self.keepers.get_mut(place) {
            Some(keeper) => keeper.first_job(at),
            None => stray(&mut self.strays),
        }
    }

    fn job(&mut self, at: StoreName, position: u64) -> Result<Option<Job>, KeepFail>
        ensures answer { WhereTold M.TELLS (IfOk result (IsJobAt (told_by M.state self.old at).jobs position)) }
        ensures given { IfOk result (λ found. IfSome found IsGivenJob) }
        ensures stays { KeepsTables M.TELLS (shown_by M.state self.old) (shown_by M.state self.new) }
        ensures call { IsCall (shown_by M.state self.old) (shown_by M.state self.new) result }
        ensures others { KeepsOthers at self.old self.new }
    {
        let place = self.place(at);
        match self.keepers.get_mut(place) {
            Some(keeper) => keeper.job(at, position),
            None => stray(&mut self.strays),
        }
    }

    fn end_job(&mut self, at: StoreName, position: u64) -> Result<(), KeepFail>
        ensures changes { WhereTold M.TELLS (Changes result (told_by M.state self.old) (told_by M.state self.new) at
            (after_end (told_by M.state self.old at) position)) }
        ensures call { IsCall (shown_by M.state self.old) (shown_by M.state self.new) result }
        ensures others { KeepsOthers at self.old self.new }
    {
        let place = self.place(at);
        match self.keepers.get_mut(place) {
            Some(keeper) => keeper.end_job(at, position),
            None => stray(&mut self.strays),
        }
    }

    fn commit(&mut self, at: StoreName, commit: &Commit) -> Result<(), KeepFail>
        requires stamps { HaveSmallStamps commit.now.entry.touches }
        requires job { IfSome commit.now.job (λ job. job.position ≡ commit.now.entry.position) }
        requires given { IfSome commit.now.job IsGivenJob }
        requires room { WhereTold M.TELLS (length (told_by M.state self.old at).log < MOST_ENTRIES) }
        requires follows { WhereTold M.TELLS (CanFollow (told_by M.state self.old at).log commit.now.entry) }
        ensures changes { WhereTold M.TELLS (Changes result (told_by M.state self.old) (told_by M.state self.new) at
            (after_commit (told_by M.state self.old at) commit.now.entry commit.now.job)) }
        ensures call { IsCall (shown_by M.state self.old) (shown_by M.state self.new) result }
        ensures others { KeepsOthers at self.old self.new }
    {
        let place = self.place(at);
        match self.keepers.get_mut(place) {
            Some(keeper) => keeper.commit(at, commit),
            None => stray(&mut self.strays),
        }
    }

    fn role(&mut self, shard: u16) -> Result<Option<(u64, u16)>, KeepFail>
        ensures answer { WhereTold M.TELLS (IfOk result (λ role. role ≡ (told_by M.state self.old (role_store shard)).role)) }
        ensures given { IfOk result (λ role. IfSome role IsGivenRole) }
        ensures stays { KeepsTables M.TELLS (shown_by M.state self.old) (shown_by M.state self.new) }
        ensures call { IsCall (shown_by M.state self.old) (shown_by M.state self.new) result }
        ensures others { KeepsOthers (role_store shard) self.old self.new }
    {
        let place = self.place(first_store(shard));
        match self.keepers.get_mut(place) {
            Some(keeper) => keeper.role(shard),
            None => stray(&mut self.strays),
        }
    }

    fn set_role(&mut self, shard: u16, epoch: u64, region: u16) -> Result<(), KeepFail>
        requires given { IsGivenRole (epoch, region) }
        ensures changes { WhereTold M.TELLS (Changes result (told_by M.state self.old) (told_by M.state self.new) (role_store shard)
            (after_role (told_by M.state self.old (role_store shard)) epoch region)) }
        ensures call { IsCall (shown_by M.state self.old) (shown_by M.state self.new) result }
        ensures others { KeepsOthers (role_store shard) self.old self.new }
    {
        let place = self.place(first_store(shard));
        match self.keepers.get_mut(place) {
            Some(keeper) => keeper.set_role(shard, epoch, region),
            None => stray(&mut self.strays),
        }
    }

    fn open_job(&mut self, at: StoreName, job: &Job) -> Result<(), KeepFail>
        requires given { IsGivenJob job.now }
        requires within { WhereTold M.TELLS (job.now.position ≤ length (told_by M.state self.old at).log) }
        ensures changes { WhereTold M.TELLS (Changes result (told_by M.state self.old) (told_by M.state self.new) at
            (after_job (told_by M.state self.old at) job.now)) }
        ensures call { IsCall (shown_by M.state self.old) (shown_by M.state self.new) result }
        ensures others { KeepsOthers at self.old self.new }
    {
        let place = self.place(at);
        match self.keepers.get_mut(place) {
            Some(keeper) => keeper.open_job(at, job),
            None => stray(&mut self.strays),
        }
    }

    fn cut_back(&mut self, at: StoreName, length: u64, row: Option<u64>) -> Result<(), KeepFail>
        requires may { WhereTold M.TELLS (ReachesLive (told_by M.state self.old at) length) }
        ensures changes { WhereTold M.TELLS (Changes result (told_by M.state self.old) (told_by M.state self.new) at
            (after_cut_back (told_by M.state self.old at) length row)) }
        ensures call { IsCall (shown_by M.state self.old) (shown_by M.state self.new) result }
        ensures others { KeepsOthers at self.old self.new }
    {
        let place = self.place(at);
        match self.keepers.get_mut(place) {
            Some(keeper) => keeper.cut_back(at, length, row),
            None => stray(&mut self.strays),
        }
    }

    fn calls(&self) -> u64 {
        total_calls(self.keepers.as_slice(), self.strays.value())
    }

    fn faults(&self) -> u64 {
        total_faults(self.keepers.as_slice(), self.strays.value())
    }
}
