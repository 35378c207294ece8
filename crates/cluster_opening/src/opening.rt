//! The opening of a cluster: as a core is opened, over one keeper a store, and then each node and store is put behind a lock of its own.
ghost use Rattle.std.specs.List.{AllByRecursion};
ghost use Rattle.std.specs.Prelude.{◌≡◌, ◌≤◌, ◌<◌, ◌+◌, ◌⊎◌, ◌++◌, ◌∷◌, [], IfErr, IfOk, IfSome, length, slice_get};
ghost use Rattle.std.specs.Vec.{vec_capacity, vec_len};
ghost use Rattle.cluster_opening.specs.Opening.{AreCuts, AreEach, AreNotesFor, AreWholeNotes, HaveNotes, HaveTheirJobs, IsOpenedOver, IsWholeNote, MayBeShared};
ghost use Rattle.cluster_opening.specs.Opening.{RefusesOver, logs_of, making_of, shown_in};
ghost use Rattle.core_model.specs.Pens.{pens_of};
ghost use Rattle.core_model.specs.Stores.{AreStores, master_store, store_count};
ghost use Rattle.locked_nodes.specs.core_nodes.Opening.{IsOpened, MayOpen, RefusesOpening, open_refusal};
ghost use Rattle.counts.specs.Count.{Rose};
ghost use Rattle.graph_model.specs.Told.{WhereTold};
ghost use Rattle.keepers.specs.Shown.{told_in, total};
ghost use Rattle.locked_nodes.specs.Room.{AreMany};
ghost use Rattle.replies.specs.declared.opening.OpenRefusal.TheVariants.{KeeperFault as Faulted, OutOfMemory as NoMemory};
ghost use Rattle.locked_nodes.specs.shared_nodes.Nodes.{IsSharedNode};
ghost use Rattle.shared_stores.specs.Locked.{IsSharedStore, locked};
ghost use Rattle.tao_keeper.specs.KeeperState.{CallsKeeper, KeepsTables};
ghost use Rattle.tao_keeper.specs.declared.keeper.KeepFail.TheVariants.{Failed};
ghost use Rattle.topology.specs.States.{all_up};

use crate::counting::{faults_of, rose};
use crate::placed::{PlacedKeepers, Places};
use core_model::{Named, masters_are_regions, store_place};
use follower_cache::Follower;
use leader_tier::Leader;
use locked_model::locks_begin;
use locked_nodes::core_nodes::{Fleet, FleetParts, master_store};
use locked_nodes::shared_nodes::{SharedFollower, SharedLeader};
use locked_nodes::{LockedNodes, LockedParts, Room, RoomParts, Tiered, put_last};
use replies::OpenRefusal;
use shard_tables::{StoreNode, StoreRole};
use shared_inbox::SharedInbox;
use shared_stores::{CountedNote, SharedStore, Sharing};
use std::alloc::Global;
use std::marker::Brand;
use std::sync::Mutex;
use tao_base::OutOfMemory;
use tao_keeper::{KeepFail, Keeper};
use topology::{Config, Topology};

/// Why a cluster wasn't made, and the keepers, in their order.
#[derive(Drop)]
pub struct OpenFail<K> {
    pub why: OpenRefusal,
    pub keepers: Vec<K>,
}

/// The nodes of a cluster before they are put behind locks: the stores, opened over one keeper each, in order of region, then of shard, the leaders and
/// followers before them, and of each shard how many entries of its log are old.
pub struct Opened<'c, K> {
    pub alloc: Global,
    pub config: &'c Config,
    pub fleet: Fleet,
    pub keepers: Vec<K>,
    pub cuts: Vec<u64>,
}

/// The nodes of a core, and of each shard how many entries of its log are old.
struct OpenedFleet {
    fleet: Fleet,
    cuts: Vec<u64>,
}

/// What came of an opening, and the keepers.
struct Tried<K> {
    opened: Result<OpenedFleet, OpenRefusal>,
    keepers: Vec<K>,
}

/// The notes of a store.
#[derive(Drop)]
pub(crate) struct Noted {
    pub(crate) notes: Vec<CountedNote>,
}

/// A leader behind its lock, by its name.
type LockedLeader<J> = Named<Tiered<SharedLeader<J>, J>>;

/// A follower behind its lock, by its name.
type LockedFollower<J> = Named<Tiered<SharedFollower<J>, J>>;

/// All of a cluster that takes memory, while no keeper was moved, and room for its stores.
struct Parts<K: Keeper, J: Sharing> {
    topology: Topology,
    leaders: Vec<LockedLeader<J>>,
    followers: Vec<LockedFollower<J>>,
    stores: Vec<StoreNode>,
    noted: Vec<Noted>,
    shared: Vec<Mutex<SharedStore<K, J>>>,
    room: Room<K, J>,
}

fn refusal_of(fail: KeepFail) -> OpenRefusal
    ensures { result ≡ open_refusal fail }
{
    match fail {
        KeepFail::Failed => OpenRefusal::KeeperFault,
        KeepFail::OutOfMemory => OpenRefusal::OutOfMemory,
    }
}

/// Why an opening is refused, where a keeper's fault is said only as their counts, added up, rose. It can't be said else: no call is made on a store that no
/// keeper stands for.
fn with_cause(why: OpenRefusal, before: u64, now: u64) -> OpenRefusal
    ensures same { (result ≡ why) ⊎ ((why ≡ Faulted) × (result ≡ NoMemory)) }
    ensures cause { result ≡ Faulted → Rose before now }
{
    match why {
        OpenRefusal::KeeperFault => {
            if rose(before, now) {
                why
            } else {
                OpenRefusal::OutOfMemory
            }
        }
        _ => why,
    }
}

/// The cut of a shard's log. One call of the keeper.
fn cut_of<K: Keeper>(config: &Config, keepers: &mut K, shard: u16) -> Result<u64, KeepFail>
    ensures cut { WhereTold K.TELLS (IfOk result (λ cut. cut ≡ ((K.state keepers.old).told (master_store config.now shard)).cut)) }
    ensures stays { KeepsTables K.TELLS (K.state keepers.old) (K.state keepers.new) }
    ensures calls { CallsKeeper Failed (K.state keepers.old) (K.state keepers.new) result }
{
    keepers.cut_of(master_store(config, shard))
}

/// The cut of each shard's log, in order. One call of the keeper for each.
fn cuts_of<K: Keeper>(alloc: Global, config: &Config, keepers: &mut K) -> Result<Vec<u64>, KeepFail>
    ensures cuts { IfOk result (λ cuts. AreCuts K.TELLS config.now (K.state keepers.old).told cuts.items) }
    ensures stays { KeepsTables K.TELLS (K.state keepers.old) (K.state keepers.new) }
    ensures calls { CallsKeeper Failed (K.state keepers.old) (K.state keepers.new) result }
{
    let mut cuts = Vec::new(alloc);
    for shard in 0..config.shards {
        let cut = cut_of(config, keepers, shard)?;
        cuts.push(cut)?;
    }
    Ok(cuts)
}

/// Opens the stores of a core, and finds the cuts of their logs.
fn open_over<K: Keeper>(
    alloc: Global,
    config: &Config,
    line: &[u8],
    keepers: &mut K,
) -> Result<OpenedFleet, OpenRefusal>
    requires kept { WhereTold K.TELLS (MayOpen config.now line.now (K.state keepers.old).told) }
    requires jobs { WhereTold K.TELLS (HaveTheirJobs config.now (K.state keepers.old).told) }
    ensures opened { IfOk result (λ begun. IsOpenedOver K.TELLS config.now (K.state keepers.new).told begun.fleet begun.cuts.items) }
    ensures begun { WhereTold K.TELLS (IfOk result (λ _. IsOpened config.now line.now (K.state keepers.old).told (K.state keepers.new).told)) }
    ensures refused { IfErr result (RefusesOpening K.TELLS config.now line.now (K.state keepers.old) (K.state keepers.new)) }
{
    let fleet = Fleet::open(alloc, config, line, keepers)?;
    match cuts_of(alloc, config, keepers) {
        Ok(cuts) => Ok(OpenedFleet { fleet, cuts }),
        Err(fail) => {
            drop(fleet);
            Err(refusal_of(fail))
        }
    }
}

/// Opens the stores of a core over these keepers, one a store.
fn open_placed<K: Keeper, P: Places>(
    alloc: Global,
    config: &Config,
    line: &[u8],
    keepers: Vec<K>,
) -> Tried<K>
    requires shards { config.now.shards ≡ P.shards }
    requires count { length keepers.items ≡ P.count }
    requires kept { WhereTold K.TELLS (MayOpen config.now line.now (told_in K.state config.now.shards keepers.items)) }
    requires jobs { WhereTold K.TELLS (HaveTheirJobs config.now (told_in K.state config.now.shards keepers.items)) }
    ensures many { length result.keepers.items ≡ length keepers.items }
    ensures opened { IfOk result.opened (λ begun.
        IsOpenedOver K.TELLS config.now (told_in K.state config.now.shards result.keepers.items) begun.fleet begun.cuts.items) }
    ensures begun { WhereTold K.TELLS (IfOk result.opened (λ _. IsOpened config.now line.now (told_in K.state config.now.shards keepers.items)
        (told_in K.state config.now.shards result.keepers.items))) }
    ensures refused { IfErr result.opened (RefusesOver K.TELLS config.now line.now (shown_in K.state config.now.shards 0 keepers.items)
        (λ strays. shown_in K.state config.now.shards strays result.keepers.items)) }
{
    let mut placed = PlacedKeepers::<K, P>::of(keepers, config.shards);
    let opened = open_over(alloc, config, line, &mut placed);
    Tried {
        opened,
        keepers: placed.into_keepers(),
    }
}

/// A note that has seen all of a shard's log.
fn whole_note(
    config: &Config,
    stores: &mut [StoreNode],
    shard: u16,
) -> Result<CountedNote, OutOfMemory>
    requires stores { AreStores config.now (store_count config.now) stores.old }
    requires here { shard < config.now.shards }
    ensures note { IfOk result (IsWholeNote (pens_of stores.old) shard) }
    ensures same { stores.new ≡ stores.old }
{
    masters_are_regions(config);
    let place = store_place(config, master_store(config, shard));
    let store = &mut stores[place];
    let note = store.note()?;
    CountedNote::whole(store, note)
}

/// Notes of the logs of all shards, in order, which have seen all of these.
fn whole_notes(
    alloc: Global,
    config: &Config,
    stores: &mut [StoreNode],
) -> Result<Vec<CountedNote>, OutOfMemory>
    requires stores { AreStores config.now (store_count config.now) stores.old }
    ensures notes { IfOk result (λ notes. AreWholeNotes (pens_of stores.old) config.now.shards notes.items) }
    ensures same { stores.new ≡ stores.old }
{
    let mut notes = Vec::new(alloc);
    for shard in 0..config.shards {
        let note = whole_note(config, stores, shard)?;
        notes.push(note)?;
    }
    Ok(notes)
}

/// The notes of a store of that role.
fn notes_for(
    alloc: Global,
    config: &Config,
    stores: &mut [StoreNode],
    role: StoreRole,
) -> Result<Noted, OutOfMemory>
    requires stores { AreStores config.now (store_count config.now) stores.old }
    ensures notes { IfOk result (λ noted. AreNotesFor (pens_of stores.old) config.now.shards role noted.notes.items) }
    ensures same { stores.new ≡ stores.old }
{
    match role {
        StoreRole::Master => Ok(Noted {
            notes: whole_notes(alloc, config, stores)?,
        }),
        StoreRole::Slave => Ok(Noted {
            notes: Vec::new(alloc),
        }),
    }
}

/// The role of the store at a place.
fn role_at(stores: &[StoreNode], place: usize) -> StoreRole
    ensures { IfSome (slice_get stores.now place) (λ store. store.role ≡ result) }
{
    match stores.get(place) {
        Some(store) => store.role(),
        None => StoreRole::Slave,
    }
}

/// The notes of each store, in order.
fn all_notes(
    alloc: Global,
    config: &Config,
    stores: &mut [StoreNode],
) -> Result<Vec<Noted>, OutOfMemory>
    requires stores { AreStores config.now (store_count config.now) stores.old }
    ensures notes { IfOk result (λ noted. HaveNotes (pens_of stores.old) config.now.shards stores.old (length stores.old) noted.items) }
    ensures same { stores.new ≡ stores.old }
{
    let mut noted = Vec::new(alloc);
    for place in 0..stores.len() {
        let role = role_at(stores, place);
        let notes = notes_for(alloc, config, stores, role)?;
        noted.push(notes)?;
    }
    Ok(noted)
}

/// A leader behind its lock, with an inbox in which no message waits.
fn lock_leader<J: Sharing>(
    alloc: Global,
    leader: Named<Leader>,
) -> Result<LockedLeader<J>, OutOfMemory>
    requires { IsSharedNode J.making J.log leader.name leader.node }
{
    let Named { name, node } = leader;
    let (inbox, _) = SharedInbox::make(alloc)?;
    let node = Mutex::new(SharedLeader::new(name, node));
    Ok(Named {
        name,
        node: Tiered { node, inbox },
    })
}

/// The leaders, each behind its lock.
fn lock_leaders<J: Sharing>(
    alloc: Global,
    leaders: Vec<Named<Leader>>,
) -> Result<Vec<LockedLeader<J>>, OutOfMemory>
    requires { AllByRecursion (λ leader. IsSharedNode J.making J.log leader.name leader.node) leaders.items }
    ensures many { IfOk result (λ shared. vec_len shared ≡ length leaders.items) }
{
    let mut shared = Vec::new(alloc);
    for leader in leaders {
        shared.push(lock_leader(alloc, leader)?)?;
    }
    Ok(shared)
}

/// A follower behind its lock, with an inbox in which no message waits.
fn lock_follower<J: Sharing>(
    alloc: Global,
    follower: Named<Follower>,
) -> Result<LockedFollower<J>, OutOfMemory>
    requires { IsSharedNode J.making J.log follower.name follower.node.node }
{
    let Named { name, node } = follower;
    let (inbox, _) = SharedInbox::make(alloc)?;
    let node = Mutex::new(SharedFollower::new(name, node));
    Ok(Named {
        name,
        node: Tiered { node, inbox },
    })
}

/// The followers, each behind its lock.
fn lock_followers<J: Sharing>(
    alloc: Global,
    followers: Vec<Named<Follower>>,
) -> Result<Vec<LockedFollower<J>>, OutOfMemory>
    requires { AllByRecursion (λ follower. IsSharedNode J.making J.log follower.name follower.node.node) followers.items }
    ensures many { IfOk result (λ shared. vec_len shared ≡ length followers.items) }
{
    let mut shared = Vec::new(alloc);
    for follower in followers {
        shared.push(lock_follower(alloc, follower)?)?;
    }
    Ok(shared)
}

/// Room for so many nodes, and stores with their keepers and notes.
fn make_room<K: Drop, J: Sharing>(
    alloc: Global,
    leaders: usize,
    followers: usize,
    stores: usize,
) -> Result<Room<K, J>, OutOfMemory>
    requires many { AreMany J.making.settings leaders followers stores }
{
    Ok(Room::of(RoomParts {
        leaders: Vec::with_capacity(alloc, leaders)?,
        followers: Vec::with_capacity(alloc, followers)?,
        stores: Vec::with_capacity(alloc, stores)?,
        keepers: Vec::with_capacity(alloc, stores)?,
        noted: Vec::with_capacity(alloc, stores)?,
    }))
}

/// All of a cluster that takes memory.
fn make_parts<K: Keeper + Drop, J: Sharing>(
    alloc: Global,
    config: &Config,
    fleet: Fleet,
) -> Result<Parts<K, J>, OutOfMemory>
    requires nodes { MayBeShared J.making J.log fleet }
    requires stores { AreStores config.now (store_count config.now) fleet.stores }
    requires many { AreMany J.making.settings (length fleet.leaders) (length fleet.followers) (length fleet.stores) }
    ensures topology { IfOk result (λ parts. parts.topology ≡ all_up config.now) }
    ensures leaders { IfOk result (λ parts. vec_len parts.leaders ≡ length fleet.leaders) }
    ensures followers { IfOk result (λ parts. vec_len parts.followers ≡ length fleet.followers) }
    ensures stores { IfOk result (λ parts. parts.stores.items ≡ fleet.stores) }
    ensures noted { IfOk result (λ parts.
        HaveNotes (pens_of fleet.stores) config.now.shards fleet.stores (length fleet.stores) parts.noted.items) }
    ensures empty { IfOk result (λ parts. vec_len parts.shared ≡ 0) }
    ensures room { IfOk result (λ parts. length fleet.stores ≤ vec_capacity parts.shared) }
{
    let FleetParts {
        leaders,
        followers,
        mut stores,
    } = fleet.into_parts();
    let room = make_room::<K, J>(alloc, leaders.len(), followers.len(), stores.len())?;
    let leaders = lock_leaders::<J>(alloc, leaders)?;
    let followers = lock_followers::<J>(alloc, followers)?;
    let topology = Topology::make(alloc, config)?;
    let noted = all_notes(alloc, config, &mut stores)?;
    let shared = Vec::with_capacity(alloc, stores.len())?;
    Ok(Parts {
        topology,
        leaders,
        followers,
        stores,
        noted,
        shared,
        room,
    })
}

/// Takes out the last one.
fn take_last<T>(all: &mut Vec<T>) -> T
    requires { 0 < length all.old.items }
    ensures items { all.old.items ≡ all.new.items ++ result ∷ [] }
{
    match all.pop() {
        Some(last) => last,
        None => unreachable!(),
    }
}

/// A store behind its lock, with its keeper and its notes. Takes no memory.
fn lock_store<K: Keeper, J: Sharing>(
    store: StoreNode,
    keeper: K,
    notes: Noted,
) -> Mutex<SharedStore<K, J>>
    requires { IsSharedStore K.TELLS J.making J.log (locked store (K.state keeper).told notes.notes.items) }
{
    let Noted { notes } = notes;
    Mutex::new(SharedStore::new(store, keeper, notes))
}

/// The stores behind their locks, each with its keeper and its notes, in order. Takes no memory.
fn lock_stores<K: Keeper + Drop, J: Sharing>(
    stores: Vec<StoreNode>,
    keepers: Vec<K>,
    noted: Vec<Noted>,
    room: Vec<Mutex<SharedStore<K, J>>>,
) -> Vec<Mutex<SharedStore<K, J>>>
    requires shared { AreEach (λ store keeper notes. IsSharedStore K.TELLS J.making J.log (locked store (K.state keeper).told notes))
        stores.items keepers.items noted.items }
    requires empty { vec_len room ≡ 0 }
    requires room { length stores.items ≤ vec_capacity room }
    ensures many { vec_len result ≡ length stores.items }
{
    let mut stores = stores;
    let mut keepers = keepers;
    let mut noted = noted;
    let mut shared = room;
    while let Some(store) = stores.pop() {
        let keeper = take_last(&mut keepers);
        let notes = take_last(&mut noted);
        let store = lock_store(store, keeper, notes);
        put_last(&mut shared, store);
    }
    shared.as_mut_slice().reverse();
    shared
}

impl<'c, K: Keeper> Opened<'c, K> {
    /// Opens the stores of a configuration with the line, as a core's are, over one keeper each, in order of region, then of shard, and makes the leaders
    /// and followers before them.
    ///
    /// Where it is refused the keepers come back, and the causes are those of `Fleet::open`; `KeeperFault` comes only where the count of faults of one of
    /// them rose. Costs what `Fleet::open` does, and a call of a keeper for each shard.
    pub fn open(
        alloc: Global,
        config: &'c Config,
        line: &[u8],
        keepers: Vec<K>,
    ) -> Result<Opened<'c, K>, OpenFail<K>>
        requires many { length keepers.items ≡ store_count config.now }
        requires kept { WhereTold K.TELLS (MayOpen config.now line.now (told_in K.state config.now.shards keepers.items)) }
        requires jobs { WhereTold K.TELLS (HaveTheirJobs config.now (told_in K.state config.now.shards keepers.items)) }
        ensures config { IfOk result (λ opened. opened.config.now ≡ config.now) }
        ensures many { IfOk result (λ opened. length opened.keepers.items ≡ store_count config.now) }
        ensures opened { IfOk result (λ opened.
            IsOpenedOver K.TELLS config.now (told_in K.state config.now.shards opened.keepers.items) opened.fleet opened.cuts.items) }
        ensures begun { WhereTold K.TELLS (IfOk result (λ opened. IsOpened config.now line.now (told_in K.state config.now.shards keepers.items)
            (told_in K.state config.now.shards opened.keepers.items))) }
        ensures back { IfErr result (λ fail. length fail.keepers.items ≡ store_count config.now) }
        ensures refused { IfErr result (λ fail. RefusesOver K.TELLS config.now line.now (shown_in K.state config.now.shards 0 keepers.items)
            (λ strays. shown_in K.state config.now.shards strays fail.keepers.items) fail.why) }
        ensures own { IfErr result (λ fail. fail.why ≡ Faulted
            → Rose (total (λ keeper. (K.state keeper).faults) 0 keepers.items) (total (λ keeper. (K.state keeper).faults) 0 fail.keepers.items)) }
    {
        let before = faults_of(&keepers);
        let Tried { opened, keepers } = open_placed::<K, Brand>(alloc, config, line, keepers);
        match opened {
            Ok(OpenedFleet { fleet, cuts }) => Ok(Opened {
                alloc,
                config,
                fleet,
                keepers,
                cuts,
            }),
            Err(why) => Err(OpenFail {
                why: with_cause(why, before, faults_of(&keepers)),
                keepers,
            }),
        }
    }
}

impl<'c, K: Keeper + Drop> Opened<'c, K> {
    /// Puts each node and store behind a lock of its own, with an inbox in which no message waits for each leader and follower, and notes of all logs for
    /// each master's store.
    ///
    /// The one error is out of memory, and then the keepers come back as they were.
    pub fn named<J: Sharing>(self) -> Result<LockedNodes<'c, K, J>, OpenFail<K>>
        requires many { length self.keepers.items ≡ store_count self.config.now }
        requires opened { IsOpenedOver K.TELLS self.config.now (told_in K.state self.config.now.shards self.keepers.items) self.fleet self.cuts.items }
        requires log { J.log ≡ logs_of self.fleet.stores }
        requires making { J.making ≡ making_of self.config.now self.fleet.stores self.cuts.items }
        ensures config { IfOk result (λ nodes. nodes.settings ≡ self.entry.config.now) }
        ensures why { IfErr result (λ fail. fail.why ≡ NoMemory) }
        ensures back { IfErr result (λ fail. fail.keepers.items ≡ self.entry.keepers.items) }
    {
        locks_begin();
        let Opened {
            alloc,
            config,
            fleet,
            keepers,
            cuts,
        } = self;
        masters_are_regions(config);
        match make_parts::<K, J>(alloc, config, fleet) {
            Ok(parts) => {
                let Parts {
                    topology,
                    leaders,
                    followers,
                    stores,
                    noted,
                    shared,
                    room,
                } = parts;
                let stores = lock_stores(stores, keepers, noted, shared);
                Ok(LockedNodes::of(LockedParts {
                    alloc,
                    config,
                    topology,
                    leaders,
                    followers,
                    stores,
                    cuts,
                    room: Mutex::new(room),
                }))
            }
            Err(OutOfMemory) => Err(OpenFail {
                why: OpenRefusal::OutOfMemory,
                keepers,
            }),
        }
    }
}
