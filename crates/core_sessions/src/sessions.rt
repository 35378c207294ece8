//! The open sessions: where a call of one begins, which version its reads have at least, and what it learns.
ghost use Rattle.std.specs.Prelude.{◌≡◌, ◌≤◌, OnErr, OnOk, false, length, nat_lt, true};
ghost use Rattle.std.specs.List.{insert};
ghost use Rattle.std.specs.List.Sorted.{IsPartitionPoint};
ghost use Rattle.core_sessions.specs.Sessions.{HaveRisingNumbers, opening_of, session_of};

use session_pass::Pass;
use shard_log::Note;
use std::alloc::Global;
use std::marker::Model;
use tao_base::{Entry, Key, OutOfMemory};

/// A session, and its place: its region's in the configuration, and its tier's in that region.
#[derive(Clone, Copy, PartialEq, Eq)]
pub struct OpenSession {
    pub session: u32,
    pub region: u16,
    pub tier: u16,
}

/// Where a call of a session begins: at the session's place, and the version that its reads of a key have at least.
#[derive(Clone, Copy, PartialEq, Eq)]
pub struct CallStart {
    pub place: OpenSession,
    pub floor: u64,
}

/// The passes of the open sessions, in the order of their numbers.
#[derive(Drop)]
pub struct Sessions {
    passes: Vec<Pass>,
}

impl Model for Sessions {
    ghost use Rattle.std.specs.Prelude.{List};
    ghost use Rattle.core_sessions.specs.Sessions.{HaveRisingNumbers};
    ghost use Rattle.session_pass.specs.Passes.{SeenPass};

    ghost Value = { List SeenPass };

    ghost view = { λ s. s.passes.items };

    ghost invariant = { λ s. HaveRisingNumbers s.passes.items };
}

impl Sessions {
    ghost use Rattle.std.specs.Option.{option_map};
    ghost use Rattle.std.specs.Prelude.{◌≡◌, ◌<◌, [], length, true, false, IfOk, IfSome, IsSomeAnd, OnOk, OnErr, Some, slice_get};
    ghost use Rattle.core_sessions.specs.Sessions.{HasRoom, HasRoomForBoth, SessionLearns, is_open, new_session, opening_of, session_at, sessions_of};
    ghost use Rattle.core_sessions.specs.Sessions.{SessionLearnsVersion, start_of, with_session};
    ghost use Rattle.graph_model.specs.Log.{entry_at};
    ghost use Rattle.graph_model.specs.Told.{WhereTold};
    ghost use Rattle.session_pass.specs.Floors.{floor_at};
    ghost use Rattle.session_pass.specs.Passes.{IsNoteOf, ReachesIn};
    ghost use Rattle.tao_base.specs.Keys.{key_shard};

    /// No open session. Takes no memory.
    pub fn new(alloc: Global) -> Sessions
        ensures { sessions_of result ≡ [] }
    {
        Sessions {
            passes: Vec::new(alloc),
        }
    }

    /// How many sessions are open.
    pub fn len(&self) -> usize
        ensures { result ≡ length (sessions_of self.now) }
    {
        self.passes.len()
    }

    /// Whether the session is open, by a binary search.
    pub fn is_open(&self, session: u32) -> bool
        ensures { result ≡ is_open (sessions_of self.now) session }
    {
        let place = place_of(&self.passes, session);
        match self.passes.get(place) {
            Some(found) => found.session() == session,
            None => false,
        }
    }

    /// Where the session stands among those that are open, by a binary search. Other calls take this seat, at which they look for the session
    /// before they search.
    pub fn seat(&self, session: u32) -> usize
        ensures { IfSome (session_at (sessions_of self.now) session) (λ s. slice_get (sessions_of self.now) result ≡ Some s) }
    {
        place_of(&self.passes, session)
    }

    /// The place of the session of that number, which is open. A binary search only where it isn't at the seat.
    pub fn at(&self, session: u32, seat: usize) -> OpenSession
        requires { is_open (sessions_of self.now) session ≡ true }
        ensures { IsSomeAnd (session_at (sessions_of self.now) session) (λ s. result ≡ opening_of s) }
    {
        let pass = &self.passes[place_near(&self.passes, session, seat)];
        opening_of(pass)
    }

    /// Where the session's read of the key begins: its place, and the version that its reads of the key have at least, 0 where it was told
    /// of none. None exactly where the session isn't open. A look-up, and a binary search only where the session isn't at the seat.
    pub fn start(&self, session: u32, seat: usize, key: Key) -> Option<CallStart>
        ensures { result ≡ option_map (start_of key) (session_at (sessions_of self.now) session) }
    {
        let place = place_near(&self.passes, session, seat);
        match self.passes.get(place) {
            Some(found) if found.session() == session => Some(CallStart {
                place: opening_of(found),
                floor: found.floor(key),
            }),
            _ => None,
        }
    }

    /// The version that the session's reads of the key have at least; 0 where it was told of none. None exactly where the session isn't
    /// open. A binary search, and a look-up.
    pub fn floor(&self, session: u32, key: Key) -> Option<u64>
        ensures { result ≡ option_map (λ s. floor_at s.floors key) (session_at (sessions_of self.now) session) }
    {
        let seat = self.seat(session);
        match self.start(session, seat, key) {
            Some(start) => Some(start.floor),
            None => None,
        }
    }

    /// Opens a session, with a note of each shard's log. Moves those of greater numbers by one place. The one error is out of memory,
    /// which leaves all as they were.
    pub fn add(
        &mut self,
        alloc: Global,
        new: OpenSession,
        notes: Vec<Note>,
    ) -> Result<(), OutOfMemory>
        requires { is_open (sessions_of self.old) new.session ≡ false }
        ensures ok { OnOk result (sessions_of self.new ≡ with_session (new_session new notes.items) (sessions_of self.old)) }
        ensures err { OnErr result (sessions_of self.new ≡ sessions_of self.old) }
    {
        let OpenSession {
            session,
            region,
            tier,
        } = new;
        let pass = Pass::make(alloc, session, region, tier, notes)?;
        let place = place_of(&self.passes, session);
        insert(&mut self.passes, place, pass)?;
        Ok(())
    }

    /// Makes room in the session's pass for the keys of the two entries of a write. The one error is out of memory. No floor changes. A binary
    /// search only where the session isn't at the seat.
    pub fn reserve(&mut self, session: u32, seat: usize) -> Result<(), OutOfMemory>
        requires open { is_open (sessions_of self.old) session ≡ true }
        ensures same { sessions_of self.new ≡ sessions_of self.old }
        ensures room { OnOk result (HasRoomForBoth session self.new) }
    {
        let place = place_near(&self.passes, session, seat);
        self.passes[place].reserve()
    }

    /// A second note of what the session has seen of a shard's log. The one error is out of memory.
    pub fn note(&mut self, session: u32, shard: u16) -> Result<Note, OutOfMemory>
        requires open { is_open (sessions_of self.old) session ≡ true }
        requires shard { IfSome (session_at (sessions_of self.old) session) (λ s. shard < length s.notes) }
        ensures same { self.new ≡ self.old }
        ensures note { IfOk result (λ note. IfSome (session_at (sessions_of self.old) session) (λ s. slice_get s.notes shard ≡ Some note)) }
    {
        let place = place_of(&self.passes, session);
        self.passes[place].note(shard)
    }

    /// The session learns an entry of a shard's log, which the note has seen: its floor at each key that the entry touches there is now
    /// the greater of the touch's version and what it was. Takes no memory.
    pub fn learn(&mut self, session: u32, shard: u16, entry: &Entry, note: Note)
        requires open { is_open (sessions_of self.old) session ≡ true }
        requires room { HasRoom session self.old }
        requires shard { IfSome (session_at (sessions_of self.old) session) (λ s. IsNoteOf shard note s.notes) }
        requires stands { WhereTold note.log.told (entry_at note.entries entry.now.position ≡ Some entry.now) }
        ensures learns { SessionLearns session shard entry.now note (sessions_of self.old) (sessions_of self.new) }
        ensures more { HasRoomForBoth session self.old → HasRoom session self.new }
    {
        let place = place_of(&self.passes, session);
        self.passes[place].learn_entry(shard, entry, note);
    }

    /// The session learns a version of a key, to which the key has come in what the note has seen: its floor there is now the greater of that
    /// and what it was. Takes no memory. A binary search only where the session isn't at the seat.
    pub fn learn_version(&mut self, session: u32, seat: usize, key: Key, version: u64, note: Note)
        requires open { is_open (sessions_of self.old) session ≡ true }
        requires room { HasRoom session self.old }
        requires shard { IfSome (session_at (sessions_of self.old) session) (λ s. IsNoteOf (key_shard key) note s.notes) }
        requires reached { ReachesIn note key version }
        ensures learns { SessionLearnsVersion session key version note (sessions_of self.old) (sessions_of self.new) }
    {
        let place = place_near(&self.passes, session, seat);
        self.passes[place].learn(key, version, note);
    }
}

/// The number of the session of a pass, and its place.
fn opening_of(pass: &Pass) -> OpenSession
    ensures { result ≡ opening_of (session_of pass.now) }
{
    OpenSession {
        session: pass.session(),
        region: pass.region(),
        tier: pass.tier(),
    }
}

/// How many sessions have lower numbers: these stand first.
fn place_of(passes: &[Pass], session: u32) -> usize
    requires { HaveRisingNumbers passes.now }
    ensures within { result ≤ length passes.now }
    ensures place { IsPartitionPoint (λ p. nat_lt p.session session ≡ true) (λ p. nat_lt p.session session ≡ false) passes.now result }
{
    passes.partition_point(|open| open.session() < session)
}

/// The same, without a search where the session stands at the seat.
fn place_near(passes: &[Pass], session: u32, seat: usize) -> usize
    requires { HaveRisingNumbers passes.now }
    ensures within { result ≤ length passes.now }
    ensures place { IsPartitionPoint (λ p. nat_lt p.session session ≡ true) (λ p. nat_lt p.session session ≡ false) passes.now result }
{
    match passes.get(seat) {
        Some(found) if found.session() == session => seat,
        _ => place_of(passes, session),
    }
}

/// Puts a pass in before the one at the place, and so before all behind it.
fn insert(passes: &mut Vec<Pass>, place: usize, pass: Pass) -> Result<(), OutOfMemory>
    requires { place ≤ length passes.old.items }
    ensures ok { OnOk result (passes.new.items ≡ insert passes.old.items place pass) }
    ensures err { OnErr result (passes.new.items ≡ passes.old.items) }
{
    match passes.insert(place, pass) {
        Ok(()) => Ok(()),
        Err(_) => Err(OutOfMemory),
    }
}
