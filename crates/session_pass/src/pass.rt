//! `Pass`, what a session carries from call to call.
ghost use Rattle.std.specs.Prelude.{◌≡◌, ◌≤◌, ◌<◌, ◌+◌, IfOk, OnOk, Some, length, slice_get};

use crate::floors::Floors;
use crate::notes;
use shard_log::Note;
use shard_log::growth::notes_are_sound;
use std::alloc::Global;
use std::marker::Model;
use tao_base::{Entry, Key, OutOfMemory};

/// How many keys an entry may teach: twice as many as it has.
const SPARE: usize = 8;

/// How many keys may be learnt after a `reserve`, before the next: those of a write's two entries.
const SPARE_OF_BOTH: usize = 16;

/// The pass of a session: its number, its region and tier by their places, for each key the greatest version that it
/// was told of, its floor, and for each shard a note of what it has seen of the log.
///
/// Where a log is told, each floor is at most its key's version in what the note has seen. No floor ever falls.
///
/// A floor is looked up in constant time, whatever their number. `make`, `reserve` and `note` alone take memory.
#[derive(Drop)]
pub struct Pass {
    pub(crate) session: u32,
    region: u16,
    tier: u16,
    floors: Floors,
    notes: Vec<Note>,
}

impl Model for Pass {
    ghost use Rattle.session_pass.specs.PassView.{pass_seen};
    ghost use Rattle.session_pass.specs.Passes.{IsPass, SeenPass};

    ghost Value = { SeenPass };

    ghost view = { pass_seen };

    ghost invariant = { λ p. IsPass (pass_seen p) };
}

impl Pass {
    ghost use Rattle.graph_model.specs.Log.{entry_at};
    ghost use Rattle.graph_model.specs.Told.{WhereTold};
    ghost use Rattle.tao_base.specs.Keys.{key_shard};
    ghost use Rattle.session_pass.specs.Floors.{FloorsRise, Learns, HasNoFloors, floor_at, with_learnt};
    ghost use Rattle.session_pass.specs.Passes.{HasReached, IsNoteOf, LearnsEntry, MeetsNote, ReachesIn, after_meeting, learnt, new_pass};

    /// The pass of a session of a tier, by its place in its region, which was told of nothing yet. It has a note for
    /// each shard, in their order. Takes the memory of eight keys.
    pub fn make(
        alloc: Global,
        session: u32,
        region: u16,
        tier: u16,
        notes: Vec<Note>,
    ) -> Result<Pass, OutOfMemory>
        ensures made { IfOk result (λ pass. pass ≡ new_pass session region tier notes.items pass.spare) }
        ensures spare { IfOk result (λ pass. 8 ≤ pass.spare) }
    {
        Ok(Pass {
            session,
            region,
            tier,
            floors: Floors::make(alloc, SPARE)?,
            notes,
        })
    }

    /// The session's number.
    pub fn session(&self) -> u32
        ensures { result ≡ self.now.session }
    {
        self.session
    }

    /// The place of the session's region.
    pub fn region(&self) -> u16
        ensures { result ≡ self.now.region }
    {
        self.region
    }

    /// The place of the session's tier in its region.
    pub fn tier(&self) -> u16
        ensures { result ≡ self.now.tier }
    {
        self.tier
    }

    /// The greatest version of a key that the session was told of; 0 where it was told of none. One look-up.
    pub fn floor(&self, key: Key) -> u64
        ensures value { result ≡ floor_at self.now.floors key }
        ensures reached { HasReached self.now.notes key result }
    {
        self.floors.at(&key)
    }

    /// Gives a pass that was told of nothing yet to another session, by its number, of a tier, by its place in its region. What the pass has seen stays. Takes no
    /// memory.
    pub fn name(&mut self, session: u32, region: u16, tier: u16)
        requires untold { HasNoFloors self.old.floors }
        ensures named { self.new ≡ record self.old { session = session; region = region; tier = tier } }
    {
        self.session = session;
        self.region = region;
        self.tier = tier;
    }

    /// Makes room for sixteen keys, those of the two entries of a write. The one error is out of memory, which leaves the pass as it
    /// was.
    pub fn reserve(&mut self) -> Result<(), OutOfMemory>
        ensures same { self.new ≡ record self.old { spare = self.new.spare } }
        ensures ok { OnOk result (16 ≤ self.new.spare) }
        ensures spare { self.old.spare ≤ self.new.spare }
    {
        self.floors.reserve(SPARE_OF_BOTH)
    }

    /// The session was told that a key has a version: its floor there is now the greater of that and what it was. The
    /// pass's note of the key's shard meets the note, in whose view the key has reached the version. Uses up the room
    /// of one key at most. One look-up; takes no memory.
    pub fn learn(&mut self, key: Key, version: u64, note: Note)
        requires spare { 1 ≤ self.old.spare }
        requires shard { IsNoteOf (key_shard key) note self.old.notes }
        requires reached { ReachesIn note key version }
        ensures learnt { self.new ≡ learnt key version note self.new.spare self.old }
        ensures spare { self.old.spare ≤ self.new.spare + 1 }
        ensures floors { Learns key version self.old.floors self.new.floors }
        ensures rise { FloorsRise self.old.floors self.new.floors }
        ensures meets { MeetsNote (key_shard key) note self.old.notes }
    {
        notes::meet(&mut self.notes, key.shard(), note);
        self.floors.learn(&key, version);
    }

    /// The session was told of an entry of a shard's log: its floor at each key that the entry touches there is now the greater of the
    /// touch's version and what it was. The pass's note of the shard meets the note, in whose view the entry stands. Uses up the room
    /// of eight keys at most. A look-up for each touch; takes no memory.
    pub fn learn_entry(&mut self, shard: u16, entry: &Entry, note: Note)
        requires spare { 8 ≤ self.old.spare }
        requires shard { IsNoteOf shard note self.old.notes }
        requires stands { WhereTold note.log.told (entry_at note.entries entry.now.position ≡ Some entry.now) }
        ensures learns { LearnsEntry shard entry.now note self.old self.new }
        ensures spare { self.old.spare ≤ self.new.spare + 8 }
        ensures rise { FloorsRise self.old.floors self.new.floors }
        ensures meets { MeetsNote shard note self.old.notes }
    {
        notes_are_sound(&note);
        notes::meet(&mut self.notes, shard, note);
        let touches = entry.touches.as_slice();
        self.floors
            .learn_touches(shard, &touches[..touches.len().min(SPARE)]);
    }

    /// The pass's note of a shard meets the note. Takes no memory.
    pub fn see(&mut self, shard: u16, note: Note)
        requires { IsNoteOf shard note self.old.notes }
        ensures seen { self.new ≡ record self.old { notes = after_meeting shard note self.old.notes } }
        ensures meets { MeetsNote shard note self.old.notes }
    {
        notes::meet(&mut self.notes, shard, note);
    }

    /// A second note of what the pass has seen of a shard's log. The one error is out of memory.
    pub fn note(&mut self, shard: u16) -> Result<Note, OutOfMemory>
        requires { shard < length self.old.notes }
        ensures same { self.new ≡ self.old }
        ensures view { IfOk result (λ note. slice_get self.old.notes shard ≡ Some note) }
    {
        notes::split(&mut self.notes, shard)
    }
}
