//! The shards that a node serves, each with its marks and a note of its log.
ghost use Rattle.std.specs.Prelude.{◌≡◌, [], length, IfOk, IfSome, IsSome, MatchOption, Some, is_some, map, position};
ghost use Rattle.shard_log.specs.graph_model.Soundness.{IsSound};
ghost use Rattle.shard_log.specs.graph_model.Told.{WhereTold};
ghost use Rattle.low_water.specs.Marks.{marks};
ghost use Rattle.served_shards.specs.Served.{IsLowWater, changed_at, forgetting, log_at, low_at, marking, seeing, restarting, served_at, top_at, view_at};
ghost use Rattle.served_shards.specs.Begun.{AreNotesOf, AreReached, begun_at, restarted};
ghost use Rattle.served_shards.specs.Fields.{is_of_shard, served_of};
ghost use Rattle.served_shards.specs.Meetings.{AreSeenSound, MeetEach, Meets, MeetsAt};

use low_water::LowWater;
use shard_log::Note;
use shard_log::growth::notes_are_sound;
use std::alloc::Global;
use tao_base::OutOfMemory;

/// A served shard: what was processed of its log, and a note of it.
#[derive(Drop)]
pub struct Shard {
    pub number: u16,
    pub water: LowWater,
    pub note: Note,
}

/// The shards with everything up to these positions processed, and with these notes.
pub fn begin(
    alloc: Global,
    served: &[u16],
    lows: &[u64],
    mut notes: Vec<Note>,
) -> Result<Vec<Shard>, OutOfMemory>
    requires each { length served.now ≡ length lows.now }
    requires reached { AreReached lows.now notes.items }
    ensures begun { IfOk result (λ shards. map served_of shards.items ≡ begun_at served.now lows.now notes.items) }
    ensures sound { IfOk result (λ shards. AreSeenSound (map served_of shards.items)) }
{
    let mut shards = Vec::with_capacity(alloc, served.len())?;
    for place in 0..served.len() {
        let shard = begin_one(alloc, served[place], lows[place], notes.remove(0))?;
        shards.push(shard)?;
    }
    Ok(shards)
}

fn begin_one(alloc: Global, number: u16, low: u64, note: Note) -> Result<Shard, OutOfMemory>
    ensures begun { IfOk result (λ shard. served_of shard ≡ record { shard = number; marks = marks low []; view = note }) }
    ensures sound { WhereTold note.log.told (IsSound note.entries) }
{
    notes_are_sound(&note);
    Ok(Shard {
        number,
        water: LowWater::make(alloc, low)?,
        note,
    })
}

/// Begins each shard anew at a position, and meets its note.
pub fn restart(shards: &mut [Shard], lows: &[u64], mut notes: Vec<Note>)
    requires logs { AreNotesOf (map served_of shards.old) notes.items }
    requires reached { AreReached lows.now notes.items }
    ensures served { map served_of shards.new ≡ restarted (map served_of shards.old) lows.now notes.items }
    ensures meets { MeetEach (map served_of shards.old) notes.items }
{
    for place in 0..shards.len() {
        restart_one(&mut shards[place], lows[place], notes.remove(0));
    }
}

fn restart_one(shard: &mut Shard, low: u64, note: Note)
    requires { shard.old.note.log ≡ note.log }
    ensures served { served_of shard.new ≡ restarting low note (served_of shard.old) }
    ensures meets { Meets (served_of shard.old) note }
{
    shard.water.restart(low);
    shard.note.meet(note);
    notes_are_sound(&shard.note);
}

pub fn low(shards: &[Shard], shard: u16) -> u64
    ensures value { result ≡ low_at shard (map served_of shards.now) }
    ensures marks { IfSome (served_at shard (map served_of shards.now)) (λ s. IsLowWater s.marks) }
{
    match place_of(shards, shard) {
        Some(place) => shards[place].water.low(),
        None => 0,
    }
}

pub fn top(shards: &[Shard], shard: u16) -> u64
    ensures { result ≡ top_at shard (map served_of shards.now) }
{
    match place_of(shards, shard) {
        Some(place) => shards[place].water.top(),
        None => 0,
    }
}

/// Whether the shard is served.
pub fn serves(shards: &[Shard], shard: u16) -> bool
    ensures { result ≡ is_some (served_at shard (map served_of shards.now)) }
{
    place_of(shards, shard).is_some()
}

/// Marks a position of the shard.
pub fn mark(shards: &mut [Shard], shard: u16, position: u64)
    ensures { map served_of shards.new ≡ changed_at shard (marking position) (map served_of shards.old) }
{
    if let Some(place) = place_of(shards, shard) {
        let found = &mut shards[place];
        found.water.mark(position);
    }
}

/// Forgets what is marked ahead in the shard.
pub fn forget_ahead(shards: &mut [Shard], shard: u16)
    ensures { map served_of shards.new ≡ changed_at shard forgetting (map served_of shards.old) }
{
    if let Some(place) = place_of(shards, shard) {
        let found = &mut shards[place];
        found.water.forget_ahead();
    }
}

/// Meets a note of the shard's log, where the shard is served.
pub fn meet(shards: &mut [Shard], shard: u16, note: Note)
    requires { IfSome (log_at shard (map served_of shards.old)) (λ log. log ≡ note.log) }
    ensures met { map served_of shards.new ≡ changed_at shard (seeing note) (map served_of shards.old) }
    ensures meets { MeetsAt shard note (map served_of shards.old) }
{
    if let Some(place) = place_of(shards, shard) {
        let found = &mut shards[place];
        found.note.meet(note);
        notes_are_sound(&found.note);
    }
}

/// A second note of the shard's log.
pub fn split(shards: &mut [Shard], shard: u16) -> Result<Note, OutOfMemory>
    requires { IsSome (served_at shard (map served_of shards.old)) }
    ensures same { map served_of shards.new ≡ map served_of shards.old }
    ensures view { IfOk result (λ note. view_at shard (map served_of shards.old) ≡ Some note) }
{
    match place_of(shards, shard) {
        Some(place) => {
            let found = &mut shards[place];
            found.note.split()
        }
        None => unreachable!(),
    }
}

fn place_of(shards: &[Shard], shard: u16) -> Option<usize>
    ensures { result ≡ position (is_of_shard shard) shards.now }
{
    shards.iter().position(|s| s.number == shard)
}
