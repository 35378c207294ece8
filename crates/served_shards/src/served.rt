//! What a node keeps of the shards that it serves: how far it has processed the log of each, and
//! what it has seen of it.
use crate::shards;
use crate::shards::Shard;
use shard_log::Note;
use std::alloc::Global;
use std::marker::Model;
use tao_base::OutOfMemory;

/// The shards that a node serves, in the order in which they were named. Contracts see of each its
/// number, its marks and what was seen of its log.
#[derive(Drop)]
pub struct ServedShards {
    shards: Vec<Shard>,
}

impl Model for ServedShards {
    ghost use Rattle.std.specs.Prelude.{List, map};
    ghost use Rattle.served_shards.specs.Served.{ServedShard};
    ghost use Rattle.served_shards.specs.Fields.{served_of};

    ghost Value = { List ServedShard };

    ghost view = { λ s. map served_of s.shards.items };
}

impl ServedShards {
    ghost use Rattle.std.specs.Prelude.{◌≡◌, length, IfOk, IfSome, IsSome, Some, is_some};
    ghost use Rattle.served_shards.specs.Begun.{AreNotesOf, AreReached, begun_at, restarted};
    ghost use Rattle.served_shards.specs.Meetings.{AreSeenSound, MeetEach, MeetsAt};
    ghost use Rattle.served_shards.specs.Served.{
      IsLowWater,
      changed_at,
      forgetting,
      log_at,
      low_at,
      marking,
      seeing,
      served_at,
      top_at,
      view_at,
    };

    /// The shards with everything up to these positions processed, and with these notes.
    ///
    /// Takes the memory of a window of marks for each shard. The one error is out of memory.
    pub fn begin(
        alloc: Global,
        served: &[u16],
        lows: &[u64],
        notes: Vec<Note>,
    ) -> Result<ServedShards, OutOfMemory>
        requires each { length served.now ≡ length lows.now }
        requires reached { AreReached lows.now notes.items }
        ensures begun { IfOk result (λ shards. shards ≡ begun_at served.now lows.now notes.items) }
        ensures sound { IfOk result (λ shards. AreSeenSound shards) }
    {
        let shards = shards::begin(alloc, served, lows, notes)?;
        Ok(ServedShards { shards })
    }

    /// Begins each shard anew at a position, and meets its note. Takes no memory.
    pub fn restart(&mut self, lows: &[u64], notes: Vec<Note>)
        requires logs { AreNotesOf self.old notes.items }
        requires reached { AreReached lows.now notes.items }
        ensures served { self.new ≡ restarted self.old lows.now notes.items }
        ensures meets { MeetEach self.old notes.items }
    {
        shards::restart(self.shards.as_mut_slice(), lows, notes);
    }

    /// The low-water mark of the shard, 0 where it isn't served.
    pub fn low(&self, shard: u16) -> u64
        ensures value { result ≡ low_at shard self.now }
        ensures marks { IfSome (served_at shard self.now) (λ s. IsLowWater s.marks) }
    {
        shards::low(self.shards.as_slice(), shard)
    }

    /// The greatest marked position of the shard, 0 where it isn't served.
    pub fn top(&self, shard: u16) -> u64
        ensures { result ≡ top_at shard self.now }
    {
        shards::top(self.shards.as_slice(), shard)
    }

    /// Whether the shard is served.
    pub fn serves(&self, shard: u16) -> bool
        ensures { result ≡ is_some (served_at shard self.now) }
    {
        shards::serves(self.shards.as_slice(), shard)
    }

    /// Marks a position of the shard, where it is served. Takes no memory.
    pub fn mark(&mut self, shard: u16, position: u64)
        ensures { self.new ≡ changed_at shard (marking position) self.old }
    {
        shards::mark(self.shards.as_mut_slice(), shard, position);
    }

    /// Forgets what is marked ahead in the shard, where it is served. Takes no memory.
    pub fn forget_ahead(&mut self, shard: u16)
        ensures { self.new ≡ changed_at shard forgetting self.old }
    {
        shards::forget_ahead(self.shards.as_mut_slice(), shard);
    }

    /// Meets a note of the shard's log, where the shard is served. Takes no memory.
    pub fn meet(&mut self, shard: u16, note: Note)
        requires { IfSome (log_at shard self.old) (λ log. log ≡ note.log) }
        ensures met { self.new ≡ changed_at shard (seeing note) self.old }
        ensures meets { MeetsAt shard note self.old }
    {
        shards::meet(self.shards.as_mut_slice(), shard, note);
    }

    /// A second note of the log of a served shard. The one error is out of memory.
    pub fn split(&mut self, shard: u16) -> Result<Note, OutOfMemory>
        requires { IsSome (served_at shard self.old) }
        ensures same { self.new ≡ self.old }
        ensures view { IfOk result (λ note. view_at shard self.old ≡ Some note) }
    {
        shards::split(self.shards.as_mut_slice(), shard)
    }
}
