//! `Closed`, a cluster that was closed.
ghost use Rattle.std.specs.Prelude.{◌≡◌, ◌<◌, OnOk};
ghost use Rattle.core_model.specs.Stores.{master_log};
ghost use Rattle.core_nodes.specs.Shown.{IsMarkAt};
ghost use Rattle.graph_model.specs.Told.{WhereTold};
ghost use Rattle.keepers.specs.Shown.{told_in, total};
ghost use Rattle.log_names.specs.Names.{IsOfLog};
ghost use Rattle.shard_log.specs.View.{Grows};
ghost use Rattle.topology.specs.States.{all_up};
ghost use Rattle.unlocked_nodes.specs.Looking.{AreOfLog, MeetsMaster};
ghost use Rattle.unlocked_nodes.specs.Unlocked.{MaySettle};

use cluster_opening::faults_of;
use core_model::masters_are_regions;
use core_nodes::Fleet;
use node_name::NodeName;
use shard_log::Note;
use shared_stores::Sharing;
use std::alloc::Global;
use std::marker::PhantomData;
use std::mem;
use tao_base::OutOfMemory;
use tao_keeper::Keeper;
use topology::{Config, Topology};
use unlocked_nodes::{Unlocked, meet_master, no_nodes};

/// A cluster that was closed: nobody else calls it any more. Its nodes, stores and keepers are out of their locks, and its messages are gone.
#[derive(Drop)]
pub struct Closed<'c, K, J: Sharing> {
    pub(crate) alloc: Global,
    pub(crate) config: &'c Config,
    pub(crate) topology: Topology,
    pub unlocked: Unlocked,
    /// One a store, in order of region, then of shard.
    pub keepers: Vec<K>,
    of: PhantomData<J>,
    ghost made: { config.now ≡ J.making.settings },
    ghost up: { topology ≡ all_up J.making.settings },
}

/// The note sees all that a shard's master store has.
fn meet_fleet(
    alloc: Global,
    config: &Config,
    fleet: &mut Fleet,
    shard: u16,
    note: &mut Note,
) -> Result<(), OutOfMemory>
    requires here { shard < config.now.shards }
    requires one_log { AreOfLog config.now shard fleet.old.stores note.old.log }
    ensures met { OnOk result (MeetsMaster config.now shard fleet.old.stores note.old note.new) }
    ensures grows { Grows note.old note.new }
    ensures same { fleet.new ≡ fleet.old }
{
    let mut parts = mem::replace(fleet, no_nodes(alloc)).into_parts();
    let met = meet_master(config, &mut parts.stores, shard, note);
    drop(mem::replace(fleet, Fleet::of_parts(parts)));
    met
}

impl<'c, K: Keeper, J: Sharing> Closed<'c, K, J> {
    /// A closed cluster of these. Takes no memory.
    pub(crate) fn of(
        alloc: Global,
        config: &'c Config,
        topology: Topology,
        unlocked: Unlocked,
        keepers: Vec<K>,
    ) -> Closed<'c, K, J>
        requires made { config.now ≡ J.making.settings }
        requires up { topology ≡ all_up J.making.settings }
        ensures unlocked { result.unlocked ≡ unlocked }
        ensures keepers { result.keepers ≡ keepers }
    {
        Closed {
            alloc,
            config,
            topology,
            unlocked,
            keepers,
            of: PhantomData,
        }
    }

    /// The note sees the whole log of a shard, as the keeper of its master's store has it: what the note had seen begins that. Where there is no memory
    /// the note is as it was, or has seen more of the log.
    pub fn meet(&mut self, shard: u16, note: &mut Note) -> Result<(), OutOfMemory>
        requires ready { MaySettle K.TELLS J.making J.log (told_in K.state J.making.settings.shards self.old.keepers.items) self.old.unlocked }
        requires here { shard < J.making.settings.shards }
        requires log { IsOfLog J.log shard note.old }
        ensures grows { Grows note.old note.new }
        ensures sees { WhereTold K.TELLS (OnOk result
            (note.new.entries ≡ master_log J.making.settings (told_in K.state J.making.settings.shards self.old.keepers.items) shard)) }
        ensures unlocked { self.new.unlocked ≡ self.old.unlocked }
        ensures keepers { self.new.keepers ≡ self.old.keepers }
    {
        masters_are_regions(self.config);
        meet_fleet(
            self.alloc,
            self.config,
            &mut self.unlocked.fleet,
            shard,
            note,
        )
    }

    /// The low-water mark of a leader or follower for a shard: every position up to it was processed; 0 where the node doesn't serve the shard. None
    /// exactly where the name is none of theirs. Takes no memory.
    pub fn mark(&self, node: NodeName, shard: u16) -> Option<u64>
        ensures { IsMarkAt self.now.unlocked.fleet node shard result }
    {
        self.unlocked.fleet.mark(node, shard)
    }

    /// How often the keepers failed, added up; as any count the sum stands still at the last value.
    pub fn faults(&self) -> u64
        ensures { result ≡ total (λ keeper. (K.state keeper).faults) 0 self.now.keepers.items }
    {
        faults_of(&self.keepers)
    }

    /// The keepers, in order of region, then of shard. Takes no memory.
    pub fn keepers(self) -> Vec<K>
        ensures { result.items ≡ self.entry.keepers.items }
    {
        self.keepers
    }
}
