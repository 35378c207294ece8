//! The stage `relay` of a write.
ghost use Rattle.std.specs.Bool.{OnTrue};
ghost use Rattle.std.specs.Prelude.{◌≡◌, ◌<◌, Contains, Some};
ghost use Rattle.core_model.specs.Consistent.{GoesOn, HaveReached, IsFleetOf};
ghost use Rattle.core_model.specs.Fleet.{ChangesNode, HasNode, leader_names, serves};
ghost use Rattle.core_model.specs.Pens.{pens_of};
ghost use Rattle.core_model.specs.Writes.{IsSeenEntry};
ghost use Rattle.core_nodes.specs.Stages.{NodeIs, taken_by};
ghost use Rattle.node_stages.specs.Relays.{RelaysTo};
ghost use Rattle.node_stages.specs.Stages.{LeaderDoes};
ghost use Rattle.served_shards.specs.Served.{log_at};
ghost use Rattle.shard_tables.specs.Written.{LiesOn, StandsIn};
ghost use Rattle.tao_keeper.specs.Table.{Tables};
ghost use Rattle.tao_schema.specs.Schema.{types_of};

use crate::fleet::Fleet;
use core_model::leader_tier::Leader;
use core_model::{Named, named_place, serves_in_turn};
use node_name::NodeName;
use node_stages::relay_of;
use shard_log::Note;
use tao_base::Entry;
use topology::Config;

/// Lets the leader of that name take the entry, where it serves the shard.
fn relay_at(
    leaders: &mut [Named<Leader>],
    config: &Config,
    name: NodeName,
    shard: u16,
    entry: &Entry,
    note: Note,
)
    requires there { HasNode name leaders.old }
    requires log { OnTrue (serves config.now name shard) (NodeIs name (λ node. log_at shard node.served ≡ Some note.log) leaders.old) }
    requires stands { StandsIn note entry.now }
    requires here { LiesOn note shard entry.now }
    ensures { ChangesNode name (LeaderDoes (RelaysTo (types_of config.now.schema) shard
        (taken_by (serves config.now name shard) (Some entry.now)) note)) leaders.old leaders.new }
{
    let serves = serves_in_turn(config, name, shard);
    let place = named_place(leaders, name);
    relay_of(
        &mut leaders[place].node,
        serves,
        &config.schema,
        shard,
        entry,
        note,
    );
}

impl Fleet {
    /// The stage `relay`, once it was carried to a leader that the write passed on the way to the master's: where it serves the shard its items take
    /// the changes of the entry, and nothing is marked, so that the entry is processed when its stream comes. One that stands in for another stays as
    /// it is.
    pub fn relay(
        &mut self,
        config: &Config,
        leader: NodeName,
        shard: u16,
        entry: &Entry,
        note: Note,
    )
        requires fleet { IsFleetOf config.now self.old }
        requires leader { Contains (leader_names config.now) leader }
        requires shard { shard < config.now.shards }
        requires seen { IsSeenEntry (pens_of self.old.stores) shard note entry.now }
        requires here { LiesOn note shard entry.now }
        ensures relays { ChangesNode leader (RelaysTo (types_of config.now.schema) shard
            (taken_by (serves config.now leader shard) (Some entry.now)) note) self.old.leaders self.new.leaders }
        ensures rest { self.new ≡ record self.old { leaders = self.new.leaders } }
        ensures fleet { IsFleetOf config.now self.new }
        ensures reached { (tables : Tables) → HaveReached tables self.old → HaveReached tables self.new }
        ensures goes { GoesOn self.old self.new }
    {
        relay_at(&mut self.leaders, config, leader, shard, entry, note);
    }
}
