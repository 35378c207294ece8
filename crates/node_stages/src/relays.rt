//! The stage of a write at a leader that it passed on the way to the master's.
ghost use Rattle.std.specs.Bool.{OnTrue};
ghost use Rattle.std.specs.Prelude.{◌≡◌, None, Some, if◌then◌else◌};
ghost use Rattle.node_stages.specs.Relays.{RelaysTo};
ghost use Rattle.node_stages.specs.Stages.{LeaderDoes};
ghost use Rattle.served_shards.specs.Served.{log_at};
ghost use Rattle.shard_tables.specs.Written.{LiesOn, StandsIn};
ghost use Rattle.tao_schema.specs.Schema.{types_of};

use core_model::leader_tier::{Leader, leaders_are_true};
use shard_log::Note;
use tao_base::Entry;
use tao_schema::Schema;

/// The stage `relay`: the leader takes the changes of the entry where it serves the shard, and marks nothing. One that stands in for another stays as
/// it is.
pub fn relay_of(
    leader: &mut Leader,
    serves: bool,
    schema: &Schema,
    shard: u16,
    entry: &Entry,
    note: Note,
)
    requires log { OnTrue serves (log_at shard leader.old.served ≡ Some note.log) }
    requires stands { StandsIn note entry.now }
    requires here { LiesOn note shard entry.now }
    ensures { LeaderDoes (RelaysTo (types_of schema.now) shard (if serves then Some entry.now else None) note) leader.old leader.new }
{
    leaders_are_true(leader);
    if serves {
        leader.apply_entry(schema, shard, entry, note);
    }
    leaders_are_true(leader);
}
