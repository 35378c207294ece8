//! The passes of sessions, between calls.
ghost use Rattle.std.specs.Prelude.{◌≡◌, ◌<◌, ◌≤◌, IfOk, OnOk, Some, slice_get};
ghost use Rattle.locked_nodes.specs.Passes.{IsPassOf, PassGoesOn, SeesNote};
ghost use Rattle.log_names.specs.Names.{IsOfLog};
ghost use Rattle.session_pass.specs.Floors.{Learns};
ghost use Rattle.session_pass.specs.Passes.{ReachesIn};
ghost use Rattle.tao_base.specs.Keys.{key_shard};

use session_pass::Pass;
use shard_log::Note;
use shared_nodes::shared_stores::Sharing;
use tao_base::{Key, OutOfMemory};

/// Makes room for all that a call may teach, and gives a note of what the pass has seen of a shard's log. Where there is no memory, the session has learnt
/// and seen nothing.
pub fn prepare<J: Sharing>(pass: &mut Pass, shard: u16) -> Result<Note, OutOfMemory>
    requires pass { IsPassOf J.making J.log pass.old }
    requires here { shard < J.making.settings.shards }
    ensures same { pass.new ≡ record pass.old { spare = pass.new.spare } }
    ensures room { OnOk result (16 ≤ pass.new.spare) }
    ensures note { IfOk result (λ note. slice_get pass.old.notes shard ≡ Some note) }
{
    pass.reserve()?;
    pass.note(shard)
}

/// The pass sees what a note of a shard's log has seen.
pub fn see<J: Sharing>(pass: &mut Pass, shard: u16, note: Note)
    requires pass { IsPassOf J.making J.log pass.old }
    requires here { shard < J.making.settings.shards }
    requires log { IsOfLog J.log shard note }
    ensures pass { IsPassOf J.making J.log pass.new }
    ensures on { PassGoesOn pass.old pass.new }
    ensures sees { SeesNote shard note pass.new.notes }
    ensures floors { pass.new.floors ≡ pass.old.floors }
{
    pass.see(shard, note);
}

/// The session learns a version of a key, which the key has reached in the note. The pass sees what the note has seen.
pub fn learn<J: Sharing>(pass: &mut Pass, key: &Key, version: u64, note: Note)
    requires pass { IsPassOf J.making J.log pass.old }
    requires here { key_shard key.now < J.making.settings.shards }
    requires room { 1 ≤ pass.old.spare }
    requires log { IsOfLog J.log (key_shard key.now) note }
    requires reached { ReachesIn note key.now version }
    ensures pass { IsPassOf J.making J.log pass.new }
    ensures on { PassGoesOn pass.old pass.new }
    ensures sees { SeesNote (key_shard key.now) note pass.new.notes }
    ensures learns { Learns key.now version pass.old.floors pass.new.floors }
{
    pass.learn(*key, version, note);
}
