//! What a session learns of the reply to a read.
ghost use Rattle.std.specs.Prelude.{◌≡◌, ◌≤◌, ◌<◌, IfSome};
ghost use Rattle.cluster_reads.specs.Reads.{LearnsTold, version_told};
ghost use Rattle.locked_nodes.specs.Passes.{IsPassOf, PassGoesOn, SeesNote};
ghost use Rattle.log_names.specs.Names.{IsOfLog};
ghost use Rattle.session_pass.specs.Passes.{ReachesIn};
ghost use Rattle.tao_base.specs.Keys.{key_shard};

use locked_nodes::{learn, see};
use replies::{CallReply, Reply};
use session_pass::Pass;
use shard_log::Note;
use shared_stores::Sharing;
use tao_base::Key;

/// The version that a reply to a read tells.
pub(crate) fn version_told(reply: &Reply) -> Option<u64>
    ensures { result ≡ version_told reply.now }
{
    match reply {
        Reply::Called(CallReply::Read(read)) => Some(read.version),
        _ => None,
    }
}

/// The session learns the version that it is told of a key, which the key has reached in the note. The pass sees what the note has seen.
pub(crate) fn learn_told<J: Sharing>(pass: &mut Pass, key: &Key, seen: Note, told: Option<u64>)
    requires pass { IsPassOf J.making J.log pass.old }
    requires here { key_shard key.now < J.making.settings.shards }
    requires room { 1 ≤ pass.old.spare }
    requires log { IsOfLog J.log (key_shard key.now) seen }
    requires reached { IfSome told (ReachesIn seen key.now) }
    ensures pass { IsPassOf J.making J.log pass.new }
    ensures on { PassGoesOn pass.old pass.new }
    ensures sees { SeesNote (key_shard key.now) seen pass.new.notes }
    ensures learns { LearnsTold key.now pass.old.floors pass.new.floors told }
{
    match told {
        Some(version) => learn::<J>(pass, key, version, seen),
        None => see::<J>(pass, key.shard(), seen),
    }
}
