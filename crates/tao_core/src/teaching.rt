//! What a session learns, by notes of the shards' logs: of a write what it wrote, and of a read which version that answers.
ghost use Rattle.std.specs.Prelude.{◌≡◌, ◌<◌, IfOk, IfSome, OnOk, true};
ghost use Rattle.core_model.specs.Pens.{pens_of};
ghost use Rattle.core_model.specs.Stores.{AreStores, store_count};
ghost use Rattle.core_sessions.specs.Sessions.{HasRoom, HasRoomForBoth, is_open, sessions_of};
ghost use Rattle.session_pass.specs.Passes.{ReachesIn};
ghost use Rattle.shard_log.specs.View.{as_note};
ghost use Rattle.std.specs.Option.{option_map};
ghost use Rattle.tao_base.specs.Keys.{key_shard};
ghost use Rattle.tao_core.specs.Calls.{LearnsBoth, LearnsThrough, LearnsVersion};
ghost use Rattle.tao_core.specs.HeldCalls.{MayHear, MayLearnNow, MayLearnOne};

use core_nodes::Fleet;
use core_plans::LearntEntries;
use core_sessions::Sessions;
use core_steps::LearntEntry;
use shard_log::Note;
use tao_base::{Key, OutOfMemory};
use topology::Config;

/// A session learns that entry of a shard's log, where there is one.
#[tactic(auto, using(crate::proofs::LearningBoth::room_of_both))]
fn learn_through(sessions: &mut Sessions, session: u32, learnt: Option<LearntEntry>)
    requires { IfSome learnt (λ t. MayLearnOne session t sessions.old) }
    ensures learns { LearnsThrough session learnt (sessions_of sessions.old) (sessions_of sessions.new) }
    ensures more { HasRoomForBoth session sessions.old → HasRoom session sessions.new }
{
    match learnt {
        Some(LearntEntry { shard, entry, note }) => sessions.learn(session, shard, &entry, note),
        None => (),
    }
}

/// A session learns both entries of a write: the write's own entry, and then the one at the other end.
pub(crate) fn learn_both(sessions: &mut Sessions, session: u32, learnt: LearntEntries)
    requires { MayLearnNow session learnt sessions.old }
    ensures { LearnsBoth session learnt (sessions_of sessions.old) (sessions_of sessions.new) }
{
    let LearntEntries { here, other } = learnt;
    learn_through(sessions, session, here);
    learn_through(sessions, session, other);
}

/// A session that is to learn which version its read answers, and a note of the shard's log with which it does.
#[derive(Drop)]
pub struct Reader {
    pub session: u32,
    /// Where the session is looked for first.
    pub seat: usize,
    pub note: Note,
}

/// Gets a session ready to learn which version of a key of the shard its read answers: makes room for that, and takes a note of the log. The one
/// error is out of memory.
pub(crate) fn ready_reader(
    sessions: &mut Sessions,
    fleet: &mut Fleet,
    config: &Config,
    session: u32,
    seat: usize,
    shard: u16,
) -> Result<Reader, OutOfMemory>
    requires open { is_open (sessions_of sessions.old) session ≡ true }
    requires stores { AreStores config.now (store_count config.now) fleet.old.stores }
    requires here { shard < config.now.shards }
    ensures reader { IfOk result (λ reader. (reader.session ≡ session) × (reader.note ≡ as_note (pens_of fleet.old.stores shard))) }
    ensures room { OnOk result (HasRoomForBoth session sessions.new) }
    ensures sessions { sessions_of sessions.new ≡ sessions_of sessions.old }
    ensures fleet { fleet.new ≡ fleet.old }
{
    sessions.reserve(session, seat)?;
    let note = fleet.note(config, shard)?;
    Ok(Reader {
        session,
        seat,
        note,
    })
}

/// A session that is ready learns a version of a key, to which the key's log has come. Takes no memory.
pub(crate) fn learn_version(
    sessions: &mut Sessions,
    fleet: &mut Fleet,
    config: &Config,
    reader: Option<Reader>,
    key: Key,
    version: u64,
)
    requires stores { AreStores config.now (store_count config.now) fleet.old.stores }
    requires here { key_shard key < config.now.shards }
    requires may { IfSome reader (λ r. MayHear (pens_of fleet.old.stores) (key_shard key) r sessions.old) }
    requires reached { ReachesIn (as_note (pens_of fleet.old.stores (key_shard key))) key version }
    ensures learns { LearnsVersion (pens_of fleet.old.stores) (option_map (λ r. r.session) reader) key version
        (sessions_of sessions.old) (sessions_of sessions.new) }
    ensures fleet { fleet.new ≡ fleet.old }
{
    match reader {
        Some(
            Reader {
                session,
                seat,
                note,
            },
        ) => {
            let note = fleet.renew(config, key.shard(), note);
            sessions.learn_version(session, seat, key, version, note);
        }
        None => (),
    }
}
