//! Laws of sound logs.
ghost use Rattle.graph_model.specs.SoundLaws.{SoundGrows, SoundOfGrows, SoundTouchesTell, StampsRise, StampsStay};

use tao_base::Entry;

/// A sound log grows by entries that can follow it.
#[tactic(auto, using(crate::proofs::Sound::sound_grows))]
pub fn sound_logs_grow(_log: &[Entry], _entry: &Entry)
    ensures { SoundGrows _log.now _entry.now }
{}

/// A sound log of a shard grows by entries that can follow it and keep both ends of their edges.
#[tactic(auto, using(crate::proofs::Sound::sound_of_grows))]
pub fn sound_logs_of_a_shard_grow(_shard: u16, _log: &[Entry], _entry: &Entry)
    ensures { SoundOfGrows _shard _log.now _entry.now }
{}

/// What a touch says of its key's version and of the time before is so.
#[tactic(auto, using(crate::proofs::Rising::touches_tell))]
pub fn sound_touches_tell(_log: &[Entry])
    ensures { SoundTouchesTell _log.now }
{}

/// The stamps of an edge rise from touch to touch.
#[tactic(auto, using(crate::proofs::Rising::stamps_rise))]
pub fn stamps_rise(_log: &[Entry])
    ensures { StampsRise _log.now }
{}

/// A stamp that a log has reached is never lost.
#[tactic(auto, using(crate::proofs::Rising::stamps_stay))]
pub fn stamps_stay(_log: &[Entry])
    ensures { StampsStay _log.now }
{}
