//! What is read from the entries themselves, where there is no index.
ghost use Rattle.std.specs.Prelude.{[], ◌≡◌, ◌<◌, ◌∷◌, IfSome, IsSomeAnd, MatchOption, length, slice_get};
ghost use Rattle.graph_model.specs.Log.{additions, is_addition};
ghost use Rattle.graph_model.specs.Soundness.{IsNewOrigin};
ghost use Rattle.tao_keeper.specs.Table.{StandsAt};

use tao_base::{Entry, Kind, Origin};

fn place_of(entries: &[Entry], origin: Origin) -> Option<usize>
    ensures within { IfSome result (λ place. place < length entries.now) }
    ensures place { MatchOption result (IsNewOrigin entries.now origin)
        (λ place. IsSomeAnd (slice_get entries.now place) (λ entry. entry.origin ≡ origin)) }
{
    entries.iter().position(|entry| entry.origin == origin)
}

/// The position of the entry of an origin, where there is one. Reads the log up to the entry.
pub fn position_of(entries: &[Entry], origin: Origin) -> Option<u64>
    ensures { StandsAt entries.now origin result }
{
    let place = place_of(entries, origin)?;
    Some(place as u64 + 1)
}

fn adds_object(entry: &Entry) -> bool
    ensures { result ≡ is_addition entry.now.kind }
{
    matches!(entry.kind, Kind::ObjAdd)
}

/// How many objects the entries add. Reads each of them.
pub fn additions_of(entries: &[Entry]) -> u64
    ensures { result ≡ additions entries.now }
{
    entries.iter().filter(|entry| adds_object(entry)).count() as u64
}

/// How many objects an entry adds.
pub fn added_by(entry: &Entry) -> u64
    ensures { result ≡ additions (entry.now ∷ []) }
{
    if adds_object(entry) { 1 } else { 0 }
}
