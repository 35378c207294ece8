//! Whether two data are the same.
ghost use Rattle.std.specs.Prelude.{◌≡◌, ◌↔◌, IsTrue};

use tao_base::{Data, Pair};

fn is_same_pair(pair: &Pair, other: &Pair) -> bool
    ensures { IsTrue result ↔ (pair.now ≡ other.now) }
{
    pair.key.as_str() == other.key.as_str() && pair.value.as_str() == other.value.as_str()
}

fn are_same_pairs(pairs: &[Pair], others: &[Pair]) -> bool
    ensures { IsTrue result ↔ (pairs.now ≡ others.now) }
{
    if pairs.len() != others.len() {
        return false;
    }
    for (pair, other) in pairs.iter().zip(others) {
        if !is_same_pair(pair, other) {
            return false;
        }
    }
    true
}

/// Whether two data have the same keys with the same values.
pub fn is_same_data(payload: &Data, other: &Data) -> bool
    ensures { IsTrue result ↔ (payload.now ≡ other.now) }
{
    are_same_pairs(payload.pairs(), other.pairs())
}
