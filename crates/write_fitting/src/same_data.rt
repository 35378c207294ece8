//! Whether two data are the same.
ghost use Rattle.std.specs.Prelude.{◌≡◌};
ghost use Rattle.write_fitting.specs.Fitting.{same_data, same_pair};

use tao_base::{Data, Pair};

fn is_same_pair(pair: &Pair, other: &Pair) -> bool
    ensures { result ≡ same_pair pair.now other.now }
{
    pair.key.as_str() == other.key.as_str() && pair.value.as_str() == other.value.as_str()
}

fn are_same(pairs: &[Pair], others: &[Pair]) -> bool
    ensures { result ≡ same_data pairs.now others.now }
{
    if pairs.len() != others.len() {
        return false;
    }
    for (pair, other) in pairs.iter().zip(others) {
        if !is_same_pair(pair, other) {
            return false;
        }
    }
    true
}

/// Whether two data have the same keys with the same values.
pub fn is_same(payload: &Data, other: &Data) -> bool
    ensures { result ≡ same_data payload.now other.now }
{
    are_same(payload.pairs(), other.pairs())
}
