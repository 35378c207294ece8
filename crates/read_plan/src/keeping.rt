//! How a reply says whether an answer is kept.
ghost use Rattle.std.specs.Prelude.{◌≡◌};
ghost use Rattle.read_plan.specs.Keeping.{kept_or_not, past_bound};

use cache_items::Kept;
use replies::{KeptOrNot, NotKept, NotKeptWhy};

/// How many asks may be open on a node.
const MOST_ASKS: u64 = 256;

/// What a reply says of a fill that the follower kept or didn't.
pub fn kept_or_not(kept: Kept) -> KeptOrNot
    ensures { result ≡ kept_or_not kept }
{
    match kept {
        Kept::Yes => KeptOrNot::Kept,
        Kept::Asks => not_kept(NotKeptWhy::Asks, MOST_ASKS, MOST_ASKS),
        Kept::Lost => not_kept(NotKeptWhy::Lost, 0, 0),
        Kept::Mark { have, need } => not_kept(NotKeptWhy::Mark, have, need),
        Kept::Floor { have, need } => not_kept(NotKeptWhy::Floor, have, need),
        Kept::Memory => not_kept(NotKeptWhy::Memory, 0, 0),
    }
}

/// What it says of an answer that no first edges within the bound decide, of a list of that length.
pub fn past_bound(bound: u64, total: u64) -> KeptOrNot
    ensures { result ≡ past_bound bound total }
{
    not_kept(NotKeptWhy::Bound, bound, total)
}

fn not_kept(why: NotKeptWhy, have: u64, need: u64) -> KeptOrNot
    ensures { result ≡ KeptOrNot.Not (record { why = why; have = have; need = need }) }
{
    KeptOrNot::Not(NotKept { why, have, need })
}
