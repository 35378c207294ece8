//! What is counted of the replies to calls.
ghost use Rattle.std.specs.Prelude.{◌≡◌, ◌≤◌, false};
ghost use Rattle.load_gen.specs.Summary.{refusals_in};
ghost use Rattle.load_shares.specs.Tallies.{answers_hit, reading_of, says_memory};

use load_gen::refusals;
use replies::{CallReply, KeptOrNot, ReadReply, Refusal, Reply};
use requests::{Call, Request};

/// What came of calls: how many were refused, and whether one was for want of memory.
#[derive(Clone, Copy)]
pub struct Tally {
    pub refused: u64,
    pub short: bool,
}

/// Of no call.
pub fn no_tally() -> Tally
    ensures refused { result.refused ≡ 0 }
    ensures short { result.short ≡ false }
{
    Tally {
        refused: 0,
        short: false,
    }
}

/// Of one call that was refused.
pub fn one_refusal() -> Tally
    ensures refused { result.refused ≡ 1 }
    ensures short { result.short ≡ false }
{
    Tally {
        refused: 1,
        short: false,
    }
}

/// Whether a reply says that there was no memory.
fn says_memory(said: &Reply) -> bool
    ensures { result ≡ says_memory said.now }
{
    match said {
        Reply::Refused(Refusal::Memory { .. }) => true,
        _ => false,
    }
}

/// What came of a call with this reply.
pub fn tally_of(request: &Request, said: &Reply) -> Tally
    ensures refused { result.refused ≡ refusals_in request.now said.now }
    ensures most { result.refused ≤ 1 }
    ensures short { result.short ≡ says_memory said.now }
{
    Tally {
        refused: refusals(request, said),
        short: says_memory(said),
    }
}

/// Whether a reply is a follower's to a read, from what it kept: with no hops, and kept.
pub fn is_hit(said: &Reply) -> bool
    ensures { result ≡ answers_hit said.now }
{
    match said {
        Reply::Called(
            CallReply::Read(
                ReadReply {
                    hops: 0,
                    kept: KeptOrNot::Kept,
                    ..
                },
            ),
        ) => true,
        _ => false,
    }
}

/// The number of a request, where that is a read.
pub fn reading_of(request: &Request, number: u64) -> Option<u64>
    ensures { result ≡ reading_of request.now number }
{
    match request {
        Request::Call(Call::Read(_)) => Some(number),
        _ => None,
    }
}
