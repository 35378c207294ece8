//! Which calls are whose.
ghost use Rattle.std.specs.Prelude.{◌≡◌, ◌≤◌, ◌<◌};
ghost use Rattle.load_shares.specs.Turns.{is_in_turn, one_call};

use load_gen::is_call;
use requests::Request;

/// The place of a thread among so many: it makes the calls whose numbers leave its place when they are divided by that many.
#[derive(Clone, Copy)]
pub struct Turn {
    pub threads: u64,
    pub place: u64,
}

impl Turn {
    /// Whether a request is a call of the thread. The number is that of the calls up to it, and itself.
    pub fn takes(self, request: &Request, number: u64) -> bool
        requires { 0 < self.threads }
        ensures { result ≡ is_in_turn self.threads self.place number request.now }
    {
        is_call(request) && number % self.threads == self.place
    }
}

/// 1 for a call, and else 0.
pub fn one_call(request: &Request) -> u64
    ensures is { result ≡ one_call request.now }
    ensures most { result ≤ 1 }
{
    u64::from(is_call(request))
}
