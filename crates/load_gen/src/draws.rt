//! Draws by a linear congruential generator.
ghost use Rattle.std.specs.Prelude.{◌≡◌, ◌<◌};
ghost use Rattle.load_gen.specs.Draws.{IsDrawn, below, next_state};

use std::marker::Model;

/// By what each state is multiplied for the next one.
const MULTIPLIER: u64 = 6_364_136_223_846_793_005;

/// What is added then.
const INCREMENT: u64 = 1_442_695_040_888_963_407;

/// How many low bits of a state no draw takes: the lowest ones repeat soon.
const LOW_BITS: u32 = 33;

/// The state of the generator. Contracts see the number.
#[derive(Clone, Copy)]
pub(crate) struct Draws {
    state: u64,
}

impl Model for Draws {
    ghost use Rattle.std.specs.Prelude.{ℕ};

    ghost Value = { ℕ };

    ghost view = { λ d. d.state };

    ghost inverse = { λ n. record { state = n } };
}

impl Draws {
    /// The draws of a seed.
    pub(crate) fn of(seed: u64) -> Draws
        ensures { result ≡ seed }
    {
        Draws { state: seed }
    }

    /// Draws a number below a count, out of the high bits of the next state.
    pub(crate) fn below(&mut self, count: u64) -> u64
        requires { 0 < count }
        ensures drawn { IsDrawn (below count) result self.old self.new }
        ensures bound { result < count }
    {
        self.state = next_state(self.state);
        (self.state >> LOW_BITS) % count
    }
}

/// The state after a state. It wraps: what doesn't fit 64 bits is left out.
#[tactic(auto, using(crate::proofs::Steps::wrapped), unfolding(crate::specs::Draws::next_state))]
fn next_state(state: u64) -> u64
    ensures { result ≡ next_state state }
{
    state.wrapping_mul(MULTIPLIER).wrapping_add(INCREMENT)
}
