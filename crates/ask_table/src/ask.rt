//! One ask.
ghost use Rattle.tao_base.specs.Keys.{key_shard, same_key};
ghost use Rattle.std.specs.Prelude.{◌≡◌};

use std::marker::Model;
use tao_base::Key;

/// The number of an ask, which no other ask of its table was given. Contracts see the number.
#[derive(Clone, Copy, PartialEq, Eq)]
pub struct AskNo {
    number: u64,
}

impl Model for AskNo {
    ghost use Rattle.std.specs.Prelude.{ℕ};

    ghost Value = { ℕ };

    ghost view = { λ a. a.number };

    ghost inverse = { λ n. record { number = n } };
}

impl AskNo {
    pub(crate) fn of(number: u64) -> AskNo
        ensures { result ≡ number }
    {
        AskNo { number }
    }

    /// The number by which the table finds the ask.
    pub fn number(&self) -> u64
        ensures { result ≡ self.now }
    {
        self.number
    }
}

/// An open ask: the low-water mark of its key's shard when it began, and the greatest version raised
/// on its key since, 0 at first.
#[derive(Clone, Copy)]
pub struct Ask {
    pub number: AskNo,
    pub key: Key,
    pub mark: u64,
    pub floor: u64,
}

impl Ask {
    ghost use Rattle.std.specs.Prelude.{◌==◌};
    ghost use Rattle.ask_table.specs.Open.{is_numbered, is_on_shard, raised_ask};

    /// Raises the floor to the version where the ask is on the key.
    pub(crate) fn raise(&mut self, key: &Key, version: u64)
        ensures { self.new ≡ raised_ask key.now version self.old }
    {
        if is_same(&self.key, key) {
            self.floor = self.floor.max(version);
        }
    }

    pub(crate) fn is_numbered(&self, ask: AskNo) -> bool
        ensures { result ≡ is_numbered ask self.now }
    {
        self.number == ask
    }

    pub(crate) fn is_on_shard(&self, shard: u16) -> bool
        ensures { result ≡ is_on_shard shard self.now }
    {
        self.key.shard() == shard
    }
}

fn is_same(key: &Key, other: &Key) -> bool
    ensures { result ≡ same_key key.now other.now }
{
    key == other
}
