//! Ids, types, keys and the names of stores.
ghost use Rattle.std.specs.Prelude.{◌≡◌, ◌<◌, IfSome, IsNone, ◌↔◌};
ghost use Rattle.tao_base.specs.Ids.{shard_of, serial_of};
ghost use Rattle.tao_base.specs.Keys.{key_shard};

use std::marker::Model;

/// The id of an object: its shard in the upper 16 bits, its serial, from 1, in the lower 48.
/// Contracts see the number.
#[derive(Clone, Copy, PartialEq, Eq, PartialOrd, Ord, Hash)]
pub struct Id {
    number: u64,
}

impl Model for Id {
    ghost use Rattle.std.specs.Prelude.{ℕ, ◌<◌};
    ghost use Rattle.tao_base.specs.Ids.{serial_of};

    ghost Value = { ℕ };

    ghost view = { λ a. a.number };

    ghost invariant = { λ a. 0 < serial_of a.number };

    ghost inverse = { λ n. record { number = n } };
}

/// How many serials a shard has room for, 0 included.
const SERIALS: u64 = 1 << 48;

impl Id {
    /// The id of that number; none where its serial is 0.
    pub fn read(number: u64) -> Option<Id>
        ensures value { IfSome result (λ id. id ≡ number) }
        ensures none { IsNone result ↔ (serial_of number ≡ 0) }
    {
        if number % SERIALS == 0 {
            None
        } else {
            Some(Id { number })
        }
    }

    /// The whole number: the shard and the serial in one.
    pub fn number(&self) -> u64
        ensures value { result ≡ self.now }
        ensures serial { 0 < serial_of self.now }
    {
        self.number
    }

    /// The shard that the object lies on, and the associations that go out from it.
    pub fn shard(&self) -> u16
        ensures { result ≡ shard_of self.now }
    {
        (self.number / SERIALS) as u16
    }

    /// The number within the shard, from 1.
    pub fn serial(&self) -> u64
        ensures { result ≡ serial_of self.now }
    {
        self.number % SERIALS
    }
}

/// An association type: its place in the schema.
#[derive(Clone, Copy, PartialEq, Eq, PartialOrd, Ord, Hash)]
pub struct AType(pub u16);

/// An object type: its place in the schema.
#[derive(Clone, Copy, PartialEq, Eq)]
pub struct OType(pub u16);

/// What an entry touches and a cache holds: an object, or the list of the associations of one type
/// that go out from one id.
#[derive(Clone, Copy, PartialEq, Eq, PartialOrd, Ord, Hash)]
pub enum Key {
    Obj(Id),
    List(Id, AType),
}

impl Key {
    /// The shard that the object or the list lies on: that of its id.
    pub fn shard(&self) -> u16
        ensures { result ≡ key_shard self.now }
    {
        match self {
            Key::Obj(id) | Key::List(id, _) => id.shard(),
        }
    }
}

/// A store: the place of its region and its shard.
#[derive(Clone, Copy, Debug, PartialEq, Eq)]
pub struct StoreName {
    pub region: u16,
    pub shard: u16,
}
