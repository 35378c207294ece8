//! The data of an object or an edge: keys with values.
ghost use Rattle.std.specs.Prelude.{◌≡◌, [], length, map, IfOk, IfSome};
ghost use Rattle.tao_base.specs.Data.{data_bytes, in_order, pair_of};

use super::text::Text;
use std::alloc::{AllocError, Global};
use std::collections::BTreeMap;
use std::error::Error;
use std::fmt;
use std::marker::Model;

/// A key with its value.
#[derive(Clone, Drop)]
pub struct Pair {
    pub key: Text,
    pub value: Text,
}

/// Why pairs are no data.
#[derive(Clone, Copy, Debug, PartialEq, Eq)]
pub enum DataRefusal {
    /// There are more than `Data::MOST_PAIRS`, or they are spelled in more than `Data::MOST_BYTES`:
    /// how many pairs there are with each key once, and in how many bytes these are spelled.
    TooLarge { bytes: u64, pairs: u64 },
    /// There was no memory for the data.
    OutOfMemory,
}

impl From<AllocError> for DataRefusal {
    ghost use Rattle.std.specs.Prelude.{◌≡◌};
    ghost use Rattle.tao_base.specs.declared.data.DataRefusal.TheVariants.{OutOfMemory};

    ghost from_gives = { λ _ refusal. refusal ≡ OutOfMemory };

    fn from(_: AllocError) -> DataRefusal {
        DataRefusal::OutOfMemory
    }
}

impl fmt::Display for DataRefusal {
    fn fmt<W: fmt::Write>(&self, f: &mut fmt::Formatter<W>) -> fmt::Result {
        match self {
            DataRefusal::TooLarge { bytes, pairs } => {
                write!(f, "too large: {pairs} pairs in {bytes} bytes")
            }
            DataRefusal::OutOfMemory => write!(f, "out of memory"),
        }
    }
}

impl Error for DataRefusal {}

/// Pairs in the order of their keys, each key once: at most 32, spelled in at most 4,096 bytes.
#[derive(Clone, Drop)]
pub struct Data {
    pairs: Vec<Pair>,
}

impl Model for Data {
    ghost use Rattle.std.specs.Prelude.{List};
    ghost use Rattle.tao_base.specs.Data.{IsData};
    ghost use Rattle.tao_base.specs.declared.data.Pair.{Pair};

    ghost Value = { List Pair };

    ghost view = { λ d. d.pairs.items };

    ghost invariant = { λ d. IsData d.pairs.items };
}

impl Data {
    ghost use Rattle.tao_base.specs.Data.{IsData, IsInKeyOrder, IsRefusedFor, in_order, pair_of};
    ghost use Rattle.std.specs.Prelude.{length, map, IfOk, IfErr, ◌==◌};

    /// How many pairs a data has at most.
    pub const MOST_PAIRS: usize = 32;

    /// How many bytes a data is spelled in at most.
    pub const MOST_BYTES: u64 = 4096;

    /// No pairs. Takes no memory.
    pub fn empty(alloc: Global) -> Data
        ensures { result ≡ [] }
    {
        Data {
            pairs: Vec::new(alloc),
        }
    }

    /// The data of some pairs, in the order of their keys. Of a key that is given several times the
    /// last value counts. Takes time in n log n.
    pub fn of_pairs(alloc: Global, pairs: Vec<(String, String)>) -> Result<Data, DataRefusal>
        ensures pairs { IfOk result (λ made. made ≡ in_order (map pair_of pairs.items)) }
        ensures limits { IfOk result IsData }
        ensures last_counts { IfOk result (IsInKeyOrder (map pair_of pairs.items)) }
        ensures refused { IfErr result (IsRefusedFor (in_order (map pair_of pairs.items))) }
    {
        let pairs = in_key_order(alloc, pairs)?;
        let Some(bytes) = spelled_size(&pairs) else {
            return Err(DataRefusal::OutOfMemory);
        };
        if pairs.len() > Data::MOST_PAIRS || bytes > Data::MOST_BYTES {
            return Err(DataRefusal::TooLarge {
                bytes,
                pairs: pairs.len() as u64,
            });
        }
        Ok(Data { pairs })
    }

    /// The data of pairs that are in order and within the limits, which are taken over. Takes no
    /// memory.
    pub fn of(pairs: Vec<Pair>) -> Data
        requires { IsData pairs.items }
        ensures { result ≡ pairs.items }
    {
        Data { pairs }
    }

    /// Whether there is no pair.
    pub fn is_empty(&self) -> bool
        ensures { result ≡ (length self.now == 0) }
    {
        self.pairs.is_empty()
    }

    /// The pairs, in the order of their keys.
    pub fn pairs(&self) -> &[Pair]
        ensures value { result.now ≡ self.now }
        ensures limits { IsData self.now }
    {
        self.pairs.as_slice()
    }
}

/// The pairs in the order of their keys, each key once, with its last value.
fn in_key_order(alloc: Global, pairs: Vec<(String, String)>) -> Result<Vec<Pair>, AllocError>
    ensures { IfOk result (λ made. made.items ≡ in_order (map pair_of pairs.items)) }
{
    let mut values = BTreeMap::new(alloc);
    for (key, value) in pairs {
        values.insert(key, value)?;
    }
    let pair_of = |(key, value)| Pair {
        key: Text::of(key),
        value: Text::of(value),
    };
    values.into_iter().map(pair_of).collect(alloc)
}

/// How many bytes the pairs are spelled in. None where 64 bits don't count them, as of no pairs that
/// a memory holds.
fn spelled_size(pairs: &[Pair]) -> Option<u64>
    ensures { IfSome result (λ size. size ≡ length (data_bytes pairs.now)) }
{
    let mut size = 1u64;
    for pair in pairs {
        size = size.checked_add(4)?;
        size = size.checked_add(pair.key.as_str().len() as u64)?;
        size = size.checked_add(pair.value.as_str().len() as u64)?;
    }
    Some(size)
}
