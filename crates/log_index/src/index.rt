//! The index of a log.
ghost use Rattle.std.specs.Prelude.{[], ◌≡◌, ◌<◌, ◌∷◌, ◌++◌, ◌+◌, IfOk, IfSome, length};

use crate::key_index::KeyIndex;
use crate::positions::Positions;
use std::alloc::Global;
use tao_base::{Entry, OutOfMemory};

/// What a log says of each key, and where the entry of each origin stands.
#[derive(Drop)]
pub struct Index {
    pub keys: KeyIndex,
    pub positions: Positions,
}

impl Index {
    ghost use Rattle.log_index.specs.IndexOf.{IsIndexOf};
    ghost use Rattle.std.specs.Prelude.{List};
    ghost use Rattle.tao_base.specs.declared.entry.Entry.{Entry as EntryValue};

    /// Of a log without entries.
    pub fn new(alloc: Global) -> Index
        ensures { IsIndexOf [] result }
    {
        Index {
            keys: KeyIndex::new(alloc),
            positions: Positions::new(alloc),
        }
    }

    /// Of a log, from its entries one after another.
    pub fn of(alloc: Global, entries: &[Entry]) -> Result<Index, OutOfMemory>
        ensures { IfOk result (IsIndexOf entries.now) }
    {
        let mut index = Index::new(alloc);
        for (place, entry) in entries.iter().enumerate() {
            index = index.with_entry(entry, place as u64 + 1)?;
        }
        Ok(index)
    }

    /// With one more entry, which stands at that position. Where there is no memory, nothing is left.
    pub fn with_entry(self, entry: &Entry, position: u64) -> Result<Index, OutOfMemory>
        ensures { IfOk result (λ index. (log : List EntryValue) → position ≡ length log + 1 → IsIndexOf log self → IsIndexOf (log ++ entry.now ∷ []) index) }
    {
        let Index {
            mut keys,
            mut positions,
        } = self;
        keys.add(entry)?;
        positions.put(entry.origin, position)?;
        Ok(Index { keys, positions })
    }

    /// The index of a log with one more entry, where there is memory for it. Where there was none, all entries are read.
    pub fn grown(
        alloc: Global,
        index: Option<Index>,
        entries: &[Entry],
        entry: &Entry,
    ) -> Option<Index>
        requires { IfSome index (IsIndexOf entries.now) }
        ensures { IfSome result (IsIndexOf (entries.now ++ entry.now ∷ [])) }
    {
        let index = match index {
            Some(index) => index,
            None => Index::of(alloc, entries).ok()?,
        };
        index.with_entry(entry, entries.len() as u64 + 1).ok()
    }
}
