//! Entries to bytes and back.
ghost use Rattle.std.specs.Prelude.{◌≡◌, ℕ, List, IfOk, Ok, OnOk};
ghost use Rattle.tao_base.specs.Spelling.{IsSpelled, spelling};
ghost use Rattle.tao_base.specs.declared.entry.Entry.{Entry};
ghost use Rattle.entry_codec.specs.Gives.{Answers};
ghost use Rattle.entry_codec.specs.Reading.{decoded};
ghost use Rattle.entry_codec.specs.Values.{EntryFits};

use crate::entry_fields::read_entry;
use crate::reader::Reader;
use crate::refusal::EntryRefusal;
use crate::writing::put_entry;
use std::alloc::Global;
use tao_base::{Bytes, Entry, OutOfMemory};

/// What is spelled in bytes, in one way.
pub trait Spelled: Sized {
    /// Whether a value has a spelling.
    ghost is_spelled: { Self → Type 0 };

    /// Its spelling.
    ghost bytes_of: { Self → List ℕ };

    /// The bytes of a value that has a spelling.
    fn encode(&self, alloc: Global) -> Result<Bytes, OutOfMemory>
        ensures { is_spelled self.now → IfOk result (λ bytes. bytes ≡ bytes_of self.now) };

    /// The value that is spelled so.
    fn decode(alloc: Global, bytes: &[u8]) -> Result<Self, EntryRefusal>
        ensures { IfOk result (λ value. is_spelled value × (bytes_of value ≡ bytes.now)) };
}

impl Spelled for Entry {
    ghost is_spelled = { IsSpelled };

    ghost bytes_of = { spelling };

    /// The entry's spelling, where it has one: of an entry that no log has, nothing is said of the
    /// bytes. Takes time by their number.
    fn encode(&self, alloc: Global) -> Result<Bytes, OutOfMemory>
        ensures bytes { IsSpelled self.now → IfOk result (λ bytes. bytes ≡ spelling self.now) }
        // So decoding its bytes gives the entry back.
        ensures fits { OnOk result (EntryFits self.now) }
    {
        let mut out = Vec::new(alloc);
        put_entry(&mut out, self)?;
        Ok(Bytes::of(out))
    }

    /// The entry that all of the bytes spell. Takes time by the number of the bytes, reads none past
    /// the first bad field, and takes no memory for texts that aren't there.
    fn decode(alloc: Global, bytes: &[u8]) -> Result<Entry, EntryRefusal>
        // What is decoded is spelled so.
        ensures found { IfOk result (λ entry. EntryFits entry × IsSpelled entry × (spelling entry ≡ bytes.now)) }
        // What is spelled so is decoded, unless memory runs out.
        ensures only { (entry : Entry) → EntryFits entry → IsSpelled entry → spelling entry ≡ bytes.now → Answers result (Ok entry) }
        // Which place is refused.
        ensures exact { Answers result (decoded bytes.now) }
    {
        read_all(alloc, bytes)
    }
}

/// An entry, and nothing behind it.
fn read_all(alloc: Global, bytes: &[u8]) -> Result<Entry, EntryRefusal>
    ensures { Answers result (decoded bytes.now) }
{
    let mut reader = Reader::of(bytes);
    let entry = read_entry(alloc, &mut reader)?;
    if !reader.is_at_end() {
        return Err(EntryRefusal::BadEntry { at: reader.place() });
    }
    Ok(entry)
}
