//! The bytes of an entry, read from left to right.
ghost use Rattle.std.specs.Int.{w8, w16, w32, w64};
ghost use Rattle.entry_codec.specs.Reading.{spelled_id, spelled_positive};

use crate::refusal::EntryRefusal;
use byteorder::{BigEndian, ByteOrder};
use std::marker::Model;
use tao_base::Id;

/// The bytes that are not read yet, and the place of the first of them: contracts see both. Each
/// method reads a field. After an error the reader stands anywhere.
#[derive(Drop)]
pub struct Reader<'a> {
    left: &'a [u8],
    at: u64,
}

impl<'a> Model for Reader<'a> {
    ghost use Rattle.std.specs.Prelude.{◌+◌, ◌<◌, ◌^◌, length};
    ghost use Rattle.entry_codec.specs.Fields.{AreBytes, Rest};

    ghost Value = { Rest };

    ghost view = { λ r. record { at = r.at; bytes = r.left.now } };

    ghost invariant = { λ r. (r.at + length r.left.now < 2 ^ 63) × AreBytes r.left.now };
}

impl<'a> Reader<'a> {
    ghost use Rattle.std.specs.Prelude.{◌≡◌, ◌==◌, ◌<◌, ◌^◌, length};
    ghost use Rattle.entry_codec.specs.Fields.{AreBytes, spelled_bytes, spelled_number, up_to};
    ghost use Rattle.entry_codec.specs.Gives.{GivesValue, GivesBytes};

    /// A reader of all of the bytes.
    pub fn of(bytes: &'a [u8]) -> Reader<'a>
        ensures { result ≡ record { at = 0; bytes = bytes.now } }
    {
        Reader { left: bytes, at: 0 }
    }

    /// The place of the next byte.
    pub fn place(&self) -> u64
        ensures value { result ≡ self.now.at }
        ensures small { result < 2 ^ 63 }
        ensures bytes { AreBytes self.now.bytes }
    {
        self.at
    }

    /// Whether nothing is left.
    pub fn is_at_end(&self) -> bool
        ensures { result ≡ (length self.now.bytes == 0) }
    {
        self.left.is_empty()
    }

    fn take(&mut self, len: usize) -> Result<&'a [u8], EntryRefusal>
        ensures { GivesBytes result self.new (spelled_bytes len self.old) }
    {
        if self.left.len() < len {
            return Err(EntryRefusal::BadEntry { at: self.at });
        }
        let (taken, left) = self.left.split_at(len);
        self.left = left;
        self.at += len as u64;
        Ok(taken)
    }

    /// The next bytes, where they end at the place `end` or before.
    pub fn take_up_to(&mut self, end: u64, len: usize) -> Result<&'a [u8], EntryRefusal>
        ensures { GivesBytes result self.new (up_to end (spelled_bytes len) self.old) }
    {
        let at = self.at;
        let taken = self.take(len)?;
        if self.at > end {
            return Err(EntryRefusal::BadEntry { at });
        }
        Ok(taken)
    }

    pub fn take_u8(&mut self) -> Result<u8, EntryRefusal>
        ensures { GivesValue result self.new (spelled_number w8 self.old) }
    {
        Ok(self.take(1)?[0])
    }

    pub fn take_u16(&mut self) -> Result<u16, EntryRefusal>
        ensures { GivesValue result self.new (spelled_number w16 self.old) }
    {
        Ok(BigEndian::read_u16(self.take(2)?))
    }

    pub fn take_u32(&mut self) -> Result<u32, EntryRefusal>
        ensures { GivesValue result self.new (spelled_number w32 self.old) }
    {
        Ok(BigEndian::read_u32(self.take(4)?))
    }

    pub fn take_u64(&mut self) -> Result<u64, EntryRefusal>
        ensures { GivesValue result self.new (spelled_number w64 self.old) }
    {
        Ok(BigEndian::read_u64(self.take(8)?))
    }

    /// A number from 1.
    pub fn positive_u32(&mut self) -> Result<u32, EntryRefusal>
        ensures { GivesValue result self.new (spelled_positive w32 self.old) }
    {
        let at = self.at;
        match self.take_u32()? {
            0 => Err(EntryRefusal::BadEntry { at }),
            number => Ok(number),
        }
    }

    /// A number from 1.
    pub fn positive_u64(&mut self) -> Result<u64, EntryRefusal>
        ensures { GivesValue result self.new (spelled_positive w64 self.old) }
    {
        let at = self.at;
        match self.take_u64()? {
            0 => Err(EntryRefusal::BadEntry { at }),
            number => Ok(number),
        }
    }

    pub fn id(&mut self) -> Result<Id, EntryRefusal>
        ensures { GivesValue result self.new (spelled_id self.old) }
    {
        let at = self.at;
        let number = self.take_u64()?;
        Id::read(number).ok_or(EntryRefusal::BadEntry { at })
    }
}
