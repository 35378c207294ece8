//! `Fill`, the content of a key at a version.
use crate::content::Content;
use shard_log::Note;
use std::marker::Model;
use tao_base::{Key, OutOfMemory};

/// The content of a key at a version of it, with a note of the log in which it is exact: what a
/// store or a cache hands to the cache above it. It takes in all that the log's first `as_of`
/// entries do at the key.
///
/// Where the log is told, each fill is true of its note's view, and stays so while the view grows.
#[derive(Drop)]
pub struct Fill {
    key: Key,
    version: u64,
    as_of: u64,
    content: Content,
    note: Note,
}

impl Model for Fill {
    ghost use Rattle.sealed_item.specs.Fills.{SealedItem, IsSealed, sealed_item};

    ghost Value = { SealedItem };

    ghost view = { λ f. sealed_item f.key f.version f.as_of f.content f.note };

    ghost invariant = { λ f. IsSealed (sealed_item f.key f.version f.as_of f.content f.note) };
}

impl Fill {
    ghost use Rattle.std.specs.Prelude.{◌≡◌, ◌≤◌, IfOk, length};
    ghost use Rattle.graph_model.specs.Soundness.{IsSound};
    ghost use Rattle.graph_model.specs.Told.{WhereTold};
    ghost use Rattle.shard_log.specs.View.{Grows};
    ghost use Rattle.sealed_item.specs.Fills.{IsExactContent, IsSealed, IsSince, sealed_item, fill_with_note};

    /// The fill of this content, which is exact at the version in the note's view. The version is at
    /// least that of the key in the view's first `as_of` entries. Takes no memory.
    pub fn seal(key: Key, version: u64, as_of: u64, content: Content, note: Note) -> Fill
        requires { IsSealed (sealed_item key version as_of content note) }
        ensures value { result ≡ sealed_item key version as_of content note }
        ensures sealed { IsSealed result }
    {
        Fill {
            key,
            version,
            as_of,
            content,
            note,
        }
    }

    /// The object or the list that this is of.
    pub fn key(&self) -> Key
        ensures { result ≡ self.now.key }
    {
        self.key
    }

    /// The version of the key at which the content is exact.
    pub fn version(&self) -> u64
        ensures { result ≡ self.now.version }
    {
        self.version
    }

    /// How many of the log's entries the content takes in at least: no touch of the key in them is
    /// after the version.
    pub fn as_of(&self) -> u64
        ensures value { result ≡ self.now.as_of }
        ensures since { WhereTold self.now.note.log.told (IsSince self.now.note.entries self.now.key self.now.version self.now.as_of) }
    {
        self.as_of
    }

    /// What is found at the key at the version.
    pub fn content(&self) -> &Content
        ensures value { result.now ≡ self.now.content }
        ensures exact { WhereTold self.now.note.log.told (IsExactContent self.now.note.entries self.now.key self.now.version self.now.content) }
    {
        &self.content
    }

    /// The log's length now, which the note's view then has. Nothing else of the fill changes. One
    /// load; takes no memory.
    pub fn look(&mut self) -> u64
        ensures same { self.new ≡ fill_with_note self.old self.new.note }
        ensures sealed { IsSealed self.new }
        ensures length { result ≡ length self.new.note.entries }
        ensures grows { Grows self.old.note self.new.note }
        ensures pins { (self.new.note.stored ≡ self.old.note.stored) × (self.new.note.floors ≡ self.old.note.floors) }
        ensures sound { WhereTold self.new.note.log.told (IsSound self.new.note.entries) }
    {
        self.note.look()
    }

    /// A second note with the view of the fill's, for another note to meet. The one error is out of
    /// memory.
    pub fn split_note(&mut self) -> Result<Note, OutOfMemory>
        ensures same { self.new ≡ self.old }
        ensures view { IfOk result (λ note. note ≡ self.old.note) }
    {
        self.note.split()
    }

    /// The same fill once more, with a note of its own. The one error is that there is no memory for
    /// the copy.
    pub fn split(&mut self) -> Result<Fill, OutOfMemory>
        ensures same { self.new ≡ self.old }
        ensures copy { IfOk result (λ copy. copy ≡ self.old) }
    {
        Ok(Fill {
            key: self.key,
            version: self.version,
            as_of: self.as_of,
            content: self.content.try_clone()?,
            note: self.note.split()?,
        })
    }

    /// The fill taken apart: its key, version, `as_of`, content and note. Takes no memory.
    pub fn into_parts(self) -> (Key, u64, u64, Content, Note)
        ensures key { result.0 ≡ self.key }
        ensures version { result.1 ≡ self.version }
        ensures as_of { result.2 ≡ self.as_of }
        ensures content { result.3 ≡ self.content }
        ensures note { result.4 ≡ self.note }
        ensures sealed { IsSealed self }
    {
        (self.key, self.version, self.as_of, self.content, self.note)
    }
}
