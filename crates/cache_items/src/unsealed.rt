//! What a fill of a held item is made of.
use sealed_item::{Content, Fill};
use served_shards::shard_log::Note;
use std::marker::Model;
use tao_base::Key;

/// The key, version, length, content and note of a fill that isn't sealed yet: whoever knows that the
/// content is exact in what the note has seen can seal it. Contracts see what the fill will be.
#[derive(Drop)]
pub struct Unsealed {
    pub(crate) key: Key,
    pub(crate) version: u64,
    pub(crate) as_of: u64,
    pub(crate) content: Content,
    pub(crate) note: Note,
}

impl Model for Unsealed {
    ghost use Rattle.sealed_item.specs.Fills.{SealedItem, sealed_item};

    ghost Value = { SealedItem };

    ghost view = { λ u. sealed_item u.key u.version u.as_of u.content u.note };
}

impl Unsealed {
    ghost use Rattle.std.specs.Prelude.{◌≡◌};
    ghost use Rattle.sealed_item.specs.Fills.{IsSealed};

    /// The fill, which is true of its note's view. Takes no memory.
    pub fn seal(self) -> Fill
        requires { IsSealed self }
        ensures { result ≡ self }
    {
        Fill::seal(self.key, self.version, self.as_of, self.content, self.note)
    }
}
