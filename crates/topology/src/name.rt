//! Names.
ghost use Rattle.std.specs.Prelude.{◌≡◌};

use std::marker::Model;
use tao_base::{Text, is_name};

/// A name: 1 to 16 bytes of `a` to `z`, `0` to `9` and `_`. Contracts see the list of its bytes.
#[derive(Drop)]
pub struct Name {
    text: Text,
}

impl Model for Name {
    ghost use Rattle.std.specs.Prelude.{List, ℕ, IsTrue};
    ghost use Rattle.tao_base.specs.Names.{is_name};

    ghost Value = { List ℕ };

    ghost view = { λ n. n.text };

    ghost invariant = { λ n. IsTrue (is_name n.text) };
}

impl Name {
    ghost use Rattle.std.specs.Prelude.{IsTrue};
    ghost use Rattle.std.specs.Bool.{then_some};
    ghost use Rattle.tao_base.specs.Names.{is_name};

    /// The name that a text is, if it is one. Takes no memory.
    pub fn read(text: Text) -> Option<Name>
        ensures { result ≡ then_some (is_name text) text }
    {
        if is_name(text.as_str()) {
            Some(Name { text })
        } else {
            None
        }
    }

    /// The name as a string, which is lent.
    pub fn as_str(&self) -> &str
        ensures value { result.now ≡ self.now }
        ensures form { IsTrue (is_name self.now) }
    {
        self.text.as_str()
    }

    /// The text given back. Takes no memory.
    pub fn into_text(self) -> Text
        ensures { result ≡ self }
    {
        self.text
    }
}
