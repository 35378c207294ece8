//! A JSON value that borrows its texts from the line that it was read of.
ghost use Rattle.std.specs.Prelude.{◌≡◌, option_map, option_and_then, is_some};
ghost use Rattle.serde_json.specs.Find.{as_array, as_bool, as_number, as_object, as_str, as_u64, get};
ghost use Rattle.json_fields.specs.View.{items_view, members_view, view};

use crate::members::find;

/// Any JSON value, read of one line. It keeps no text of its own: a text is a part of the line or, where the line escapes it, of the memory
/// that its reader was lent. An object has each name once, in order of bytes.
#[derive(Drop)]
pub enum Json<'t> {
    Null,
    Bool(bool),
    /// A whole number from 0 to 2^64 - 1.
    Whole(u64),
    /// A whole number from -2^63 to -1.
    Negative(i64),
    /// Any other number, as the nearest float.
    Float(f64),
    Text(&'t str),
    Array(Vec<Json<'t>>),
    Object(Vec<(&'t str, Json<'t>)>),
}

/// A member of an object: its name and its value.
pub type Member<'t> = (&'t str, Json<'t>);

impl<'t> Json<'t> {
    /// The member of that name, where this is an object. Compares the names of its members one after another.
    pub fn get(&self, name: &str) -> Option<&Json<'t>>
        ensures { option_map (λ v. view v.now) result ≡ get name.now (view self.now) }
    {
        find(self.as_object()?, name)
    }

    /// Whether this is an object.
    pub fn is_object(&self) -> bool
        ensures { result ≡ is_some (as_object (view self.now)) }
    {
        self.as_object().is_some()
    }

    /// The members, where this is an object.
    pub fn as_object(&self) -> Option<&[Member<'t>]>
        ensures { option_map (λ ms. members_view ms.now) result ≡ as_object (view self.now) }
    {
        if let Json::Object(members) = self {
            Some(members.as_slice())
        } else {
            None
        }
    }

    /// The items, where this is an array.
    pub fn as_array(&self) -> Option<&[Json<'t>]>
        ensures { option_map (λ vs. items_view vs.now) result ≡ as_array (view self.now) }
    {
        if let Json::Array(items) = self {
            Some(items.as_slice())
        } else {
            None
        }
    }

    /// The text, where this is one.
    pub fn as_str(&self) -> Option<&'t str>
        ensures { option_map (λ t. t.now) result ≡ as_str (view self.now) }
    {
        if let Json::Text(text) = self {
            Some(*text)
        } else {
            None
        }
    }

    /// The number, where this is a whole one from 0 to 2^64 - 1.
    pub fn as_u64(&self) -> Option<u64>
        ensures { result ≡ option_and_then as_u64 (as_number (view self.now)) }
    {
        if let Json::Whole(number) = self {
            Some(*number)
        } else {
            None
        }
    }

    /// The truth value, where this is one.
    pub fn as_bool(&self) -> Option<bool>
        ensures { result ≡ as_bool (view self.now) }
    {
        if let Json::Bool(truth) = self {
            Some(*truth)
        } else {
            None
        }
    }
}
