//! The members of a JSON object, each by its name and its kind: nothing where one is missing or of
//! another kind.
ghost use Rattle.std.specs.Prelude.{◌≡◌, ◌-◌, ◌^◌, option_map, map, bytes_eq};
ghost use Rattle.std.specs.List.{list_any};
ghost use Rattle.json_fields.specs.View.{view, members_view, items_view};
ghost use Rattle.json_fields.specs.Fields.{number_at, maybe_number_at, number_or, id_of, id_at, maybe_id_at, text_at, maybe_text_at};
ghost use Rattle.json_fields.specs.Fields.{flag_at, are_named, has_only, strange_at, first_strange, items_at, object_at, name_of, name_at};

use crate::members::is_same;
use crate::value::{Json, Member};
use tao_base::{Id, is_name};

/// A whole number from `least` to `most`.
pub fn number_at(value: &Json<'_>, name: &str, least: u64, most: u64) -> Option<u64>
    ensures { result ≡ number_at name.now least most (view value.now) }
{
    let number = value.get(name)?.as_u64()?;
    (least <= number && number <= most).then_some(number)
}

/// A whole number of 32 bits, at least `least`.
pub fn small_at(value: &Json<'_>, name: &str, least: u32) -> Option<u32>
    ensures { result ≡ number_at name.now least (2 ^ 32 - 1) (view value.now) }
{
    let number = u32::try_from(value.get(name)?.as_u64()?).ok()?;
    (least <= number).then_some(number)
}

/// A whole number of 16 bits, from `least` to `most`.
pub fn short_at(value: &Json<'_>, name: &str, least: u16, most: u16) -> Option<u16>
    ensures { result ≡ number_at name.now least most (view value.now) }
{
    let number = u16::try_from(value.get(name)?.as_u64()?).ok()?;
    (least <= number && number <= most).then_some(number)
}

/// A whole number from `least` to `most`; the default where it is missing.
pub fn number_or(value: &Json<'_>, name: &str, default: u64, least: u64, most: u64) -> Option<u64>
    ensures { result ≡ number_or name.now default least most (view value.now) }
{
    match value.get(name) {
        None => Some(default),
        Some(_) => number_at(value, name, least, most),
    }
}

/// A whole number of 16 bits, from `least` to `most`; the default where it is missing.
pub fn short_or(value: &Json<'_>, name: &str, default: u16, least: u16, most: u16) -> Option<u16>
    ensures { result ≡ number_or name.now default least most (view value.now) }
{
    match value.get(name) {
        None => Some(default),
        Some(_) => short_at(value, name, least, most),
    }
}

/// A whole number from `least` to `most` that may be missing.
pub fn maybe_number_at(value: &Json<'_>, name: &str, least: u64, most: u64) -> Option<Option<u64>>
    ensures { result ≡ maybe_number_at name.now least most (view value.now) }
{
    match value.get(name) {
        None => Some(None),
        Some(_) => number_at(value, name, least, most).map(Some),
    }
}

/// A whole number of 32 bits, at least `least`, that may be missing.
pub fn maybe_small_at(value: &Json<'_>, name: &str, least: u32) -> Option<Option<u32>>
    ensures { result ≡ maybe_number_at name.now least (2 ^ 32 - 1) (view value.now) }
{
    match value.get(name) {
        None => Some(None),
        Some(_) => small_at(value, name, least).map(Some),
    }
}

/// The id that a value is: a whole number whose serial isn't 0.
pub fn id_of(value: &Json<'_>) -> Option<Id>
    ensures { result ≡ id_of (view value.now) }
{
    Id::read(value.as_u64()?)
}

/// An id, whose serial isn't 0.
pub fn id_at(value: &Json<'_>, name: &str) -> Option<Id>
    ensures { result ≡ id_at name.now (view value.now) }
{
    Id::read(value.get(name)?.as_u64()?)
}

/// An id that may be missing.
pub fn maybe_id_at(value: &Json<'_>, name: &str) -> Option<Option<Id>>
    ensures { result ≡ maybe_id_at name.now (view value.now) }
{
    match value.get(name) {
        None => Some(None),
        Some(_) => id_at(value, name).map(Some),
    }
}

/// A text.
pub fn text_at<'v>(value: &'v Json<'_>, name: &str) -> Option<&'v str>
    ensures { option_map (λ t. t.now) result ≡ text_at name.now (view value.now) }
{
    value.get(name)?.as_str()
}

/// A text that may be missing.
pub fn maybe_text_at<'v>(value: &'v Json<'_>, name: &str) -> Option<Option<&'v str>>
    ensures { option_map (option_map (λ t. t.now)) result ≡ maybe_text_at name.now (view value.now) }
{
    match value.get(name) {
        None => Some(None),
        Some(text) => text.as_str().map(Some),
    }
}

/// A flag that may be missing.
pub fn flag_at(value: &Json<'_>, name: &str) -> Option<Option<bool>>
    ensures { result ≡ flag_at name.now (view value.now) }
{
    match value.get(name) {
        None => Some(None),
        Some(flag) => flag.as_bool().map(Some),
    }
}

/// Whether a value is an object whose members have these names alone. Compares each member with each
/// name.
pub fn has_only(value: &Json<'_>, names: &[&str]) -> bool
    ensures { result ≡ has_only (map (λ n. n.now) names.now) (view value.now) }
{
    match value.as_object() {
        Some(members) => are_named(members, names),
        None => false,
    }
}

fn are_named(members: &[Member<'_>], names: &[&str]) -> bool
    ensures { result ≡ are_named (map (λ n. n.now) names.now) (members_view members.now) }
{
    first_strange(members, names).is_none()
}

/// The least member, in order of bytes, that has another name than these. Compares each member with
/// each name.
pub fn strange_at<'v>(value: &'v Json<'_>, names: &[&str]) -> Option<&'v str>
    ensures { option_map (λ t. t.now) result ≡ strange_at (map (λ n. n.now) names.now) (view value.now) }
{
    first_strange(value.as_object()?, names)
}

fn first_strange<'v>(members: &'v [Member<'_>], names: &[&str]) -> Option<&'v str>
    ensures { option_map (λ t. t.now) result ≡ first_strange (map (λ n. n.now) names.now) (members_view members.now) }
{
    for member in members {
        if !is_among(names, member.0) {
            return Some(member.0);
        }
    }
    None
}

fn is_among(names: &[&str], key: &str) -> bool
    ensures { result ≡ list_any (λ name. bytes_eq name key.now) (map (λ n. n.now) names.now) }
{
    for name in names {
        if is_same(name, key) {
            return true;
        }
    }
    false
}

/// An object.
pub fn object_at<'v, 't>(value: &'v Json<'t>, name: &str) -> Option<&'v Json<'t>>
    ensures { option_map (λ v. view v.now) result ≡ object_at name.now (view value.now) }
{
    let inner = value.get(name)?;
    inner.is_object().then_some(inner)
}

/// The items of an array.
pub fn items_at<'v, 't>(value: &'v Json<'t>, name: &str) -> Option<&'v [Json<'t>]>
    ensures { option_map (λ v. items_view v.now) result ≡ items_at name.now (view value.now) }
{
    value.get(name)?.as_array()
}

/// A name: 1 to 16 bytes of small letters, digits and underscores.
pub fn name_at<'v>(value: &'v Json<'_>, name: &str) -> Option<&'v str>
    ensures { option_map (λ t. t.now) result ≡ name_at name.now (view value.now) }
{
    name_of(value.get(name)?)
}

/// The name that a value is.
pub fn name_of<'v>(value: &'v Json<'_>) -> Option<&'v str>
    ensures { option_map (λ t. t.now) result ≡ name_of (view value.now) }
{
    let text = value.as_str()?;
    is_name(text).then_some(text)
}
