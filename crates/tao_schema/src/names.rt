//! Where names stand.
ghost use Rattle.std.specs.Prelude.{◌≡◌, Some, OnOk, nat_eq};
ghost use Rattle.std.specs.HashMap.{get_by_text};
ghost use Rattle.std.specs.Option.{option_eq};
ghost use Rattle.tao_schema.specs.Index.{AddsName};

use std::alloc::{AllocError, Global};
use std::collections::HashMap;

/// The most names that a list of types may have.
pub(crate) const MOST_TYPES: usize = 64;

/// The first place of each name of a list.
pub(crate) type Index = HashMap<String, u16>;

/// Adds a name at a place, unless it stands at one.
#[tactic(auto, using(std::proofs::lemmas::Map::Text::text_keys))]
pub(crate) fn add(
    alloc: Global,
    index: &mut Index,
    name: &str,
    place: u16,
) -> Result<(), AllocError>
    ensures { OnOk result (AddsName index.old index.new name.now place) }
{
    index
        .entry(String::from_str(alloc, name)?)?
        .or_insert(place);
    Ok(())
}

/// Whether a place is the first of a name.
pub(crate) fn stands_at(index: &Index, name: &str, place: usize) -> bool
    ensures { result ≡ option_eq nat_eq (get_by_text index.now name.now) (Some place) }
{
    match index.get(name) {
        Some(first) => usize::from(*first) == place,
        None => false,
    }
}
