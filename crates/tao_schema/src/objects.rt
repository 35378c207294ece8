//! The object types.
ghost use Rattle.std.specs.Prelude.{◌≡◌, ◌≢◌, ℕ, ◌≤◌, ◌^◌, List, length, IfOk};
ghost use Rattle.tao_schema.specs.Index.{IsIndex};
ghost use Rattle.tao_schema.specs.ObjectTypes.{keeps_object_rules};
ghost use Rattle.tao_schema.specs.Rules.{broken_from};

use super::names::{Index, MOST_TYPES, add, stands_at};
use super::refusal::{SchemaField, SchemaRefusal};
use std::alloc::{AllocError, Global};
use std::collections::HashMap;
use std::marker::Model;
use tao_base::{OType, Text, is_name};

/// The object types: 1 to 64 names, each once. An object type is its place among them.
#[derive(Drop)]
pub struct ObjectTypes {
    names: Vec<Text>,
    places: Index,
}

impl Model for ObjectTypes {
    ghost use Rattle.std.specs.Prelude.{◌≡◌, ℕ, List, Ok};
    ghost use Rattle.tao_schema.specs.Index.{IsIndex};
    ghost use Rattle.tao_schema.specs.ObjectTypes.{objects_of};

    ghost Value = { List (List ℕ) };

    ghost view = { λ types. types.names.items };

    ghost invariant = { λ types. (objects_of types.names.items ≡ Ok types.names.items) × IsIndex types.names.items types.places };
}

impl ObjectTypes {
    ghost use Rattle.std.specs.Prelude.{◌≡◌, ◌≢◌, ◌≤◌, length, Ok, Err, IfOk, IfErr, option_map, unwrap_or, slice_get, []};
    ghost use Rattle.tao_schema.specs.Names.{AreFound, place_of};
    ghost use Rattle.tao_schema.specs.ObjectTypes.{objects_of, otype_at};

    /// The object types of these names, which are copied.
    pub fn read(alloc: Global, names: &[Text]) -> Result<ObjectTypes, SchemaRefusal>
        ensures ok { IfOk result (λ types. objects_of names.now ≡ Ok types) }
        ensures refused { IfErr result (λ refusal. refusal ≢ SchemaRefusal.OutOfMemory → objects_of names.now ≡ Err refusal) }
    {
        if names.is_empty() || MOST_TYPES < names.len() {
            return Err(bad(names.len()));
        }
        let places = index_of(alloc, names)?;
        if let Some(place) = broken_name(names, &places) {
            return Err(bad(place));
        }
        Ok(ObjectTypes {
            names: names.to_vec(alloc)?,
            places,
        })
    }

    /// The type of a name.
    #[tactic(auto, using(crate::proofs::Found::objects_found))]
    pub fn find(&self, name: &str) -> Option<OType>
        ensures found { AreFound self.now }
        ensures value { result ≡ option_map otype_at (place_of self.now name.now) }
    {
        self.places.get(name).map(|place| OType(*place))
    }

    /// The names, each at the place of its type.
    #[tactic(auto, using(crate::proofs::Kept::few_objects))]
    pub fn as_slice(&self) -> &[Text]
        ensures value { result.now ≡ self.now }
        ensures some { 1 ≤ length result.now }
        ensures few { length result.now ≤ 64 }
    {
        self.names.as_slice()
    }

    /// The name of a type; the empty text where there is no such type.
    pub fn name(&self, otype: OType) -> &str
        ensures { result.now ≡ unwrap_or (slice_get self.now otype.0) [] }
    {
        match self.names.get(usize::from(otype.0)) {
            Some(name) => name.as_str(),
            None => "",
        }
    }
}

/// The first places of the names.
fn index_of(alloc: Global, names: &[Text]) -> Result<Index, AllocError>
    requires { length names.now ≤ 2 ^ 16 }
    ensures { IfOk result (IsIndex names.now) }
{
    let mut places = HashMap::new(alloc);
    for (place, name) in names.iter().enumerate() {
        add(alloc, &mut places, name.as_str(), place as u16)?;
    }
    Ok(places)
}

fn bad(place: usize) -> SchemaRefusal
    ensures { result ≡ SchemaRefusal.BadField SchemaField.Objects place }
{
    SchemaRefusal::BadField {
        field: SchemaField::Objects,
        place: place as u64,
    }
}

/// The least place of a text that is no name or stands earlier.
fn broken_name(names: &[Text], places: &Index) -> Option<usize>
    requires { IsIndex names.now places.now }
    ensures { result ≡ broken_from (keeps_object_rules names.now) 0 names.now }
{
    for (place, name) in names.iter().enumerate() {
        if !is_name(name.as_str()) || !stands_at(places, name.as_str(), place) {
            return Some(place);
        }
    }
    None
}
