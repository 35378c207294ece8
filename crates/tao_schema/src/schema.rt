//! The schema.
use super::assocs::AssocTypes;
use super::lines::{AssocLine, MAX_BOUND};
use super::objects::ObjectTypes;
use super::refusal::SchemaRefusal;
use std::alloc::Global;
use tao_base::{AType, Key, OType, Text};

/// The types of the objects and of the associations.
#[derive(Drop)]
pub struct Schema {
    pub objects: ObjectTypes,
    pub assocs: AssocTypes,
}

impl Schema {
    ghost use Rattle.std.specs.Prelude.{◌≡◌, ◌≢◌, ◌≤◌, Ok, Err, IfOk, IfErr, option_map, unwrap_or, slice_get, []};
    ghost use Rattle.tao_base.specs.EdgeTypes.{InversesMatch};
    ghost use Rattle.tao_schema.specs.AssocTypes.{names_of, atype_at};
    ghost use Rattle.tao_schema.specs.Names.{AreFound, place_of};
    ghost use Rattle.tao_schema.specs.ObjectTypes.{otype_at};
    ghost use Rattle.tao_schema.specs.Schema.{key_bound, schema_of, types_of};

    /// The schema of these object types and association types, which are copied. A type is its place in its
    /// list.
    pub fn read(
        alloc: Global,
        objects: &[Text],
        assocs: &[AssocLine],
    ) -> Result<Schema, SchemaRefusal>
        ensures ok { IfOk result (λ schema. schema_of objects.now assocs.now ≡ Ok schema) }
        ensures refused { IfErr result (λ refusal. refusal ≢ SchemaRefusal.OutOfMemory → schema_of objects.now assocs.now ≡ Err refusal) }
    {
        Ok(Schema {
            objects: ObjectTypes::read(alloc, objects)?,
            assocs: AssocTypes::read(alloc, assocs)?,
        })
    }

    /// The inverse of an association type; none where there is no such type.
    pub fn inverse(&self, atype: AType) -> Option<AType>
        ensures value { result ≡ (types_of self.now).inverse atype }
        ensures matched { InversesMatch (types_of self.now) }
    {
        self.assocs.inverse(atype)
    }

    /// How many edges the lists of an association type are kept with; 6,000 where there is no such
    /// type.
    pub fn bound(&self, atype: AType) -> u64
        ensures value { result ≡ (types_of self.now).bound atype }
        ensures positive { 1 ≤ result }
        ensures at_most { result ≤ MAX_BOUND }
    {
        self.assocs.bound(atype)
    }

    /// How many edges the list of a key is kept with; 0 for an object.
    pub fn bound_of(&self, key: &Key) -> u64
        ensures { result ≡ key_bound (types_of self.now) key.now }
    {
        match key {
            Key::Obj(_) => 0,
            Key::List(_, atype) => self.bound(*atype),
        }
    }

    /// The association type of a name. Looks the name up, without a scan.
    pub fn atype(&self, name: &str) -> Option<AType>
        ensures found { AreFound (names_of self.now.assocs) }
        ensures value { result ≡ option_map atype_at (place_of (names_of self.now.assocs) name.now) }
    {
        self.assocs.find(name)
    }

    /// The object type of a name. Looks the name up, without a scan.
    pub fn otype(&self, name: &str) -> Option<OType>
        ensures found { AreFound self.now.objects }
        ensures value { result ≡ option_map otype_at (place_of self.now.objects name.now) }
    {
        self.objects.find(name)
    }

    /// The name of an object type; the empty text where there is no such type.
    pub fn otype_name(&self, otype: OType) -> &str
        ensures { result.now ≡ unwrap_or (slice_get self.now.objects otype.0) [] }
    {
        self.objects.name(otype)
    }
}
