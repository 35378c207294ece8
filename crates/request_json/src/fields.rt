//! The fields of a request.
ghost use Rattle.std.specs.Prelude.{◌≡◌, ◌-◌, ◌^◌, map, option_map, Err, IfOk};
ghost use Rattle.json_fields.specs.View.{members_view};
ghost use Rattle.tao_base.specs.Data.{pair_of, in_order};
ghost use Rattle.request_json.specs.IdSets.{id_set};
ghost use Rattle.request_json.specs.Data.{pairs_of, fitting};
ghost use Rattle.request_json.specs.declared.refusal.LineRefusal.TheVariants.{BadLine};
ghost use Rattle.outcomes.specs.Results.{Gives, needed};
ghost use Rattle.request_json.specs.Refusal.{unless_memory};
ghost use Rattle.request_json.specs.Fields.{node_of, said};

use crate::refusal::LineRefusal;
use json_fields::fields::{
    flag_at, id_at, maybe_id_at, maybe_number_at, maybe_small_at, maybe_text_at, number_at,
    object_at, short_at, small_at, strange_at, text_at,
};
use json_fields::items::{IdReader, each_at};
use json_fields::value::{Json, Member};
use requests::{EdgeName, ListName};
use std::alloc::{AllocError, Global};
use tao_base::{Data, Id, IdSet, Text};

/// The fields of an object, each read by its name: one that isn't there as it has to be is what the
/// line is refused for.
#[derive(Clone, Copy)]
pub(crate) struct Fields<'v, 't> {
    pub alloc: Global,
    pub value: &'v Json<'t>,
}

impl Fields<'_, '_> {
    ghost use Rattle.request_json.specs.Fields.{said, number_field, maybe_number_field, id_field, maybe_id_field, ids_field, data_last, text_field};
    ghost use Rattle.request_json.specs.Fields.{maybe_text_field, flag_field, only_fields, list_fields, edge_fields};

    /// A whole number from `least` to `most`.
    pub(crate) fn number(&self, name: &str, least: u64, most: u64) -> Result<u64, LineRefusal>
        ensures { Gives unless_memory result (number_field name.now least most (said self.now)) }
    {
        needed(self.alloc, name, number_at(self.value, name, least, most))
    }

    /// A whole number of 32 bits, at least `least`.
    pub(crate) fn small(&self, name: &str, least: u32) -> Result<u32, LineRefusal>
        ensures { Gives unless_memory result (number_field name.now least (2 ^ 32 - 1) (said self.now)) }
    {
        needed(self.alloc, name, small_at(self.value, name, least))
    }

    /// A whole number of 16 bits.
    pub(crate) fn short(&self, name: &str) -> Result<u16, LineRefusal>
        ensures { Gives unless_memory result (number_field name.now 0 (2 ^ 16 - 1) (said self.now)) }
    {
        needed(self.alloc, name, short_at(self.value, name, 0, u16::MAX))
    }

    /// A whole number from `least` to `most` that may be missing.
    pub(crate) fn maybe_number(
        &self,
        name: &str,
        least: u64,
        most: u64,
    ) -> Result<Option<u64>, LineRefusal>
        ensures { Gives unless_memory result (maybe_number_field name.now least most (said self.now)) }
    {
        needed(
            self.alloc,
            name,
            maybe_number_at(self.value, name, least, most),
        )
    }

    /// A whole number of 32 bits that may be missing.
    pub(crate) fn maybe_small(&self, name: &str) -> Result<Option<u32>, LineRefusal>
        ensures { Gives unless_memory result (maybe_number_field name.now 0 (2 ^ 32 - 1) (said self.now)) }
    {
        needed(self.alloc, name, maybe_small_at(self.value, name, 0))
    }

    /// An id.
    pub(crate) fn id(&self, name: &str) -> Result<Id, LineRefusal>
        ensures { Gives unless_memory result (id_field name.now (said self.now)) }
    {
        needed(self.alloc, name, id_at(self.value, name))
    }

    /// An id that may be missing.
    pub(crate) fn maybe_id(&self, name: &str) -> Result<Option<Id>, LineRefusal>
        ensures { Gives unless_memory result (maybe_id_field name.now (said self.now)) }
    {
        needed(self.alloc, name, maybe_id_at(self.value, name))
    }

    /// Ids, of which a repeated one counts once.
    pub(crate) fn ids(&self, name: &str) -> Result<IdSet, LineRefusal>
        ensures { Gives unless_memory result (ids_field name.now (said self.now)) }
    {
        match each_at::<Id, IdReader>(self.alloc, self.value, name)? {
            Some(ids) => Ok(set_of(ids)),
            None => Err(bad_line(self.alloc, name)),
        }
    }

    /// The texts of the field `data`, which is the last of its row, as data. Strange fields are looked
    /// for before its size.
    pub(crate) fn data_last(&self, names: &[&str]) -> Result<Data, LineRefusal>
        ensures { Gives unless_memory result (data_last (map (λ n. n.now) names.now) (said self.now)) }
    {
        let Some(members) = object_at(self.value, "data").and_then(Json::as_object) else {
            return Err(bad_line(self.alloc, "data"));
        };
        let Some(pairs) = pairs_of(self.alloc, members)? else {
            return Err(bad_line(self.alloc, "data"));
        };
        self.only(names)?;
        fitting(self.alloc, pairs)
    }

    /// A text, copied.
    pub(crate) fn text(&self, name: &str) -> Result<Text, LineRefusal>
        ensures { Gives unless_memory result (text_field name.now (said self.now)) }
    {
        match text_at(self.value, name) {
            Some(text) => Ok(Text::copy_of(self.alloc, text)?),
            None => Err(bad_line(self.alloc, name)),
        }
    }

    /// A text that may be missing, copied.
    pub(crate) fn maybe_text(&self, name: &str) -> Result<Option<Text>, LineRefusal>
        ensures { Gives unless_memory result (maybe_text_field name.now (said self.now)) }
    {
        match maybe_text_at(self.value, name) {
            Some(Some(text)) => Ok(Some(Text::copy_of(self.alloc, text)?)),
            Some(None) => Ok(None),
            None => Err(bad_line(self.alloc, name)),
        }
    }

    /// A flag, which is false where it is missing.
    pub(crate) fn flag(&self, name: &str) -> Result<bool, LineRefusal>
        ensures { Gives unless_memory result (flag_field name.now (said self.now)) }
    {
        match flag_at(self.value, name) {
            Some(flag) => Ok(flag.unwrap_or(false)),
            None => Err(bad_line(self.alloc, name)),
        }
    }

    /// Refuses the least field, in order of bytes, that has another name than these.
    pub(crate) fn only(&self, names: &[&str]) -> Result<(), LineRefusal>
        ensures { Gives unless_memory result (only_fields (map (λ n. n.now) names.now) (said self.now)) }
    {
        match strange_at(self.value, names) {
            Some(name) => Err(bad_line(self.alloc, name)),
            None => Ok(()),
        }
    }

    pub(crate) fn list(&self) -> Result<ListName, LineRefusal>
        ensures { Gives unless_memory result (list_fields (said self.now)) }
    {
        Ok(ListName {
            id1: self.id("id1")?,
            atype: self.text("atype")?,
        })
    }

    pub(crate) fn edge(&self) -> Result<EdgeName, LineRefusal>
        ensures { Gives unless_memory result (edge_fields (said self.now)) }
    {
        Ok(EdgeName {
            list: self.list()?,
            id2: self.id("id2")?,
        })
    }
}

/// The set of some ids.
fn set_of(ids: Vec<Id>) -> IdSet
    ensures { result ≡ id_set ids.items }
{
    IdSet::of(ids)
}

/// The texts of an object, by their keys: nothing where a member is none.
fn pairs_of(
    alloc: Global,
    members: &[Member<'_>],
) -> Result<Option<Vec<(String, String)>>, AllocError>
    ensures { IfOk result (λ read. option_map (λ v. map pair_of v.items) read
        ≡ pairs_of (members_view members.now)) }
{
    let mut pairs = Vec::new(alloc);
    for member in members {
        match member.1.as_str() {
            Some(text) => pairs.push(pair_of(alloc, member.0, text)?)?,
            None => return Ok(None),
        }
    }
    Ok(Some(pairs))
}

/// A key and a text, copied.
fn pair_of(alloc: Global, key: &str, text: &str) -> Result<(String, String), AllocError>
    ensures { IfOk result (λ copy. pair_of copy ≡ record { key = key.now; value = text.now }) }
{
    Ok((
        String::from_str(alloc, key)?,
        String::from_str(alloc, text)?,
    ))
}

/// The data of some pairs, unless it is too large.
fn fitting(alloc: Global, pairs: Vec<(String, String)>) -> Result<Data, LineRefusal>
    ensures { Gives unless_memory result (fitting (in_order (map pair_of pairs.items))) }
{
    Ok(Data::of_pairs(alloc, pairs)?)
}

/// What is found, or that the field breaks a rule.
pub(crate) fn needed<T: Drop>(alloc: Global, name: &str, found: Option<T>) -> Result<T, LineRefusal>
    ensures { Gives unless_memory result (needed (BadLine name.now) found) }
{
    match found {
        Some(found) => Ok(found),
        None => Err(bad_line(alloc, name)),
    }
}

/// The refusal for a field.
pub(crate) fn bad_line(alloc: Global, field: &str) -> LineRefusal
    ensures { Gives {A = Unit {0}} unless_memory (Err result) (Err (BadLine field.now)) }
{
    match Text::copy_of(alloc, field) {
        Ok(field) => LineRefusal::BadLine { field },
        Err(_) => LineRefusal::OutOfMemory,
    }
}

/// The node that is named by a request with no other field.
pub(crate) fn node_of(fields: &Fields<'_, '_>) -> Result<Text, LineRefusal>
    ensures { Gives unless_memory result (node_of (said fields.now)) }
{
    let node = fields.text("node")?;
    fields.only(&["do", "node"])?;
    Ok(node)
}
