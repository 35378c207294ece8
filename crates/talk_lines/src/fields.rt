//! The fields of a batch and of its reads.
ghost use Rattle.std.specs.Prelude.{◌≡◌, ◌-◌, ◌^◌, map, Err};
ghost use Rattle.outcomes.specs.Results.{Gives, needed};
ghost use Rattle.request_json.specs.IdSets.{id_set};
ghost use Rattle.request_json.specs.Refusal.{unless_memory};
ghost use Rattle.request_json.specs.declared.refusal.LineRefusal.TheVariants.{BadLine};

use json_fields::fields::{flag_at, id_at, maybe_small_at, small_at, strange_at, text_at};
use json_fields::items::{IdReader, each_at};
use json_fields::value::Json;
use request_json::LineRefusal;
use requests::ListName;
use std::alloc::Global;
use tao_base::{Id, IdSet, Text};

/// The fields of an object, each read by its name: one that isn't there as it has to be is what the line is refused for.
#[derive(Clone, Copy)]
pub(crate) struct Fields<'v, 't> {
    pub alloc: Global,
    pub value: &'v Json<'t>,
}

impl Fields<'_, '_> {
    ghost use Rattle.request_json.specs.Fields.{flag_field, id_field, ids_field, list_fields, maybe_number_field, number_field, only_fields, text_field};
    ghost use Rattle.talk_lines.specs.Batches.{said};

    /// A whole number of 32 bits, at least `least`.
    pub(crate) fn small(&self, name: &str, least: u32) -> Result<u32, LineRefusal>
        ensures { Gives unless_memory result (number_field name.now least (2 ^ 32 - 1) (said self.now)) }
    {
        needed(self.alloc, name, small_at(self.value, name, least))
    }

    /// A whole number of 32 bits that may be missing.
    pub(crate) fn maybe_small(&self, name: &str) -> Result<Option<u32>, LineRefusal>
        ensures { Gives unless_memory result (maybe_number_field name.now 0 (2 ^ 32 - 1) (said self.now)) }
    {
        needed(self.alloc, name, maybe_small_at(self.value, name, 0))
    }

    /// An id.
    pub(crate) fn id(&self, name: &str) -> Result<Id, LineRefusal>
        ensures { Gives unless_memory result (id_field name.now (said self.now)) }
    {
        needed(self.alloc, name, id_at(self.value, name))
    }

    /// Ids, of which a repeated one counts once.
    pub(crate) fn ids(&self, name: &str) -> Result<IdSet, LineRefusal>
        ensures { Gives unless_memory result (ids_field name.now (said self.now)) }
    {
        match each_at::<Id, IdReader>(self.alloc, self.value, name)? {
            Some(ids) => Ok(set_of(ids)),
            None => Err(bad_line(self.alloc, name)),
        }
    }

    /// A text, copied.
    pub(crate) fn text(&self, name: &str) -> Result<Text, LineRefusal>
        ensures { Gives unless_memory result (text_field name.now (said self.now)) }
    {
        match text_at(self.value, name) {
            Some(text) => Ok(Text::copy_of(self.alloc, text)?),
            None => Err(bad_line(self.alloc, name)),
        }
    }

    /// A flag, which is false where it is missing.
    pub(crate) fn flag(&self, name: &str) -> Result<bool, LineRefusal>
        ensures { Gives unless_memory result (flag_field name.now (said self.now)) }
    {
        match flag_at(self.value, name) {
            Some(flag) => Ok(flag.unwrap_or(false)),
            None => Err(bad_line(self.alloc, name)),
        }
    }

    /// Refuses the least field, in order of bytes, that has another name than these.
    pub(crate) fn only(&self, names: &[&str]) -> Result<(), LineRefusal>
        ensures { Gives unless_memory result (only_fields (map (λ n. n.now) names.now) (said self.now)) }
    {
        match strange_at(self.value, names) {
            Some(name) => Err(bad_line(self.alloc, name)),
            None => Ok(()),
        }
    }

    pub(crate) fn list(&self) -> Result<ListName, LineRefusal>
        ensures { Gives unless_memory result (list_fields (said self.now)) }
    {
        Ok(ListName {
            id1: self.id("id1")?,
            atype: self.text("atype")?,
        })
    }
}

/// The set of some ids.
#[tactic(auto, using(request_json::proofs::SetOfIds::set_is))]
fn set_of(ids: Vec<Id>) -> IdSet
    ensures { result ≡ id_set ids.items }
{
    IdSet::of(ids)
}

/// What is found, or that the field breaks a rule.
pub(crate) fn needed<T: Drop>(alloc: Global, name: &str, found: Option<T>) -> Result<T, LineRefusal>
    ensures { Gives unless_memory result (needed (BadLine name.now) found) }
{
    match found {
        Some(found) => Ok(found),
        None => Err(bad_line(alloc, name)),
    }
}

/// The refusal for a field.
pub(crate) fn bad_line(alloc: Global, field: &str) -> LineRefusal
    ensures { Gives {A = Unit {0}} unless_memory (Err result) (Err (BadLine field.now)) }
{
    match Text::copy_of(alloc, field) {
        Ok(field) => LineRefusal::BadLine { field },
        Err(_) => LineRefusal::OutOfMemory,
    }
}
