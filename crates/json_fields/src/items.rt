//! The items of an array, each read in the same way.
ghost use Rattle.std.specs.Prelude.{◌≡◌, Option, IfOk, option_map};
ghost use Rattle.serde_json.specs.Data.{Data};
ghost use Rattle.serde_json.specs.Find.{as_str};
ghost use Rattle.json_fields.specs.View.{view, items_view};
ghost use Rattle.json_fields.specs.Fields.{id_of};
ghost use Rattle.json_fields.specs.Items.{each, each_at};

use crate::fields::{id_of, items_at};
use crate::value::Json;
use std::alloc::{AllocError, Global};
use tao_base::{Id, Text};

/// How values of a type are read from JSON. A type of the reader's own stands for it, since the values
/// are mostly of other crates' types.
pub trait ItemReader<T> {
    ghost said: { Data → Option T };

    /// What the value says: nothing where it is of another kind or breaks a rule.
    fn read(alloc: Global, value: &Json<'_>) -> Result<Option<T>, AllocError>
        ensures { IfOk result (λ read. read ≡ said (view value.now)) };
}

/// Reads ids.
pub struct IdReader;

impl ItemReader<Id> for IdReader {
    ghost said = { id_of };

    fn read(_alloc: Global, value: &Json<'_>) -> Result<Option<Id>, AllocError> {
        Ok(id_of(value))
    }
}

/// Reads texts, and copies them.
pub struct TextReader;

impl ItemReader<Text> for TextReader {
    ghost said = { as_str };

    fn read(alloc: Global, value: &Json<'_>) -> Result<Option<Text>, AllocError> {
        match value.as_str() {
            Some(text) => Ok(Some(Text::copy_of(alloc, text)?)),
            None => Ok(None),
        }
    }
}

/// What the items of an array say: nothing where it is no array or one of them says nothing.
pub fn each_at<T: Drop, R: ItemReader<T>>(
    alloc: Global,
    value: &Json<'_>,
    name: &str,
) -> Result<Option<Vec<T>>, AllocError>
    ensures { IfOk result (λ read. option_map (λ v. v.items) read ≡ each_at R.said name.now (view value.now)) }
{
    match items_at(value, name) {
        Some(items) => each::<T, R>(alloc, items),
        None => Ok(None),
    }
}

fn each<T: Drop, R: ItemReader<T>>(
    alloc: Global,
    items: &[Json<'_>],
) -> Result<Option<Vec<T>>, AllocError>
    ensures { IfOk result (λ read. option_map (λ v. v.items) read ≡ each R.said (items_view items.now)) }
{
    let mut read = Vec::with_capacity(alloc, items.len())?;
    for item in items {
        match R::read(alloc, item)? {
            Some(one) => read.push(one)?,
            None => return Ok(None),
        }
    }
    Ok(Some(read))
}
