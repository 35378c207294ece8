//! The object types and the association types.
ghost use Rattle.std.specs.Prelude.{◌≡◌, IfOk, option_map};
ghost use Rattle.std.specs.Result.{result_ok};
ghost use Rattle.json_fields.specs.View.{view};
ghost use Rattle.tao_schema.specs.AssocTypes.{assocs_of};
ghost use Rattle.tao_schema.specs.ObjectTypes.{objects_of};
ghost use Rattle.config_json.specs.Types.{objects_at, assoc_of, assocs_at};

use json_fields::fields::{has_only, maybe_text_at, number_or, text_at};
use json_fields::items::{ItemReader, TextReader, each_at};
use json_fields::value::Json;
use std::alloc::{AllocError, Global};
use tao_base::Text;
use tao_schema::{AssocLine, AssocTypes, MAX_BOUND, ObjectTypes, SchemaRefusal};

/// The bound of an association type that says none.
const DEFAULT_BOUND: u64 = 6_000;

/// The object types of a configuration.
pub(crate) fn objects_at(alloc: Global, value: &Json<'_>) -> Result<Option<ObjectTypes>, AllocError>
    ensures { IfOk result (λ types. types ≡ objects_at (view value.now)) }
{
    match each_at::<Text, TextReader>(alloc, value, "objects")? {
        Some(names) => object_types(alloc, names.as_slice()),
        None => Ok(None),
    }
}

/// The object types of these names, unless they break a rule.
fn object_types(alloc: Global, names: &[Text]) -> Result<Option<ObjectTypes>, AllocError>
    ensures { IfOk result (λ types. types ≡ result_ok (objects_of names.now)) }
{
    match ObjectTypes::read(alloc, names) {
        Ok(types) => Ok(Some(types)),
        Err(SchemaRefusal::BadField { .. }) => Ok(None),
        Err(SchemaRefusal::OutOfMemory) => Err(AllocError),
    }
}

/// Reads association types.
struct AssocReader;

impl ItemReader<AssocLine> for AssocReader {
    ghost said = { assoc_of };

    fn read(alloc: Global, value: &Json<'_>) -> Result<Option<AssocLine>, AllocError> {
        let Some(name) = text_at(value, "name") else {
            return Ok(None);
        };
        let Some(inverse) = maybe_text_at(value, "inverse") else {
            return Ok(None);
        };
        let Some(bound) = number_or(value, "bound", DEFAULT_BOUND, 1, MAX_BOUND) else {
            return Ok(None);
        };
        let line = AssocLine {
            name: Text::copy_of(alloc, name)?,
            inverse: copy_of(alloc, inverse)?,
            bound,
        };
        Ok(has_only(value, &["name", "inverse", "bound"]).then_some(line))
    }
}

fn copy_of(alloc: Global, text: Option<&str>) -> Result<Option<Text>, AllocError>
    ensures { IfOk result (λ copy. copy ≡ option_map (λ t. t.now) text.entry) }
{
    match text {
        Some(text) => Ok(Some(Text::copy_of(alloc, text)?)),
        None => Ok(None),
    }
}

/// The association types of a configuration.
pub(crate) fn assocs_at(alloc: Global, value: &Json<'_>) -> Result<Option<AssocTypes>, AllocError>
    ensures { IfOk result (λ types. types ≡ assocs_at (view value.now)) }
{
    match each_at::<AssocLine, AssocReader>(alloc, value, "assocs")? {
        Some(lines) => assoc_types(alloc, lines.as_slice()),
        None => Ok(None),
    }
}

/// The association types of these lines, unless they break a rule.
fn assoc_types(alloc: Global, lines: &[AssocLine]) -> Result<Option<AssocTypes>, AllocError>
    ensures { IfOk result (λ types. types ≡ result_ok (assocs_of lines.now)) }
{
    match AssocTypes::read(alloc, lines) {
        Ok(types) => Ok(Some(types)),
        Err(SchemaRefusal::BadField { .. }) => Ok(None),
        Err(SchemaRefusal::OutOfMemory) => Err(AllocError),
    }
}
