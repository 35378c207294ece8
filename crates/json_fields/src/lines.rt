//! A line as JSON.
ghost use Rattle.std.specs.Prelude.{◌≡◌, IfOk, option_map};
ghost use Rattle.json_fields.specs.Json.{json_of};
ghost use Rattle.json_fields.specs.View.{view};

use crate::reading::{Fault, text_value};
use crate::value::Json;
use json::Scratch;
use std::alloc::{AllocError, Global};
use std::str;

/// The most bytes that a line may have.
const MAX_LINE: usize = 1_048_576;

/// The memory that reading a line takes beside the value itself: some 16 KiB, and room for a line's escaped texts. Kept from line to line, it
/// is made once.
#[derive(Drop)]
pub struct LineMemory {
    scratch: Scratch,
}

impl LineMemory {
    /// Memory of which nothing is used yet.
    pub fn new(alloc: Global) -> LineMemory {
        LineMemory {
            scratch: Scratch::new(alloc),
        }
    }
}

/// What a line says: nothing where it is too long, isn't UTF-8 or is no JSON.
pub fn parse<'t>(
    alloc: Global,
    memory: &'t mut LineMemory,
    line: &'t [u8],
) -> Result<Option<Json<'t>>, AllocError>
    ensures { IfOk result (λ value. option_map view value ≡ json_of line.now) }
{
    if line.len() > MAX_LINE {
        return Ok(None);
    }
    let Ok(text) = str::from_utf8(line) else {
        return Ok(None);
    };
    match text_value(alloc, &mut memory.scratch, text) {
        Ok(value) => Ok(Some(value)),
        Err(Fault::NoJson) => Ok(None),
        Err(Fault::OutOfMemory) => Err(AllocError),
    }
}
