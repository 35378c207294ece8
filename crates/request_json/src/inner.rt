//! Requests within others.
ghost use Rattle.std.specs.Prelude.{◌≡◌, map, Result};
ghost use Rattle.outcomes.specs.Results.{Gives};
ghost use Rattle.request_json.specs.Refusal.{unless_memory};
ghost use Rattle.request_json.specs.Fields.{said};
ghost use Rattle.request_json.specs.Inner.{asked_within, call_by, read_by};
ghost use Rattle.request_json.specs.Word.{word_of};
ghost use Rattle.request_json.specs.declared.refusal.LineRefusal.{LineRefusal};

use crate::calls::{read_of, write_of};
use crate::fields::{Fields, bad_line};
use crate::refusal::LineRefusal;
use crate::word::word_of;
use requests::{Call, ReadCall};
use words::Word;

/// The call that an object asks.
pub(crate) fn call_of(fields: &Fields<'_, '_>) -> Result<Call, LineRefusal>
    ensures { Gives unless_memory result (call_by (word_of (said fields.now)) (said fields.now)) }
{
    match word_of(fields.value) {
        Some(Word::Write(word)) => Ok(Call::Write(write_of(word, fields)?)),
        Some(Word::Read(word)) => Ok(Call::Read(read_of(word, fields)?)),
        _ => Err(bad_line(fields.alloc, "do")),
    }
}

/// The read that an object asks.
pub(crate) fn inner_read_of(fields: &Fields<'_, '_>) -> Result<ReadCall, LineRefusal>
    ensures { Gives unless_memory result (read_by (word_of (said fields.now)) (said fields.now)) }
{
    match word_of(fields.value) {
        Some(Word::Read(word)) => read_of(word, fields),
        _ => Err(bad_line(fields.alloc, "do")),
    }
}

/// What a request within another one asks: all its fields are the field `request` of that one, whose
/// strange fields are looked for before the size of the inner one's data.
pub(crate) fn asked_within<T: Drop>(
    fields: &Fields<'_, '_>,
    names: &[&str],
    inner: Result<T, LineRefusal>,
) -> Result<T, LineRefusal>
    ensures { (asked : Result T LineRefusal) → Gives unless_memory inner asked
        → Gives unless_memory result (asked_within (map (λ n. n.now) names.now) (said fields.now) asked) }
{
    match inner {
        Err(LineRefusal::OutOfMemory) => Err(LineRefusal::OutOfMemory),
        Err(LineRefusal::BadLine { .. }) => Err(bad_line(fields.alloc, "request")),
        inner => {
            fields.only(names)?;
            inner
        }
    }
}
