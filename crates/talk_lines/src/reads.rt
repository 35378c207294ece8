//! The reads of a batch: the fields of each, in their order.
ghost use Rattle.std.specs.Prelude.{◌≡◌};
ghost use Rattle.json_fields.specs.View.{view};
ghost use Rattle.outcomes.specs.Results.{Gives};
ghost use Rattle.request_json.specs.Calls.{assoc_count_of, assoc_get_of, assoc_range_of, assoc_time_range_of, limit_field, obj_get_of, read_of, session_field};
ghost use Rattle.request_json.specs.Inner.{read_by};
ghost use Rattle.request_json.specs.Refusal.{unless_memory};
ghost use Rattle.request_json.specs.Word.{word_of};
ghost use Rattle.talk_lines.specs.Batches.{said};

use crate::fields::{Fields, bad_line};
use json_fields::fields::text_at;
use json_fields::value::Json;
use request_json::LineRefusal;
use requests::{QueryText, ReadCall};
use words::{ReadWord, Word};

/// The read that an object asks.
pub(crate) fn read_call_of(fields: &Fields<'_, '_>) -> Result<ReadCall, LineRefusal>
    ensures { Gives unless_memory result (read_by (word_of (said fields.now)) (said fields.now)) }
{
    match word_of(fields.value) {
        Some(Word::Read(word)) => read_of(word, fields),
        _ => Err(bad_line(fields.alloc, "do")),
    }
}

/// The word that a value asks to be done.
fn word_of(value: &Json<'_>) -> Option<Word>
    ensures { result ≡ word_of (view value.now) }
{
    Word::of(text_at(value, "do")?)
}

pub(crate) fn session_field(fields: &Fields<'_, '_>) -> Result<u32, LineRefusal>
    ensures { Gives unless_memory result (session_field (said fields.now)) }
{
    fields.small("session", 1)
}

fn limit_field(fields: &Fields<'_, '_>) -> Result<u32, LineRefusal>
    ensures { Gives unless_memory result (limit_field (said fields.now)) }
{
    fields.small("limit", 1)
}

fn read_of(word: ReadWord, fields: &Fields<'_, '_>) -> Result<ReadCall, LineRefusal>
    ensures { Gives unless_memory result (read_of word (said fields.now)) }
{
    match word {
        ReadWord::ObjGet => obj_get_of(fields),
        ReadWord::AssocGet => assoc_get_of(fields),
        ReadWord::AssocCount => assoc_count_of(fields),
        ReadWord::AssocRange => assoc_range_of(fields),
        ReadWord::AssocTimeRange => assoc_time_range_of(fields),
    }
}

fn obj_get_of(fields: &Fields<'_, '_>) -> Result<ReadCall, LineRefusal>
    ensures { Gives unless_memory result (obj_get_of (said fields.now)) }
{
    let call = ReadCall {
        session: session_field(fields)?,
        query: QueryText::ObjGet {
            id: fields.id("id")?,
        },
        critical: fields.flag("critical")?,
    };
    fields.only(&["do", "session", "id", "critical"])?;
    Ok(call)
}

fn assoc_get_of(fields: &Fields<'_, '_>) -> Result<ReadCall, LineRefusal>
    ensures { Gives unless_memory result (assoc_get_of (said fields.now)) }
{
    let call = ReadCall {
        session: session_field(fields)?,
        query: QueryText::AssocGet {
            list: fields.list()?,
            ids: fields.ids("ids")?,
            high: fields.maybe_small("high")?,
            low: fields.maybe_small("low")?,
        },
        critical: fields.flag("critical")?,
    };
    fields.only(&[
        "do", "session", "id1", "atype", "ids", "high", "low", "critical",
    ])?;
    Ok(call)
}

fn assoc_count_of(fields: &Fields<'_, '_>) -> Result<ReadCall, LineRefusal>
    ensures { Gives unless_memory result (assoc_count_of (said fields.now)) }
{
    let call = ReadCall {
        session: session_field(fields)?,
        query: QueryText::AssocCount {
            list: fields.list()?,
        },
        critical: fields.flag("critical")?,
    };
    fields.only(&["do", "session", "id1", "atype", "critical"])?;
    Ok(call)
}

fn assoc_range_of(fields: &Fields<'_, '_>) -> Result<ReadCall, LineRefusal>
    ensures { Gives unless_memory result (assoc_range_of (said fields.now)) }
{
    let call = ReadCall {
        session: session_field(fields)?,
        query: QueryText::AssocRange {
            list: fields.list()?,
            pos: fields.small("pos", 0)?,
            limit: limit_field(fields)?,
        },
        critical: fields.flag("critical")?,
    };
    fields.only(&["do", "session", "id1", "atype", "pos", "limit", "critical"])?;
    Ok(call)
}

fn assoc_time_range_of(fields: &Fields<'_, '_>) -> Result<ReadCall, LineRefusal>
    ensures { Gives unless_memory result (assoc_time_range_of (said fields.now)) }
{
    let call = ReadCall {
        session: session_field(fields)?,
        query: QueryText::AssocTimeRange {
            list: fields.list()?,
            high: fields.small("high", 0)?,
            low: fields.small("low", 0)?,
            limit: limit_field(fields)?,
        },
        critical: fields.flag("critical")?,
    };
    fields.only(&[
        "do", "session", "id1", "atype", "high", "low", "limit", "critical",
    ])?;
    Ok(call)
}
