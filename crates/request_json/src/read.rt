//! What a line asks.
ghost use Rattle.json_fields.specs.View.{view};
ghost use Rattle.outcomes.specs.Results.{Gives};
ghost use Rattle.request_json.specs.Refusal.{unless_memory};
ghost use Rattle.request_json.specs.Fields.{said};
ghost use Rattle.request_json.specs.Requests.{request_in, request_by, request_of};

use crate::caches::{delivery_of, drop_of, evict_of, inbox_of, refilling_of, show_of};
use crate::calls::{read_of, write_of};
use crate::fields::{Fields, bad_line};
use crate::health::health_of;
use crate::links::link_of;
use crate::plans::planning_of;
use crate::refusal::LineRefusal;
use crate::sessions::open_of;
use crate::stores::{audit_of, repair_of, settle_of, stream_of, trim_of};
use crate::word::word_of;
use json_fields::lines::{LineMemory, parse};
use json_fields::value::Json;
use requests::{Call, Request};
use std::alloc::Global;
use words::Word;

/// What a line asks: exactly the requests are taken, and a line that is none is refused for the first
/// rule that it breaks. Reads the line once, and each of its fields a few times. The memory is kept from line to line.
pub fn read_request(
    alloc: Global,
    memory: &mut LineMemory,
    line: &[u8],
) -> Result<Request, LineRefusal>
    ensures { Gives unless_memory result (request_in line.now) }
{
    match parse(alloc, memory, line)? {
        Some(value) => request_by(alloc, &value),
        None => Err(bad_line(alloc, "")),
    }
}

fn request_by(alloc: Global, value: &Json<'_>) -> Result<Request, LineRefusal>
    ensures { Gives unless_memory result (request_by (view value.now)) }
{
    if !value.is_object() {
        return Err(bad_line(alloc, ""));
    }
    match word_of(value) {
        Some(word) => request_of(word, &Fields { alloc, value }),
        None => Err(bad_line(alloc, "do")),
    }
}

fn request_of(word: Word, fields: &Fields<'_, '_>) -> Result<Request, LineRefusal>
    ensures { Gives unless_memory result (request_of word (said fields.now)) }
{
    match word {
        Word::Open => open_of(fields).map(Request::Open),
        Word::Write(word) => write_of(word, fields).map(|call| Request::Call(Call::Write(call))),
        Word::Read(word) => read_of(word, fields).map(|call| Request::Call(Call::Read(call))),
        Word::Plan(word) => planning_of(word, fields).map(Request::Plan),
        Word::Delivery(word) => delivery_of(word, fields).map(Request::Cache),
        Word::Drop => drop_of(fields).map(Request::Cache),
        Word::Inbox => inbox_of(fields).map(Request::Cache),
        Word::Refill => refilling_of(fields).map(Request::Cache),
        Word::Evict => evict_of(fields).map(Request::Cache),
        Word::Show => show_of(fields).map(Request::Cache),
        Word::Stream => stream_of(fields).map(Request::Store),
        Word::Trim => trim_of(fields).map(Request::Store),
        Word::Repair => repair_of(fields).map(Request::Store),
        Word::Settle => settle_of(fields).map(Request::Store),
        Word::Audit => audit_of(fields).map(Request::Store),
        Word::Health(word) => health_of(word, fields).map(Request::Health),
        Word::Link(word) => link_of(word, fields).map(Request::Link),
    }
}
