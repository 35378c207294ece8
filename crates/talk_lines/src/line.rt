//! What a line of a connection asks.
ghost use Rattle.std.specs.Prelude.{◌≡◌, Err, IfOk};
ghost use Rattle.json_fields.specs.View.{view};
ghost use Rattle.outcomes.specs.Results.{Gives};
ghost use Rattle.request_json.specs.Refusal.{unless_memory};
ghost use Rattle.request_json.specs.Requests.{request_in};
ghost use Rattle.requests.specs.declared.request.Request.{Request};
ghost use Rattle.talk_lines.specs.Talk.{IsTalk, asks_batch, batch_by, batch_in, names_word, talk_in};

use crate::batch::batch_of;
use crate::fields::{Fields, bad_line};
use crate::requests_list::Requests;
use json_fields::fields::text_at;
use json_fields::lines::{LineMemory, parse};
use json_fields::value::Json;
use request_json::{LineRefusal, read_request};
use requests::Request;
use std::alloc::Global;

/// What a line of a connection asks.
#[derive(Drop)]
pub enum TalkLine {
    /// A request, as a line of a store anywhere.
    One(Request),
    /// Reads of the session, 1 to 256 of them, which are answered by one line.
    Batch { session: u32, requests: Requests },
}

/// What a line of a connection asks: a batch where its word is that, and else exactly the requests are taken. A line that is neither is refused for the
/// first rule that it breaks; whatever of a batch's requests isn't as it has to be breaks the field `requests`. Reads the line as `read_request`
/// does, and a batch's once more. The memory is kept from line to line.
#[tactic(auto, using(crate::proofs::TalkLemmas::talk_of_request))]
pub fn read_talk(
    alloc: Global,
    memory: &mut LineMemory,
    line: &[u8],
) -> Result<TalkLine, LineRefusal>
    ensures reads { Gives unless_memory result (talk_in line.now) }
    ensures batch { IfOk result IsTalk }
{
    match read_request(alloc, memory, line) {
        Ok(request) => Ok(TalkLine::One(request)),
        Err(refused) => read_other(alloc, memory, line, refused),
    }
}

/// Whether a line is refused for its word.
fn names_word(refused: &LineRefusal) -> bool
    ensures { result ≡ names_word refused.now }
{
    match refused {
        LineRefusal::BadLine { field } => field.as_str() == "do",
        _ => false,
    }
}

/// What a line asks that is refused as a request: a batch, where that is its word.
#[tactic(auto, using(crate::proofs::TalkLemmas::talk_read, crate::proofs::TalkLemmas::other_kept))]
fn read_other(
    alloc: Global,
    memory: &mut LineMemory,
    line: &[u8],
    refused: LineRefusal,
) -> Result<TalkLine, LineRefusal>
    requires refused { Gives {A = Request} unless_memory (Err refused) (request_in line.now) }
    ensures reads { Gives unless_memory result (talk_in line.now) }
    ensures batch { IfOk result IsTalk }
{
    if names_word(&refused) {
        drop(refused);
        read_batch(alloc, memory, line)
    } else {
        Err(refused)
    }
}

/// The batch that a line asks for. One of another word is refused for that.
fn read_batch(alloc: Global, memory: &mut LineMemory, line: &[u8]) -> Result<TalkLine, LineRefusal>
    ensures reads { Gives unless_memory result (batch_in line.now) }
    ensures batch { IfOk result IsTalk }
{
    match parse(alloc, memory, line)? {
        Some(value) => batch_by(alloc, &value),
        None => Err(bad_line(alloc, "do")),
    }
}

/// The batch that a value asks for. One of another word is refused for that.
fn batch_by(alloc: Global, value: &Json<'_>) -> Result<TalkLine, LineRefusal>
    ensures reads { Gives unless_memory result (batch_by (view value.now)) }
    ensures batch { IfOk result IsTalk }
{
    if asks_batch(value) {
        batch_of(&Fields { alloc, value })
    } else {
        Err(bad_line(alloc, "do"))
    }
}

/// Whether a value asks for a batch.
fn asks_batch(value: &Json<'_>) -> bool
    ensures { result ≡ asks_batch (view value.now) }
{
    match text_at(value, "do") {
        Some(text) => text == "batch",
        None => false,
    }
}
