//! The batch that an object asks.
ghost use Rattle.std.specs.Prelude.{◌≡◌, IfOk, IfSome, Option, option_map};
ghost use Rattle.std.specs.List.{list_all};
ghost use Rattle.outcomes.specs.Results.{Gives};
ghost use Rattle.requests.specs.declared.request.Request.{Request};
ghost use Rattle.request_json.specs.Refusal.{unless_memory};
ghost use Rattle.serde_json.specs.Data.{Data};
ghost use Rattle.talk_lines.specs.Batches.{AreBatch, are_batch, batch_reads, is_read_of, read_said, said};
ghost use Rattle.talk_lines.specs.Talk.{IsTalk, batch_of};

use crate::fields::{Fields, bad_line};
use crate::line::TalkLine;
use crate::reads::{read_call_of, session_field};
use crate::requests_list::Requests;
use json_fields::items::{ItemReader, each_at};
use json_fields::value::Json;
use request_json::LineRefusal;
use requests::{Call, Request};
use std::alloc::{AllocError, Global};

/// The most reads of a batch.
const MOST_READS: usize = 256;

/// Reads a read.
struct CallReader;

impl ItemReader<Request> for CallReader {
    ghost said = { read_said };

    fn read(alloc: Global, value: &Json<'_>) -> Result<Option<Request>, AllocError> {
        match read_call_of(&Fields { alloc, value }) {
            Ok(call) => Ok(Some(Request::Call(Call::Read(call)))),
            Err(LineRefusal::OutOfMemory) => Err(AllocError),
            Err(_) => Ok(None),
        }
    }
}

/// Whether a request is a read of the session.
fn is_read_of(session: u32, request: &Request) -> bool
    ensures { result ≡ is_read_of session request.now }
{
    match request {
        Request::Call(Call::Read(read)) => read.session == session,
        _ => false,
    }
}

/// Whether requests are all reads of the session.
fn are_reads_of(session: u32, requests: &[Request]) -> bool
    ensures { result ≡ list_all (is_read_of session) requests.now }
{
    for request in requests {
        if !is_read_of(session, request) {
            return false;
        }
    }
    true
}

/// Whether requests are as many reads of the session as a batch may have.
fn are_batch(session: u32, requests: &[Request]) -> bool
    ensures { result ≡ are_batch session requests.now }
{
    1 <= requests.len() && requests.len() <= MOST_READS && are_reads_of(session, requests)
}

/// The reads in the field `requests`: nothing where they aren't 1 to 256 of the session.
#[tactic(auto, using(crate::proofs::BatchLemmas::are_reads))]
fn batch_reads(fields: &Fields<'_, '_>, session: u32) -> Result<Option<Vec<Request>>, AllocError>
    ensures reads { IfOk result (λ read. option_map (λ v. v.items) read ≡ batch_reads session (said fields.now)) }
    ensures batch { IfOk result (λ read. IfSome read (λ v. AreBatch session v.items)) }
{
    let Some(requests) = each_at::<Request, CallReader>(fields.alloc, fields.value, "requests")?
    else {
        return Ok(None);
    };
    if are_batch(session, &requests) {
        Ok(Some(requests))
    } else {
        drop(requests);
        Ok(None)
    }
}

pub(crate) fn batch_of(fields: &Fields<'_, '_>) -> Result<TalkLine, LineRefusal>
    ensures reads { Gives unless_memory result (batch_of (said fields.now)) }
    ensures batch { IfOk result IsTalk }
{
    let session = session_field(fields)?;
    let Some(requests) = batch_reads(fields, session)? else {
        return Err(bad_line(fields.alloc, "requests"));
    };
    fields.only(&["do", "session", "requests"])?;
    Ok(TalkLine::Batch {
        session,
        requests: Requests::of(requests),
    })
}
