//! What is counted of the replies to a workload's requests, and the line that tells it.
ghost use Rattle.std.specs.Prelude.{◌≡◌, ◌≤◌, IfOk};
ghost use Rattle.load_gen.specs.Summary.{is_call, is_refusal, is_settle, refusals_in, summary_text};

use replies::Reply;
use requests::{Request, StoreRequest};
use std::alloc::{AllocError, Global};
use tao_base::Bytes;

/// Whether a request is the settling, which is a workload's last one.
pub fn is_settle(request: &Request) -> bool
    ensures { result ≡ is_settle request.now }
{
    match request {
        Request::Store(StoreRequest::Settle) => true,
        _ => false,
    }
}

/// Whether a request is a call: neither a session's opening nor the settling.
pub fn is_call(request: &Request) -> bool
    ensures { result ≡ is_call request.now }
{
    match request {
        Request::Open(_) => false,
        request => !is_settle(request),
    }
}

/// Whether a reply is a refusal.
fn is_refusal(reply: &Reply) -> bool
    ensures { result ≡ is_refusal reply.now }
{
    match reply {
        Reply::Refused(_) => true,
        _ => false,
    }
}

/// How many calls were refused by a reply to a request: 1 where the request is a call and the reply a refusal.
pub fn refusals(request: &Request, reply: &Reply) -> u64
    ensures { result ≡ refusals_in request.now reply.now }
{
    if is_call(request) && is_refusal(reply) {
        1
    } else {
        0
    }
}

/// The text that tells how many calls a workload has, and how many of them were refused.
pub fn summary(alloc: Global, calls: u64, refused: u64) -> Result<Bytes, AllocError>
    ensures { IfOk result (λ text. text ≡ summary_text calls refused) }
{
    let text = format!(in alloc; "{{\"calls\":{calls},\"ok\":\"gen\",\"refused\":{refused}}}")?;
    Ok(Bytes::of(text.into_bytes()))
}
