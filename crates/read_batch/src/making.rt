//! How a batch is made.
ghost use Rattle.std.specs.Prelude.{◌≡◌, ◌≤◌, [], IfErr, IfOk, OnOk, length, position, vec_capacity};
ghost use Rattle.shared_tiers.specs.locked_nodes.Passes.{IsPassOf};
ghost use Rattle.read_batch.specs.Refusing.{MakesBatch, RefusesBatch, asks_other};
ghost use Rattle.read_batch.specs.UnderWay.{IsUnderWay, under_way};

use crate::batch::Batch;
use crate::refusal::BatchRefusal;
use replies::Reply;
use requests::{Call, Request};
use session_pass::Pass;
use shared_stores::Sharing;
use shared_tiers::Cluster;
use std::alloc::{AllocGlobal, Global};
use std::mem;
use std::sync::Wait;
use tao_keeper::Keeper;
use tao_link::Link;

/// So many requests make a batch at most.
const MAX_REQUESTS: usize = 256;

/// Whether no read is asked.
fn asks_no_read(request: &Request) -> bool
    ensures { result ≡ asks_other request.now }
{
    !matches!(request, Request::Call(Call::Read(_)))
}

/// The place of the first request that isn't a read.
fn first_other(requests: &[Request]) -> Option<usize>
    ensures { result ≡ position asks_other requests.now }
{
    requests.iter().position(|request| asks_no_read(request))
}

/// Whether requests make a batch: no more than 256, each of which is a read.
fn check_requests(requests: &[Request]) -> Result<(), BatchRefusal>
    ensures makes { OnOk result (MakesBatch requests.now) }
    ensures refused { IfErr result (RefusesBatch requests.now) }
{
    if requests.len() > MAX_REQUESTS {
        return Err(BatchRefusal::TooMany {
            count: requests.len() as u64,
        });
    }
    match first_other(requests) {
        Some(place) => Err(BatchRefusal::NotRead {
            place: place as u64,
        }),
        None => Ok(()),
    }
}

/// Room for the replies to requests that make a batch.
pub(crate) fn room_for(alloc: Global, requests: &[Request]) -> Result<Vec<Reply>, BatchRefusal>
    ensures makes { OnOk result (MakesBatch requests.now) }
    ensures refused { IfErr result (RefusesBatch requests.now) }
    ensures room { IfOk result (λ replies. length requests.now ≤ vec_capacity replies) }
    ensures empty { IfOk result (λ replies. replies.items ≡ []) }
{
    check_requests(requests)?;
    match Vec::with_capacity(alloc, requests.len()) {
        Ok(replies) => Ok(replies),
        Err(_) => Err(BatchRefusal::OutOfMemory),
    }
}

/// A batch of reads of the pass's session, none of which is asked yet. It takes the room for all replies, which stands in `replies` then, empty.
///
/// More than 256 requests are refused as too many, and else the first that isn't one of the five reads is named. The one other error is out of memory.
pub fn read_batch<'a, 'c, R: Wait + AllocGlobal, K: Keeper, J: Sharing, L: Link>(
    rt: &'a R,
    cluster: &'a Cluster<'c, K, J>,
    pass: &'a mut Pass,
    link: &'a mut L,
    requests: &'a [Request],
    replies: &'a mut Vec<Reply>,
) -> Result<Batch<'a, 'c, R, K, J, L>, BatchRefusal>
    requires { IsPassOf J.making J.log pass.old }
    ensures makes { OnOk result (MakesBatch requests.now) }
    ensures refused { IfErr result (RefusesBatch requests.now) }
    ensures ready { IfOk result (λ batch. IsUnderWay J.making J.log (under_way L.shown batch)) }
    ensures requests { IfOk result (λ batch. batch.requests.now ≡ requests.now) }
    ensures replies { IfOk result (λ batch. batch.replies.now.items ≡ []) }
    ensures pass { IfOk result (λ batch. batch.pass.now ≡ pass.old) }
    ensures link { IfOk result (λ batch. batch.link.now ≡ link.old) }
    ensures same_pass { IfOk result (λ batch. batch.pass.ghost_name ≡ pass.entry.ghost_name) }
    ensures same_link { IfOk result (λ batch. batch.link.ghost_name ≡ link.entry.ghost_name) }
{
    match room_for(rt.alloc(), requests) {
        Ok(room) => {
            drop(mem::replace(replies, room));
            Ok(begin(rt, cluster, pass, link, requests, replies))
        }
        Err(refusal) => Err(refusal),
    }
}

/// A batch of requests that make one, with room for their replies.
pub(crate) fn begin<'a, 'c, R, K: Keeper, J: Sharing, L: Link>(
    rt: &'a R,
    cluster: &'a Cluster<'c, K, J>,
    pass: &'a mut Pass,
    link: &'a mut L,
    requests: &'a [Request],
    replies: &'a mut Vec<Reply>,
) -> Batch<'a, 'c, R, K, J, L>
    requires pass { IsPassOf J.making J.log pass.old }
    requires room { length requests.now ≤ vec_capacity replies.old }
    requires empty { replies.old.items ≡ [] }
    ensures ready { IsUnderWay J.making J.log (under_way L.shown result) }
    ensures requests { result.requests.now ≡ requests.now }
    ensures replies { result.replies.now.items ≡ [] }
    ensures pass { result.pass.now ≡ pass.old }
    ensures link { result.link.now ≡ link.old }
    ensures same_pass { result.pass.ghost_name ≡ pass.entry.ghost_name }
    ensures same_link { result.link.ghost_name ≡ link.entry.ghost_name }
{
    Batch {
        rt,
        cluster,
        pass,
        link,
        requests,
        replies,
    }
}
