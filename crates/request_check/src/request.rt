//! The check of a request.
ghost use Rattle.std.specs.Prelude.{IfOk};
ghost use Rattle.request_check.specs.Names.{settings};
ghost use Rattle.outcomes.specs.Results.{Gives};
ghost use Rattle.request_check.specs.Refusal.{for_name, replied, reply_unless_memory, name_unless_memory};
ghost use Rattle.request_check.specs.Requests.{IsPlaced, checked_of, checked_open};

use crate::caches::checked_cache;
use crate::calls::checked_call;
use crate::checked::Checked;
use crate::health::checked_health;
use crate::links::checked_link;
use crate::names::Names;
use crate::plans::checked_plan;
use crate::refusal::{CheckRefusal, NameError};
use crate::stores::checked_store;
use requests::{OpenCall, Request};
use std::alloc::Global;
use topology::Config;

/// The request with the places of what it names, or the first refusal of a name: an unknown region or
/// tier, then an unknown node, or one of a kind that the request doesn't take, then an unknown type,
/// a shard that isn't configured, a change to the type that the edge has, and more ids than edges of
/// the type are kept. A call within another request counts as that request. Copies data and ids, and
/// takes time in their length; a name of a region or tier is compared with each.
pub fn check(alloc: Global, config: &Config, request: &Request) -> Result<Checked, CheckRefusal>
    ensures checked { Gives reply_unless_memory result (replied (for_name (checked_of config.now request.now))) }
    // Each region, tier, cache node, shard and key that is named is configured, and a change of type is one.
    ensures placed { IfOk result (IsPlaced config.now) }
{
    let checked = checked_of(&Names { alloc, config }, request)?;
    Ok(checked)
}

fn checked_of(names: &Names<'_>, request: &Request) -> Result<Checked, NameError>
    ensures { Gives name_unless_memory result (checked_of (settings names.now) request.now) }
{
    match request {
        Request::Open(opening) => checked_open(names, opening),
        Request::Call(call) => checked_call(names, call).map(Checked::Call),
        Request::Plan(asked) => checked_plan(names, asked).map(Checked::Plan),
        Request::Cache(asked) => checked_cache(names, asked).map(Checked::Cache),
        Request::Store(asked) => checked_store(names, asked).map(Checked::Store),
        Request::Health(asked) => checked_health(names, asked).map(Checked::Health),
        Request::Link(asked) => checked_link(names, asked).map(Checked::Link),
    }
}

fn checked_open(names: &Names<'_>, opening: &OpenCall) -> Result<Checked, NameError>
    ensures { Gives name_unless_memory result (checked_open (settings names.now) opening.now) }
{
    let place = names.tier(opening.region.as_str(), opening.tier.as_str())?;
    Ok(Checked::Open {
        session: opening.session,
        region: place.region,
        tier: place.tier,
    })
}
