//! Which herd a request's reader belongs to.
ghost use Rattle.std.specs.Prelude.{IfSome};
ghost use Rattle.read_herds.specs.Asking.{IsHerdOf, ReadsAs, ReadsKey};

use herd_state::HerdName;
use request_check::{Checked, CheckedCall, CheckedRead, check};
use requests::Request;
use session_pass::Pass;
use std::alloc::Global;
use topology::Config;

/// The herd of a request, for the session of the pass: none for any other request than a read, for a critical one, for one of whose names one isn't there,
/// and for want of memory. Costs what `check` does.
#[tactic(auto, using(crate::proofs::AskingLemmas::is_herd))]
pub(crate) fn herd_of(
    alloc: Global,
    config: &Config,
    pass: &Pass,
    request: &Request,
) -> Option<HerdName>
    ensures { IfSome result (IsHerdOf config.now pass.now request.now) }
{
    match check(alloc, config, request) {
        Ok(checked) => herd_of_checked(pass, &checked),
        Err(_) => None,
    }
}

/// The herd of a request whose names are places.
fn herd_of_checked(pass: &Pass, checked: &Checked) -> Option<HerdName>
    ensures { IfSome result (ReadsAs pass.now checked.now) }
{
    match checked {
        Checked::Call(CheckedCall::Read(read)) => herd_of_read(pass, read),
        _ => None,
    }
}

/// The herd of a read, unless that is critical.
fn herd_of_read(pass: &Pass, read: &CheckedRead) -> Option<HerdName>
    ensures { IfSome result (ReadsKey pass.now read.now) }
{
    if read.critical {
        return None;
    }
    Some(HerdName {
        region: pass.region(),
        tier: pass.tier(),
        key: read.query.key(),
    })
}
