//! What a reader does once it has asked its herd.
ghost use Rattle.futures.specs.Task.{Keeps};
ghost use Rattle.read_herds.specs.Herding.{source_of};
ghost use Rattle.read_herds.specs.Turns.{AfterJoin, TurnsTo};

use crate::herd::Herd;
use futures::task::Context;
use herd_state::{HerdName, HerdTicket, Joined, Waits};
use std::sync::Wait;

/// What a reader does next.
pub(crate) enum Turn {
    /// It leads the herd: it reads, and then ends the lead.
    Leads(HerdTicket),
    /// It waits for the herd's lead.
    Waits,
    /// It reads on its own.
    Alone,
}

/// Asks the herd of the name, where there is one.
pub(crate) fn turn_of<R: Wait>(
    rt: &R,
    herd: &Herd,
    name: Option<HerdName>,
    cx: &mut Context<'_>,
    waits: &mut Waits,
) -> Turn
    ensures turns { TurnsTo name (source_of herd.now) cx.new waits.old waits.new result }
    ensures kept { Keeps cx.old cx.new }
{
    let Some(name) = name else {
        return Turn::Alone;
    };
    let asked = herd.join(rt, &name, cx, waits);
    match asked {
        Ok(joined) => turn_after(joined),
        Err(_) => Turn::Alone,
    }
}

/// What a reader does after what came of its join.
fn turn_after(joined: Joined) -> Turn
    ensures { AfterJoin joined result }
{
    match joined {
        Joined::Lead(ticket) => Turn::Leads(ticket),
        Joined::Wait => Turn::Waits,
        Joined::Alone { waiting: _ } => Turn::Alone,
    }
}
