//! The leads that are open.
ghost use Rattle.std.specs.Prelude.{◌≡◌, [], IfOk};
ghost use Rattle.futures.specs.Task.{Keeps};
ghost use Rattle.herd_state.specs.Herds.{EndsAs, GivesThose, IsHeard, JoinsAs, OpensAs, WaitsAs, waits_after};

use crate::name::HerdName;
use crate::waiting::Waiting;
use crate::waits::Waits;
use futures::task::{Context, Source};
use indexmap::IndexMap;
use std::alloc::Global;
use std::marker::Model;
use tao_base::OutOfMemory;

/// How many leads may be open before the first one takes more memory.
const SPARE: usize = 64;

/// Leave to lead the read of a name, until the lead is ended. It can't be let go: whoever has it ends it.
pub struct HerdTicket {
    name: HerdName,
}

impl Model for HerdTicket {
    ghost use Rattle.herd_state.specs.declared.name.HerdName.{HerdName};

    ghost Value = { HerdName };

    ghost view = { λ ticket. ticket.name };
}

/// What came of a join.
pub enum Joined {
    /// No lead of the name was open, and now one is. It is to be ended by the ticket.
    Lead(HerdTicket),
    /// The reader's waker stands in the lead's list.
    Wait,
    /// So many wait already that no more are taken in.
    Alone { waiting: u64 },
}

/// The leads that are open, each with those who wait for it. A lead is looked up in constant time, whatever their number.
#[derive(Drop)]
pub struct HerdState {
    alloc: Global,
    leads: IndexMap<HerdName, Waiting>,
}

impl Model for HerdState {
    ghost use Rattle.herd_state.specs.Leads.{Leads};

    ghost Value = { Leads };

    ghost view = { λ state. state.leads.entries };
}

impl HerdState {
    /// No lead is open. The one error is out of memory.
    pub fn make(alloc: Global) -> Result<HerdState, OutOfMemory>
        ensures { IfOk result (λ state. state ≡ []) }
    {
        Ok(HerdState {
            alloc,
            leads: IndexMap::with_capacity(alloc, SPARE)?,
        })
    }

    /// Asks to read the key of a name, for the task of the context.
    ///
    /// It leads exactly where no lead of the name is open, and is alone exactly where 1,024 wait for that lead. Else it waits: its waker then stands last in
    /// the lead's list, registered at the source, and its count of waits is one more, which stays the same in each other case. After the one error, out of
    /// memory, all leads are as they were. One look-up.
    pub fn join(
        &mut self,
        name: &HerdName,
        source: &Source,
        cx: &mut Context<'_>,
        waits: &mut Waits,
    ) -> Result<Joined, OutOfMemory>
        ensures joins { JoinsAs name.now cx.old cx.new self.old self.new result }
        ensures waits { waits.new ≡ waits_after result waits.old }
        ensures heard { IsHeard source.now.id cx.new result }
        ensures kept { Keeps cx.old cx.new }
    {
        match self.leads.get_mut(name) {
            Some(waiting) => wait_for(waiting, source, cx, waits),
            None => Ok(Joined::Lead(self.lead(name)?)),
        }
    }

    /// Opens a lead of the name, for which nobody waits.
    fn lead(&mut self, name: &HerdName) -> Result<HerdTicket, OutOfMemory>
        ensures { OpensAs name.now self.old self.new result }
    {
        self.leads.insert(*name, Waiting::make(self.alloc))?;
        Ok(HerdTicket { name: *name })
    }

    /// Closes the lead of the ticket, and gives those who waited for it: nobody where that lead isn't open. One look-up; takes no memory.
    pub fn end(&mut self, ticket: HerdTicket) -> Waiting
        ensures { EndsAs ticket self.old self.new result }
    {
        let HerdTicket { name } = ticket;
        let found = self.leads.swap_remove(&name);
        those_of(self.alloc, found)
    }
}

/// Those who waited for a lead, if it was open.
fn those_of(alloc: Global, found: Option<Waiting>) -> Waiting
    ensures { GivesThose found result }
{
    match found {
        Some(waiting) => waiting,
        None => Waiting::make(alloc),
    }
}

/// Waits for an open lead, or is alone where too many wait for it.
fn wait_for(
    waiting: &mut Waiting,
    source: &Source,
    cx: &mut Context<'_>,
    waits: &mut Waits,
) -> Result<Joined, OutOfMemory>
    ensures waits { WaitsAs cx.old cx.new waiting.old waiting.new result }
    ensures count { waits.new ≡ waits_after result waits.old }
    ensures heard { IsHeard source.now.id cx.new result }
    ensures kept { Keeps cx.old cx.new }
{
    if waiting.is_full() {
        return Ok(Joined::Alone { waiting: 1024 });
    }
    waiting.take_in(source, cx)?;
    waits.rise();
    Ok(Joined::Wait)
}
