//! What is played on a cluster.
ghost use Rattle.std.specs.Prelude.{◌≡◌, length, true};
ghost use Rattle.core_model.specs.Stores.{store_count};
ghost use Rattle.new_stores.specs.Empty.{tables_of};
ghost use Rattle.shared_tiers.specs.cluster_opening.Opening.{IsOpenedOver, logs_of, making_of};

use crate::clients::Client;
use crate::closing::close_after;
use crate::many_counts::counts_said;
use crate::pumping::pump;
use crate::together::write_together;
use cluster_plays::{Ask, Steady};
use config_json::read_config;
use keepers::SteadyKeeper;
use new_stores::open_new;
use shared_stores::Sharing;
use shared_tiers::cluster_opening::Opened;
use std::alloc::{AllocGlobal, Global};
use std::marker::Brand;
use std::random::RandomSource;
use std::sync::Wait;
use std::thread::Threads;
use topology::Config;

/// Where the sessions are at home, which count from 1: the places of region and tier.
pub(crate) const HOMES: [(u16, u16); 3] = [(0, 0), (0, 1), (1, 0)];

/// What is done in turn.
#[derive(Clone, Copy)]
pub(crate) enum Step {
    /// A session asks.
    By(u32, Ask),
    /// A node is pumped.
    Pump(&'static str),
}

/// What is told of a cluster that is closed after steps.
#[derive(Clone, Copy)]
pub(crate) struct Closing<'p> {
    pub(crate) steps: &'p [Step],
    /// The leaders and followers whose marks are told.
    pub(crate) nodes: &'p [&'p str],
    /// The stores of whose logs the keepers tell.
    pub(crate) stores: &'p [&'p str],
}

/// What is played.
#[derive(Clone, Copy)]
pub(crate) enum Play<'p> {
    Steps(&'p [Step]),
    /// So many lists are counted by one session.
    Counts(u64),
    /// Two threads each write so often.
    Together(u64),
    /// The cluster is closed after steps.
    Closing(&'p Closing<'p>),
}

/// The sessions of the homes that are configured.
fn clients<J: Sharing, R: Wait>(
    rt: &R,
    alloc: Global,
    cluster: &Steady<'_, J>,
) -> Option<Vec<Client<J>>> {
    let mut clients = Vec::new(alloc);
    let mut session = 0_u32;
    for home in HOMES {
        session = session.saturating_add(1);
        if let Some(client) = Client::open(rt, cluster, session, home) {
            clients.push(client).ok()?;
        }
    }
    Some(clients)
}

/// What is said to a session that asks.
fn asked<J: Sharing, R: Wait>(
    rt: &R,
    alloc: Global,
    cluster: &Steady<'_, J>,
    clients: &mut [Client<J>],
    session: u32,
    ask: Ask,
) -> Option<String> {
    let place = usize::try_from(session).ok()?.checked_sub(1)?;
    match clients.get_mut(place) {
        Some(client) => client.told(rt, alloc, cluster, ask),
        None => None,
    }
}

/// What is said to a step.
fn said<J: Sharing, R: Wait>(
    rt: &R,
    alloc: Global,
    cluster: &Steady<'_, J>,
    clients: &mut [Client<J>],
    step: Step,
) -> Option<String> {
    match step {
        Step::By(session, ask) => asked(rt, alloc, cluster, clients, session, ask),
        Step::Pump(node) => pump(rt, alloc, cluster, node),
    }
}

/// Adds a line. None where there is none, or no memory for it.
pub(crate) fn add_line(lines: &mut Vec<String>, line: Option<String>) -> Option<()> {
    lines.push(line?).ok()
}

/// Adds to the lines what is said to each step.
fn each_said<J: Sharing, R: Wait>(
    rt: &R,
    alloc: Global,
    cluster: &Steady<'_, J>,
    clients: &mut [Client<J>],
    steps: &[Step],
    lines: &mut Vec<String>,
) -> Option<()> {
    for step in steps {
        add_line(lines, said(rt, alloc, cluster, clients, *step))?;
    }
    Some(())
}

/// Adds to the lines what is said to each step, by sessions that are opened before.
fn steps_said<J: Sharing, R: Wait>(
    rt: &R,
    alloc: Global,
    cluster: &Steady<'_, J>,
    steps: &[Step],
    lines: &mut Vec<String>,
) -> Option<()> {
    let mut clients = clients(rt, alloc, cluster)?;
    let done = each_said(rt, alloc, cluster, clients.as_mut_slice(), steps, lines);
    drop(clients);
    done
}

/// Adds to the lines what is said to a play.
fn play_on<J: Sharing + Send + Sync, R: Threads + Wait + Sync>(
    rt: &R,
    alloc: Global,
    cluster: &Steady<'_, J>,
    what: &Play<'_>,
    lines: &mut Vec<String>,
) -> Option<()> {
    match what {
        Play::Steps(steps) => steps_said(rt, alloc, cluster, steps, lines),
        Play::Counts(lists) => add_line(lines, counts_said(rt, alloc, cluster, *lists)),
        Play::Together(times) => add_line(lines, write_together(rt, alloc, cluster, *times)),
        Play::Closing(closing) => steps_said(rt, alloc, cluster, closing.steps, lines),
    }
}

/// Adds to the lines what is said at the end of a play.
fn end<J: Sharing, R: Wait>(
    rt: &R,
    alloc: Global,
    config: &Config,
    cluster: Steady<'_, J>,
    what: &Play<'_>,
    lines: &mut Vec<String>,
) -> Option<()> {
    match what {
        Play::Closing(closing) => close_after(rt, alloc, config, cluster, closing, lines),
        _ => {
            drop(cluster);
            Some(())
        }
    }
}

/// What is said to a play on a cluster.
fn lines_of<J: Sharing + Send + Sync, R: Threads + Wait + RandomSource + AllocGlobal + Sync>(
    rt: &R,
    config: &Config,
    cluster: Steady<'_, J>,
    what: &Play<'_>,
) -> Option<Vec<String>> {
    let mut lines = Vec::new(rt.alloc());
    let played = play_on(rt, rt.alloc(), &cluster, what, &mut lines);
    let ended = end(rt, rt.alloc(), config, cluster, what, &mut lines);
    played?;
    ended?;
    Some(lines)
}

/// The same on stores that were opened, behind locks that are named.
fn played_named<R: Threads + Wait + RandomSource + AllocGlobal + Sync, J: Sharing + Send + Sync>(
    rt: &R,
    opened: Opened<'_, SteadyKeeper>,
    what: &Play<'_>,
) -> Option<Vec<String>>
    requires many { length opened.keepers.items ≡ store_count opened.config.now }
    requires opened { IsOpenedOver true opened.config.now (tables_of opened.config.now opened.keepers.items) opened.fleet opened.cuts.items }
    requires log { J.log ≡ logs_of opened.fleet.stores }
    requires making { J.making ≡ making_of opened.config.now opened.fleet.stores opened.cuts.items }
{
    let config = opened.config;
    match Steady::<'_, J>::make(opened) {
        Ok(cluster) => lines_of(rt, config, cluster, what),
        Err(fail) => {
            drop(fail);
            None
        }
    }
}

/// The same on stores that were opened. It is no `ClusterPlay`: what is sent to a thread may rest on no bound that an `impl` assumes.
fn played_opened<R: Threads + Wait + RandomSource + AllocGlobal + Sync>(
    rt: &R,
    opened: Opened<'_, SteadyKeeper>,
    what: &Play<'_>,
) -> Option<Vec<String>>
    requires many { length opened.keepers.items ≡ store_count opened.config.now }
    requires opened { IsOpenedOver true opened.config.now (tables_of opened.config.now opened.keepers.items) opened.fleet opened.cuts.items }
{
    played_named::<R, Brand>(rt, opened, what)
}

/// What is said to a play on a new cluster of the configuration of a line. None for want of memory, or where the line is no configuration.
pub(crate) fn played<R: Threads + Wait + RandomSource + AllocGlobal + Sync>(
    rt: &R,
    line: &str,
    what: &Play<'_>,
) -> Option<Vec<String>> {
    let alloc = rt.alloc();
    let Ok(config) = read_config(alloc, line.as_bytes()) else {
        return None;
    };
    match open_new(alloc, &config, line.as_bytes()) {
        Ok(opened) => played_opened(rt, opened, what),
        Err(_) => None,
    }
}
