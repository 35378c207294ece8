//! Two threads put and take. What is found is the same whatever the schedule.
ghost use Rattle.std.specs.Prelude.{◌≡◌, false};
ghost use Rattle.log_names.specs.Names.{IsOfLog};

use super::messages::{Known, known_at, known_of, message_at, note_of_new_log};
use log_names::Logs;
use shard_log::Note;
use shared_inbox::{InboxPass, SharedInbox};
use std::alloc::Global;
use std::marker::Brand;
use std::sync::Wait;
use std::test::Fail;
use std::thread::{Threads, join, yield_now};

/// How many messages a thread puts.
const SENT: u64 = 100;

/// How many takes of a thread may find nothing.
const MOST_TURNS: u64 = 10_000_000;

/// What a thread took, in its order, how many of its takes found nothing, and by how much its pass's count rose.
#[derive(Drop)]
struct Taken {
    known: Vec<Known>,
    nones: u64,
    empties: u64,
}

/// Puts the messages of a shard, and says whether all were put.
fn put_all<J: Logs, R: Wait>(
    rt: &R,
    alloc: Global,
    inbox: &SharedInbox<J>,
    pass: &mut InboxPass<J>,
    note: &mut Note,
    shard: u16,
) -> bool
    requires inbox { pass.old.inbox ≡ inbox.now }
    requires log { IsOfLog J.log shard note.old }
    requires told { note.old.log.told ≡ false }
    ensures { pass.new ≡ pass.old }
{
    for turn in 0..SENT {
        let Some(message) = message_at::<J>(alloc, note, shard, turn + 1) else {
            return false;
        };
        if inbox.put(rt, pass, message).is_err() {
            return false;
        }
    }
    true
}

/// Takes messages until it has so many, or too many takes found nothing.
fn take_all<J: Logs, R: Wait>(
    rt: &R,
    alloc: Global,
    inbox: &SharedInbox<J>,
    pass: &mut InboxPass<J>,
    count: usize,
) -> Option<Taken>
    requires { pass.old.inbox ≡ inbox.now }
    ensures { pass.new.inbox ≡ pass.old.inbox }
{
    let mut known = Vec::new(alloc);
    let mut nones = 0_u64;
    let before = pass.empties();
    for _ in rt.forever() {
        if known.len() >= count || nones >= MOST_TURNS {
            break;
        }
        match inbox.take(rt, pass) {
            Some(message) => known.push(known_of(&message)?).ok()?,
            None => {
                nones = nones.saturating_add(1);
                yield_now();
            }
        }
    }
    let empties = pass.empties().saturating_sub(before);
    Some(Taken {
        known,
        nones,
        empties,
    })
}

/// Puts the messages of a shard, and takes as many.
fn put_and_take<J: Logs, R: Wait>(
    rt: &R,
    alloc: Global,
    inbox: &SharedInbox<J>,
    mut pass: InboxPass<J>,
    mut note: Note,
    shard: u16,
) -> Option<Taken>
    requires inbox { pass.inbox ≡ inbox.now }
    requires log { IsOfLog J.log shard note }
    requires told { note.log.told ≡ false }
{
    if put_all(rt, alloc, inbox, &mut pass, &mut note, shard) {
        take_all(rt, alloc, inbox, &mut pass, SENT as usize)
    } else {
        None
    }
}

/// One thread puts the messages of shard 0 while the other takes them.
fn relay<J: Logs + Send + Sync, R: Threads + Wait + Sync>(
    rt: &R,
    alloc: Global,
    mut note: Note,
) -> Option<Taken>
    requires log { IsOfLog J.log 0 note }
    requires told { note.log.told ≡ false }
{
    let Ok((inbox, pass)) = SharedInbox::<J>::make(alloc) else {
        return None;
    };
    let mut pass = pass;
    let Ok(mut other) = pass.split() else {
        return None;
    };
    let (_, taken) = join(
        rt,
        || -> bool
            requires inbox { pass.inbox ≡ inbox }
            requires log { IsOfLog J.log 0 note }
            requires told { note.log.told ≡ false }
        { put_all(rt, alloc, &inbox, &mut pass, &mut note, 0) },
        || -> Option<Taken>
            requires { other.inbox ≡ inbox }
        { take_all(rt, alloc, &inbox, &mut other, SENT as usize) },
    );
    taken
}

/// Two threads each put the messages of a shard, and take as many. Then a third pass takes once.
fn exchange<J: Logs + Send + Sync, R: Threads + Wait + Sync>(
    rt: &R,
    alloc: Global,
    mut note: Note,
) -> Option<(Taken, Taken, bool)>
    requires first { IsOfLog J.log 0 note }
    requires second { IsOfLog J.log 1 note }
    requires told { note.log.told ≡ false }
{
    let Ok((inbox, pass)) = SharedInbox::<J>::make(alloc) else {
        return None;
    };
    let mut pass = pass;
    let (Ok(other), Ok(own), Ok(mut last)) = (pass.split(), note.split(), inbox.inbox_pass()) else {
        return None;
    };
    let (one, two) = join(
        rt,
        || -> Option<Taken>
            requires inbox { pass.inbox ≡ inbox }
            requires log { IsOfLog J.log 0 note }
            requires told { note.log.told ≡ false }
        { put_and_take(rt, alloc, &inbox, pass, note, 0) },
        || -> Option<Taken>
            requires inbox { other.inbox ≡ inbox }
            requires log { IsOfLog J.log 1 own }
            requires told { own.log.told ≡ false }
        { put_and_take(rt, alloc, &inbox, other, own, 1) },
    );
    let (one, two) = (one?, two?);
    Some((one, two, inbox.take(rt, &mut last).is_some()))
}

fn named_relay<R: Threads + Wait + Sync>(rt: &R, alloc: Global, note: Note) -> Option<Taken>
    requires { note.log.told ≡ false }
{
    relay::<Brand, R>(rt, alloc, note)
}

fn named_exchange<R: Threads + Wait + Sync>(
    rt: &R,
    alloc: Global,
    note: Note,
) -> Option<(Taken, Taken, bool)>
    requires { note.log.told ≡ false }
{
    exchange::<Brand, R>(rt, alloc, note)
}

/// How many of the messages are of the shard. None where their positions don't rise, or one is known by other keys.
fn in_order(known: &[Known], shard: u16) -> Option<u64> {
    let (mut count, mut last) = (0_u64, 0);
    for one in known {
        if one.0 == shard {
            if one.1 <= last || *one != known_at(shard, one.1) {
                return None;
            }
            last = one.1;
            count = count.saturating_add(1);
        }
    }
    Some(count)
}

/// How many of the messages of the shard two threads took together, each in their order.
fn in_both(one: &Taken, two: &Taken, shard: u16) -> Option<u64> {
    let first = in_order(one.known.as_slice(), shard)?;
    first.checked_add(in_order(two.known.as_slice(), shard)?)
}

#[test]
fn what_one_thread_puts_another_takes_in_order(rt: HostRuntime) -> Result<(), Fail> {
    let alloc = rt.alloc();
    let note = note_of_new_log(alloc)?;
    let Some(taken) = named_relay(&rt, alloc, note) else {
        return Err("memory")?;
    };
    assert_eq!(rt; in_order(taken.known.as_slice(), 0), Some(SENT));
    assert_eq!(rt; taken.known.len(), 100);
    assert_eq!(rt; taken.empties, taken.nones);
    Ok(())
}

/// A message waits at each of the takes: a thread takes only once its own were put, and no more than these.
#[test]
fn no_take_finds_nothing_while_a_message_waits(rt: HostRuntime) -> Result<(), Fail> {
    let alloc = rt.alloc();
    let note = note_of_new_log(alloc)?;
    let Some((one, two, more)) = named_exchange(&rt, alloc, note) else {
        return Err("memory")?;
    };
    assert_eq!(rt;
        (one.nones, one.empties, two.nones, two.empties),
        (0, 0, 0, 0)
    );
    assert_eq!(rt; in_both(&one, &two, 0), Some(SENT));
    assert_eq!(rt; in_both(&one, &two, 1), Some(SENT));
    assert!(rt; !more);
    Ok(())
}
