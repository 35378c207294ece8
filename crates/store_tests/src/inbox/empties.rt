//! None comes where no message waits, and nowhere else. Each pass counts its own.
ghost use Rattle.std.specs.Prelude.{◌≡◌, false};
ghost use Rattle.log_names.specs.Names.{IsOfLog};

use super::messages::{message_at, note_of_new_log};
use log_names::Logs;
use shard_log::Note;
use shared_inbox::{InboxPass, SharedInbox};
use std::alloc::Global;
use std::marker::Brand;
use std::sync::Wait;
use std::test::Fail;

/// Whether a message was taken, and the pass's count afterwards.
fn took<J: Logs, R: Wait>(rt: &R, inbox: &SharedInbox<J>, pass: &mut InboxPass<J>) -> (bool, u64)
    requires { pass.old.inbox ≡ inbox.now }
    ensures { pass.new.inbox ≡ pass.old.inbox }
{
    let is_some = inbox.take(rt, pass).is_some();
    (is_some, pass.empties())
}

/// Puts a message of shard 0, and says whether it was put.
fn sent<J: Logs, R: Wait>(
    rt: &R,
    alloc: Global,
    inbox: &SharedInbox<J>,
    pass: &mut InboxPass<J>,
    note: &mut Note,
) -> bool
    requires inbox { pass.old.inbox ≡ inbox.now }
    requires log { IsOfLog J.log 0 note.old }
    requires told { note.old.log.told ≡ false }
    ensures inbox { pass.new ≡ pass.old }
    ensures note { note.new ≡ note.old }
{
    match message_at::<J>(alloc, note, 0, 1) {
        Some(message) => inbox.put(rt, pass, message).is_ok(),
        None => false,
    }
}

/// What seven takes find by two passes, while three messages come. One is left when the inbox is dropped.
fn take_by_two<J: Logs, R: Wait>(rt: &R, alloc: Global, mut note: Note) -> Option<[(bool, u64); 7]>
    requires log { IsOfLog J.log 0 note }
    requires told { note.log.told ≡ false }
{
    let Ok((inbox, pass)) = SharedInbox::<J>::make(alloc) else {
        return None;
    };
    let mut one = pass;
    let first = took(rt, &inbox, &mut one);
    if !sent(rt, alloc, &inbox, &mut one, &mut note) {
        return None;
    }
    let second = took(rt, &inbox, &mut one);
    let third = took(rt, &inbox, &mut one);
    let (Ok(mut two), Ok(mut new)) = (one.split(), inbox.inbox_pass()) else {
        return None;
    };
    let fourth = took(rt, &inbox, &mut two);
    let fifth = took(rt, &inbox, &mut new);
    if !sent(rt, alloc, &inbox, &mut two, &mut note)
        || !sent(rt, alloc, &inbox, &mut new, &mut note)
    {
        return None;
    }
    let sixth = took(rt, &inbox, &mut one);
    Some([
        first,
        second,
        third,
        fourth,
        fifth,
        sixth,
        (false, two.empties()),
    ])
}

fn named<R: Wait>(rt: &R, alloc: Global, note: Note) -> Option<[(bool, u64); 7]>
    requires { note.log.told ≡ false }
{
    take_by_two::<Brand, R>(rt, alloc, note)
}

#[test]
fn none_comes_only_where_no_message_waits(rt: HostRuntime) -> Result<(), Fail> {
    let alloc = rt.alloc();
    let note = note_of_new_log(alloc)?;
    let Some(found) = named(&rt, alloc, note) else {
        return Err("memory")?;
    };
    assert_eq!(rt;
        found,
        [
            (false, 1),
            (true, 1),
            (false, 2),
            (false, 3),
            (false, 1),
            (true, 2),
            (false, 3),
        ]
    );
    Ok(())
}
