//! Two threads add an entry each to one log, whose pen lies under a lock. Each has a note of its own outside.
ghost use Rattle.std.specs.Prelude.{◌≡◌, false, Some, IfSome, OnSome};
ghost use Rattle.graph_model.specs.Log.{entry_at};
ghost use Rattle.shard_log.specs.View.{Begins, Grows};

use shard_log::{Note, Pen, ShardLog};
use std::alloc::Global;
use std::marker::{Brand, Model, PhantomData};
use std::sync::{Mutex, Wait};
use std::test::Fail;
use std::thread::{Threads, join};
use tao_base::{Entry, Kind, Origin, Touches};

/// Which log lies under the lock. The call that makes the lock picks it.
trait Shared {
    ghost use Rattle.shard_log.specs.View.{LogName};

    ghost log: { LogName };
}

impl Shared for Brand {
    ghost use Rattle.std.specs.Prelude.{false, []};

    ghost log = { record {
      table = record { words = 0; slots = 0; views_name = 0; atom = 0; block = 0; offset = 0; slot_names = [] };
      told = false;
      pins = [];
    } };
}

/// What lies under the lock: the pen of a log that isn't told, so that it takes any entries.
#[derive(Drop)]
struct Desk<J: Shared> {
    pen: Pen,
    of: PhantomData<J>,
}

impl<J: Shared> Model for Desk<J> {
    ghost use Rattle.std.specs.Prelude.{◌≡◌, false};
    ghost use Rattle.shard_log.specs.View.{View};

    ghost Value = { View };

    ghost view = { λ d. d.pen };

    ghost invariant = { λ d. (d.pen.log ≡ J.log) × (d.pen.log.told ≡ false) };
}

impl<J: Shared> Desk<J> {
    fn new(pen: Pen) -> Desk<J>
        requires { (pen.log ≡ J.log) × (pen.log.told ≡ false) }
        ensures { result ≡ pen }
    {
        Desk {
            pen,
            of: PhantomData,
        }
    }

    fn into_pen(self) -> Pen
        ensures pen { result ≡ self }
        ensures log { result.log ≡ J.log }
    {
        let Desk { pen, of: _ } = self;
        pen
    }

    /// Adds the entry, and answers its position, at which it stands in the note's view.
    fn add(&mut self, me: &mut Note, entry: &Entry) -> Option<u64>
        requires { me.old.log ≡ J.log }
        ensures seen { Grows me.old me.new }
        ensures stands { IfSome result (λ position. entry_at me.new.entries position ≡ Some entry.now) }
    {
        if self.pen.len() >= 65_536 {
            return None;
        }
        let position = self.pen.append(entry);
        match self.pen.meet(me) {
            Ok(()) => Some(position),
            Err(_) => None,
        }
    }
}

/// What two threads left: the pen, and for each thread its note and the position of its entry.
#[derive(Drop)]
struct Added {
    pen: Pen,
    one: Note,
    first: u64,
    two: Note,
    second: u64,
}

fn add<J: Shared>(
    rt: &impl Wait,
    desk: &Mutex<Desk<J>>,
    mut me: Note,
    entry: &Entry,
) -> Option<(Note, u64)>
    requires { me.log ≡ J.log }
    ensures seen { IfSome result (λ r. Grows me r.0) }
    ensures stands { IfSome result (λ r. entry_at r.0.entries r.1 ≡ Some entry.now) }
{
    let position = desk.lock(rt).add(&mut me, entry)?;
    Some((me, position))
}

/// Each note is a beginning of the log at the end, where both entries stand at the positions that the threads were told.
fn add_both<J: Shared + Send + Sync, R: Threads + Wait + Sync>(
    rt: &R,
    pen: Pen,
    one: Note,
    two: Note,
    first: &Entry,
    second: &Entry,
) -> Option<Added>
    requires pen { (pen.log ≡ J.log) × (pen.log.told ≡ false) }
    requires one { one.log ≡ J.log }
    requires two { two.log ≡ J.log }
    ensures one { IfSome result (λ r. Grows one r.one × Begins r.one.entries r.pen.entries) }
    ensures two { IfSome result (λ r. Grows two r.two × Begins r.two.entries r.pen.entries) }
    ensures first { IfSome result (λ r. entry_at r.pen.entries r.first ≡ Some first.now) }
    ensures second { IfSome result (λ r. entry_at r.pen.entries r.second ≡ Some second.now) }
{
    let desk: Mutex<Desk<J>> = Mutex::new(Desk::new(pen));
    let (a, b) = join(
        rt,
        || -> Option<(Note, u64)>
            requires { one.log ≡ J.log }
            ensures seen { IfSome result (λ r. Grows one r.0) }
            ensures stands { IfSome result (λ r. entry_at r.0.entries r.1 ≡ Some first.entry.now) }
        { add(rt, &desk, one, first) },
        || -> Option<(Note, u64)>
            requires { two.log ≡ J.log }
            ensures seen { IfSome result (λ r. Grows two r.0) }
            ensures stands { IfSome result (λ r. entry_at r.0.entries r.1 ≡ Some second.entry.now) }
        { add(rt, &desk, two, second) },
    );
    let (mut one, first) = a?;
    let (mut two, second) = b?;
    let mut pen = desk.into_inner().into_pen();
    let (Ok(()), Ok(())) = (pen.meet(&mut one), pen.meet(&mut two)) else {
        return None;
    };
    Some(Added {
        pen,
        one,
        first,
        two,
        second,
    })
}

fn named<R: Threads + Wait + Sync>(
    rt: &R,
    pen: Pen,
    one: Note,
    two: Note,
    first: &Entry,
    second: &Entry,
) -> Option<Added>
    requires pen { pen.log.told ≡ false }
    requires one { one.log ≡ pen.log }
    requires two { two.log ≡ pen.log }
{
    add_both::<Brand, R>(rt, pen, one, two, first, second)
}

/// An entry that touches nothing, which a log that isn't told takes at every position.
fn untouching(alloc: Global, position: u64) -> Entry {
    Entry {
        position,
        kind: Kind::ObjDelete,
        origin: Origin::Client {
            session: 1,
            seq: position,
        },
        touches: Touches::of(Vec::new(alloc)),
    }
}

#[test]
fn entries_of_two_threads_stand_in_one_log(rt: HostRuntime) -> Result<(), Fail> {
    let alloc = rt.alloc();
    let mut pen = ShardLog::make(alloc, Vec::new(alloc), false)?;
    let (one, two) = (pen.note()?, pen.note()?);
    let (first, second) = (untouching(alloc, 1), untouching(alloc, 2));
    let Some(mut added) = named(&rt, pen, one, two, &first, &second) else {
        return Err("memory")?;
    };
    assert!(rt; matches!((added.first, added.second), (1, 2) | (2, 1)));
    assert_eq!(rt;
        (added.one.look(), added.two.look(), added.pen.len()),
        (2, 2, 2)
    );
    Ok(())
}
