//! What a session learns of its write.
ghost use Rattle.std.specs.Prelude.{◌≡◌, ◌≤◌, ◌<◌, IfSome, Some};
ghost use Rattle.std.specs.Option.{option_map};
ghost use Rattle.cluster_writes.specs.Learning.{LearnsOf, LearnsOther, LearnsThere, SeesThere};
ghost use Rattle.cluster_writes.specs.Learning.{carries_out, committed_entry, committed_view, if_apart, if_told, other_shard};
ghost use Rattle.locked_nodes.specs.Passes.{IsPassOf};
ghost use Rattle.log_names.specs.Names.{IsOfLog};
ghost use Rattle.shard_tables.specs.Written.{StandsIn};
ghost use Rattle.shard_tables.specs.declared.writes.Wrote.{Wrote as WroteThere};
ghost use Rattle.tao_base.specs.Writes.{write_shard};
ghost use Rattle.write_plan.specs.Plans.{answered_job};

use core_model::far_shard;
use locked_nodes::LockedNodes;
use replies::Reply;
use session_pass::Pass;
use shard_log::Note;
use shard_tables::Wrote;
use shared_stores::Sharing;
use tao_base::Entry;
use tao_keeper::Keeper;
use write_plan::{Committed, WritePlan};

/// Whether the reply carried its call out.
pub(crate) fn is_carried_out(reply: &Reply) -> bool
    ensures { result ≡ carries_out reply.now }
{
    match reply {
        Reply::Called(_) => true,
        _ => false,
    }
}

/// The far shard, where it is another one of so many.
fn apart_from(near: u16, far: u16, shards: u16) -> Option<u16>
    ensures { result ≡ if_apart near far shards }
{
    if far == near || shards <= far {
        None
    } else {
        Some(far)
    }
}

/// The shard of the configuration on which the other end of a write lies, where that is another one.
pub(crate) fn shard_of_other<K: Keeper, J: Sharing>(
    nodes: &LockedNodes<'_, K, J>,
    plan: &WritePlan,
) -> Option<u16>
    ensures { result ≡ other_shard (answered_job plan.now) (write_shard plan.now.write) J.making.settings.shards }
{
    let near = plan.write().shard();
    let shards = nodes.config().shards;
    match plan.job() {
        Some(job) => apart_from(near, far_shard(job), shards),
        None => None,
    }
}

/// The entry, where it is told.
fn entry_told(entry: Option<Entry>, told: bool) -> Option<Entry>
    ensures { result ≡ if_told told entry }
{
    if told {
        entry
    } else {
        drop(entry);
        None
    }
}

/// The session learns an entry of a shard's log, where there is one; its pass sees what the note has.
fn learn_entry<J: Sharing>(pass: &mut Pass, shard: u16, entry: &Option<Entry>, note: Note)
    requires pass { IsPassOf J.making J.log pass.old }
    requires here { shard < J.making.settings.shards }
    requires room { 8 ≤ pass.old.spare }
    requires log { IsOfLog J.log shard note }
    requires stands { IfSome entry.now (StandsIn note) }
    ensures { LearnsOf J.making J.log shard entry.now note pass.old pass.new }
{
    match entry {
        Some(entry) => pass.learn_entry(shard, entry, note),
        None => pass.see(shard, note),
    }
}

/// The session learns what was written on a shard, where it is told of it; in any case its pass sees what the note of that has.
fn learn_wrote<J: Sharing>(pass: &mut Pass, shard: u16, wrote: Wrote, told: bool)
    requires pass { IsPassOf J.making J.log pass.old }
    requires here { shard < J.making.settings.shards }
    requires room { 8 ≤ pass.old.spare }
    requires log { IsOfLog J.log shard wrote.note }
    requires stands { IfSome wrote.entry (StandsIn wrote.note) }
    ensures { LearnsOf J.making J.log shard (if_told told wrote.entry) wrote.note pass.old pass.new }
{
    let Wrote { entry, note, .. } = wrote;
    let learnt = entry_told(entry, told);
    learn_entry::<J>(pass, shard, &learnt, note);
}

/// What a write's commit wrote, and the note with it; of a write that wasn't committed, a note of all that it has seen.
fn committed_or_seen(committed: Option<Committed>, seen: Note) -> (Option<Entry>, Note)
    ensures entry { result.0 ≡ committed_entry committed }
    ensures note { result.1 ≡ committed_view committed seen }
{
    match committed {
        Some(committed) => {
            drop(seen);
            let Committed { wrote, .. } = committed;
            let Wrote { entry, note, .. } = wrote;
            (entry, note)
        }
        None => (None, seen),
    }
}

/// The session learns what its write committed, where it is told of it; in any case its pass sees what the commit did, or what the write has seen
/// without one.
pub(crate) fn learn_committed<J: Sharing>(
    pass: &mut Pass,
    shard: u16,
    committed: Option<Committed>,
    seen: Note,
    told: bool,
)
    requires pass { IsPassOf J.making J.log pass.old }
    requires here { shard < J.making.settings.shards }
    requires room { 8 ≤ pass.old.spare }
    requires log { IsOfLog J.log shard (committed_view committed seen) }
    requires stands { IfSome (committed_entry committed) (StandsIn (committed_view committed seen)) }
    ensures { LearnsOf J.making J.log shard (if_told told (committed_entry committed)) (committed_view committed seen) pass.old pass.new }
{
    let (entry, note) = committed_or_seen(committed, seen);
    let learnt = entry_told(entry, told);
    learn_entry::<J>(pass, shard, &learnt, note);
}

/// The session learns what was written at the other end, if anything, where it is told of it.
fn learn_there<J: Sharing>(pass: &mut Pass, shard: u16, wrote: Option<Wrote>, told: bool)
    requires pass { IsPassOf J.making J.log pass.old }
    requires here { shard < J.making.settings.shards }
    requires room { 8 ≤ pass.old.spare }
    requires log { IfSome wrote (λ w. IsOfLog J.log shard w.note) }
    requires stands { IfSome wrote (λ w. IfSome w.entry (StandsIn w.note)) }
    ensures sees { SeesThere J.making J.log shard (option_map (λ (w : WroteThere). w.note) wrote) pass.old pass.new }
    ensures learns { LearnsThere told (Some shard) wrote pass.old.floors pass.new.floors }
{
    match wrote {
        Some(wrote) => learn_wrote::<J>(pass, shard, wrote, told),
        None => {}
    }
}

/// The pass sees what was seen of a shard's log, if anything.
fn see_there<J: Sharing>(pass: &mut Pass, shard: u16, seen: Option<Note>)
    requires pass { IsPassOf J.making J.log pass.old }
    requires here { shard < J.making.settings.shards }
    requires log { IfSome seen (IsOfLog J.log shard) }
    ensures sees { SeesThere J.making J.log shard seen pass.old pass.new }
    ensures nothing { pass.new.floors ≡ pass.old.floors }
{
    match seen {
        Some(note) => pass.see(shard, note),
        None => {}
    }
}

/// The session learns what was written on the other shard, if there is one, where it is told of it; in any case its pass sees that, and what else was
/// seen there.
pub(crate) fn learn_other<J: Sharing>(
    pass: &mut Pass,
    shard: Option<u16>,
    wrote: Option<Wrote>,
    seen: Option<Note>,
    told: bool,
)
    requires pass { IsPassOf J.making J.log pass.old }
    requires here { IfSome shard (λ k. k < J.making.settings.shards) }
    requires room { 8 ≤ pass.old.spare }
    requires log { IfSome shard (λ k. IfSome wrote (λ w. IsOfLog J.log k w.note)) }
    requires stands { IfSome wrote (λ w. IfSome w.entry (StandsIn w.note)) }
    requires seen { IfSome shard (λ k. IfSome seen (IsOfLog J.log k)) }
    ensures { LearnsOther J.making J.log told shard wrote seen pass.old pass.new }
{
    match shard {
        Some(shard) => {
            learn_there::<J>(pass, shard, wrote, told);
            see_there::<J>(pass, shard, seen);
        }
        None => {
            drop(wrote);
            drop(seen);
        }
    }
}
