//! A cluster that is closed.
ghost use Rattle.std.specs.Prelude.{◌≡◌, ◌<◌};
ghost use Rattle.keepers.specs.Shown.{told_in};
ghost use Rattle.log_names.specs.Names.{IsOfLog};
ghost use Rattle.shared_tiers.specs.cluster_closing.unlocked_nodes.Unlocked.{MaySettle};

use crate::clients::Client;
use crate::playing::{Closing, HOMES, add_line};
use cluster_plays::{Steady, text_of};
use core_model::store_place;
use node_name::NodeName;
use shard_log::Note;
use shared_stores::Sharing;
use shared_tiers::cluster_closing::Closed;
use std::alloc::Global;
use std::sync::Wait;
use tao_keeper::Keeper;
use tao_link::{Link, SteadyLink};
use topology::Config;

/// The text of the reply to a settle. None for want of memory.
fn settled<K: Keeper + Drop, J: Sharing, L: Link>(
    alloc: Global,
    config: &Config,
    closed: &mut Closed<'_, K, J>,
    link: &mut L,
) -> Option<String>
    requires { MaySettle K.TELLS J.making J.log (told_in K.state J.making.settings.shards closed.old.keepers.items) closed.old.unlocked }
    ensures { MaySettle K.TELLS J.making J.log (told_in K.state J.making.settings.shards closed.new.keepers.items) closed.new.unlocked }
{
    let reply = closed.settle(link);
    text_of(alloc, config, reply)
}

/// Whether the note met the shard's log, as it does but for want of memory.
fn meets<K: Keeper, J: Sharing>(closed: &mut Closed<'_, K, J>, shard: u16, note: &mut Note) -> bool
    requires ready { MaySettle K.TELLS J.making J.log (told_in K.state J.making.settings.shards closed.old.keepers.items) closed.old.unlocked }
    requires here { shard < J.making.settings.shards }
    requires log { IsOfLog J.log shard note.old }
    ensures { MaySettle K.TELLS J.making J.log (told_in K.state J.making.settings.shards closed.new.keepers.items) closed.new.unlocked }
{
    closed.meet(shard, note).is_ok()
}

/// How many entries of a shard's log a session's note sees, once it met that. None where the shard isn't configured, or for want of memory.
fn seen<K: Keeper, J: Sharing>(
    closed: &mut Closed<'_, K, J>,
    client: &mut Client<J>,
    shards: u16,
    shard: u16,
) -> Option<u64>
    requires ready { MaySettle K.TELLS J.making J.log (told_in K.state J.making.settings.shards closed.old.keepers.items) closed.old.unlocked }
    requires shards { shards ≡ J.making.settings.shards }
    ensures { MaySettle K.TELLS J.making J.log (told_in K.state J.making.settings.shards closed.new.keepers.items) closed.new.unlocked }
{
    if shard >= shards {
        return None;
    }
    let mut note = client.note(shard)?;
    let met = meets(closed, shard, &mut note);
    let length = note.look();
    drop(note);
    if met { Some(length) } else { None }
}

/// What a session's notes see of the first two shards' logs. None for want of memory.
fn both_seen<K: Keeper, J: Sharing>(
    alloc: Global,
    closed: &mut Closed<'_, K, J>,
    client: &mut Client<J>,
    shards: u16,
) -> Option<String>
    requires ready { MaySettle K.TELLS J.making J.log (told_in K.state J.making.settings.shards closed.old.keepers.items) closed.old.unlocked }
    requires shards { shards ≡ J.making.settings.shards }
{
    let first = seen(closed, client, shards, 0)?;
    let second = seen(closed, client, shards, 1)?;
    format!(in alloc; "notes see {first} {second}").ok()
}

/// The marks of a leader or follower for the first two shards. None where the text is none of theirs, or for want of memory.
fn marks<K: Keeper, J: Sharing>(
    alloc: Global,
    config: &Config,
    closed: &Closed<'_, K, J>,
    text: &str,
) -> Option<String> {
    let name = config.node(text)?;
    let first = closed.mark(name, 0)?;
    let second = closed.mark(name, 1)?;
    format!(in alloc; "{text} marks {first} {second}").ok()
}

/// Adds to the lines the marks of each of the nodes.
fn each_marks<K: Keeper, J: Sharing>(
    alloc: Global,
    config: &Config,
    closed: &Closed<'_, K, J>,
    nodes: &[&str],
    lines: &mut Vec<String>,
) -> Option<()> {
    for text in nodes {
        add_line(lines, marks(alloc, config, closed, text))?;
    }
    Some(())
}

/// How many entries of its store's log a keeper tells, which stands at the store's place. None where it doesn't, or for want of memory.
fn keeps<K: Keeper>(
    alloc: Global,
    config: &Config,
    keepers: &mut [K],
    text: &str,
) -> Option<String> {
    let NodeName::Store(at) = config.node(text)? else {
        return None;
    };
    let keeper = keepers.get_mut(store_place(config, at))?;
    let Ok(length) = keeper.length(at) else {
        return None;
    };
    format!(in alloc; "{text} keeps {length}").ok()
}

/// Adds to the lines what the keepers tell of each of the stores.
fn each_keeps<K: Keeper>(
    alloc: Global,
    config: &Config,
    keepers: &mut [K],
    stores: &[&str],
    lines: &mut Vec<String>,
) -> Option<()> {
    for text in stores {
        add_line(lines, keeps(alloc, config, keepers, text))?;
    }
    Some(())
}

/// How many keepers there are, and how often they failed.
fn counted(alloc: Global, keepers: usize, faults: u64) -> Option<String> {
    format!(in alloc; "keepers {keepers} faults {faults}").ok()
}

/// Adds to the lines the reply to a settle of what was closed, what a session's notes then see, and the nodes' marks.
fn settled_said<K: Keeper + Drop, J: Sharing>(
    alloc: Global,
    config: &Config,
    closed: &mut Closed<'_, K, J>,
    client: &mut Client<J>,
    shards: u16,
    nodes: &[&str],
    lines: &mut Vec<String>,
) -> Option<()>
    requires ready { MaySettle K.TELLS J.making J.log (told_in K.state J.making.settings.shards closed.old.keepers.items) closed.old.unlocked }
    requires shards { shards ≡ J.making.settings.shards }
{
    let mut link = SteadyLink::make();
    add_line(lines, settled(alloc, config, closed, &mut link))?;
    add_line(lines, both_seen(alloc, closed, client, shards))?;
    each_marks(alloc, config, closed, nodes, lines)
}

/// Adds to the lines what the keepers of a closed cluster tell, which it hands out.
fn kept_said<K: Keeper + Drop, J: Sharing>(
    alloc: Global,
    config: &Config,
    closed: Closed<'_, K, J>,
    stores: &[&str],
    lines: &mut Vec<String>,
) -> Option<()> {
    let faults = closed.faults();
    let mut keepers = closed.keepers();
    let counted = counted(alloc, keepers.len(), faults);
    let kept = each_keeps(alloc, config, keepers.as_mut_slice(), stores, lines);
    drop(keepers);
    kept?;
    add_line(lines, counted)
}

/// Closes a cluster, and adds to the lines what is then told of it. The notes are those of a session that was opened just before.
pub(crate) fn close_after<J: Sharing, R: Wait>(
    rt: &R,
    alloc: Global,
    config: &Config,
    cluster: Steady<'_, J>,
    closing: &Closing<'_>,
    lines: &mut Vec<String>,
) -> Option<()> {
    let mut client = Client::open(rt, &cluster, 1, HOMES[0])?;
    let shards = cluster.config().shards;
    let mut closed = cluster.close();
    let settled = settled_said(
        alloc,
        config,
        &mut closed,
        &mut client,
        shards,
        closing.nodes,
        lines,
    );
    drop(client);
    let kept = kept_said(alloc, config, closed, closing.stores, lines);
    settled?;
    kept
}
