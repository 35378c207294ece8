//! Messages to the nodes of a cluster: each is put into the inbox of a node. What finds no memory is lost.
ghost use Rattle.std.specs.Prelude.{◌≡◌, ◌<◌};
ghost use Rattle.log_names.specs.Names.{IsOfLog};
ghost use Rattle.shard_tables.specs.Written.{LiesOn, StandsIn};
ghost use Rattle.shared_inbox.specs.Messages.{IsMaintOf};

use crate::nodes::LockedNodes;
use core_model::tier_count;
use maint_msg::Maint;
use node_name::NodeName;
use shard_log::Note;
use shared_inbox::SharedInbox;
use shared_nodes::shared_stores::Sharing;
use std::sync::Wait;
use tao_base::{Entry, OutOfMemory, StoreName};
use tao_keeper::Keeper;

fn put_into<J: Sharing, R: Wait>(rt: &R, inbox: &SharedInbox<J>, message: Maint)
    requires { IsMaintOf J.log message }
{
    match inbox.inbox_pass() {
        Ok(mut pass) => {
            let _ = inbox.put(rt, &mut pass, message);
        }
        Err(OutOfMemory) => drop(message),
    }
}

impl<'c, K: Keeper, J: Sharing> LockedNodes<'c, K, J> {
    fn send<R: Wait>(&self, rt: &R, to: NodeName, message: Maint)
        requires { IsMaintOf J.log message }
    {
        match self.inbox(to) {
            Some(inbox) => put_into(rt, inbox, message),
            None => drop(message),
        }
    }

    /// Puts a message of an entry of a shard's log into the inbox of a node.
    pub fn tell<R: Wait>(&self, rt: &R, to: NodeName, shard: u16, entry: &Entry, note: &mut Note)
        requires log { IsOfLog J.log shard note.old }
        requires stands { StandsIn note.old entry.now }
        requires lies { LiesOn note.old shard entry.now }
        ensures { note.new ≡ note.old }
    {
        if let Ok(second) = note.split() {
            if let Ok(message) = Maint::of(self.alloc, entry, shard, second) {
                self.send(rt, to, message);
            }
        }
    }

    /// Puts a message of an entry that a store has into the inbox of each follower of its region that serves the shard.
    pub fn notify<R: Wait>(&self, rt: &R, at: StoreName, entry: &Entry, note: &mut Note)
        requires here { at.shard < J.making.settings.shards }
        requires log { IsOfLog J.log at.shard note.old }
        requires stands { StandsIn note.old entry.now }
        requires lies { LiesOn note.old at.shard entry.now }
        ensures { note.new ≡ note.old }
    {
        for tier in 0..tier_count(self.config, at.region) {
            let name = self.follower_for(at.region, tier, at.shard);
            self.tell(rt, name, at.shard, entry, note);
        }
    }
}
