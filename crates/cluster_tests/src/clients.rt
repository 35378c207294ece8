//! The sessions of a cluster.
ghost use Rattle.std.proofs.Props.{props};
ghost use Rattle.std.specs.Prelude.{◌<◌, IfSome};
ghost use Rattle.log_names.specs.Names.{IsOfLog};
ghost use Rattle.shared_tiers.specs.locked_nodes.Passes.{IsPassOf};

use cluster_plays::{Ask, Steady, pass_of, request_of, text_of};
use replies::Reply;
use session_pass::Pass;
use shard_log::Note;
use shared_stores::Sharing;
use std::alloc::Global;
use std::marker::PhantomData;
use std::sync::Wait;
use tao_link::SteadyLink;

/// A session: its pass, and a link that never fails.
#[derive(Drop)]
pub(crate) struct Client<J: Sharing> {
    session: u32,
    pass: Pass,
    link: SteadyLink,
    of: PhantomData<J>,
    ghost kept: { IsPassOf J.making J.log pass } by { Prim.hlevel props },
}

/// A note of what a pass has seen of a shard's log. None for want of memory.
fn note_of<J: Sharing>(pass: &mut Pass, shard: u16) -> Option<Note>
    requires pass { IsPassOf J.making J.log pass.old }
    requires here { shard < J.making.settings.shards }
    ensures pass { IsPassOf J.making J.log pass.new }
    ensures note { IfSome result (IsOfLog J.log shard) }
{
    match pass.note(shard) {
        Ok(note) => Some(note),
        Err(_) => None,
    }
}

impl<J: Sharing> Client<J> {
    /// A session of a tier, by the places of its region and of the tier. None for want of memory, or where the tier isn't configured.
    pub(crate) fn open<R: Wait>(
        rt: &R,
        cluster: &Steady<'_, J>,
        session: u32,
        home: (u16, u16),
    ) -> Option<Client<J>> {
        match pass_of(rt, cluster, session, home) {
            Some(pass) => Some(Client {
                session,
                pass,
                link: SteadyLink::make(),
                of: PhantomData,
            }),
            None => None,
        }
    }

    /// A note of what the session has seen of a shard's log. None for want of memory.
    pub(crate) fn note(&mut self, shard: u16) -> Option<Note>
        requires { shard < J.making.settings.shards }
        ensures { IfSome result (IsOfLog J.log shard) }
    {
        note_of::<J>(&mut self.pass, shard)
    }

    /// What the cluster replies. None for want of memory for the request.
    pub(crate) fn ask<R: Wait>(
        &mut self,
        rt: &R,
        alloc: Global,
        cluster: &Steady<'_, J>,
        ask: Ask,
    ) -> Option<Reply> {
        let request = request_of(alloc, self.session, ask)?;
        let reply = cluster.call(rt, &mut self.pass, &mut self.link, &request);
        drop(request);
        Some(reply)
    }

    /// The text of what the cluster replies. None for want of memory.
    pub(crate) fn told<R: Wait>(
        &mut self,
        rt: &R,
        alloc: Global,
        cluster: &Steady<'_, J>,
        ask: Ask,
    ) -> Option<String> {
        match self.ask(rt, alloc, cluster, ask) {
            Some(reply) => text_of(alloc, cluster.config(), reply),
            None => None,
        }
    }
}
