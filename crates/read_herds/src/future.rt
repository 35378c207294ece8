//! `HerdRead` as a future.
ghost use Rattle.std.specs.Prelude.{◌≡◌};
ghost use Rattle.shared_tiers.specs.locked_nodes.Cluster.{on_cluster};
ghost use Rattle.shared_tiers.specs.locked_nodes.Passes.{IsPassOf};
ghost use Rattle.shared_tiers.specs.Calls.{calling};
ghost use Rattle.read_herds.specs.Herding.{source_of};
ghost use Rattle.read_herds.specs.Reading.{IsReplyTo};

use crate::reading::HerdRead;
use futures::Future;
use futures::task::{Context, Poll};
use replies::Reply;
use shared_stores::Sharing;
use std::sync::Wait;
use tao_keeper::Keeper;
use tao_link::Link;

impl<'a, 'c, R: Wait, K: Keeper, J: Sharing, L: Link> Future for HerdRead<'a, 'c, R, K, J, L> {
    type Output = Reply;

    ghost can_poll = { λ read. IsPassOf J.making J.log read.pass.now };

    ghost needs = { λ read s. s ≡ source_of read.herd.now };

    ghost gives = { λ read. IsReplyTo (on_cluster K.TELLS K.state J.making J.log) (calling read.pass.now (L.shown read.link.now)) read.request.now };

    fn poll(&mut self, cx: &mut Context<'_>) -> Poll<Reply> {
        self.step(cx)
    }
}
