//! `Hand`, by which a thread takes what waits for one node.
ghost use Rattle.std.specs.Prelude.{◌≡◌, IfOk};
ghost use Rattle.cluster_pumps.specs.Hands.{IsHandOf, IsNodeIn};

use locked_nodes::LockedNodes;
use node_name::NodeName;
use region_stream::Follow;
use shared_inbox::InboxPass;
use shared_stores::Sharing;
use std::marker::Model;
use tao_base::{OutOfMemory, StoreName};
use tao_keeper::Keeper;

/// What a hand takes.
#[derive(Drop)]
pub(crate) enum Work<J: Sharing> {
    /// The messages in the inbox of a leader or a follower.
    Inbox { node: NodeName, pass: InboxPass<J> },
    /// The entries that a store lacks of its master's log.
    Stream { at: StoreName, follow: Follow },
}

/// A right to take what waits for one node, for life, which counts how often it found nothing there.
#[derive(Drop)]
pub struct Hand<J: Sharing> {
    pub(crate) work: Work<J>,
}

impl<J: Sharing> Model for Hand<J> {
    ghost use Rattle.cluster_pumps.specs.Hands.{SeenHand, shown_hand};

    ghost Value = { SeenHand };

    ghost view = { λ h. shown_hand h.work };
}

impl<J: Sharing> Hand<J> {
    /// Its node.
    pub fn node(&self) -> NodeName
        ensures { result ≡ self.now.node }
    {
        match &self.work {
            Work::Inbox { node, .. } => *node,
            Work::Stream { at, .. } => NodeName::Store(*at),
        }
    }

    /// How often it found nothing to take. From 2^64 - 1 on the count stands still.
    pub fn empties(&self) -> u64
        ensures { result ≡ self.now.empties }
    {
        match &self.work {
            Work::Inbox { pass, .. } => pass.empties(),
            Work::Stream { follow, .. } => follow.empties(),
        }
    }
}

/// A hand on a node, which found nothing never so far: for a leader or a follower by a pass of its inbox. The one error is out of memory.
pub fn hand_on<K: Keeper, J: Sharing>(
    nodes: &LockedNodes<'_, K, J>,
    node: NodeName,
) -> Result<Hand<J>, OutOfMemory>
    requires { IsNodeIn J.making.settings node }
    ensures of { IfOk result (IsHandOf J.making nodes.now) }
    ensures node { IfOk result (λ hand. hand.node ≡ node) }
    ensures empties { IfOk result (λ hand. hand.empties ≡ 0) }
{
    if let NodeName::Store(at) = node {
        let follow = Follow::make();
        return Ok(Hand {
            work: Work::Stream { at, follow },
        });
    }
    let Some(inbox) = nodes.inbox(node) else {
        return Err(OutOfMemory);
    };
    let pass = inbox.inbox_pass()?;
    Ok(Hand {
        work: Work::Inbox { node, pass },
    })
}
