//! The settle of a closed cluster.
ghost use Rattle.std.specs.Prelude.{◌≡◌, length};
ghost use Rattle.cluster_closing.specs.Closing.{AnswersClosed, ComesOver};
ghost use Rattle.cluster_opening.specs.Opening.{shown_in};
ghost use Rattle.core_model.specs.Asked.{settings};
ghost use Rattle.core_nodes.specs.Outside.{outside};
ghost use Rattle.keepers.specs.Shown.{told_in};
ghost use Rattle.topology.specs.States.{all_up};
ghost use Rattle.unlocked_nodes.specs.Settling.{closed_now};
ghost use Rattle.unlocked_nodes.specs.Unlocked.{MaySettle};

use crate::closed::Closed;
use crate::counting::said_as;
use cluster_opening::{PlacedKeepers, Places, faults_of};
use core_model::Around;
use replies::{Lengths, Reply};
use shared_stores::Sharing;
use std::marker::Brand;
use std::mem;
use tao_keeper::Keeper;
use tao_link::Link;
use topology::Topology;
use unlocked_nodes::core_repairs::unsettled_as;
use unlocked_nodes::{Settled, Unlocked, no_nodes, settle_unlocked};

/// What lay behind the locks, the keepers, and what came of a settle.
struct Kept<K> {
    settled: Settled,
    keepers: Vec<K>,
}

/// Settles what lay behind the locks, with its keepers. A keeper's fault is said only as their counts, added up, rose.
fn settle_with<K: Keeper, J: Sharing, P: Places, L: Link>(
    around: &Around<'_>,
    topology: &Topology,
    unlocked: Unlocked,
    keepers: Vec<K>,
    link: &mut L,
) -> Kept<K>
    requires shards { P.shards ≡ J.making.settings.shards }
    requires count { P.count ≡ length keepers.items }
    requires made { settings around.now ≡ J.making.settings }
    requires up { topology.now ≡ all_up (settings around.now) }
    requires ready { MaySettle K.TELLS J.making J.log (told_in K.state J.making.settings.shards keepers.items) unlocked }
    ensures many { length result.keepers.items ≡ length keepers.items }
    ensures ready { MaySettle K.TELLS J.making J.log (told_in K.state J.making.settings.shards result.keepers.items) result.settled.unlocked }
    ensures comes { ComesOver K.TELLS (settings around.now) result.settled.outcome
        (closed_now unlocked.fleet (outside (shown_in K.state J.making.settings.shards 0 keepers.items) (L.shown link.old)))
        (λ strays. closed_now result.settled.unlocked.fleet (outside (shown_in K.state J.making.settings.shards strays result.keepers.items) (L.shown link.new))) }
{
    let config = around.config;
    let before = faults_of(&keepers);
    let mut placed = PlacedKeepers::<K, P>::of(keepers, config.shards);
    let Settled { unlocked, outcome } = settle_unlocked::<PlacedKeepers<K, P>, J, L>(
        around,
        topology,
        unlocked,
        &mut placed,
        link,
    );
    let keepers = placed.into_keepers();
    let now = faults_of(&keepers);
    Kept {
        settled: Settled {
            unlocked,
            outcome: said_as(outcome, before, now),
        },
        keepers,
    }
}

impl<'c, K: Keeper + Drop, J: Sharing> Closed<'c, K, J> {
    /// Settles a closed cluster as a core is settled: runs all open jobs, moves every stream to its end, and lets each leader and follower process the rest
    /// of its region's logs that it serves, where it drops what is behind its region's stores and nothing else. Then no job is open, every edge has its
    /// inverse, every store has all of its shard's log, and no node holds an item that isn't of its key's last version. It may be settled again.
    ///
    /// The first fault, and the first full log, ends it as `unsettled`, and out of memory as `memory`: what was done stays. `no_server` comes where what is
    /// owed lies on a shard that isn't configured. Costs what the core's settle does; the first one takes besides a note for each that stores and nodes have,
    /// and reads the logs of all shards.
    pub fn settle<L: Link>(&mut self, link: &mut L) -> Reply
        requires ready { MaySettle K.TELLS J.making J.log (told_in K.state J.making.settings.shards self.old.keepers.items) self.old.unlocked }
        ensures ready { MaySettle K.TELLS J.making J.log (told_in K.state J.making.settings.shards self.new.keepers.items) self.new.unlocked }
        ensures many { length self.new.keepers.items ≡ length self.old.keepers.items }
        ensures does { AnswersClosed K.TELLS J.making.settings
            (closed_now self.old.unlocked.fleet (outside (shown_in K.state J.making.settings.shards 0 self.old.keepers.items) (L.shown link.old))) result
            (λ strays. closed_now self.new.unlocked.fleet (outside (shown_in K.state J.making.settings.shards strays self.new.keepers.items) (L.shown link.new))) }
    {
        let around = Around {
            alloc: self.alloc,
            config: self.config,
        };
        let empty = Unlocked {
            fleet: no_nodes(self.alloc),
            noted: Vec::new(self.alloc),
            met: false,
        };
        let unlocked = mem::replace(&mut self.unlocked, empty);
        let keepers = mem::replace(&mut self.keepers, Vec::new(self.alloc));
        let Kept { settled, keepers } = settle_with::<K, J, Brand, L>(
            &around,
            &self.topology,
            unlocked,
            keepers,
            link,
        );
        let Settled { unlocked, outcome } = settled;
        drop(mem::replace(&mut self.unlocked, unlocked));
        drop(mem::replace(&mut self.keepers, keepers));
        match outcome {
            Ok(logs) => Reply::Settled {
                logs: Lengths::of(logs),
            },
            Err(stop) => unsettled_as(&self.topology, stop),
        }
    }
}
