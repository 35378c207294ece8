//! Plays on clusters.
ghost use Rattle.std.specs.Prelude.{◌≡◌, length, true};
ghost use Rattle.core_model.specs.Stores.{store_count};
ghost use Rattle.new_stores.specs.Empty.{tables_of};
ghost use Rattle.shared_tiers.specs.cluster_opening.Opening.{IsOpenedOver, logs_of, making_of};

use crate::passing::Steady;
use config_json::read_config;
use keepers::SteadyKeeper;
use new_stores::open_new;
use shared_stores::Sharing;
use shared_tiers::cluster_opening::Opened;
use std::alloc::AllocGlobal;
use std::marker::Brand;
use std::random::RandomSource;
use std::sync::Wait;
use std::thread::Threads;
use topology::Config;

/// What is done on a cluster, whatever names its logs.
pub trait ClusterPlay {
    /// What is said of it.
    type Said: Drop;

    /// Plays on a new cluster of the configuration. None for want of memory, or where the configuration lacks what is played on.
    fn play<R: Threads + Wait + RandomSource + AllocGlobal + Sync, J: Sharing + Send + Sync>(
        &self,
        rt: &R,
        config: &Config,
        cluster: Steady<'_, J>,
    ) -> Option<Self::Said>;
}

/// Plays on what was opened, behind locks that are named.
fn played_named<
    P: ClusterPlay,
    R: Threads + Wait + RandomSource + AllocGlobal + Sync,
    J: Sharing + Send + Sync,
>(rt: &R, opened: Opened<'_, SteadyKeeper>, what: &P) -> Option<P::Said>
    requires many { length opened.keepers.items ≡ store_count opened.config.now }
    requires opened { IsOpenedOver true opened.config.now (tables_of opened.config.now opened.keepers.items) opened.fleet opened.cuts.items }
    requires log { J.log ≡ logs_of opened.fleet.stores }
    requires making { J.making ≡ making_of opened.config.now opened.fleet.stores opened.cuts.items }
{
    let config = opened.config;
    match Steady::<'_, J>::make(opened) {
        Ok(cluster) => what.play(rt, config, cluster),
        Err(fail) => {
            drop(fail);
            None
        }
    }
}

/// Plays on what was opened.
fn played_opened<P: ClusterPlay, R: Threads + Wait + RandomSource + AllocGlobal + Sync>(
    rt: &R,
    opened: Opened<'_, SteadyKeeper>,
    what: &P,
) -> Option<P::Said>
    requires many { length opened.keepers.items ≡ store_count opened.config.now }
    requires opened { IsOpenedOver true opened.config.now (tables_of opened.config.now opened.keepers.items) opened.fleet opened.cuts.items }
{
    played_named::<P, R, Brand>(rt, opened, what)
}

/// What a play says on a new cluster of the configuration of a line, with nothing in its stores. None for want of memory, where the line is no configuration,
/// or where the play says nothing.
pub fn played<P: ClusterPlay, R: Threads + Wait + RandomSource + AllocGlobal + Sync>(
    rt: &R,
    line: &str,
    what: &P,
) -> Option<P::Said> {
    let alloc = rt.alloc();
    let Ok(config) = read_config(alloc, line.as_bytes()) else {
        return None;
    };
    match open_new(alloc, &config, line.as_bytes()) {
        Ok(opened) => played_opened(rt, opened, what),
        Err(_) => None,
    }
}
