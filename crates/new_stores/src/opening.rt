//! A cluster's nodes over new stores.
ghost use Rattle.std.specs.List.{AllByRecursion};
ghost use Rattle.std.specs.Prelude.{◌≡◌, IfOk, true, length};
ghost use Rattle.cluster_opening.specs.Opening.{IsOpenedOver};
ghost use Rattle.core_model.specs.Stores.{store_count};
ghost use Rattle.keepers.specs.Steady.{shown_steady};
ghost use Rattle.new_stores.specs.Empty.{HasNoStores, RefusesNewStores, tables_of};

use crate::made::keepers_for;
use cluster_opening::{OpenFail, Opened};
use keepers::SteadyKeeper;
use replies::OpenRefusal;
use std::alloc::Global;
use tao_base::OutOfMemory;
use topology::Config;

/// Lets go of keepers whose stores couldn't be opened. Of new ones that is for want of memory.
fn no_memory(config: &Config, line: &[u8], fail: OpenFail<SteadyKeeper>) -> OutOfMemory
    requires { RefusesNewStores config.now line.now fail }
{
    let OpenFail { why, keepers } = fail;
    drop(keepers);
    match why {
        OpenRefusal::OutOfMemory => OutOfMemory,
        OpenRefusal::OtherLine => unreachable!(),
        OpenRefusal::KeeperFault => unreachable!(),
        OpenRefusal::Disagree { .. } => unreachable!(),
    }
}

/// Opens the stores of a configuration by its line, with nothing in them, and makes the leaders and followers before them. The one error is out of memory.
pub fn open_new<'c>(
    alloc: Global,
    config: &'c Config,
    line: &[u8],
) -> Result<Opened<'c, SteadyKeeper>, OutOfMemory>
    ensures config { IfOk result (λ opened. opened.config.now ≡ config.now) }
    ensures many { IfOk result (λ opened. length opened.keepers.items ≡ store_count config.now) }
    ensures opened { IfOk result (λ opened.
        IsOpenedOver true config.now (tables_of config.now opened.keepers.items) opened.fleet opened.cuts.items) }
{
    let keepers = keepers_for(alloc, config)?;
    match Opened::open(alloc, config, line, keepers) {
        Ok(opened) => Ok(opened),
        Err(fail) => Err(no_memory(config, line, fail)),
    }
}
