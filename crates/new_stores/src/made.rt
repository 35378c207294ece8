//! Keepers with no stores.
ghost use Rattle.std.specs.List.{AllByRecursion};
ghost use Rattle.std.specs.Prelude.{◌≡◌, IfOk, length};
ghost use Rattle.core_model.specs.Stores.{store_count};
ghost use Rattle.new_stores.specs.Empty.{HasNoStores};

use keepers::SteadyKeeper;
use std::alloc::{AllocError, Global};
use topology::Config;

/// So many keepers with no stores.
fn steady_keepers(alloc: Global, count: usize) -> Result<Vec<SteadyKeeper>, AllocError>
    ensures many { IfOk result (λ keepers. length keepers.items ≡ count) }
    ensures empty { IfOk result (λ keepers. AllByRecursion HasNoStores keepers.items) }
{
    let mut keepers = Vec::new(alloc);
    for made in 0..count {
        let _ = made;
        keepers.push(SteadyKeeper::make(alloc))?;
    }
    Ok(keepers)
}

/// A keeper with no stores for each store of the configuration. The one error is out of memory.
pub fn keepers_for(alloc: Global, config: &Config) -> Result<Vec<SteadyKeeper>, AllocError>
    ensures many { IfOk result (λ keepers. length keepers.items ≡ store_count config.now) }
    ensures empty { IfOk result (λ keepers. AllByRecursion HasNoStores keepers.items) }
{
    let count = config.regions.as_slice().len() * usize::from(config.shards);
    steady_keepers(alloc, count)
}
