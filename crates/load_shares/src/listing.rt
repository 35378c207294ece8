//! The list of a workload's requests.
ghost use Rattle.std.specs.Prelude.{◌≡◌, IfOk};
ghost use Rattle.load_gen.specs.Requests.{requests_of};

use load_gen::Workload;
use requests::Request;
use std::alloc::Global;
use tao_base::OutOfMemory;
use topology::Config;

/// All requests of a workload, in order.
pub fn list_requests(
    alloc: Global,
    config: &Config,
    seed: u64,
    calls: u64,
) -> Result<Vec<Request>, OutOfMemory>
    ensures { IfOk result (λ requests. requests.items ≡ requests_of config.now seed calls) }
{
    let mut workload = Workload::make(alloc, config, seed, calls)?;
    let mut requests = Vec::new(alloc);
    'requests: while let Some(request) = workload.next(alloc)? {
        requests.push(request)?;
    }
    Ok(requests)
}
