//! The workload: its requests, one after the other.
ghost use Rattle.std.specs.Prelude.{◌≡◌, IfOk};
ghost use Rattle.load_gen.specs.Requests.{opening};

use super::calls::call;
use super::draws::Draws;
use super::names::{Names, TierName};
use requests::{OpenCall, Request, StoreRequest};
use std::alloc::{AllocError, Global};
use std::marker::Model;
use tao_base::{OutOfMemory, Text};
use topology::Config;

/// The requests of a seed that are still to come. Contracts see their list.
#[derive(Drop)]
pub struct Workload {
    names: Names,
    draws: Draws,
    /// How many sessions were opened.
    opened: usize,
    /// How many calls were made.
    made: u64,
    /// How many calls are made in all.
    calls: u64,
    settled: bool,
}

impl Model for Workload {
    ghost use Rattle.std.specs.Prelude.{◌≤◌, List};
    ghost use Rattle.requests.specs.declared.request.Request.{Request};

    ghost Value = { List Request };

    ghost use Rattle.load_gen.specs.Left.{requests_left};

    ghost view = { requests_left };

    ghost invariant = { λ w. w.made ≤ w.calls };
}

impl Workload {
    ghost use Rattle.std.specs.Prelude.{◌≡◌, IfOk, OnErr};
    ghost use Rattle.load_gen.specs.Requests.{first_of, requests_of};
    ghost use Rattle.load_gen.specs.Summary.{calls_in};

    /// The workload of a seed and a number of calls over a configuration, whose names are copied.
    pub fn make(
        alloc: Global,
        config: &Config,
        seed: u64,
        calls: u64,
    ) -> Result<Workload, OutOfMemory>
        ensures requests { IfOk result (λ workload. workload ≡ requests_of config.now seed calls) }
        ensures calls { IfOk result (λ workload. calls_in workload ≡ calls) }
    {
        Ok(Workload {
            names: Names::of(alloc, config)?,
            draws: Draws::of(seed),
            opened: 0,
            made: 0,
            calls,
            settled: false,
        })
    }

    /// How many calls are still to come.
    pub fn calls_left(&self) -> u64
        ensures { result ≡ calls_in self.now }
    {
        self.calls - self.made
    }

    /// The next request; none after the last one. Where there is no memory for it, it stays to come. Takes time in the lengths
    /// of its texts.
    pub fn next(&mut self, alloc: Global) -> Result<Option<Request>, OutOfMemory>
        ensures came { IfOk result (λ came. (came, self.new) ≡ first_of self.old) }
        ensures stays { OnErr result (self.new ≡ self.old) }
    {
        let tiers = self.names.tiers();
        if self.opened < tiers.len() {
            let request = opening(alloc, self.opened as u32 + 1, &tiers[self.opened])?;
            self.opened += 1;
            return Ok(Some(request));
        }
        if self.made < self.calls {
            let mut draws = self.draws;
            let request = call(alloc, &self.names, self.made + 1, &mut draws)?;
            self.draws = draws;
            self.made += 1;
            return Ok(Some(request));
        }
        if self.settled {
            return Ok(None);
        }
        self.settled = true;
        Ok(Some(Request::Store(StoreRequest::Settle)))
    }
}

/// A session's opening at a tier.
fn opening(alloc: Global, session: u32, tier: &TierName) -> Result<Request, AllocError>
    ensures { IfOk result (λ request. request ≡ opening session tier.now) }
{
    Ok(Request::Open(OpenCall {
        session,
        region: Text::copy_of(alloc, tier.region.as_str())?,
        tier: Text::copy_of(alloc, tier.tier.as_str())?,
    }))
}
