//! The writes of a workload's list, by their numbers.
ghost use Rattle.std.specs.Prelude.{◌≡◌, ◌↔◌, ℕ, IfOk, IsTrue, filter, map};
ghost use Rattle.std.specs.Bool.{MatchBool};
ghost use Rattle.load_audit.specs.Listed.{IsKnown, IsStrange, IsWorkload, origin_of, write_in, writes_of};
ghost use Rattle.load_audit.specs.Numbered.{IsFirstStrange, IsFoundBy};
ghost use Rattle.load_audit.specs.Places.{call_at, placed_calls, write_of};
ghost use Rattle.load_gen.specs.Summary.{is_call};
ghost use Rattle.tao_base.specs.declared.entry.Origin.TheVariants.{Client};
ghost use Rattle.write_model.specs.Writes.{FitsWrite};

use load_gen::is_call;
use request_check::{CheckRefusal, Checked, CheckedCall, CheckedWrite, check};
use requests::Request;
use std::alloc::Global;
use std::marker::Model;
use tao_base::{Entry, Origin, OutOfMemory};
use topology::Config;
use write_fitting::fits;

/// The writes of a workload. Each is given the places of its names anew whenever it is looked up. Contracts see them in order.
#[derive(Drop)]
pub(crate) struct ListedWrites<'r> {
    alloc: Global,
    config: &'r Config,
    /// The calls: a call's number is its place, counted from 1.
    calls: Vec<&'r Request>,
}

impl<'r> Model for ListedWrites<'r> {
    ghost use Rattle.std.specs.Prelude.{List};
    ghost use Rattle.request_check.specs.declared.checked.CheckedWrite.{CheckedWrite};
    ghost use Rattle.load_audit.specs.Places.{AreAtPlaces, placed_calls, writes_among};

    ghost Value = { List CheckedWrite };

    ghost view = { λ w. writes_among (placed_calls w.config.now w.calls.items) };

    ghost invariant = { λ w. AreAtPlaces (placed_calls w.config.now w.calls.items) };
}

/// The write that a checked request is, if it is one.
fn write_of(checked: Checked) -> Option<CheckedWrite>
    ensures { result ≡ write_of checked }
{
    match checked {
        Checked::Call(CheckedCall::Write(write)) => Some(write),
        _ => None,
    }
}

/// The write that a request is, where it is one and names what is there.
fn write_in(
    alloc: Global,
    config: &Config,
    request: &Request,
) -> Result<Option<CheckedWrite>, OutOfMemory>
    ensures { IfOk result (λ write. write ≡ write_in config.now request.now) }
{
    match check(alloc, config, request) {
        Ok(checked) => Ok(write_of(checked)),
        Err(CheckRefusal::Refused(reply)) => {
            drop(reply);
            Ok(None)
        }
        Err(CheckRefusal::OutOfMemory) => Err(OutOfMemory),
    }
}

/// The calls among the requests.
fn calls_in<'r>(alloc: Global, requests: &'r [Request]) -> Result<Vec<&'r Request>, OutOfMemory>
    ensures { IfOk result (λ calls. map (λ call. call.now) calls.items ≡ filter is_call requests.now) }
{
    let mut calls = Vec::new(alloc);
    for request in requests {
        if is_call(request) {
            calls.push(request)?;
        }
    }
    Ok(calls)
}

/// The write at a place, where there is a call at it and that is one.
fn call_at(
    alloc: Global,
    config: &Config,
    calls: &[&Request],
    place: usize,
) -> Result<Option<CheckedWrite>, OutOfMemory>
    ensures { IfOk result (λ write. write ≡ call_at (placed_calls config.now calls.now) place) }
{
    match calls.get(place) {
        Some(request) => write_in(alloc, config, *request),
        None => Ok(None),
    }
}

/// Whether an entry has the origin of a write, and fits it.
fn is_of(write: &CheckedWrite, entry: &Entry) -> bool
    ensures { IsTrue result ↔ ((entry.now.origin ≡ origin_of write.now) × FitsWrite entry.now write.now.write) }
{
    entry.origin == write.origin() && fits(entry, &write.write)
}

impl<'r> ListedWrites<'r> {
    /// The writes of a workload's requests. Takes memory for the place of each call.
    pub(crate) fn of(
        alloc: Global,
        config: &'r Config,
        requests: &'r [Request],
    ) -> Result<ListedWrites<'r>, OutOfMemory>
        requires { IsWorkload config.now requests.now }
        ensures { IfOk result (λ writes. writes ≡ writes_of config.now requests.now) }
    {
        Ok(ListedWrites {
            alloc,
            config,
            calls: calls_in(alloc, requests)?,
        })
    }

    /// The write of a number, where there is one. Takes time in the lengths of its texts.
    fn numbered(&self, seq: u64) -> Result<Option<CheckedWrite>, OutOfMemory>
        ensures { IfOk result (IsFoundBy seq self.now) }
    {
        let _calls = &self.calls;
        match seq.checked_sub(1) {
            Some(place) => call_at(self.alloc, self.config, &self.calls, place as usize),
            None => Ok(None),
        }
    }

    /// Whether a client's entry under a number has the origin of none of the writes, or doesn't fit it.
    fn is_stranger(&self, entry: &Entry, seq: u64) -> Result<bool, OutOfMemory>
        ensures { IfOk result (λ strange. (session : ℕ) → entry.now.origin ≡ Client session seq
            → MatchBool strange (IsStrange self.now entry.now) (IsKnown self.now entry.now)) }
    {
        let found = self.numbered(seq)?;
        match found {
            Some(write) => {
                let known = is_of(&write, entry);
                drop(write);
                Ok(!known)
            }
            None => Ok(true),
        }
    }

    /// Whether an entry is a client's, and neither has the origin of one of the writes and fits it.
    pub(crate) fn is_strange(&self, entry: &Entry) -> Result<bool, OutOfMemory>
        ensures { IfOk result (λ strange. MatchBool strange (IsStrange self.now entry.now) (IsKnown self.now entry.now)) }
    {
        match entry.origin {
            Origin::Merge { .. } => Ok(false),
            Origin::Client { seq, .. } => self.is_stranger(entry, seq),
        }
    }

    /// The position of the first entry of a log that is strange. One look at each entry.
    pub(crate) fn first_strange(&self, log: &[Entry]) -> Result<Option<u64>, OutOfMemory>
        ensures { IfOk result (IsFirstStrange self.now log.now) }
    {
        for (place, entry) in log.iter().enumerate() {
            if self.is_strange(entry)? {
                return Ok(Some(place as u64 + 1));
            }
        }
        Ok(None)
    }
}
