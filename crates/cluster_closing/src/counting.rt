//! What a settle is said to have stopped with.
ghost use Rattle.cluster_closing.specs.Closing.{HasRisen, IsSaid};

use cluster_opening::rose;
use core_nodes::SettleStop;
use replies::UnsettledWhy;

/// What a settle stops with, where a keeper's fault is said only as their counts, added up, rose. It can't be said else: no call is made on a store that
/// no keeper stands for.
fn with_cause(stop: SettleStop, before: u64, now: u64) -> SettleStop
    ensures { HasRisen before now stop result }
{
    match stop {
        SettleStop::Unsettled {
            why: UnsettledWhy::KeeperFault,
            ..
        } => {
            if rose(before, now) {
                stop
            } else {
                SettleStop::OutOfMemory
            }
        }
        _ => stop,
    }
}

/// What came of a settle, where a keeper's fault is said only as their counts, added up, rose.
pub(crate) fn said_as(
    outcome: Result<Vec<u64>, SettleStop>,
    before: u64,
    now: u64,
) -> Result<Vec<u64>, SettleStop>
    ensures { IsSaid before now outcome result }
{
    match outcome {
        Ok(logs) => Ok(logs),
        Err(stop) => Err(with_cause(stop, before, now)),
    }
}
