//! Counting the edges that a log leaves live.
ghost use Rattle.std.specs.Prelude.{◌≡◌, ◌≤◌, ◌&&◌, [], ◌∷◌, IfOk, OnOk, filter_map, if◌then◌else◌};
ghost use Rattle.std.specs.HashSet.{hash_set_len};
ghost use Rattle.graph_model.specs.Soundness.{update_at};
ghost use Rattle.load_audit.specs.LiveEdges.{live_count, records_of};

use crate::logged::{LoggedEdge, meet, record_at};
use std::alloc::Global;
use std::collections::HashSet;
use tao_base::{Entry, OutOfMemory, Touch};

/// How many edges records leave live. A log is gone through from its end, so that the first record of an edge that is met is its last one.
#[derive(Drop)]
pub(crate) struct LiveCount {
    /// The edges whose last record was met.
    met: HashSet<LoggedEdge>,
    /// How many of these are live.
    live: u64,
    ghost within: { live ≤ hash_set_len met },
}

/// What a record counts, by whether it is the last one of its edge, and live.
fn counted(is_last: bool, is_live: bool) -> u64
    ensures { result ≡ (if is_last && is_live then 1 else 0) }
{
    u64::from(is_last && is_live)
}

/// How many edges a log leaves live. Takes memory for each edge of the log, and one look-up for each record of one.
pub(crate) fn live_edges(alloc: Global, log: &[Entry]) -> Result<u64, OutOfMemory>
    ensures { IfOk result (λ live. live ≡ live_count log.now) }
{
    let mut count = LiveCount::new(alloc);
    count.meet_log(log)?;
    Ok(count.live)
}

impl LiveCount {
    ghost use Rattle.load_audit.specs.Counting.{HasMet, MeetsMore};

    /// Of no record.
    fn new(alloc: Global) -> LiveCount
        ensures { HasMet [] result }
    {
        LiveCount {
            met: HashSet::new(alloc),
            live: 0,
        }
    }

    /// Meets the record that a touch writes, if it writes one.
    fn meet_touch(&mut self, touch: &Touch) -> Result<(), OutOfMemory>
        ensures { OnOk result (MeetsMore (filter_map (λ t. update_at t.key t.change) (touch.now ∷ [])) self.old self.new) }
    {
        match record_at(touch) {
            Some((edge, is_live)) => {
                let is_first = meet(&mut self.met, edge)?;
                self.live += counted(is_first, is_live);
                Ok(())
            }
            None => Ok(()),
        }
    }

    /// Meets the records that touches write, from the last to the first.
    fn meet_touches(&mut self, touches: &[Touch]) -> Result<(), OutOfMemory>
        ensures { OnOk result (MeetsMore (filter_map (λ t. update_at t.key t.change) touches.now) self.old self.new) }
    {
        let mut left = touches;
        'touches: while let [before @ .., touch] = left {
            self.meet_touch(touch)?;
            left = before;
        }
        Ok(())
    }

    /// Meets the records of a log, from the last to the first.
    fn meet_log(&mut self, log: &[Entry]) -> Result<(), OutOfMemory>
        ensures { OnOk result (MeetsMore (records_of log.now) self.old self.new) }
    {
        let mut left = log;
        'entries: while let [before @ .., entry] = left {
            self.meet_touches(entry.touches.as_slice())?;
            left = before;
        }
        Ok(())
    }
}
