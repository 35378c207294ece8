//! What an audit has found so far.
ghost use Rattle.std.specs.Prelude.{◌≡◌, ◌+◌, ◌++◌, ◌∷◌, [], OnOk};

use crate::audits::LoadAudit;
use crate::found::LogFound;
use replies::Lengths;
use std::alloc::Global;
use tao_base::OutOfMemory;

/// The lengths of the logs of the first shards, and how many edges these leave live.
#[derive(Drop)]
pub(crate) struct Tally {
    lengths: Vec<u64>,
    edges: u64,
}

impl Tally {
    /// Of no log.
    pub(crate) fn new(alloc: Global) -> Tally
        ensures lengths { result.lengths.items ≡ [] }
        ensures edges { result.edges ≡ 0 }
    {
        Tally {
            lengths: Vec::new(alloc),
            edges: 0,
        }
    }

    /// Adds what was found of the log of the shard that comes next. More edges than their number can count are too many for any memory.
    pub(crate) fn add(&mut self, found: LogFound) -> Result<(), OutOfMemory>
        ensures lengths { OnOk result (self.new.lengths.items ≡ self.old.lengths.items ++ found.length ∷ []) }
        ensures edges { OnOk result (self.new.edges ≡ self.old.edges + found.live) }
    {
        let Some(edges) = self.edges.checked_add(found.live) else {
            return Err(OutOfMemory);
        };
        self.lengths.push(found.length)?;
        self.edges = edges;
        Ok(())
    }

    /// What was found of all logs. Takes no memory.
    pub(crate) fn into_audit(self) -> LoadAudit
        ensures logs { result.logs ≡ self.lengths.items }
        ensures edges { result.edges ≡ self.edges }
    {
        LoadAudit {
            logs: Lengths::of(self.lengths),
            edges: self.edges,
        }
    }
}
