//! Jobs: what an entry owes to another shard.
ghost use Rattle.std.specs.Prelude.{◌≡◌};

use std::alloc::AllocError;
use std::marker::Model;
use tao_base::{AType, EdgeState, Id};

/// A record of an edge at its other end: its id1, type and id2 there, and the record.
pub type JobEdge = (Id, AType, Id, EdgeState);

/// The records of a job: at most one, or a cut and then what is set in its place.
#[derive(Clone, Drop)]
pub struct JobEdges {
    edges: Vec<JobEdge>,
}

impl Model for JobEdges {
    ghost use Rattle.std.specs.Prelude.{List};
    ghost use Rattle.graph_model.specs.Soundness.{EdgeUpdate};

    ghost Value = { List EdgeUpdate };

    ghost view = { λ j. j.edges.items };
}

impl JobEdges {
    /// The records of a vector, which is taken over. Takes no memory.
    pub fn of(edges: Vec<JobEdge>) -> JobEdges
        ensures { result ≡ edges.items }
    {
        JobEdges { edges }
    }

    /// The records, the cut before what is set.
    pub fn as_slice(&self) -> &[JobEdge]
        ensures { result.now ≡ self.now }
    {
        self.edges.as_slice()
    }
}

/// What the entry at a position owes to another shard.
#[derive(Drop)]
pub struct Job {
    pub position: u64,
    pub edges: JobEdges,
}

impl Clone for Job {
    ghost is_clone = { λ source copy. copy ≡ source };

    fn clone(&self) -> Result<Job, AllocError> {
        Ok(Job {
            position: self.position,
            edges: self.edges.clone()?,
        })
    }
}
