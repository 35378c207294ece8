//! The tables of the master stores, seen as the logs and open jobs of all shards.
//!
//! What it promises. A keeper's calls on the tables of the masters are the steps of the stores of all shards; the
//! first open job of a store says where it may be merged.
//!
//! The contracts that say so: `calls_are_steps`.
#![tactic(auto)]

ghost use Rattle.master_tables.specs.Laws.{TableLaws};

/// What the calls of a keeper do to its tables are the steps of the stores of all shards.
#[tactic(auto, using(crate::proofs::Calls::table_laws))]
pub fn calls_are_steps()
    ensures { TableLaws }
{}
