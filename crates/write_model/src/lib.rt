//! What is written to the logs of the shards: the entries of writes and of merges, the steps of the stores, and the plain
//! machine that a caller sees. Each law is the contract of a function with an empty body.
//!
//! What it promises. The laws of what is written: the entries of writes and of merges keep a log sound, merges in
//! any order leave the same records; each step of writes, merges and jobs keeps the stores sound and covered,
//! where no job is open all edges are paired, and jobs in order are a settle.
//!
//! The contracts that say so: the functions of its modules, each a law.
#![tactic(auto)]

pub mod covers;
pub mod merges;
pub mod writes;
