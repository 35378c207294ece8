//! How many hops the stages of a call took: the words that contracts share for it. There is no code here.
//!
//! What it promises. How hops add up: a count of hops stands still at its last value.
//!
//! The contracts that say so: the definitions of `Hops`.
#![tactic(auto)]
