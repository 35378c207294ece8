//! What comes of steps that may be refused, or find nothing: the words that contracts share for it.
//! There is no code here.
//!
//! What it promises. What contracts say of steps that may be refused: the first refusal ends them, and an outcome
//! is the expected one or that there was no memory.
//!
//! The contracts that say so: the definitions of `Results` and `Options`.
#![tactic(auto)]
