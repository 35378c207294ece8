//! That what a core does with each line keeps the promise.
//!
//! What it promises. A core at a moment is seen as a state of the promise (`IsPlainOf`), from its opening on. From what the core says of a line's
//! reply follows that the line is a step of the promise, to a state that the core is then seen as, whatever it asks; a line that was refused before
//! anything was done changes nothing. A read that was said to be kept is answered the same where the next line asks it again.
//!
//! The contracts that say so: its laws.
#![tactic(auto)]

pub mod laws;
