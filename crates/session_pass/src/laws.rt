//! What each pass is. The law is the contract of a function that does nothing.
ghost use Rattle.session_pass.specs.Passes.{IsPass};

use crate::pass::Pass;

/// Each key has reached its floor in what the pass has seen, of each log that is told.
pub fn floors_are_reached(pass: &Pass)
    ensures { IsPass pass.now }
{
    let _ = &pass.session;
}
