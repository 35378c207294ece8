//! What follows of any calls, for callers to cite.
ghost use Rattle.ask_table.specs.History.{AsksAreOpen, AskCall};
ghost use Rattle.std.specs.Prelude.{List};

/// The open asks are those that began and weren't ended since, each with the mark given at its
/// beginning and the greatest version raised on its key since, whatever the calls were.
pub fn open_asks_tell_the_calls()
    ensures { (calls : List AskCall) → AsksAreOpen calls }
{}
