//! What follows of any marks and any calls, for callers to cite.
ghost use Rattle.low_water.specs.History.{MarkCall, LowIsGreatest};
ghost use Rattle.low_water.specs.Laws.{MarkAdds, TopIsGreatest};
ghost use Rattle.low_water.specs.Marks.{Marks};
ghost use Rattle.std.specs.Prelude.{ℕ, List};

/// The low-water mark is the greatest number such that all positions above the first one up to it
/// were marked while at most 1,024 ahead and not forgotten since, whatever the calls were.
#[tactic(auto, using(crate::proofs::Calls::low_greatest))]
pub fn low_is_greatest()
    ensures { (first : ℕ) (calls : List MarkCall) → LowIsGreatest first calls }
{}

/// A mark adds its position alone.
#[tactic(auto, using(crate::proofs::AddedMarks::mark_adds))]
pub fn a_mark_adds()
    ensures { (m : Marks) (position : ℕ) → MarkAdds m position }
{}

/// The top is the greatest marked position.
pub fn top_is_greatest()
    ensures { (m : Marks) → TopIsGreatest m }
{}
