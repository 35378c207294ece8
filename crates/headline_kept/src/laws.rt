//! That each line keeps the headline.
ghost use Rattle.headline_kept.specs.Headline.{LinesFailRightly, LinesKeepHeadline, LinesKeepItems};
ghost use Rattle.headline_kept.specs.Refusing.{LinesRefuseRightly, WritesStand};

/// Through each line items stay as they were, unless it touches them.
#[tactic(auto, using(crate::proofs::ItemLines::items_are_kept))]
pub fn items_are_kept()
    ensures { LinesKeepItems }
{}

/// Each refusal has its cause, and leaves the histories as they were, but where it says otherwise.
#[tactic(auto, using(crate::proofs::Refusals::lines_refuse_rightly))]
pub fn lines_refuse_rightly()
    ensures { LinesRefuseRightly }
{}

/// A line in which something fails says so rightly: of histories, of causes, of what was written all the same, and of what is only scheduled.
#[tactic(auto, using(crate::proofs::Failing::lines_fail_rightly))]
pub fn lines_fail_rightly()
    ensures { LinesFailRightly }
{}

/// A write that is acknowledged stands from then on.
#[tactic(auto, using(crate::proofs::Acknowledged::writes_stand))]
pub fn writes_stand()
    ensures { WritesStand }
{}

/// Each line keeps all of it.
#[tactic(auto, using(crate::proofs::Keeping::headline_kept))]
pub fn headline_kept()
    ensures { LinesKeepHeadline }
{}
