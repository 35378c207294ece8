//! What keeps a changeset true. Each law is the contract of a function that does nothing.
ghost use Rattle.changeset.specs.ChangeLaws.{TouchesStay};
ghost use Rattle.changeset.specs.Changes.{IsOneTouch};

use crate::changeset::Changeset;

/// Each changeset is of one touch of its note's view.
pub fn changesets_are_of_one_touch(change: &Changeset)
    ensures { IsOneTouch change.now }
{
    let _ = change.before();
    let _ = change.change();
}

/// A touch of a note's view stays one while the view grows, so also in the view of a note that met
/// that note.
#[tactic(auto, using(crate::proofs::ChangeLemmas::touches_stay))]
pub fn touches_stay()
    ensures { TouchesStay }
{}
