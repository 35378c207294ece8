//! What stays so while views grow. Each law is the contract of a function with an empty body.
ghost use Rattle.std.specs.Prelude.{◌≤◌, length};
ghost use Rattle.graph_model.specs.Soundness.{IsSound};
ghost use Rattle.shard_log.specs.GrowthLaws.{
  BeginningsAreSound,
  EntriesStay,
  GrowthGoesOn,
  ItemsStayExact,
  SeenStays,
  VersionsStay,
};
ghost use Rattle.graph_model.specs.Told.{WhereTold};
ghost use Rattle.shard_log.specs.View.{most_entries};

use crate::note::Note;

/// Growth is a chain.
#[tactic(auto, using(crate::proofs::GrowthLemmas::growth_goes_on))]
pub fn growth_goes_on()
    ensures { GrowthGoesOn }
{}

/// An item that is exact in a view stays exact.
#[tactic(auto, using(crate::proofs::GrowthLemmas::items_stay_exact))]
pub fn items_stay_exact()
    ensures { ItemsStayExact }
{}

/// The versions of a key in a view's first entries stay, and its version in the whole view never falls.
#[tactic(auto, using(crate::proofs::GrowthLemmas::versions_stay))]
pub fn versions_stay()
    ensures { VersionsStay }
{}

/// The entry at a position stays there.
#[tactic(auto, using(crate::proofs::GrowthLemmas::entries_stay))]
pub fn entries_stay()
    ensures { EntriesStay }
{}

/// A view that grew into a sound one is sound.
#[tactic(auto, using(crate::proofs::GrowthLemmas::beginnings_are_sound))]
pub fn beginnings_are_sound()
    ensures { BeginningsAreSound }
{}

/// What was seen of a log stays seen, and a read that is legal in it stays legal.
#[tactic(auto, using(crate::proofs::GrowthLemmas::seen_stays))]
pub fn seen_stays()
    ensures { SeenStays }
{}

/// What each note has seen of a log that is told is sound.
pub fn notes_are_sound(note: &Note)
    ensures few { length note.now.entries ≤ most_entries }
    ensures sound { WhereTold note.now.log.told (IsSound note.now.entries) }
{
    let _ = &note.place;
}
