//! What makes a fill, and keeps it, and what contents decide. Each law is the contract of a function that does nothing.
ghost use Rattle.tao_base.specs.EdgeTypes.{EdgeTypes};
ghost use Rattle.tao_base.specs.declared.query.Query.{Query as AnyQuery};
ghost use Rattle.sealed_item.specs.declared.content.Content.{Content as AnyContent};
ghost use Rattle.sealed_item.specs.DecidedLaws.{ContentsAnswer, FrontsDecide, LongerContentsAnswer};
ghost use Rattle.sealed_item.specs.FillLaws.{BeginningIsSealed, ContentsStay, FillsStay};
ghost use Rattle.sealed_item.specs.Fills.{IsSealed};

use crate::fill::Fill;
use tao_base::Entry;

/// Each fill is one in its note's view.
pub fn fills_are_sealed(fill: &Fill)
    ensures { IsSealed fill.now }
{
    let _ = fill.content();
    let _ = fill.as_of();
}

/// A content that is exact in a view stays exact while the view grows, with no more said of it.
#[tactic(auto, using(crate::proofs::FillLemmas::contents_stay))]
pub fn contents_stay()
    ensures { ContentsStay }
{}

/// A fill stays true while its note's view grows, so also in the view of a note that met its note.
#[tactic(auto, using(crate::proofs::FillLemmas::fills_stay))]
pub fn fills_stay()
    ensures { FillsStay }
{}

/// What the first entries of a log give at a key is a fill as of them.
#[tactic(auto, using(crate::proofs::FillLemmas::beginning_is_sealed))]
pub fn beginnings_are_sealed(_log: &[Entry], _length: u64)
    ensures { BeginningIsSealed _log.now _length }
{}

/// What is read off an exact content that decides a query is what its log answers.
#[tactic(auto, using(crate::proofs::Deciding::contents_answer))]
pub fn contents_answer()
    ensures { ContentsAnswer }
{}

/// Of two contents that are exact at one version the longer decides what the shorter does, and each that
/// decides a query gives the same answer.
#[tactic(auto, using(crate::proofs::Deciding::longer_contents_answer))]
pub fn longer_contents_answer()
    ensures { LongerContentsAnswer }
{}

/// The shortest front of an exact content that decides a query is exact, decides it and is within the
/// bound of its type.
#[tactic(auto, using(crate::proofs::Deciding::fronts_decide))]
pub fn fronts_decide()
    ensures { (types : EdgeTypes) (query : AnyQuery) (content : AnyContent) → FrontsDecide types query content }
{}
