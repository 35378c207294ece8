//! Laws of streams.
ghost use Rattle.region_stream.specs.Agreeing.{DifferencesTell};

/// A log that begins its master's differs from it at no position.
#[tactic(auto, using(crate::proofs::AgreeLemmas::differences_tell))]
pub fn differences_tell()
    ensures { DifferencesTell }
{}
