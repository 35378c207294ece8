//! What a run promises to its caller, in the words of the plain graph: legal reads, acknowledged writes, settled and paired.
//!
//! What it promises. What a run promises is one page, `specs/Promise.antt`; that each line of a core keeps it stands in `promise_kept`, that a run
//! does in `tao_top`. By it an entry that stands after one line stands from then on, and the reads of a key by a session never go back.
//!
//! The contracts that say so: its laws. A worked run is in `specs/Example.antt`.
#![tactic(auto)]

ghost use Rattle.std.specs.Prelude.{List};
ghost use Rattle.plain_promise.specs.Acknowledged.{AcknowledgedStands};
ghost use Rattle.plain_promise.specs.Example.{EightAreRefused, SixLinesRun};
ghost use Rattle.plain_promise.specs.Promise.{NeverGoesBack, Plain, Said, StandsFromThenOn};
ghost use Rattle.tao_base.specs.EdgeTypes.{EdgeTypes};

/// An entry that stands after one line of a run stands after all later ones, and who has learnt of it stays so.
#[tactic(auto, using(crate::proofs::PromiseLaws::stands_from_then_on))]
pub fn stands_from_then_on()
    ensures { (types : EdgeTypes) (old : Plain) (saids : List Said) (new : Plain) → StandsFromThenOn types old saids new }
{}

/// What a session has seen it has seen from then on, and its reads of a key never go back, held or not.
#[tactic(auto, using(crate::proofs::SeenLaws::never_goes_back))]
pub fn never_goes_back()
    ensures { (types : EdgeTypes) (old : Plain) (saids : List Said) (new : Plain) → NeverGoesBack types old saids new }
{}

/// A write that a line of a run acknowledges, at once or held, stands at its position after the run, and each log has each origin once.
#[tactic(auto, using(crate::proofs::AcknowledgedLemmas::acknowledged_stands))]
pub fn acknowledged_stands()
    ensures { (types : EdgeTypes) (old : Plain) (saids : List Said) (new : Plain) → AcknowledgedStands types old saids new }
{}

/// The worked run of six lines is one of the promise.
#[tactic(auto, using(crate::proofs::ExampleLemmas::six_lines_run))]
pub fn six_lines_run()
    ensures { SixLinesRun }
{}

/// A read below its session's floor, one that goes back behind what its session has seen, an acknowledged write that doesn't stand, or whose
/// other end its session didn't learn of, a write that is refused with an entry that doesn't stand, or without the one that does, a settle that
/// leaves a job and an audit of a front are none.
#[tactic(auto, using(crate::proofs::ExampleLemmas::eight_are_refused))]
pub fn eight_are_refused()
    ensures { EightAreRefused }
{}
