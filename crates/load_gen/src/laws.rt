//! The workload by example.
ghost use Rattle.load_gen.specs.Examples.{RequestsByExample};

/// All requests of two seeds.
#[tactic(auto, using(crate::proofs::Examples::examples))]
pub fn requests_by_example()
    ensures { RequestsByExample }
{}
