//! Words and what they ask for, as contracts see it.
ghost use Rattle.command_words.specs.Read.{ExamplesOfWords};

/// What words ask for, in some examples.
#[tactic(auto, using(crate::proofs::WordExamples::examples_of_words))]
pub fn words_by_example()
    ensures { ExamplesOfWords }
{}
