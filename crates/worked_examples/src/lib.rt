//! Worked examples of definitions that the clauses of calls state: who serves while nodes are down or suspected, cached lists that take
//! a change, marks that are forgotten, and the texts of replies, also of those that no line gets yet.
//!
//! What it promises. Who serves while nodes are down or suspected, and the texts of replies, row by row.
//!
//! The contracts that say so: its laws.
#![tactic(auto)]

ghost use Rattle.worked_examples.specs.MarkedPositions.{MarksByExample};
ghost use Rattle.worked_examples.specs.Prefixes.{PrefixesByExample};
ghost use Rattle.worked_examples.specs.Replies.{CallsByExample, NodesByExample, RefusalsByExample};
ghost use Rattle.worked_examples.specs.Serving.{ChoicesByExample};

/// Who reads and who leads, in two regions of two leaders, a tier of one follower and a tier of two.
#[tactic(auto, using(crate::proofs::ServingExamples::examples_of_choices))]
pub fn choices_by_example()
    ensures { ChoicesByExample }
{}

/// The replies to calls.
#[tactic(auto, using(crate::proofs::ReplyExamples::examples_of_calls))]
pub fn calls_by_example()
    ensures { CallsByExample }
{}

/// The replies about nodes.
#[tactic(auto, using(crate::proofs::ReplyExamples::examples_of_nodes))]
pub fn nodes_by_example()
    ensures { NodesByExample }
{}

/// Refusals.
#[tactic(auto, using(crate::proofs::ReplyExamples::examples_of_refusals))]
pub fn refusals_by_example()
    ensures { RefusalsByExample }
{}

/// Cached lists that take a change of an edge that they hold.
#[tactic(auto, using(crate::proofs::CacheExamples::examples_of_prefixes))]
pub fn prefixes_by_example()
    ensures { PrefixesByExample }
{}

/// Marks ahead of the low-water mark, which an ask forgets.
#[tactic(auto, using(crate::proofs::CacheExamples::examples_of_marks))]
pub fn marks_by_example()
    ensures { MarksByExample }
{}
