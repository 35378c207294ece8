//! What a settle leaves, and how long it stays.
ghost use Rattle.tao_core.specs.Laws.{SettledUntilACommit};

/// After a settle every node has processed the whole logs, and until a log grows each read that begins answers at the last version of its key.
#[tactic(auto, using(crate::proofs::SettledLaws::settled_until_a_commit))]
pub fn settled_until_a_commit()
    ensures { SettledUntilACommit }
{}
