//! What follows of any calls, for callers to cite.
ghost use Rattle.std.specs.Prelude.{ℕ, List};
ghost use Rattle.hot_items.specs.Laws.{TellsQueries, UnchangedIsLastFull};
ghost use Rattle.hot_items.specs.declared.reply.HotReply.{HotReply};
ghost use Rattle.tao_base.specs.declared.query.Query.{Query};

/// Whatever was taken, an unchanged reply is answered as the last full reply to its query was, and that had the epoch
/// and version which it names.
#[tactic(auto, using(crate::proofs::Calls::last_full_held))]
pub fn unchanged_is_the_last_full()
    ensures { (most : ℕ) (calls : List (Query × HotReply)) (query : Query) → UnchangedIsLastFull most calls query }
{}

/// Two queries have one key exactly where they are the same.
#[tactic(auto, using(crate::proofs::SameQueries::tells_queries))]
pub fn keys_tell_queries()
    ensures { (query other : Query) → TellsQueries query other }
{}
