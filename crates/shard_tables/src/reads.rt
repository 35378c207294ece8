//! What a store's own log answers to a query.
ghost use Rattle.std.specs.Prelude.{◌≡◌, ◌≤◌, IfOk, length, min};
ghost use Rattle.graph_model.specs.Answers.{answer as log_answer};
ghost use Rattle.tao_base.specs.Queries.{query_key};
ghost use Rattle.graph_model.specs.Edges.{IsInListOrder, edge_list};
ghost use Rattle.graph_model.specs.Told.{WhereTold};
ghost use Rattle.sealed_item.specs.list_prefix.Verdicts.{IsOfList};
ghost use Rattle.shard_tables.specs.Reads.{whole_answer};
ghost use Rattle.tao_keeper.specs.KeeperState.{CallsKeeper, KeepsTables};
ghost use Rattle.tao_schema.specs.Schema.{types_of};

use sealed_item::list_prefix::{Prefix, Verdict};
use tao_base::{AType, Answer, Edges, Id, Key, OutOfMemory, Query, StoreName};
use tao_keeper::{KeepFail, Keeper};
use tao_schema::Schema;

/// What a read found.
#[derive(Drop)]
pub struct Found {
    /// The answer to the query.
    pub answer: Answer,
    /// The version of the queried key at which the answer is true.
    pub version: u64,
}

/// What a list of that length answers to a query, from all its edges. One call of the keeper.
pub fn select<M: Keeper>(
    keeper: &mut M,
    at: StoreName,
    id1: Id,
    atype: AType,
    count: u64,
    bound: u64,
    query: &Query,
) -> Result<Answer, KeepFail>
    requires of_list { IsOfList query.now }
    requires count { WhereTold M.TELLS (count ≡ length (edge_list ((M.state keeper.old).told at).log id1 atype)) }
    ensures answer { WhereTold M.TELLS (IfOk result (λ answer. answer
        ≡ whole_answer bound (edge_list ((M.state keeper.old).told at).log id1 atype) query.now)) }
    ensures stays { KeepsTables M.TELLS (M.state keeper.old) (M.state keeper.new) }
    ensures calls { CallsKeeper KeepFail.Failed (M.state keeper.old) (M.state keeper.new) result }
{
    let edges = keeper.edges(at, id1, atype, 0, count)?;
    match answer_of_list(edges, query, bound) {
        Ok(answer) => Ok(answer),
        Err(OutOfMemory) => Err(KeepFail::OutOfMemory),
    }
}

/// What a list answers that has these edges and no others.
fn answer_of_list(edges: Edges, query: &Query, bound: u64) -> Result<Answer, OutOfMemory>
    requires in_order { IsInListOrder edges }
    requires of_list { IsOfList query.now }
    ensures { IfOk result (λ answer. answer ≡ whole_answer bound edges query.now) }
{
    let total = edges.as_slice().len() as u64;
    let verdict = Prefix::of(edges, total).read(query, bound)?;
    match verdict {
        Verdict::Decided(answer) => Ok(answer),
        Verdict::Undecided => unreachable!(),
    }
}
