//! The touches of a merge: those of the records that are later than what stands there.
ghost use Rattle.std.specs.Prelude.{◌≡◌, ◌≤◌, ◌<◌, ◌++◌, IfOk, OnOk, filter, map};
ghost use Rattle.std.specs.Option.{option_to_list};
ghost use Rattle.graph_model.specs.Records.{is_later, is_news};
ghost use Rattle.graph_model.specs.Told.{WhereTold};
ghost use Rattle.tao_base.specs.Stamps.{stamp_of};
ghost use Rattle.tao_keeper.specs.Given.{HaveSmallRecords, HaveSmallStamps};
ghost use Rattle.tao_keeper.specs.KeeperState.{CallsKeeper, KeepsTables};
ghost use Rattle.write_model.specs.Writes.{edge_touch};
ghost use Rattle.write_touches.specs.Edges.{news_touch};

use super::edge_writes::touch_over;
use std::alloc::Global;
use tao_base::{EdgeState, StoreName, Touch};
use tao_keeper::{KeepFail, Keeper, STAMP_LIMIT};
use write_model::merges::EdgeUpdate;

/// Whether the record is later than the one that stands there.
fn is_later(state: &EdgeState, found: &Option<EdgeState>) -> bool
    ensures { result ≡ is_later state.now found.now }
{
    match found {
        Some(old) => old.stamp().is_before(&state.stamp()),
        None => true,
    }
}

/// Adds the touch that writes a record, where that is later than what stands there.
fn add_news<M: Keeper>(
    touches: &mut Vec<Touch>,
    keeper: &mut M,
    at: StoreName,
    update: &EdgeUpdate,
) -> Result<(), KeepFail>
    requires { (stamp_of update.now.3).number < STAMP_LIMIT }
    ensures touches { WhereTold M.TELLS (OnOk result (touches.new.items
        ≡ touches.old.items ++ option_to_list (news_touch ((M.state keeper.old).told at).log update.now))) }
    ensures small { HaveSmallStamps touches.old.items → OnOk result (HaveSmallStamps touches.new.items) }
    ensures stays { KeepsTables M.TELLS (M.state keeper.old) (M.state keeper.new) }
    ensures calls { CallsKeeper KeepFail.Failed (M.state keeper.old) (M.state keeper.new) result }
{
    let (id1, atype, id2, state) = update;
    let old = keeper.edge(at, *id1, *atype, *id2)?;
    if is_later(state, &old) {
        let touch = touch_over(keeper, at, update, &old)?;
        touches.push(touch)?;
    }
    Ok(())
}

/// The touches that write those of the records that are later than what stands there, in their order. No table changes.
/// Costs a call of the keeper for each record, and one more for each that is written.
pub fn news_touches<M: Keeper>(
    alloc: Global,
    keeper: &mut M,
    at: StoreName,
    updates: &[EdgeUpdate],
) -> Result<Vec<Touch>, KeepFail>
    requires { HaveSmallRecords updates.now }
    ensures touches { WhereTold M.TELLS (IfOk result (λ ts. ts.items ≡ map (edge_touch ((M.state keeper.old).told at).log)
        (filter (is_news ((M.state keeper.old).told at).log) updates.now))) }
    ensures small { IfOk result (λ ts. HaveSmallStamps ts.items) }
    ensures stays { KeepsTables M.TELLS (M.state keeper.old) (M.state keeper.new) }
    ensures calls { CallsKeeper KeepFail.Failed (M.state keeper.old) (M.state keeper.new) result }
{
    let mut touches = Vec::new(alloc);
    for update in updates {
        add_news(&mut touches, keeper, at, update)?;
    }
    Ok(touches)
}
