//! What holds of nodes that have caught up.
ghost use Rattle.core_nodes.specs.Ends.{NodesCatchUp};
ghost use Rattle.tao_keeper.specs.Table.{Tables};
ghost use Rattle.topology.specs.Config.{Settings};

/// Nodes that have caught up have processed all that their regions' stores have; where these are whole, they hold last versions alone.
#[tactic(auto, using(crate::proofs::CaughtUp::nodes_catch_up))]
pub fn nodes_catch_up()
    ensures { (s : Settings) (tables : Tables) → NodesCatchUp s tables }
{}
