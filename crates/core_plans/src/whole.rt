//! Calls that aren't held: all stages of a plan, one after another.
ghost use Rattle.core_plans.specs.HeldReads.{IsReadUnderWay};
ghost use Rattle.core_plans.specs.HeldWrites.{IsWriteUnderWay};
ghost use Rattle.core_plans.specs.LedBy.{rules_of};
ghost use Rattle.core_plans.specs.WholeCalls.{CarriesOut};
ghost use Rattle.core_plans.specs.declared.held.HeldPlan.TheVariants.{Read, Write};
ghost use Rattle.core_steps.specs.Posting.{CanPost, PostsOn};
ghost use Rattle.core_steps.specs.World.{world};

use crate::reads::read_stage;
use crate::writes::write_stage;
use core_steps::Nodes;
use read_plan::ReadPlan;
use tao_keeper::Keeper;
use tao_link::Link;
use topology::Config;
use write_plan::WritePlan;

/// Does all stages of a read that are left, one after another. A stage that fails is the last.
///
/// Costs what the stages do: four at most.
pub fn carry_read<K: Keeper, L: Link>(
    nodes: &mut Nodes,
    config: &Config,
    keepers: &mut K,
    link: &mut L,
    plan: &mut ReadPlan,
)
    requires ready { CanPost K.TELLS config.now (world nodes.old (K.state keepers.old) (L.shown link.old)) }
    requires read { IsReadUnderWay K.TELLS config.now (K.state keepers.old).told nodes.old.fleet plan.old }
    ensures does { CarriesOut (rules_of K.TELLS config.now)
        (Read plan.old) (world nodes.old (K.state keepers.old) (L.shown link.old))
        (Read plan.new) (world nodes.new (K.state keepers.new) (L.shown link.new)) }
    ensures read { IsReadUnderWay K.TELLS config.now (K.state keepers.new).told nodes.new.fleet plan.new }
    ensures on { PostsOn K.TELLS config.now
        (world nodes.old (K.state keepers.old) (L.shown link.old))
        (world nodes.new (K.state keepers.new) (L.shown link.new)) }
{
    while plan.next().name().is_some() {
        read_stage(nodes, config, keepers, link, plan);
    }
}

/// Does all stages of a write that are left, one after another. A stage that fails is the last.
///
/// Costs what the stages do: five at most.
pub fn carry_write<K: Keeper, L: Link>(
    nodes: &mut Nodes,
    config: &Config,
    keepers: &mut K,
    link: &mut L,
    plan: &mut WritePlan,
)
    requires ready { CanPost K.TELLS config.now (world nodes.old (K.state keepers.old) (L.shown link.old)) }
    requires write { IsWriteUnderWay K.TELLS config.now (K.state keepers.old).told nodes.old.fleet plan.old }
    ensures does { CarriesOut (rules_of K.TELLS config.now)
        (Write plan.old) (world nodes.old (K.state keepers.old) (L.shown link.old))
        (Write plan.new) (world nodes.new (K.state keepers.new) (L.shown link.new)) }
    ensures write { IsWriteUnderWay K.TELLS config.now (K.state keepers.new).told nodes.new.fleet plan.new }
    ensures on { PostsOn K.TELLS config.now
        (world nodes.old (K.state keepers.old) (L.shown link.old))
        (world nodes.new (K.state keepers.new) (L.shown link.new)) }
{
    while plan.next().said().is_some() {
        write_stage(nodes, config, keepers, link, plan);
    }
}
