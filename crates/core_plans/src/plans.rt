//! The plans that are held, each under its number: how one is added, does its next stage, is given up and is taken out.
ghost use Rattle.std.specs.Prelude.{◌≡◌, IfSome, IsSome};
ghost use Rattle.core_plans.specs.Held.{CanStep, GivesUp, IsThere, IsUnderWay, StepsHeld, StepsPlan, learner};
ghost use Rattle.core_plans.specs.LedBy.{rules_of};
ghost use Rattle.core_steps.specs.Posting.{CanPost, PostsOn};
ghost use Rattle.core_steps.specs.World.{world};

use crate::held::HeldPlan;
use crate::reads::{give_up_read, read_stage};
use crate::writes::{give_up_way, write_stage};
use core_steps::Nodes;
use std::alloc::Global;
use std::collections::BTreeMap;
use std::marker::Model;
use tao_base::OutOfMemory;
use tao_keeper::Keeper;
use tao_link::Link;
use topology::Config;

/// Drops a value. Whatever its type, it is one step to the one who reads on.
fn let_go<T: Drop>(value: T) {
    drop(value);
}

/// Does the stage of a plan that follows.
pub(crate) fn held_stage<K: Keeper, L: Link>(
    nodes: &mut Nodes,
    config: &Config,
    keepers: &mut K,
    link: &mut L,
    plan: &mut HeldPlan,
)
    requires ready { CanPost K.TELLS config.now (world nodes.old (K.state keepers.old) (L.shown link.old)) }
    requires there { IsThere K.TELLS config.now (K.state keepers.old).told nodes.old.fleet plan.old }
    ensures steps { StepsHeld (rules_of K.TELLS config.now)
        plan.old (world nodes.old (K.state keepers.old) (L.shown link.old))
        plan.new (world nodes.new (K.state keepers.new) (L.shown link.new)) }
    ensures under_way { IsUnderWay K.TELLS config.now (K.state keepers.new).told nodes.new.fleet plan.new }
    ensures on { PostsOn K.TELLS config.now
        (world nodes.old (K.state keepers.old) (L.shown link.old))
        (world nodes.new (K.state keepers.new) (L.shown link.new)) }
{
    match plan {
        HeldPlan::Read(plan) => read_stage(nodes, config, keepers, link, plan),
        HeldPlan::Write(plan) => write_stage(nodes, config, keepers, link, plan),
    }
}

/// Ends a plan in place of a stage that may be its last, since there is no memory for what its session is to learn.
fn give_up_stage<K: Keeper, L: Link>(
    nodes: &mut Nodes,
    config: &Config,
    keepers: &K,
    link: &L,
    plan: &mut HeldPlan,
)
    requires ready { CanPost K.TELLS config.now (world nodes.old (K.state keepers.now) (L.shown link.now)) }
    requires there { IsThere K.TELLS config.now (K.state keepers.now).told nodes.old.fleet plan.old }
    requires last { IsSome (learner plan.old) }
    ensures gives_up { GivesUp plan.old (world nodes.old (K.state keepers.now) (L.shown link.now))
        plan.new (world nodes.new (K.state keepers.now) (L.shown link.now)) }
    ensures under_way { IsUnderWay K.TELLS config.now (K.state keepers.now).told nodes.new.fleet plan.new }
    ensures on { PostsOn K.TELLS config.now
        (world nodes.old (K.state keepers.now) (L.shown link.now))
        (world nodes.new (K.state keepers.now) (L.shown link.now)) }
{
    match plan {
        HeldPlan::Read(plan) => give_up_read(nodes, config, keepers, link, plan),
        HeldPlan::Write(plan) => give_up_way(plan),
    }
}

/// The plans that are held, by their numbers. A look-up is a search among them.
#[derive(Drop)]
pub struct HeldPlans {
    plans: BTreeMap<u32, HeldPlan>,
}

impl Model for HeldPlans {
    ghost use Rattle.core_plans.specs.Held.{Plans, plans_seen};

    ghost Value = { Plans };

    ghost view = { plans_seen };
}

impl HeldPlans {
    ghost use Rattle.std.specs.Prelude.{ℕ, ◌≡◌, None, OnErr, OnOk, false, is_some, option_and_then, option_copied, true};
    ghost use Rattle.core_plans.specs.Held.{AddsPlan, GivesUpPlan, TakesPlan, plan_at, plan_count};

    /// None is held. Takes no memory.
    pub fn new(alloc: Global) -> HeldPlans
        ensures none { (number : ℕ) → plan_at result number ≡ None }
        ensures count { plan_count result ≡ 0 }
    {
        HeldPlans {
            plans: BTreeMap::new(alloc),
        }
    }

    /// How many are held.
    pub fn len(&self) -> usize
        ensures { result ≡ plan_count self.now }
    {
        self.plans.len()
    }

    /// Whether a plan of that number is held.
    pub fn has(&self, number: u32) -> bool
        ensures { result ≡ is_some (plan_at self.now number) }
    {
        self.plans.contains_key(&number)
    }

    /// The plan of that number.
    pub fn at(&self, number: u32) -> Option<&HeldPlan>
        ensures { option_copied result ≡ plan_at self.now number }
    {
        self.plans.get(&number)
    }

    /// Holds a plan under a number that is free. The one error is out of memory, and leaves all as it was.
    pub fn add(&mut self, number: u32, plan: HeldPlan) -> Result<(), OutOfMemory>
        requires { plan_at self.old number ≡ None }
        ensures ok { OnOk result (AddsPlan number plan self.old self.new) }
        ensures err { OnErr result (self.new ≡ self.old) }
    {
        match self.plans.insert(number, plan) {
            Ok(other) => {
                let_go(other);
                Ok(())
            }
            Err(failed) => {
                let_go(failed);
                Err(OutOfMemory)
            }
        }
    }

    /// Takes the plan of that number out. None, and nothing changed, exactly where none is held. Takes no memory.
    pub fn take(&mut self, number: u32) -> Option<HeldPlan>
        ensures plan { result ≡ plan_at self.old number }
        ensures without { is_some result ≡ true → TakesPlan number self.old self.new }
        ensures same { is_some result ≡ false → self.new ≡ self.old }
    {
        self.plans.remove(&number)
    }

    /// Ends the plan of that number in place of a stage that may be its last, since there is no memory for what its session is to learn. A write
    /// stands, at the position that its reply says, and of a read the ask ends; nothing else changes but the plan, which stays. Takes no memory.
    pub fn give_up<K: Keeper, L: Link>(
        &mut self,
        nodes: &mut Nodes,
        config: &Config,
        keepers: &K,
        link: &L,
        number: u32,
    )
        requires ready { CanPost K.TELLS config.now (world nodes.old (K.state keepers.now) (L.shown link.now)) }
        requires can { CanStep K.TELLS config.now (K.state keepers.now).told nodes.old.fleet (plan_at self.old number) }
        requires last { IsSome (option_and_then learner (plan_at self.old number)) }
        ensures gives_up { GivesUpPlan number
            self.old (world nodes.old (K.state keepers.now) (L.shown link.now))
            self.new (world nodes.new (K.state keepers.now) (L.shown link.now)) }
        ensures under_way { IfSome (plan_at self.new number) (IsUnderWay K.TELLS config.now (K.state keepers.now).told nodes.new.fleet) }
        ensures on { PostsOn K.TELLS config.now
            (world nodes.old (K.state keepers.now) (L.shown link.now))
            (world nodes.new (K.state keepers.now) (L.shown link.now)) }
    {
        match self.plans.get_mut(&number) {
            Some(plan) => give_up_stage(nodes, config, keepers, link, plan),
            None => unreachable!(),
        }
    }

    /// Does the stage of the plan of that number that follows; where a node is down that it needs, the plan ends with `node_down`. The plan stays, also where
    /// it is over then.
    ///
    /// Costs what the stage does in `core_steps`.
    pub fn step<K: Keeper, L: Link>(
        &mut self,
        nodes: &mut Nodes,
        config: &Config,
        keepers: &mut K,
        link: &mut L,
        number: u32,
    )
        requires ready { CanPost K.TELLS config.now (world nodes.old (K.state keepers.old) (L.shown link.old)) }
        requires can { CanStep K.TELLS config.now (K.state keepers.old).told nodes.old.fleet (plan_at self.old number) }
        ensures steps { StepsPlan (rules_of K.TELLS config.now) number
            self.old (world nodes.old (K.state keepers.old) (L.shown link.old))
            self.new (world nodes.new (K.state keepers.new) (L.shown link.new)) }
        ensures under_way { IfSome (plan_at self.new number) (IsUnderWay K.TELLS config.now (K.state keepers.new).told nodes.new.fleet) }
        ensures on { PostsOn K.TELLS config.now
            (world nodes.old (K.state keepers.old) (L.shown link.old))
            (world nodes.new (K.state keepers.new) (L.shown link.new)) }
    {
        match self.plans.get_mut(&number) {
            Some(plan) => held_stage(nodes, config, keepers, link, plan),
            None => unreachable!(),
        }
    }
}
