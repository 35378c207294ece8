//! What stays so.
ghost use Rattle.std.specs.Prelude.{ℕ, ◌≡◌, Bool, List, Some, slice_get};
ghost use Rattle.cache_items.specs.Node.{Node};
ghost use Rattle.core_model.specs.Asks.{AsksStayOn};
ghost use Rattle.core_model.specs.Cuts.{AtStoresIsPast, NodesStayPastCuts};
ghost use Rattle.core_model.specs.Fleet.{Fleet};
ghost use Rattle.core_model.specs.Laws.{ChoicesServe, FollowersStay, JobsStayOwed, MessagesStay, NodesAskOn, NodesMarkOn, NodesStay, NodesStaySeen};
ghost use Rattle.core_model.specs.Items.{ItemsStay};
ghost use Rattle.core_model.specs.Laws.{NodesAreToldAs, NodesReachNoFurther, NodesStayAtStores, ReadsAreLegal, RightNodesStay, ServesItsTurn};
ghost use Rattle.core_model.specs.Pens.{Pens};
ghost use Rattle.core_model.specs.Reads.{Wanted};
ghost use Rattle.core_model.specs.States.{NodesNow, SettledStays};
ghost use Rattle.core_model.specs.StoreLaws.{LogsFollow, StoreGoesOn, StoresAreFound, StoresGoOn};
ghost use Rattle.node_name.specs.declared.NodeName.{NodeName as AnyNode};
ghost use Rattle.shard_log.specs.View.{LogName};
ghost use Rattle.leader_tier.specs.shard_tables.StoreView.{Store};
ghost use Rattle.tao_base.specs.EdgeTypes.{EdgeTypes};
ghost use Rattle.tao_base.specs.declared.id.Key.{Key as KeyOf};
ghost use Rattle.tao_keeper.specs.Table.{Tables};
ghost use Rattle.topology.specs.Config.{Settings};
ghost use Rattle.topology.specs.States.{NodeStates};

/// Asks go on, whatever is done to them.
#[tactic(auto, using(crate::proofs::AsksOn::asks_stay_on))]
pub fn asks_stay_on()
    ensures { AsksStayOn }
{}

/// What nodes have seen stays seen.
#[tactic(auto, using(crate::proofs::NodesSeen::nodes_stay_seen))]
pub fn nodes_stay_seen()
    ensures { NodesStaySeen }
{}

/// A node stays one of its core, whatever stage it does and whatever the logs grow by.
#[tactic(auto, using(crate::proofs::Staying::nodes_stay))]
pub fn nodes_stay()
    ensures { (s : Settings) (pens : Pens) (name : AnyNode) → NodesStay s pens name }
{}

/// A node stays such also where nobody has the pens, and what it has seen is known by the names of its logs alone.
#[tactic(auto, using(crate::proofs::Staying::named_nodes_stay))]
pub fn named_nodes_stay()
    ensures { (s : Settings) (log : ℕ → LogName) (name : AnyNode) → RightNodesStay s (λ shard view. view.log ≡ log shard) name }
{}

/// A follower stays one of its core, with its refills.
#[tactic(auto, using(crate::proofs::Refilling::followers_stay))]
pub fn followers_stay()
    ensures { (s : Settings) (pens : Pens) (name : AnyNode) → FollowersStay s pens name }
{}

/// A message stays one for its node, whatever the logs grow by.
#[tactic(auto, using(crate::proofs::Staying::messages_stay))]
pub fn messages_stay()
    ensures { MessagesStay }
{}

/// A follower's asks go on, whatever stage it does.
#[tactic(auto, using(crate::proofs::AskingOn::nodes_ask_on))]
pub fn nodes_ask_on()
    ensures { NodesAskOn }
{}

/// No low-water mark of a node falls, whatever stage it does.
#[tactic(auto, using(crate::proofs::MarkingOn::nodes_mark_on))]
pub fn nodes_mark_on()
    ensures { NodesMarkOn }
{}

/// A hit is legal in the shard's log, and so is what a note of it answers.
#[tactic(auto, using(crate::proofs::Legal::reads_are_legal))]
pub fn reads_are_legal()
    ensures { (types : EdgeTypes) (pens : Pens) (read : Wanted) → ReadsAreLegal types pens read }
{}

/// No node marks what its region's store hasn't.
#[tactic(auto, using(crate::proofs::Reaching::nodes_reach))]
pub fn nodes_reach()
    ensures { (tables : Tables) (region : ℕ) → NodesReachNoFurther tables region }
{}

/// A node that has processed all that its region's store has stays so until that store grows.
#[tactic(auto, using(crate::proofs::Reaching::nodes_stay_at))]
pub fn nodes_stay_at()
    ensures { (region : ℕ) → NodesStayAtStores region }
{}

/// An item stays as it was, whatever its node does with other keys.
#[tactic(auto, using(crate::proofs::ItemsStaying::items_stay))]
pub fn items_stay()
    ensures { (key : KeyOf) → ItemsStay key }
{}

/// Each store's log begins its shard's log.
#[tactic(auto, using(crate::proofs::Settled::logs_follow))]
pub fn logs_follow()
    ensures { (s : Settings) (tables : Tables) (stores : List Store) → LogsFollow s tables stores }
{}

/// What is settled stays so until a log grows.
#[tactic(auto, using(crate::proofs::Settled::settled_stays))]
pub fn settled_stays()
    ensures { (s : Settings) (before : Tables) (after : Tables) (old : NodesNow) (new : NodesNow) → SettledStays s before after old new }
{}

/// No node falls behind a cut of its region's stores, until a log is cut.
#[tactic(auto, using(crate::proofs::PastCuts::nodes_stay_past_cuts))]
pub fn nodes_stay_past_cuts()
    ensures { (s : Settings) (before : Tables) (after : Tables) (old : Fleet) (new : Fleet) → NodesStayPastCuts s before after old new }
{}

/// A node that has processed all that its region's stores have is past their cuts.
#[tactic(auto, using(crate::proofs::PastCuts::at_stores_is_past))]
pub fn at_stores_is_past()
    ensures { (s : Settings) (tables : Tables) (region : ℕ) (node : Node) → AtStoresIsPast s tables region node }
{}

/// What a node serves is told only where the tables are.
#[tactic(auto, using(crate::proofs::Reaching::nodes_told))]
pub fn nodes_told()
    ensures { (tells : Bool) (s : Settings) (tables : Tables) (stores : List Store) → NodesAreToldAs tells s tables stores }
{}

/// The stores of a configuration are found by their names and roles.
#[tactic(auto, using(crate::proofs::FoundStores::stores_are_found))]
pub fn stores_found()
    ensures { (s : Settings) (stores : List Store) → StoresAreFound s stores }
{}

/// The stores of a configuration go on while one of them changes.
pub fn stores_go_on()
    ensures { (stores : List Store) (place : ℕ) (old : Store) (new : Store) (stands : slice_get stores place ≡ Some old) (goes : StoreGoesOn old new)
        → StoresGoOn stores place old new stands goes }
{}

/// A node serves the shards of its turn.
#[tactic(auto, using(crate::proofs::Turns::serves_its_turn))]
pub fn nodes_serve()
    ensures { (s : Settings) (pens : Pens) (name : AnyNode) (node : Node) (shard : ℕ) → ServesItsTurn s pens name node shard }
{}

/// Who is chosen for a shard serves it.
#[tactic(auto, using(crate::proofs::Turns::choices_serve))]
pub fn choices_serve()
    ensures { (s : Settings) (states : NodeStates) → ChoicesServe s states }
{}

/// What an entry owes it owes on, and what was merged stays merged, as long as logs only grow.
#[tactic(auto, using(crate::proofs::StayingJobs::jobs_stay_owed))]
pub fn jobs_stay_owed()
    ensures { (s : Settings) → JobsStayOwed s }
{}
