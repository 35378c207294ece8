//! What stays so.
ghost use Rattle.std.specs.Prelude.{ℕ};
ghost use Rattle.core_mail.specs.Inboxes.{Inboxes};
ghost use Rattle.core_mail.specs.Laws.{ArrivedStay, InboxesStay, NotifiedOfStore};
ghost use Rattle.core_model.specs.Pens.{Pens};
ghost use Rattle.maint_msg.specs.Maints.{SeenMaint};
ghost use Rattle.tao_keeper.specs.Table.{Tables};
ghost use Rattle.topology.specs.Config.{Settings};
ghost use Rattle.topology.specs.States.{NodeStates};

/// The inboxes of a configuration stay such, whatever the logs grow by.
#[tactic(auto, using(crate::proofs::InboxLemmas::inboxes_stay))]
pub fn inboxes_stay()
    ensures { (s : Settings) (pens : Pens) (inboxes : Inboxes) → InboxesStay s pens inboxes }
{}

/// The store of a node's region has come to each message that waits for it, whatever becomes of the inboxes.
#[tactic(auto, using(crate::proofs::Arrivals::arrived_stay))]
pub fn arrived_stay()
    ensures { (tables : Tables) → ArrivedStay tables }
{}

/// Who is notified of what a store has is of that store's region.
#[tactic(auto, using(crate::proofs::Arrivals::notified_of_store))]
pub fn notified_of_store()
    ensures { (tables : Tables) (states : NodeStates) (shard : ℕ) (message : SeenMaint) → NotifiedOfStore tables states shard message }
{}
