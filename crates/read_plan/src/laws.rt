//! What all reads are like, stage after stage. Each law is the contract of a function that does nothing.
ghost use Rattle.std.specs.Prelude.{ℕ, Bool};
ghost use Rattle.tao_base.specs.EdgeTypes.{EdgeTypes};
ghost use Rattle.tao_base.specs.declared.query.Query.{Query as AnyQuery};
ghost use Rattle.node_name.specs.declared.NodeName.{NodeName as AnyNode};
ghost use Rattle.read_plan.specs.Held.{GivenIsLegal, ReadsAreGiven, ReadsGoOn};
ghost use Rattle.read_plan.specs.Readings.{Reading};
ghost use Rattle.read_plan.specs.Runs.{AnswersAreGiven, ReadsEnd};
ghost use Rattle.read_plan.specs.declared.stages.ReadResult.{ReadResult};

/// A read has at most four stages. Their hops add up, and a keeper was called where one of them called one. A critical read
/// asks no leader of its region.
#[tactic(auto, using(crate::proofs::RunLemmas::reads_end))]
pub fn reads_end()
    ensures { (query : AnyQuery) (region tier floor : ℕ) (critical : Bool) (follower : AnyNode) → ReadsEnd query region tier floor critical follower }
{}

/// What was right when it was given may be held, whatever the read waits for.
#[tactic(auto, using(crate::proofs::HeldLemmas::reads_go_on))]
pub fn reads_go_on()
    ensures { (types : EdgeTypes) (p : Reading) (hops : ℕ) (called : Bool) → ReadsGoOn types p hops called }
{}

/// What a store read may be given to a read, whose floor its version has.
#[tactic(auto, using(crate::proofs::HeldLemmas::reads_are_given))]
pub fn reads_are_given()
    ensures { (types : EdgeTypes) (query : AnyQuery) (floor : ℕ) → ReadsAreGiven types query floor }
{}

/// What is answered from what was given is legal in what was seen of the log.
#[tactic(auto, using(crate::proofs::HeldLemmas::given_is_legal))]
pub fn given_is_legal()
    ensures { (types : EdgeTypes) (query : AnyQuery) (floor : ℕ) → GivenIsLegal types query floor }
{}

/// Each answer comes from the follower's own item or from what was given, at its version, whether the fill and the note were
/// handed out or not.
#[tactic(auto, using(crate::proofs::RunLemmas::answers_are_given))]
pub fn answers_are_given()
    ensures { (p : Reading) (outcome : ReadResult) (hops : ℕ) (called : Bool) → AnswersAreGiven p outcome hops called }
{}
