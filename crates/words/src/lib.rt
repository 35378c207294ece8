//! The words of the store's lines: what a request's `do` may be, and what a reply's `ok` says it is for.
//!
//! What it promises. Each of the 32 words has one text, and is found by it.
//!
//! The contracts that say so: `Word::text`, `Word::of`.
#![tactic(auto)]

ghost use Rattle.std.specs.Prelude.{◌≡◌, IfSome, Some};
ghost use Rattle.words.specs.Words.{word_text, word_of_text};

/// The writes.
#[derive(Clone, Copy, PartialEq, Eq)]
pub enum WriteWord {
    ObjAdd,
    ObjUpdate,
    ObjDelete,
    AssocAdd,
    AssocDelete,
    AssocChangeType,
}

/// The reads.
#[derive(Clone, Copy, PartialEq, Eq)]
pub enum ReadWord {
    ObjGet,
    AssocGet,
    AssocCount,
    AssocRange,
    AssocTimeRange,
}

/// What takes a plan one stage further: a new one, or one that is held.
#[derive(Clone, Copy, PartialEq, Eq)]
pub enum PlanWord {
    Hold,
    Advance,
}

/// What delivers a message: taken out of its inbox, or left there, to be delivered again.
#[derive(Clone, Copy, PartialEq, Eq)]
pub enum DeliveryWord {
    Deliver,
    Again,
}

/// What changes whether a node is up, or whether a tier trusts a leader.
#[derive(Clone, Copy, PartialEq, Eq)]
pub enum HealthWord {
    Down,
    Up,
    Suspect,
    Trust,
}

/// What changes whether a link carries.
#[derive(Clone, Copy, PartialEq, Eq)]
pub enum LinkWord {
    Cut,
    Mend,
}

/// What a request's `do` may be.
#[derive(Clone, Copy, PartialEq, Eq)]
pub enum Word {
    Open,
    Write(WriteWord),
    Read(ReadWord),
    Plan(PlanWord),
    Delivery(DeliveryWord),
    Drop,
    Refill,
    Stream,
    Trim,
    Repair,
    Evict,
    Show,
    Inbox,
    Health(HealthWord),
    Link(LinkWord),
    Settle,
    Audit,
}

impl Word {
    /// All words: the reads first, since they are asked for most.
    pub const ALL: [Word; 32] = [
        Word::Read(ReadWord::ObjGet),
        Word::Read(ReadWord::AssocGet),
        Word::Read(ReadWord::AssocCount),
        Word::Read(ReadWord::AssocRange),
        Word::Read(ReadWord::AssocTimeRange),
        Word::Open,
        Word::Write(WriteWord::ObjAdd),
        Word::Write(WriteWord::ObjUpdate),
        Word::Write(WriteWord::ObjDelete),
        Word::Write(WriteWord::AssocAdd),
        Word::Write(WriteWord::AssocDelete),
        Word::Write(WriteWord::AssocChangeType),
        Word::Plan(PlanWord::Hold),
        Word::Plan(PlanWord::Advance),
        Word::Delivery(DeliveryWord::Deliver),
        Word::Delivery(DeliveryWord::Again),
        Word::Drop,
        Word::Refill,
        Word::Stream,
        Word::Trim,
        Word::Repair,
        Word::Evict,
        Word::Show,
        Word::Inbox,
        Word::Health(HealthWord::Down),
        Word::Health(HealthWord::Up),
        Word::Health(HealthWord::Suspect),
        Word::Health(HealthWord::Trust),
        Word::Link(LinkWord::Cut),
        Word::Link(LinkWord::Mend),
        Word::Settle,
        Word::Audit,
    ];

    /// The word of that text. Compares it with each word.
    pub fn of(text: &str) -> Option<Word>
        ensures value { result ≡ word_of_text text.now }
        ensures named { IfSome result (λ word. word_text word ≡ text.now) }
    {
        Word::ALL.iter().copied().find(|word| word.text() == text)
    }

    /// The word as it stands in a line.
    pub fn text(self) -> &'static str
        ensures value { result.now ≡ word_text self }
        ensures found { word_of_text (word_text self) ≡ Some self }
    {
        match self {
            Word::Open => "open",
            Word::Write(WriteWord::ObjAdd) => "obj_add",
            Word::Write(WriteWord::ObjUpdate) => "obj_update",
            Word::Write(WriteWord::ObjDelete) => "obj_delete",
            Word::Write(WriteWord::AssocAdd) => "assoc_add",
            Word::Write(WriteWord::AssocDelete) => "assoc_delete",
            Word::Write(WriteWord::AssocChangeType) => "assoc_change_type",
            Word::Read(ReadWord::ObjGet) => "obj_get",
            Word::Read(ReadWord::AssocGet) => "assoc_get",
            Word::Read(ReadWord::AssocCount) => "assoc_count",
            Word::Read(ReadWord::AssocRange) => "assoc_range",
            Word::Read(ReadWord::AssocTimeRange) => "assoc_time_range",
            Word::Plan(PlanWord::Hold) => "hold",
            Word::Plan(PlanWord::Advance) => "advance",
            Word::Delivery(DeliveryWord::Deliver) => "deliver",
            Word::Delivery(DeliveryWord::Again) => "again",
            Word::Drop => "drop",
            Word::Refill => "refill",
            Word::Stream => "stream",
            Word::Trim => "trim",
            Word::Repair => "repair",
            Word::Evict => "evict",
            Word::Show => "show",
            Word::Inbox => "inbox",
            Word::Health(HealthWord::Down) => "down",
            Word::Health(HealthWord::Up) => "up",
            Word::Health(HealthWord::Suspect) => "suspect",
            Word::Health(HealthWord::Trust) => "trust",
            Word::Link(LinkWord::Cut) => "cut",
            Word::Link(LinkWord::Mend) => "mend",
            Word::Settle => "settle",
            Word::Audit => "audit",
        }
    }
}
