//! `ReadPlan`, a read between its stages.
ghost use Rattle.std.specs.Prelude.{◌≡◌, true, IfSome};
ghost use Rattle.read_plan.specs.Ends.{read_reply};

use crate::end::ReadEnd;
use crate::stages::{ReadResult, ReadStage};
use crate::standing::{Standing, advance};
use ask_table::AskNo;
use node_name::NodeName;
use replies::{CallReply, ReadReply, Reply, query_word};
use sealed_item::Fill;
use shard_log::Note;
use std::marker::Model;
use tao_base::Query;
use words::ReadWord;

/// A read between its stages: what it asks and with which floor, at which follower, which stage follows, and what was given
/// to it. What it holds does not age, since an answer is exact in its own note of the log.
///
/// The one who carries out the stages does the stage that `next` names, and gives what it came to to `take`, until `next` is
/// `Done`. No call takes memory.
#[derive(Drop)]
pub struct ReadPlan {
    query: Query,
    region: u16,
    tier: u16,
    floor: u64,
    critical: bool,
    follower: NodeName,
    reader: Option<u32>,
    ask: Option<AskNo>,
    bound: u64,
    by: Option<NodeName>,
    at: Standing,
    hops: u64,
    store: bool,
}

impl Model for ReadPlan {
    ghost use Rattle.read_plan.specs.PlanView.{reading_seen};
    ghost use Rattle.read_plan.specs.Readings.{NeverAsks, Reading};

    ghost Value = { Reading };

    ghost view = { reading_seen };

    ghost invariant = { λ p. NeverAsks p.critical p.at };
}

impl ReadPlan {
    ghost use Rattle.read_plan.specs.Ends.{EndsWith};
    ghost use Rattle.read_plan.specs.Readings.{NeverAsks, fill_handed, given_by, new_reading, note_handed, read_by, taken};
    ghost use Rattle.read_plan.specs.Standings.{IsAnsweredFrom, came_of, fill_of, has_fill, standing_note, stage_of};

    /// A read that is begun: its query, the region and tier that it is asked from, by their places, its floor, whether it is
    /// critical, and its follower. No ask is open for it, no session is to learn of it, and the bound of its type is to be set.
    pub fn begin(
        query: Query,
        region: u16,
        tier: u16,
        floor: u64,
        critical: bool,
        follower: NodeName,
    ) -> ReadPlan
        ensures { result ≡ new_reading query region tier floor critical follower }
    {
        ReadPlan {
            query,
            region,
            tier,
            floor,
            critical,
            follower,
            reader: None,
            ask: None,
            bound: 0,
            by: None,
            at: Standing::Looking,
            hops: 0,
            store: false,
        }
    }

    /// The stage that follows. A critical read never asks its region's leader.
    pub fn next(&self) -> ReadStage
        ensures stage { result ≡ stage_of self.now.at }
        ensures critical { NeverAsks self.now.critical self.now.at }
    {
        self.at.stage()
    }

    /// What the read asks.
    pub fn query(&self) -> &Query
        ensures { result.now ≡ self.now.query }
    {
        &self.query
    }

    /// The place of the region that the read is asked from.
    pub fn region(&self) -> u16
        ensures { result ≡ self.now.region }
    {
        self.region
    }

    /// The place of the tier that it is asked from, in its region.
    pub fn tier(&self) -> u16
        ensures { result ≡ self.now.tier }
    {
        self.tier
    }

    /// The version of the key that the answer must have at least.
    pub fn floor(&self) -> u64
        ensures { result ≡ self.now.floor }
    {
        self.floor
    }

    /// Whether the answer must miss nothing that the master's log had when the read began.
    pub fn is_critical(&self) -> bool
        ensures { result ≡ self.now.critical }
    {
        self.critical
    }

    /// The follower that the read is asked from, which looks first and keeps what is given.
    pub fn follower(&self) -> NodeName
        ensures { result ≡ self.now.follower }
    {
        self.follower
    }

    /// The session that is to learn which version the read answers; none where the read is a refill's.
    pub fn reader(&self) -> Option<u32>
        ensures { result ≡ self.now.reader }
    {
        self.reader
    }

    /// Notes the session that is to learn which version the read answers.
    pub fn set_reader(&mut self, session: u32)
        ensures { self.new ≡ read_by session self.old }
    {
        self.reader = Some(session);
    }

    /// The ask that the follower opened for the read; none where it opened none.
    pub fn ask(&self) -> Option<AskNo>
        ensures { result ≡ self.now.ask }
    {
        self.ask
    }

    /// Notes the ask that the follower opened, or that none was to be had.
    pub fn set_ask(&mut self, ask: Option<AskNo>)
        ensures { self.new ≡ record self.old { ask = ask } }
    {
        self.ask = ask;
    }

    /// Who gave what the follower is to keep; none before anything was given.
    pub fn by(&self) -> Option<NodeName>
        ensures { result ≡ self.now.by }
    {
        self.by
    }

    /// Notes who gives the read what its follower is to keep.
    pub fn set_by(&mut self, node: NodeName)
        ensures { self.new ≡ given_by node self.old }
    {
        self.by = Some(node);
    }

    /// Notes how many edges of a list of the query's type are kept at most, for the reply to an answer past it.
    pub fn set_bound(&mut self, bound: u64)
        ensures { self.new ≡ record self.old { bound = bound } }
    {
        self.bound = bound;
    }

    /// How many carries over links the stages took so far.
    pub fn hops(&self) -> u64
        ensures { result ≡ self.now.hops }
    {
        self.hops
    }

    /// Whether a stage called a keeper.
    pub fn store(&self) -> bool
        ensures { result ≡ self.now.store }
    {
        self.store
    }

    /// Takes what the stage that follows came to, with the carries over links that it took, and whether it called a keeper.
    /// A critical read takes a hit as a miss. The hops add up, and stand still at 2^64 - 1.
    pub fn take(&mut self, outcome: ReadResult, hops: u64, store: bool)
        requires stage { came_of outcome ≡ stage_of self.old.at }
        requires answered { IsAnsweredFrom self.old.at outcome }
        ensures { self.new ≡ taken outcome hops store self.old }
    {
        advance(&mut self.at, outcome, self.critical, self.bound);
        self.hops = self.hops.saturating_add(hops);
        self.store = self.store || store;
    }

    /// Whether a fill was given, handed out or not: whether the follower is to answer from one.
    pub fn has_fill(&self) -> bool
        ensures { result ≡ has_fill self.now.at }
    {
        self.at.has_fill()
    }

    /// Hands out the fill that was given, from which the follower is to answer. None exactly where none was given, or it was
    /// handed out. The plan keeps its version.
    pub fn fill(&mut self) -> Option<Fill>
        ensures fill { result ≡ fill_of self.old.at }
        ensures handed { self.new ≡ fill_handed self.old }
        ensures left { has_fill self.new.at ≡ has_fill self.old.at }
        ensures some { IfSome result (λ _. has_fill self.old.at ≡ true) }
        ensures stage { stage_of self.new.at ≡ stage_of self.old.at }
    {
        self.at.hand_fill()
    }

    /// Hands out the note of an answer that was given past the bound, in which it is right. None exactly where no such answer
    /// was given, or its note was handed out.
    pub fn note(&mut self) -> Option<Note>
        ensures note { result ≡ standing_note self.old.at }
        ensures handed { self.new ≡ note_handed self.old }
        ensures left { has_fill self.new.at ≡ has_fill self.old.at }
        ensures stage { stage_of self.new.at ≡ stage_of self.old.at }
    {
        self.at.hand_note()
    }

    /// The reply: the answer at its version, with the hops and calls of all stages, and whether the follower keeps it; or the
    /// refusal that ended the read.
    pub fn finish(self) -> Reply
        requires { stage_of self.at ≡ ReadStage.Done }
        ensures { EndsWith self result }
    {
        let ReadPlan {
            query,
            at,
            hops,
            store,
            ..
        } = self;
        let word = query_word(&query);
        drop(query);
        match at {
            Standing::Ended(end) => read_reply(end, word, hops, store),
            _ => unreachable!(),
        }
    }
}

/// The reply to a read of that word, whose stages took so many hops.
fn read_reply(end: ReadEnd, word: ReadWord, hops: u64, store: bool) -> Reply
    ensures { result ≡ read_reply word hops store end }
{
    match end {
        ReadEnd::Answered {
            answer,
            version,
            kept,
        } => Reply::Called(CallReply::Read(ReadReply {
            word,
            answer,
            version,
            hops,
            store,
            kept,
        })),
        ReadEnd::Refused(reply) => reply,
    }
}
