//! A core that serves by its configuration: a line answered, and its reply written.
ghost use Rattle.tao_keeper.specs.KeeperState.{IsLater};
ghost use Rattle.std.specs.Prelude.{◌≡◌, ◌≤◌, ◌++◌, ◌∷◌, [], Ok, IfOk, IfErr, OnOk, OnErr};
ghost use Rattle.std.specs.Io.KnownBytes.{Appends};
ghost use Rattle.config_json.specs.Config.{config_in};
ghost use Rattle.first_line.specs.Interrupts.{AppendsPart, InterruptsWriting};
ghost use Rattle.graph_model.specs.Told.{WhereTold};
ghost use Rattle.load_gen.specs.Requests.{requests_of};
ghost use Rattle.request_json.specs.Requests.{request_in};
ghost use Rattle.tao_core.specs.Core.{IsNewCore, moment};
ghost use Rattle.core_nodes.specs.Beginning.{AreAtStores};
ghost use Rattle.core_nodes.specs.Opening.{IsOpened, MayOpen, RefusesOpening};
ghost use Rattle.tao_top.specs.Begun.{RepliesInPart};
ghost use Rattle.tao_top.specs.Kept.{LeavesTables, MayServe};
ghost use Rattle.core_nodes.specs.Outside.{outside};
ghost use Rattle.tao_top.specs.Making.{CountsCalls, under_way, way_of};
ghost use Rattle.tao_top.specs.Served.{serves};
ghost use Rattle.tao_top.specs.Step.{AnswersLine, Replies, line_read, reply_line, serving};

use crate::lines::{say, say_after};
use crate::making::Making;
use first_line::Interrupt;
use std::alloc::{AllocError, Global};
use std::marker::Model;
use tao_base::{Bytes, OutOfMemory, Text};
use tao_core::Core;
use tao_io::Sink;
use tao_keeper::Keeper;
use tao_link::Link;
use tao_wire::{
    LineMemory, LineRefusal, LineRefused, OpenRefusal, Refusal, Reply, Request, read_request,
};
use topology::Config;

/// A core, beside whence lines and replies take memory, what reading a line takes, and the configuration that it serves by and that spells
/// the names in its replies.
#[derive(Drop)]
pub(crate) struct Serving<'c> {
    alloc: Global,
    memory: LineMemory,
    config: &'c Config,
    core: Core<'c>,
}

impl<'c> Model for Serving<'c> {
    ghost use Rattle.std.specs.Prelude.{◌≡◌};
    ghost use Rattle.tao_core.specs.Core.{CoreState};

    ghost Value = { CoreState };

    ghost view = { λ s. s.core };

    ghost invariant = { λ s. s.core.settings ≡ s.config.now };
}

/// The refusal of a line that is too long.
fn too_long(alloc: Global) -> Result<Reply, AllocError>
    ensures { IfOk result (λ reply. reply ≡ Reply.Refused (Refusal.Line (LineRefused.BadLine []))) }
{
    let field = Text::copy_of(alloc, "")?;
    Ok(Reply::Refused(Refusal::Line(LineRefused::BadLine { field })))
}

impl<'c> Serving<'c> {
    /// Opens the stores of a configuration with its line.
    pub(crate) fn open<K: Keeper>(
        alloc: Global,
        config: &'c Config,
        line: &[u8],
        keepers: &mut K,
    ) -> Result<Serving<'c>, OpenRefusal>
        requires configured { config_in line.now ≡ Ok config.now }
        requires kept { WhereTold K.TELLS (MayOpen config.now line.now (K.state keepers.old).told) }
        ensures settings { IfOk result (λ serving. serving.settings ≡ config.now) }
        ensures begun { IfOk result IsNewCore }
        ensures opened { IfOk result (λ serving. WhereTold K.TELLS (IsOpened config.now line.now (K.state keepers.old).told (K.state keepers.new).told)) }
        ensures serving { IfOk result (λ serving. MayServe K.TELLS serving (K.state keepers.new).told) }
        ensures ends { IfOk result (λ serving. WhereTold K.TELLS (AreAtStores (K.state keepers.new).told serving.fleet)) }
        ensures refused { IfErr result (RefusesOpening K.TELLS config.now line.now
            (K.state keepers.old) (K.state keepers.new)) }
        ensures tables { LeavesTables K.TELLS (K.state keepers.old) (K.state keepers.new) }
        ensures later { IsLater (K.state keepers.old) (K.state keepers.new) }
    {
        let core = Core::open(alloc, config, line, keepers)?;
        Ok(Serving {
            alloc,
            memory: LineMemory::new(alloc),
            config,
            core,
        })
    }

    /// A line of which nothing is read yet.
    pub(crate) fn no_line(&self) -> Vec<u8>
        ensures { result.items ≡ [] }
    {
        Vec::new(self.alloc)
    }

    /// The workload of a seed and a number of calls over the configuration, of which nothing is made yet.
    pub(crate) fn workload(&self, seed: u64, calls: u64) -> Result<Making, OutOfMemory>
        ensures made { IfOk result (λ making. way_of making ≡ under_way (requests_of self.now.settings seed calls) calls 0) }
        ensures counts { IfOk result (λ making. CountsCalls (way_of making)) }
    {
        Making::of(self.alloc, self.config, seed, calls)
    }

    /// Writes the line of a reply.
    pub(crate) fn say<S: Sink>(&self, output: &mut S, reply: &Reply) -> Result<(), Interrupt>
        ensures ok { OnOk result (Appends (S.taken output.old) (S.taken output.new) (reply_line (serving self.now) reply.now)) }
        ensures err { OnErr result (AppendsPart (S.taken output.old) (S.taken output.new) (reply_line (serving self.now) reply.now)) }
        ensures cause { IfErr result (InterruptsWriting (S.faults output.old) (S.faults output.new)) }
        ensures later { S.faults output.old ≤ S.faults output.new }
    {
        say(self.alloc, self.config, output, reply)
    }

    /// Writes a text and the line of a reply.
    pub(crate) fn say_after<S: Sink>(
        &self,
        output: &mut S,
        text: Bytes,
        reply: &Reply,
    ) -> Result<(), Interrupt>
        ensures ok { OnOk result (Appends (S.taken output.old) (S.taken output.new) ((text ++ 10 ∷ []) ++ reply_line (serving self.now) reply.now)) }
        ensures err { OnErr result (AppendsPart (S.taken output.old) (S.taken output.new) ((text ++ 10 ∷ []) ++ reply_line (serving self.now) reply.now)) }
        ensures cause { IfErr result (InterruptsWriting (S.faults output.old) (S.faults output.new)) }
        ensures later { S.faults output.old ≤ S.faults output.new }
    {
        say_after(self.alloc, self.config, output, text, reply)
    }

    /// The core's reply to a request.
    pub(crate) fn call<K: Keeper, L: Link>(
        &mut self,
        keepers: &mut K,
        link: &mut L,
        request: &Request,
    ) -> Reply
        requires serving { MayServe K.TELLS self.old (K.state keepers.old).told }
        ensures does { AnswersLine K.TELLS (moment self.old (K.state keepers.old) (L.shown link.old)) (Ok request.now) result
            (moment self.new (K.state keepers.new) (L.shown link.new)) }
        ensures serving { MayServe K.TELLS self.new (K.state keepers.new).told }
        ensures tables { LeavesTables K.TELLS (K.state keepers.old) (K.state keepers.new) }
        ensures later { IsLater (K.state keepers.old) (K.state keepers.new) }
    {
        self.core.call(self.alloc, keepers, link, request)
    }

    /// The reply to a line.
    #[tactic(auto, using(crate::proofs::Keeping::leaves_same))]
    fn answer<K: Keeper, L: Link>(
        &mut self,
        keepers: &mut K,
        link: &mut L,
        line: &[u8],
    ) -> Result<Reply, AllocError>
        requires serving { MayServe K.TELLS self.old (K.state keepers.old).told }
        ensures does { IfOk result (λ reply. AnswersLine K.TELLS (moment self.old (K.state keepers.old) (L.shown link.old)) (request_in line.now) reply
            (moment self.new (K.state keepers.new) (L.shown link.new))) }
        ensures same { OnErr result ((self.new ≡ self.old) × (keepers.new ≡ keepers.old) × (link.new ≡ link.old)) }
        ensures serving { MayServe K.TELLS self.new (K.state keepers.new).told }
        ensures tables { LeavesTables K.TELLS (K.state keepers.old) (K.state keepers.new) }
        ensures later { IsLater (K.state keepers.old) (K.state keepers.new) }
    {
        match read_request(self.alloc, &mut self.memory, line) {
            Ok(request) => {
                let reply = self.call(keepers, link, &request);
                drop(request);
                Ok(reply)
            }
            Err(LineRefusal::BadLine { field }) => {
                Ok(Reply::Refused(Refusal::Line(LineRefused::BadLine { field })))
            }
            Err(LineRefusal::TooLarge { bytes, pairs }) => {
                Ok(Reply::Refused(Refusal::Line(LineRefused::TooLarge { bytes, pairs })))
            }
            Err(LineRefusal::OutOfMemory) => Err(AllocError),
        }
    }

    /// Answers a line, and writes the reply.
    pub(crate) fn answer_line<S: Sink, K: Keeper, L: Link>(
        &mut self,
        keepers: &mut K,
        link: &mut L,
        output: &mut S,
        line: &[u8],
    ) -> Result<(), Interrupt>
        requires serving { MayServe K.TELLS self.old (K.state keepers.old).told }
        ensures ok { OnOk result (Replies K.TELLS (serves self.old (outside (K.state keepers.old) (L.shown link.old))) (line_read line.now)
            (serves self.new (outside (K.state keepers.new) (L.shown link.new)))
            (λ said. Appends (S.taken output.old) (S.taken output.new) said.text)) }
        ensures err { OnErr result (RepliesInPart K.TELLS (serves self.old (outside (K.state keepers.old) (L.shown link.old))) (line_read line.now)
            (serves self.new (outside (K.state keepers.new) (L.shown link.new))) (S.taken output.old) (S.taken output.new)) }
        ensures serving { MayServe K.TELLS self.new (K.state keepers.new).told }
        ensures tables { LeavesTables K.TELLS (K.state keepers.old) (K.state keepers.new) }
        ensures cause { IfErr result (InterruptsWriting (S.faults output.old) (S.faults output.new)) }
        ensures later { S.faults output.old ≤ S.faults output.new }
    {
        let reply = self.answer(keepers, link, line)?;
        let said = self.say(output, &reply);
        drop(reply);
        said
    }

    /// Refuses a line that is too long.
    pub(crate) fn refuse_line<S: Sink>(&self, output: &mut S) -> Result<(), Interrupt>
        ensures ok { OnOk result (Appends
            (S.taken output.old) (S.taken output.new) (reply_line (serving self.now) (Reply.Refused (Refusal.Line (LineRefused.BadLine []))))) }
        ensures err { OnErr result (AppendsPart
            (S.taken output.old) (S.taken output.new) (reply_line (serving self.now) (Reply.Refused (Refusal.Line (LineRefused.BadLine []))))) }
        ensures cause { IfErr result (InterruptsWriting (S.faults output.old) (S.faults output.new)) }
        ensures later { S.faults output.old ≤ S.faults output.new }
    {
        let reply = too_long(self.alloc)?;
        let said = self.say(output, &reply);
        drop(reply);
        said
    }
}
