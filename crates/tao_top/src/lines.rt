//! The lines that a run writes.
ghost use Rattle.std.specs.Prelude.{◌≡◌, ◌≢◌, ◌++◌, ◌∷◌, [], ◌≤◌, IfErr, OnOk, OnErr};
ghost use Rattle.std.specs.Io.KnownBytes.{Appends};
ghost use Rattle.first_line.specs.Interrupts.{AppendsPart, InterruptsWriting};
ghost use Rattle.reply_json.specs.Reply.{reply_text};
ghost use Rattle.tao_top.specs.Begun.{StopsBeginning};
ghost use Rattle.tao_top.specs.Served.{disagreement_line};

use crate::stop::Stop;
use first_line::{Interrupt, ended, write_line};
use std::alloc::Global;
use tao_base::{Bytes, StoreName};
use tao_io::Sink;
use tao_wire::{Reply, reply_text};
use topology::Config;

/// Writes the line of a reply, whose names the configuration tells.
pub(crate) fn say<S: Sink>(
    alloc: Global,
    config: &Config,
    output: &mut S,
    reply: &Reply,
) -> Result<(), Interrupt>
    ensures ok { OnOk result (Appends (S.taken output.old) (S.taken output.new) (reply_text config.now reply.now ++ 10 ∷ [])) }
    ensures err { OnErr result (AppendsPart (S.taken output.old) (S.taken output.new) (reply_text config.now reply.now ++ 10 ∷ [])) }
    ensures cause { IfErr result (InterruptsWriting (S.faults output.old) (S.faults output.new)) }
    ensures later { S.faults output.old ≤ S.faults output.new }
{
    let text = reply_text(alloc, config, reply)?;
    write_line(output, text)
}

/// Writes a text and the line of a reply, each with a line feed, at once.
pub(crate) fn say_after<S: Sink>(
    alloc: Global,
    config: &Config,
    output: &mut S,
    text: Bytes,
    reply: &Reply,
) -> Result<(), Interrupt>
    ensures ok { OnOk result (Appends (S.taken output.old) (S.taken output.new) ((text ++ 10 ∷ []) ++ (reply_text config.now reply.now ++ 10 ∷ []))) }
    ensures err { OnErr result (AppendsPart (S.taken output.old) (S.taken output.new) ((text ++ 10 ∷ []) ++ (reply_text config.now reply.now ++ 10 ∷ []))) }
    ensures cause { IfErr result (InterruptsWriting (S.faults output.old) (S.faults output.new)) }
    ensures later { S.faults output.old ≤ S.faults output.new }
{
    let mut lines = ended(text)?;
    let said = reply_text(alloc, config, reply)?;
    lines.extend_from_slice(said.as_slice())?;
    write_line(output, Bytes::of(lines))
}

/// Says of a store of the configuration that its log differs from its master's first at the position. The stop says whether the line that says
/// it was written whole.
pub(crate) fn say_disagreement<S: Sink>(
    alloc: Global,
    config: &Config,
    output: &mut S,
    store: StoreName,
    position: u64,
) -> Stop
    ensures whole { result ≡ Stop.Stores → Appends (S.taken output.old) (S.taken output.new)
        (disagreement_line (record { settings = config.now; store = store; position = position })) }
    ensures part { AppendsPart (S.taken output.old) (S.taken output.new)
        (disagreement_line (record { settings = config.now; store = store; position = position })) }
    ensures cause { StopsBeginning (S.faults output.old) (S.faults output.new) 0 0 result }
    ensures not_keepers { result ≢ Stop.Keepers }
    ensures not_configuration { result ≢ Stop.Configuration }
    ensures later { S.faults output.old ≤ S.faults output.new }
{
    let reply = Reply::BadStores { store, position };
    let said = say(alloc, config, output, &reply);
    drop(reply);
    match said {
        Ok(()) => Stop::Stores,
        Err(interrupt) => Stop::Interrupted(interrupt),
    }
}
