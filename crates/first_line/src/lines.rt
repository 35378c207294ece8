//! Writing a line.
ghost use Rattle.std.specs.Prelude.{◌≡◌, ◌++◌, ◌∷◌, [], ◌≤◌, IfOk, IfErr, OnOk, OnErr};
ghost use Rattle.std.specs.Io.KnownBytes.{Appends};
ghost use Rattle.first_line.specs.First.{refusal_line};
ghost use Rattle.first_line.specs.Interrupts.{AppendsPart, InterruptsWriting};

use crate::interrupt::Interrupt;
use reply_json::bad_configuration_text;
use std::alloc::{AllocError, Global};
use tao_base::Bytes;
use tao_io::{Sink, write_all};

/// A text with a line feed at its end.
pub fn ended(text: Bytes) -> Result<Vec<u8>, AllocError>
    ensures { IfOk result (λ line. line.items ≡ text ++ 10 ∷ []) }
{
    let mut line = text.into_vec();
    line.push(b'\n')?;
    Ok(line)
}

/// Writes a text and a line feed. Where it ends early, a front of these was written.
pub fn write_line<S: Sink>(output: &mut S, text: Bytes) -> Result<(), Interrupt>
    ensures ok { OnOk result (Appends (S.taken output.old) (S.taken output.new) (text ++ 10 ∷ [])) }
    ensures err { OnErr result (AppendsPart (S.taken output.old) (S.taken output.new) (text ++ 10 ∷ [])) }
    ensures cause { IfErr result (InterruptsWriting (S.faults output.old) (S.faults output.new)) }
    ensures later { S.faults output.old ≤ S.faults output.new }
{
    let line = ended(text)?;
    write_all(output, &line)?;
    Ok(())
}

/// Writes the line that refuses the configuration for a field.
pub(crate) fn say_refusal<S: Sink>(
    alloc: Global,
    output: &mut S,
    field: &str,
) -> Result<(), Interrupt>
    ensures ok { OnOk result (Appends (S.taken output.old) (S.taken output.new) (refusal_line field.now)) }
    ensures err { OnErr result (AppendsPart (S.taken output.old) (S.taken output.new) (refusal_line field.now)) }
    ensures cause { IfErr result (InterruptsWriting (S.faults output.old) (S.faults output.new)) }
    ensures later { S.faults output.old ≤ S.faults output.new }
{
    let text = bad_configuration_text(alloc, field)?;
    write_line(output, text)
}
