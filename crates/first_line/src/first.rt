//! The first line.
ghost use Rattle.std.specs.Prelude.{◌≡◌, ◌≤◌, ◌^◌, Ok, Err, [], ◌∷◌, length, IfErr, IfOk, IfSome, OnErr};
ghost use Rattle.std.specs.Io.KnownBytes.{Appends};
ghost use Rattle.config_json.specs.Config.{config_in};
ghost use Rattle.first_line.specs.First.{EndsAlone, EndsAtFirst, GivesFirst, RefusesAlone, RefusesFirst, RefusesFor, RefusesInPart};
ghost use Rattle.first_line.specs.First.{FirstHasCause, FirstWriting, Takes, refusal_line};
ghost use Rattle.first_line.specs.Interrupts.{AppendsPart, FaultsGrow, faults};
ghost use Rattle.tao_io.specs.LineReader.{most_ahead, to_come};
ghost use Rattle.tao_io.specs.Lines.{CountsTaken, GivesLines};

use crate::interrupt::Interrupt;
use crate::lines::say_refusal;
use config_json::{ConfigRefusal, read_config};
use std::alloc::{AllocError, Global};
use tao_io::{LineReader, NextLine, Sink, Source};
use topology::Config;

/// The first line, and the configuration that it is.
#[derive(Drop)]
pub struct FirstLine {
    pub line: Vec<u8>,
    pub config: Config,
}

/// Why there is no configuration.
#[derive(Clone, Copy, PartialEq, Eq)]
pub enum FirstStop {
    /// The first line is missing, or is none: a line says so.
    Configuration,
    Interrupted(Interrupt),
}

impl From<Interrupt> for FirstStop {
    ghost use Rattle.std.specs.Prelude.{◌≡◌};
    ghost use Rattle.first_line.specs.declared.first.FirstStop.TheVariants.{Interrupted};

    ghost from_gives = { λ interrupt stop. stop ≡ Interrupted interrupt };

    fn from(interrupt: Interrupt) -> FirstStop {
        FirstStop::Interrupted(interrupt)
    }
}

impl From<AllocError> for FirstStop {
    ghost use Rattle.std.specs.Prelude.{◌≡◌};
    ghost use Rattle.first_line.specs.declared.interrupt.Interrupt.TheVariants.{Memory};
    ghost use Rattle.first_line.specs.declared.first.FirstStop.TheVariants.{Interrupted};

    ghost from_gives = { λ _ stop. stop ≡ Interrupted Memory };

    fn from(error: AllocError) -> FirstStop {
        FirstStop::Interrupted(Interrupt::from(error))
    }
}

/// Refuses the configuration for a field. The stop says whether the line that says it was written whole.
pub fn refuse<S: Sink>(alloc: Global, output: &mut S, field: &str) -> FirstStop
    ensures whole { result ≡ FirstStop.Configuration → Appends (S.taken output.old) (S.taken output.new) (refusal_line field.now) }
    ensures part { AppendsPart (S.taken output.old) (S.taken output.new) (refusal_line field.now) }
    ensures cause { FirstWriting (S.faults output.old) (S.faults output.new) result }
    ensures later { S.faults output.old ≤ S.faults output.new }
{
    match say_refusal(alloc, output, field) {
        Ok(()) => FirstStop::Configuration,
        Err(interrupt) => FirstStop::Interrupted(interrupt),
    }
}

/// Takes a line as the configuration, or writes its refusal.
fn take_line<S: Sink>(alloc: Global, output: &mut S, line: Vec<u8>) -> Result<FirstLine, FirstStop>
    ensures line { IfOk result (λ first. first.line.items ≡ line.items) }
    ensures configured { IfOk result (λ first. config_in line.items ≡ Ok first.config) }
    ensures silent { IfOk result (λ _. output.new ≡ output.old) }
    ensures err { OnErr result (RefusesInPart line.items (S.taken output.old) (S.taken output.new)) }
    ensures refused { result ≡ Err FirstStop.Configuration → RefusesFor line.items (Appends (S.taken output.old) (S.taken output.new)) }
    ensures cause { IfErr result (FirstWriting (S.faults output.old) (S.faults output.new)) }
    ensures later { S.faults output.old ≤ S.faults output.new }
{
    match read_config(alloc, &line) {
        Ok(config) => Ok(FirstLine { line, config }),
        Err(ConfigRefusal::BadConfig { field }) => Err(refuse(alloc, output, field.as_str())),
        Err(ConfigRefusal::OutOfMemory) => Err(FirstStop::Interrupted(Interrupt::Memory)),
    }
}

/// Reads the first line as the configuration. Writes nothing but a refusal.
pub fn read_first<R: Source, S: Sink>(
    alloc: Global,
    reader: &mut LineReader,
    input: &mut R,
    output: &mut S,
) -> Result<FirstLine, FirstStop>
    ensures line { IfOk result (λ first. GivesLines (to_come reader.old (R.left input.old)) (to_come reader.new (R.left input.new))
        (first.line.items ∷ [])) }
    ensures configured { IfOk result (λ first. config_in first.line.items ≡ Ok first.config) }
    ensures silent { IfOk result (λ _. output.new ≡ output.old) }
    ensures err { OnErr result (EndsAtFirst (to_come reader.old (R.left input.old)) (to_come reader.new (R.left input.new))
        (S.taken output.old) (S.taken output.new)) }
    ensures refused { result ≡ Err FirstStop.Configuration → RefusesFirst (to_come reader.old (R.left input.old)) (to_come reader.new (R.left input.new))
        (S.taken output.old) (S.taken output.new) }
    ensures cause { IfErr result (FirstHasCause (faults (R.faults input.old) (S.faults output.old)) (faults (R.faults input.new) (S.faults output.new))) }
    ensures long { result ≡ Err (FirstStop.Interrupted Interrupt.InputTooLong) → reader.new.taken ≡ 2 ^ 40 }

    ensures counted { CountsTaken (R.left input.old) (R.left input.new) reader.old.taken reader.new.taken }
    ensures limited { reader.new.taken ≤ 2 ^ 40 }
    ensures near { length reader.new.ahead ≤ most_ahead }
    ensures later { FaultsGrow (faults (R.faults input.old) (S.faults output.old)) (faults (R.faults input.new) (S.faults output.new)) }
{
    let mut line = Vec::new(alloc);
    match reader.next(input, &mut line) {
        Ok(NextLine::Line) => take_line(alloc, output, line),
        Ok(NextLine::TooLong) => Err(refuse(alloc, output, "")),
        Ok(NextLine::End) => Err(refuse(alloc, output, "")),
        Err(fault) => Err(FirstStop::Interrupted(Interrupt::from(fault))),
    }
}

/// Reads the first line as the configuration, where no other line is asked for. Writes nothing but a refusal.
pub fn read_first_alone<R: Source, S: Sink>(
    alloc: Global,
    input: &mut R,
    output: &mut S,
) -> Result<FirstLine, FirstStop>
    ensures line { IfOk result (λ first. GivesFirst (R.left input.old) (R.left input.new) first.line.items) }
    ensures configured { IfOk result (λ first. config_in first.line.items ≡ Ok first.config) }
    ensures silent { IfOk result (λ _. output.new ≡ output.old) }
    ensures err { OnErr result (EndsAlone (R.left input.old) (R.left input.new) (S.taken output.old) (S.taken output.new)) }
    ensures refused { result ≡ Err FirstStop.Configuration → RefusesAlone (R.left input.old) (R.left input.new) (S.taken output.old) (S.taken output.new) }
    ensures cause { IfErr result (FirstHasCause (faults (R.faults input.old) (S.faults output.old)) (faults (R.faults input.new) (S.faults output.new))) }
    ensures long { result ≡ Err (FirstStop.Interrupted Interrupt.InputTooLong) → IfSome (R.left input.old) (λ bytes. 2 ^ 40 ≤ length bytes) }

    ensures taken { Takes (R.left input.old) (R.left input.new) }
    ensures later { FaultsGrow (faults (R.faults input.old) (S.faults output.old)) (faults (R.faults input.new) (S.faults output.new)) }
{
    let mut reader = LineReader::new(alloc)?;
    read_first(alloc, &mut reader, input, output)
}
