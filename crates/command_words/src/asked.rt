//! Help and the version, where the words ask for them.
ghost use Rattle.std.specs.Prelude.{◌≡◌, ◌≢◌, IfOk, IsNone, IsSome, false, is_some, map, string_bytes, true};
ghost use Rattle.clap.specs.Values.{kind_of};
ghost use Rattle.clap.specs.declared.error.ErrorKind.TheVariants.{OutOfMemory};
ghost use Rattle.command_words.specs.CommandLine.{faults_in};
ghost use Rattle.command_words.specs.Read.{asks, asks_alone, is_asked};

use crate::command::parse;
use clap::Error;
use clap::error::ErrorKind;
use std::alloc::{AllocError, Global};
use tao_base::Text;

fn is_request(error: &Error) -> bool
    ensures { result ≡ is_asked (kind_of error.now) }
{
    match error.kind() {
        ErrorKind::DisplayHelp | ErrorKind::DisplayVersion => true,
        _ => false,
    }
}

/// The text of an error where it is one that was asked for.
fn text_of(alloc: Global, error: &Error) -> Result<Option<Text>, AllocError>
    ensures memory { IfOk result (λ _. kind_of error.now ≢ OutOfMemory) }
    ensures asked { IfOk result (λ text. is_some text ≡ is_asked (kind_of error.now)) }
{
    if error.kind() == ErrorKind::OutOfMemory {
        return Err(AllocError);
    }
    if is_request(error) {
        Ok(Some(Text::of(format!(in alloc; "{error}")?)))
    } else {
        Ok(None)
    }
}

/// The text that the words ask for in place of a run, with `--help` or `--version`, and none where they ask for none. It
/// ends with a line feed, and belongs on standard output.
pub fn asked_text(alloc: Global, words: &[String]) -> Result<Option<Text>, AllocError>
    ensures asked { IfOk result (λ text. IsSome text → asks (faults_in (map string_bytes words.now)) ≡ true) }
    ensures not_asked { IfOk result (λ text. IsNone text → asks_alone (faults_in (map string_bytes words.now)) ≡ false) }
{
    match parse(alloc, words) {
        Ok(_matches) => Ok(None),
        Err(error) => text_of(alloc, &error),
    }
}
