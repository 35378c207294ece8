//! The top call.
ghost use Rattle.std.specs.Prelude.{◌≡◌, ◌⊎◌, ◌≤◌, ◌^◌, map, length, string_bytes, Err, IfErr, IfOk, IfSome, Ok, OnOk};
ghost use Rattle.command_words.specs.Read.{words_in};
ghost use Rattle.command_words.specs.declared.WordsRefusal.TheVariants.{Usage};
ghost use Rattle.counts.specs.Count.{Rose};
ghost use Rattle.first_line.specs.First.{Takes};
ghost use Rattle.first_line.specs.Interrupts.{faults};
ghost use Rattle.first_line.specs.declared.Interrupt.TheVariants.{InputTooLong};
ghost use Rattle.graph_model.specs.Told.{WhereTold};
ghost use Rattle.tao_keeper.specs.Growing.{LogsGrow};
ghost use Rattle.tao_top.specs.Kept.{LeavesTables, MayRun, StillBegin};
ghost use Rattle.core_nodes.specs.Outside.{outside};
ghost use Rattle.tao_top.specs.Promised.{RunKeepsPromise};
ghost use Rattle.tao_top.specs.Served.{Done, EndsInPart, ends_with, FailsOpening, RefusesConfiguration, StopsOpening, StoresDisagree, streams};
ghost use Rattle.tao_top.specs.Stop.{StopHasCause, stop_code};
ghost use Rattle.tao_top.specs.Status.{EndsByStores, IsGood, IsStatus, NoFault};
ghost use Rattle.tao_top.specs.Taken.{TakesAsked, TakesFirst};

use crate::begin::begin;
use crate::making::make_requests;
use crate::serve::serve;
use crate::stop::Stop;
use command_words::{Words, WordsRefusal, read_words};
use first_line::read_first;
use std::alloc::Global;
use tao_io::{LineReader, Sink, Source, Status};
use tao_keeper::Keeper;
use tao_link::Link;

/// Reads the lines of the input, and writes the reply to each.
#[tactic(auto, using(crate::proofs::Keeping::leaves_same))]
fn go<R: Source, S: Sink, K: Keeper, L: Link>(
    alloc: Global,
    words: &Words,
    input: &mut R,
    output: &mut S,
    keepers: &mut K,
    link: &mut L,
) -> Result<(), Stop>
    requires kept { WhereTold K.TELLS (MayRun (R.left input.old) (K.state keepers.old).told) }
    ensures tables { LeavesTables K.TELLS (K.state keepers.old) (K.state keepers.new) }
    ensures ok { OnOk result (Done (Ok words.now) K.TELLS
        (outside (K.state keepers.old) (L.shown link.old)) (outside (K.state keepers.new) (L.shown link.new))
        (streams (R.left input.old) (S.taken output.old)) (S.taken output.new)) }
    ensures err { IfErr result (λ stop. EndsInPart (ends_with (stop_code stop) (Ok words.now)) K.TELLS
        (outside (K.state keepers.old) (L.shown link.old)) (outside (K.state keepers.new) (L.shown link.new))
        (streams (R.left input.old) (S.taken output.old)) (S.taken output.new)) }
    ensures keepers { result ≡ Err Stop.Keepers → StopsOpening K.TELLS
        (outside (K.state keepers.old) (L.shown link.old)) (outside (K.state keepers.new) (L.shown link.new)) (R.left input.old)
        (S.taken output.old) (S.taken output.new) }
    ensures refused { result ≡ Err Stop.Configuration → RefusesConfiguration K.TELLS
        (outside (K.state keepers.old) (L.shown link.old)) (outside (K.state keepers.new) (L.shown link.new)) (R.left input.old)
        (S.taken output.old) (S.taken output.new) }
    ensures stores { result ≡ Err Stop.Stores → StoresDisagree K.TELLS
        (outside (K.state keepers.old) (L.shown link.old)) (outside (K.state keepers.new) (L.shown link.new)) (R.left input.old)
        (S.taken output.old) (S.taken output.new) }
    ensures cause { IfErr result (StopHasCause
        (faults (R.faults input.old) (S.faults output.old)) (faults (R.faults input.new) (S.faults output.new))
        (K.state keepers.old).faults (K.state keepers.new).faults) }
    ensures long { result ≡ Err (Stop.Interrupted InputTooLong) → IfSome (R.left input.old) (λ bytes. 2 ^ 40 ≤ length bytes) }

    ensures taken { Takes (R.left input.old) (R.left input.new) }
    ensures asked { OnOk result (TakesAsked (Ok words.now) (R.left input.old) (R.left input.new)) }
    ensures at_first { result ≡ Err Stop.Configuration → TakesFirst (R.left input.old) (R.left input.new) }
    ensures at_stores { result ≡ Err Stop.Stores → TakesFirst (R.left input.old) (R.left input.new) }
{
    let mut reader = LineReader::new(alloc)?;
    let first = read_first(alloc, &mut reader, input, output)?;
    let mut serving = begin(alloc, words, &first, output, keepers)?;
    match words {
        Words::Run { .. } => {
            let served = serve(&mut serving, &mut reader, input, output, keepers, link);
            drop(serving);
            served?;
            Ok(())
        }
        Words::Gen { seed, calls } => {
            let made = make_requests(&mut serving, *seed, *calls, output, keepers, link);
            drop(serving);
            made?;
            Ok(())
        }
    }
}

/// What the words ask for, or the status where they ask for nothing, or there was no memory to read them.
fn asked(alloc: Global, words: &[String]) -> Result<Words, u8>
    ensures asked { IfOk result (λ asked. words_in (map string_bytes words.now) ≡ Ok asked) }
    ensures usage { IfErr result (λ code. code ≡ 2 → words_in (map string_bytes words.now) ≡ Err Usage) }
    ensures code { IfErr result (λ code. (code ≡ 2) ⊎ (code ≡ 7)) }
{
    match read_words(alloc, words) {
        Ok(asked) => Ok(asked),
        Err(WordsRefusal::Usage) => Err(2),
        Err(WordsRefusal::OutOfMemory) => Err(7),
    }
}

/// Does what the words ask for. With `run` it reads lines, the first of them the configuration and each later one a request, and writes one
/// reply line to each. With `gen` it reads the first line alone, makes the requests of a workload over the configuration that the line is, and
/// writes two lines: how many calls there were, with how many of them were refused, and the reply to the last request, which settles the store.
/// The nodes reach one another over the link. Returns for every input. Memory grows with the store, and not with the
/// input. The status is
///
/// - 0 where the input was read to its end, with `gen` to the end of its first line, and each reply written whole;
/// - 2 where the words ask for neither;
/// - 3 where the first line is missing, is no configuration, or isn't the one that a store was first
///   opened with: a line says so;
/// - 4, 5, 6 where the source, the sink, or the keepers at their opening failed;
/// - 7 where there was no memory to read the words or a line, to open the stores, to make a request, or to spell a reply;
/// - 8 where a slave's store has a log that doesn't begin its master's: a line names the store that is compared first, and the position;
/// - 9 where 2^40 bytes were taken and the end had not come.
///
/// What was written before any status is a front of what is printed of the replies. With 6 nothing was: a keeper that
/// fails later is told of in a reply. Of the source at most 2^40 bytes are taken, with 0 all of them, and with `gen`, or
/// with 3 and 8, none past those in which the first line's end came, 65,536 at a time.
pub fn run<R: Source, S: Sink, K: Keeper, L: Link>(
    alloc: Global,
    words: &[String],
    input: &mut R,
    output: &mut S,
    keepers: &mut K,
    link: &mut L,
) -> Status
    // Where every store takes the first line, their logs are sound with it, and covered, and each store has come to the cuts of its shard's logs. A later run
    // may begin with each line with which this one might.
    requires kept { WhereTold K.TELLS (MayRun (R.left input.old) (K.state keepers.old).told) }

    // What a caller is promised: each line of the input, or each request that the run makes, and its reply are a step of it, one after another.
    ensures promise { WhereTold K.TELLS (RunKeepsPromise (ends_with result.code (words_in (map string_bytes words.now)))
        (K.state keepers.old).told (K.state keepers.new).told (streams (R.left input.old) (S.taken output.old)) (S.taken output.new)) }

    ensures still { WhereTold K.TELLS (StillBegin (K.state keepers.old).told (K.state keepers.new).told) }
    ensures histories { LogsGrow K.TELLS (K.state keepers.old).told (K.state keepers.new).told }

    ensures done { result.code ≡ 0 → Done (words_in (map string_bytes words.now)) K.TELLS
        (outside (K.state keepers.old) (L.shown link.old)) (outside (K.state keepers.new) (L.shown link.new))
        (streams (R.left input.old) (S.taken output.old)) (S.taken output.new) }
    ensures in_part { EndsInPart (ends_with result.code (words_in (map string_bytes words.now))) K.TELLS
        (outside (K.state keepers.old) (L.shown link.old)) (outside (K.state keepers.new) (L.shown link.new))
        (streams (R.left input.old) (S.taken output.old)) (S.taken output.new) }

    ensures words { result.code ≡ 2 → words_in (map string_bytes words.now) ≡ Err Usage }
    ensures usage { words_in (map string_bytes words.now) ≡ Err Usage → (result.code ≡ 2) ⊎ (result.code ≡ 7) }
    ensures idle { words_in (map string_bytes words.now) ≡ Err Usage → (input.new ≡ input.old) × (output.new ≡ output.old) × (keepers.new ≡ keepers.old)
        × (link.new ≡ link.old) }
    ensures configuration { result.code ≡ 3 → RefusesConfiguration K.TELLS
        (outside (K.state keepers.old) (L.shown link.old)) (outside (K.state keepers.new) (L.shown link.new)) (R.left input.old)
        (S.taken output.old) (S.taken output.new) }
    ensures source { result.code ≡ 4 → Rose (R.faults input.old) (R.faults input.new) }
    ensures sink { result.code ≡ 5 → Rose (S.faults output.old) (S.faults output.new) }
    ensures keepers { result.code ≡ 6 → FailsOpening K.TELLS
        (outside (K.state keepers.old) (L.shown link.old)) (outside (K.state keepers.new) (L.shown link.new)) (R.left input.old)
        (S.taken output.old) (S.taken output.new) }
    ensures stores { result.code ≡ 8 → StoresDisagree K.TELLS
        (outside (K.state keepers.old) (L.shown link.old)) (outside (K.state keepers.new) (L.shown link.new)) (R.left input.old)
        (S.taken output.old) (S.taken output.new) }
    ensures long { result.code ≡ 9 → IfSome (R.left input.old) (λ bytes. 2 ^ 40 ≤ length bytes) }
    ensures known { IsStatus result.code }

    ensures taken { Takes (R.left input.old) (R.left input.new) }
    ensures asked { result.code ≡ 0 → TakesAsked (words_in (map string_bytes words.now)) (R.left input.old) (R.left input.new) }
    ensures at_first { result.code ≡ 3 → TakesFirst (R.left input.old) (R.left input.new) }
    ensures at_stores { result.code ≡ 8 → TakesFirst (R.left input.old) (R.left input.new) }

    // Completeness: where the word and the first line are good and nothing fails, only stores that disagree and out of memory stop it.
    ensures complete { (good : IsGood K.TELLS (map string_bytes words.now) (K.state keepers.old) (R.left input.old))
        → NoFault (faults (R.faults input.old) (S.faults output.old)) (faults (R.faults input.new) (S.faults output.new))
        (K.state keepers.old).faults (K.state keepers.new).faults
        → EndsByStores good.settings (K.state keepers.old).told result.code }
{
    let code = match asked(alloc, words) {
        Err(code) => code,
        Ok(asked) => {
            let gone = go(alloc, &asked, input, output, keepers, link);
            drop(asked);
            match gone {
                Ok(()) => 0,
                Err(stop) => stop.code(),
            }
        }
    };
    Status { code }
}
