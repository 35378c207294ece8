//! The top call of a load.
ghost use Rattle.std.specs.Prelude.{◌≡◌, ◌≢◌, ◌⊎◌, ◌<◌, ◌≤◌, ◌^◌, [], length, Err, IfErr, IfOk, IfSome, OnErr};
ghost use Rattle.counts.specs.Count.{Rose};
ghost use Rattle.first_line.specs.First.{EndsAlone, FirstHasCause, RefusesAlone, Takes};
ghost use Rattle.first_line.specs.Interrupts.{faults};
ghost use Rattle.first_line.specs.declared.Interrupt.TheVariants.{InputTooLong};
ghost use Rattle.load_top.specs.Ending.{EndsAs, WritesPart};
ghost use Rattle.load_top.specs.Statuses.{IsStatus, TellsNothing};
ghost use Rattle.load_top.specs.declared.ended.Came.TheVariants.{Settled, Strange, Stuck};
ghost use Rattle.new_stores.specs.Streams.{streams};

use crate::ended::{Ended, first_code};
use crate::loading::load_first;
use command_words::LoadWords;
use first_line::{FirstStop, read_first_alone};
use keepers::SteadyKeeper;
use std::alloc::Global;
use std::sync::Wait;
use std::thread::Threads;
use tao_busy::Gate;
use tao_io::{Sink, Source, Status};

/// Reads the first line, and makes the load that it is the configuration of.
fn go<T: Threads + Wait + Sync, R: Source, S: Sink, G: Gate + Sync>(
    rt: &T,
    alloc: Global,
    input: &mut R,
    output: &mut S,
    words: LoadWords,
    gate: &G,
) -> Result<Ended, FirstStop>
    requires threads { 0 < words.threads }
    ensures ok { IfOk result (λ ended. EndsAs words ended.came (streams (R.left input.old) (S.taken output.old))
        (streams (R.left input.new) (S.taken output.new)) ended.keepers.items) }
    ensures part { OnErr result (EndsAlone (R.left input.old) (R.left input.new) (S.taken output.old) (S.taken output.new)
        ⊎ WritesPart (S.taken output.old) (S.taken output.new)) }
    ensures refused { result ≡ Err FirstStop.Configuration → RefusesAlone (R.left input.old) (R.left input.new) (S.taken output.old) (S.taken output.new) }
    ensures cause { IfErr result (FirstHasCause (faults (R.faults input.old) (S.faults output.old)) (faults (R.faults input.new) (S.faults output.new))) }
    ensures long { result ≡ Err (FirstStop.Interrupted InputTooLong) → IfSome (R.left input.old) (λ bytes. 2 ^ 40 ≤ length bytes) }
    ensures taken { Takes (R.left input.old) (R.left input.new) }
{
    let first = read_first_alone(alloc, input, output)?;
    let ended = load_first(rt, alloc, &first, output, words, gate)?;
    Ok(ended)
}

/// Reads the first line as a configuration, makes the calls of a seed on threads over stores in memory, settles these, and writes the line that tells what
/// their logs have. May wait. The status is
///
/// - 0 where that line was written whole;
/// - 3 exactly where the first line is missing, or is no configuration: a line says so;
/// - 4, 5 where the source or the sink failed;
/// - 7 where there was no memory to read the line, to open the stores, for a call or the settle, or to spell the line;
/// - 9 where 2^40 bytes were taken and the first line's end had not come;
/// - 10 where a log was full as the stores were settled, and 12 where a log has a client's entry of none of the calls: a line says that no good came of it.
///
/// With 0 no call was refused, where no log came to its end. With 0, 10 and 12 the keepers are those of the stores, in order of region, then of shard;
/// else there are none. What was written before any status is a front of one line.
pub fn load_top<T: Threads + Wait + Sync, R: Source, S: Sink, G: Gate + Sync>(
    rt: &T,
    alloc: Global,
    input: &mut R,
    output: &mut S,
    words: LoadWords,
    gate: &G,
) -> (Status, Vec<SteadyKeeper>)
    requires threads { 0 < words.threads }
    ensures settled { result.0.code ≡ 0 → EndsAs words Settled (streams (R.left input.old) (S.taken output.old))
        (streams (R.left input.new) (S.taken output.new)) result.1.items }
    ensures stuck { result.0.code ≡ 10 → EndsAs words Stuck (streams (R.left input.old) (S.taken output.old))
        (streams (R.left input.new) (S.taken output.new)) result.1.items }
    ensures strange { result.0.code ≡ 12 → EndsAs words Strange (streams (R.left input.old) (S.taken output.old))
        (streams (R.left input.new) (S.taken output.new)) result.1.items }
    ensures bare { TellsNothing result.0.code → result.1.items ≡ [] }
    ensures in_part { TellsNothing result.0.code → EndsAlone (R.left input.old) (R.left input.new) (S.taken output.old) (S.taken output.new)
        ⊎ WritesPart (S.taken output.old) (S.taken output.new) }
    ensures configuration { result.0.code ≡ 3 → RefusesAlone (R.left input.old) (R.left input.new) (S.taken output.old) (S.taken output.new) }
    ensures source { result.0.code ≡ 4 → Rose (R.faults input.old) (R.faults input.new) }
    ensures sink { result.0.code ≡ 5 → Rose (S.faults output.old) (S.faults output.new) }
    ensures long { result.0.code ≡ 9 → IfSome (R.left input.old) (λ bytes. 2 ^ 40 ≤ length bytes) }
    ensures known { IsStatus result.0.code }
    ensures taken { Takes (R.left input.old) (R.left input.new) }
{
    match go(rt, alloc, input, output, words, gate) {
        Ok(Ended { came, keepers }) => (Status { code: came.code() }, keepers),
        Err(stop) => (
            Status {
                code: first_code(stop),
            },
            Vec::new(alloc),
        ),
    }
}
