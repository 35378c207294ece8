//! A run over the standard streams.
ghost use Rattle.std.specs.Prelude.{◌≡◌, IsErr, IsOk};
ghost use Rattle.graph_model.specs.Told.{WhereTold};
ghost use Rattle.tao_keeper.specs.declared.keeper.KeepFail.TheVariants.{Failed, OutOfMemory as NoMemory};
ghost use Rattle.tao_top.specs.Kept.{MayBeginAny};

use crate::process::FAULTY_OUTPUT;
use crate::watched::Watched;
use keeper_map::{Fails, MapKeeper};
use keeper_sql::SqlKeeper;
use std::io::BufWriter;
use tao_io::{Sink, SinkFailed, StdSink, StdSource};
use tao_keeper::{KeepFail, Keeper};
use tao_link::SwitchLink;

/// The status where the file can't be opened.
const NO_FILE: u8 = 6;

/// The status where there was no memory.
pub const NO_MEMORY: u8 = 7;

/// How many bytes of replies are written at a time, at most.
const GATHERED: usize = 65_536;

/// The status of a run, all of whose replies were to be written at its end.
fn status_at_end(code: u8, written: Result<(), SinkFailed>) -> u8
    ensures written { IsOk written → result ≡ code }
    ensures failed { IsErr written → result ≡ 5 }
{
    match written {
        Ok(()) => code,
        Err(SinkFailed) => FAULTY_OUTPUT,
    }
}

/// Serves over these keepers, and answers the status of the run. The replies of lines that are at hand are written together.
fn over<K: Keeper>(rt: &HostRuntime, words: &[String], keepers: &mut K) -> u8
    requires { WhereTold K.TELLS (MayBeginAny (K.state keepers.old).told) }
{
    let Ok(writer) = BufWriter::with_capacity(rt.alloc(), GATHERED, rt.stdout()) else {
        return NO_MEMORY;
    };
    let mut input = StdSource::of(rt.stdin());
    let mut output = Watched::of(rt, StdSink::of(writer));
    let mut link = SwitchLink::make(rt.alloc());
    status_at_end(
        tao_top::run(
            rt.alloc(),
            words,
            &mut input,
            &mut output,
            keepers,
            &mut link,
        )
        .code,
        output.flush(),
    )
}

/// Serves over stores in memory, which nothing was written to.
pub fn in_memory(rt: &HostRuntime, words: &[String]) -> u8 {
    let alloc = rt.alloc();
    let fails = Fails {
        calls: Vec::new(alloc),
        commits: Vec::new(alloc),
        from: None,
    };
    let mut keepers = MapKeeper::make(alloc, fails);
    over(rt, words, &mut keepers)
}

/// The status where a file can't be opened: 6, and 7 where there was no memory for it.
fn status_of(fail: KeepFail) -> u8
    ensures failed { fail ≡ Failed → result ≡ 6 }
    ensures memory { fail ≡ NoMemory → result ≡ 7 }
{
    match fail {
        KeepFail::Failed => NO_FILE,
        KeepFail::OutOfMemory => NO_MEMORY,
    }
}

/// Serves over tables in a file, which is made where it isn't there.
pub fn in_file(rt: &HostRuntime, words: &[String], path: &str) -> u8 {
    match SqlKeeper::open_file(rt, path) {
        Ok(keepers) => {
            let mut keepers = keepers;
            let code = over(rt, words, &mut keepers);
            keepers.close();
            code
        }
        Err(fail) => status_of(fail),
    }
}
