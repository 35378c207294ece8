//! Writing all of some bytes to a sink.
ghost use Rattle.std.specs.Prelude.{OnOk, OnErr};
ghost use Rattle.std.specs.Io.KnownBytes.{Appends};
ghost use Rattle.counts.specs.Count.{HasCause};
ghost use Rattle.tao_io.specs.Sink.{AppendsFront};

use crate::{Sink, SinkFailed};

/// Puts all the bytes, in as many calls as the sink needs. After an error some front of them was taken.
pub fn write_all<S: Sink>(output: &mut S, bytes: &[u8]) -> Result<(), SinkFailed>
    ensures ok { OnOk result (Appends (S.taken output.old) (S.taken output.new) bytes.now) }
    ensures err { OnErr result (AppendsFront (S.taken output.old) (S.taken output.new) bytes.now) }
    ensures cause { HasCause (S.faults output.old) (S.faults output.new) result }
{
    let mut at = 0;
    while at < bytes.len() {
        let count = output.put(&bytes[at..])?;
        if count == 0 {
            return Err(SinkFailed);
        }
        at += count;
    }
    Ok(())
}
