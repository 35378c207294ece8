//! `talk`, one connection from its first line to its end.
ghost use Rattle.std.specs.Prelude.{◌≡◌, ◌≤◌, ◌^◌, length, IfErr, IfSome, OnErr, OnOk, Err};
ghost use Rattle.std.specs.Io.KnownBytes.{IsAtEnd};
ghost use Rattle.cluster_talks.specs.Talked.{IsTalkStatus, TalksInPart, TalksWhole, wire};
ghost use Rattle.counts.specs.Count.{Rose};
ghost use Rattle.first_line.specs.Interrupts.{InterruptHasCause, faults};
ghost use Rattle.session_pass.specs.Floors.{HasNoFloors};
ghost use Rattle.shared_tiers.specs.Calls.{calling};
ghost use Rattle.shared_tiers.specs.locked_nodes.Cluster.{on_cluster};
ghost use Rattle.shared_tiers.specs.locked_nodes.Passes.{IsPassOf};

use crate::host::Host;
use crate::serving::Listener;
use first_line::Interrupt;
use read_herds::Herd;
use session_pass::Pass;
use shared_stores::Sharing;
use shared_tiers::Cluster;
use std::alloc::AllocGlobal;
use std::random::RandomSource;
use std::sync::Wait;
use talk_lines::LineMemory;
use tao_io::{LineReader, Sink, Source, Status};
use tao_keeper::Keeper;
use tao_link::Link;

impl<W: Wait + RandomSource + AllocGlobal, K: Keeper, J: Sharing> Host<'_, '_, W, K, J> {
    /// Talks over one connection to its end.
    fn listen<R: Source, S: Sink, L: Link>(
        &self,
        pass: &mut Pass,
        input: &mut R,
        output: &mut S,
        link: &mut L,
    ) -> Result<(), Interrupt>
        requires pass { IsPassOf J.making J.log pass.old }
        requires untold { HasNoFloors pass.old.floors }
        ensures pass { IsPassOf J.making J.log pass.new }
        ensures ok { OnOk result (TalksWhole (on_cluster K.TELLS K.state J.making J.log) (calling pass.old (L.shown link.old))
            (calling pass.new (L.shown link.new)) (wire (R.left input.old) (S.taken output.old)) (S.taken output.new)) }
        ensures end { OnOk result (IsAtEnd (R.left input.new)) }
        ensures err { OnErr result (TalksInPart (on_cluster K.TELLS K.state J.making J.log) (calling pass.old (L.shown link.old))
            (calling pass.new (L.shown link.new)) (wire (R.left input.old) (S.taken output.old)) (S.taken output.new)) }
        ensures cause { IfErr result (InterruptHasCause (faults (R.faults input.old) (S.faults output.old)) (faults (R.faults input.new) (S.faults output.new))) }
        ensures long { result ≡ Err Interrupt.InputTooLong → IfSome (R.left input.old) (λ bytes. 2 ^ 40 ≤ length bytes) }
    {
        let mut listener = Listener {
            reader: LineReader::new(self.rt.alloc())?,
            memory: LineMemory::new(self.rt.alloc()),
            opened: false,
        };
        let served = self.serve(&mut listener, pass, link, input, output);
        drop(listener);
        served
    }
}

/// Talks with a client over one connection: reads its lines to their end, and writes one reply line to each. Every `open`, read, write and batch goes by the
/// connection's pass, which its first `open` of a tier that is there gives to a session. Reads go by the herd. Memory grows with the longest line and reply,
/// and with what the session is told of. The status is
///
/// - 0 where the connection was read to its end, and each reply written whole;
/// - 4, 5 where the source or the sink failed;
/// - 7 where there was no memory to read a line or to spell a reply;
/// - 9 where 2^40 bytes were taken and the end had not come.
///
/// What was written before any status is a front of the replies. A reply is shown before the next line is waited for.
pub fn talk<
    W: Wait + RandomSource + AllocGlobal,
    R: Source,
    S: Sink,
    K: Keeper,
    J: Sharing,
    L: Link,
>(
    rt: &W,
    cluster: &Cluster<'_, K, J>,
    herd: &Herd,
    pass: &mut Pass,
    input: &mut R,
    output: &mut S,
    link: &mut L,
) -> Status
    requires pass { IsPassOf J.making J.log pass.old }
    requires untold { HasNoFloors pass.old.floors }
    ensures pass { IsPassOf J.making J.log pass.new }

    ensures done { result.code ≡ 0 → TalksWhole (on_cluster K.TELLS K.state J.making J.log) (calling pass.old (L.shown link.old))
        (calling pass.new (L.shown link.new)) (wire (R.left input.old) (S.taken output.old)) (S.taken output.new) }
    ensures in_part { TalksInPart (on_cluster K.TELLS K.state J.making J.log) (calling pass.old (L.shown link.old))
        (calling pass.new (L.shown link.new)) (wire (R.left input.old) (S.taken output.old)) (S.taken output.new) }
    ensures end { result.code ≡ 0 → IsAtEnd (R.left input.new) }

    ensures source { result.code ≡ 4 → Rose (R.faults input.old) (R.faults input.new) }
    ensures sink { result.code ≡ 5 → Rose (S.faults output.old) (S.faults output.new) }
    ensures long { result.code ≡ 9 → IfSome (R.left input.old) (λ bytes. 2 ^ 40 ≤ length bytes) }
    ensures known { IsTalkStatus result.code }
{
    let host = Host { rt, cluster, herd };
    match host.listen(pass, input, output, link) {
        Ok(()) => Status { code: 0 },
        Err(interrupt) => Status {
            code: interrupt.code(),
        },
    }
}
