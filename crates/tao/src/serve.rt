//! A server over the standard streams and TCP.
use cluster_server::serve_top;
use std::alloc::AllocGlobal;
use std::random::RandomSource;
use std::sync::Wait;
use std::thread::Threads;
use std::time::Clock;
use tao_io::{StdSink, StdSource};
use work_server::TcpAcceptor;

/// The status where a port can't be had.
const NO_PORT: u8 = 11;

/// Serves clients that connect to a port, over stores in memory, and answers the status. The port is had before the first line is read.
pub fn serve<R: Threads + Wait + Clock + RandomSource + AllocGlobal + Sync>(
    rt: &HostRuntime,
    threads: &R,
    port: u16,
) -> u8 {
    let Ok(acceptor) = TcpAcceptor::bind(rt, port) else {
        return NO_PORT;
    };
    let mut input = StdSource::of(rt.stdin());
    let mut output = StdSink::of(rt.stdout());
    let (status, acceptor) = serve_top(threads, rt.alloc(), &mut input, &mut output, acceptor);
    drop(acceptor);
    status.code
}
