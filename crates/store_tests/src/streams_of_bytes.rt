//! Readers and writers of std as sources and sinks.
use std::collections::VecDeque;
use std::io::{self, Read, Write};
use std::test::Fail;
use tao_io::{Sink, SinkFailed, Source, SourceFailed, StdSink, StdSource};

/// A stream that fails, and before that takes nothing once.
#[derive(Drop)]
struct Broken {
    took_none: bool,
}

impl Read for Broken {
    fn read(&mut self, _buf: &mut [u8]) -> io::Result<usize> {
        Err(io::Error::from(io::ErrorKind::Interrupted))
    }
}

impl Write for Broken {
    fn write(&mut self, _buf: &[u8]) -> io::Result<usize> {
        if self.took_none {
            return Err(io::Error::from(io::ErrorKind::BrokenPipe));
        }
        self.took_none = true;
        Ok(0)
    }

    fn flush(&mut self) -> io::Result<()> {
        Ok(())
    }
}

#[test]
fn bytes_go_through_a_writer_and_a_reader(rt: HostRuntime) -> Result<(), Fail> {
    let mut bytes = VecDeque::new(rt.alloc());
    let mut sink = StdSink::of(&mut bytes);
    assert_eq!(rt; sink.put(b"abc"), Ok(3));
    let mut source = StdSource::of(&mut bytes);
    let mut room = [0u8; 2];
    assert_eq!(rt; source.take(&mut room), Ok(2));
    assert_eq!(rt; room.as_slice(), b"ab".as_slice());
    assert_eq!(rt; source.take(&mut room), Ok(1));
    assert_eq!(rt; source.take(&mut room), Ok(0));
    Ok(())
}

#[test]
fn errors_of_a_stream_are_passed_on(rt: HostRuntime) {
    let mut source = StdSource::of(Broken { took_none: false });
    assert_eq!(rt; source.take(&mut [0u8; 2]), Err(SourceFailed));
    let mut sink = StdSink::of(Broken { took_none: false });
    assert_eq!(rt; sink.put(b"a"), Ok(0));
    assert_eq!(rt; sink.put(b"a"), Err(SinkFailed));
}
