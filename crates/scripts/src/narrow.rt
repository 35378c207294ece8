//! A sink that takes little.
ghost use Rattle.std.specs.Prelude.{Some};

use counts::Count;
use std::alloc::Global;
use tao_io::{Sink, SinkFailed};

/// Takes one byte of each piece while it has room, and then none.
#[derive(Drop)]
pub struct NarrowSink {
    pub bytes: Vec<u8>,
    room: usize,
    faults: Count,
}

impl NarrowSink {
    /// An empty sink with room for so many bytes.
    pub fn make(alloc: Global, room: usize) -> NarrowSink {
        NarrowSink {
            bytes: Vec::new(alloc),
            room,
            faults: Count::new(),
        }
    }
}

impl Sink for NarrowSink {
    ghost taken = { λ s. Some s.bytes.items };

    ghost faults = { λ s. s.faults };

    fn put(&mut self, piece: &[u8]) -> Result<usize, SinkFailed> {
        let Some(first) = piece.first() else {
            return Ok(0);
        };
        if self.room <= self.bytes.len() || self.bytes.push(*first).is_err() {
            self.faults.rise();
            return Ok(0);
        }
        Ok(1)
    }

    fn flush(&mut self) -> Result<(), SinkFailed> {
        Ok(())
    }

    fn progress(&mut self, _done: u64, _all: u64) {}
}
