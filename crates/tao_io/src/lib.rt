//! Where bytes come from and where they go, each with a count of its faults.
//!
//! What it promises. A call of a source or sink fails only where its count rose, and those in memory exactly at
//! the planned calls (a sink also where it finds no memory); `write_all` writes all or a front; the lines of a
//! source come whole and in order, a line past 1,048,576 bytes is passed over and never held whole, at most
//! 65,536 bytes are taken past a line, and an input is given up exactly at 2^40 bytes. A reader tells whether the
//! next line is at hand; a sink that is flushed took the same bytes.
//!
//! The contracts that say so: `Source::take`, `Sink::put`, `Sink::flush`, `write_all`, `LineReader::next`,
//! `LineReader::has_line`.
#![tactic(auto)]

mod lines;
mod memory;
mod plan;
mod sink;
mod source;
mod standard;
mod status;
mod writing;

pub use lines::{INPUT_LIMIT, LINE_LIMIT, LineReader, NextLine, ReadFault};
pub use memory::{MemorySink, MemorySource};
pub use sink::{Sink, SinkFailed};
pub use source::{Source, SourceFailed};
pub use standard::{StdSink, StdSource};
pub use status::Status;
pub use writing::write_all;
