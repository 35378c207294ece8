//! The lines of a source, one at a time and each in bounded memory.
ghost use Rattle.std.specs.Prelude.{◌≡◌, ◌+◌, ◌<◌, ◌≤◌, ◌++◌, [], Ok, true, false, IfOk, OnOk, IsErrOf, length, take, vec_len};
ghost use Rattle.std.specs.Io.KnownBytes.{ReadConsumes, Keeps, IsAtEnd};
ghost use Rattle.counts.specs.Count.{Rose, HasCause};
ghost use Rattle.tao_io.specs.LineReader.{to_come, may_give, input_limit, most_ahead};
ghost use Rattle.tao_io.specs.Lines.{line_limit, NextLineIs, UsesSome, CountsTaken};
ghost use Rattle.tao_io.specs.LineParts.{held, EndsLineAt, HoldsLine, HoldsNoLine, StartsLineAt, TakesToEnd, TakesAll, line_kind};

use crate::{Source, SourceFailed};
use memchr::memchr;
use std::alloc::{AllocError, AllocFailed, Global};
use std::error::Error;
use std::fmt;
use std::marker::Model;

/// The most bytes of a line. A longer one is refused.
pub const LINE_LIMIT: usize = 1_048_576;

/// The most bytes of an input, 2^40. One that has not ended by then is given up.
pub const INPUT_LIMIT: u64 = 1 << 40;

/// The most bytes of a line that are held, enough to see that it is too long.
const HELD_LIMIT: usize = LINE_LIMIT + 1;

/// How many bytes are taken from the source at a time.
const CHUNK: usize = 65_536;

/// What came next of a source's lines.
#[derive(Clone, Copy, PartialEq, Eq)]
pub enum NextLine {
    /// A line, without its end.
    Line,
    /// A line of more than `LINE_LIMIT` bytes. It was passed over.
    TooLong,
    /// No line: the source is at its end.
    End,
}

/// Why no line came.
#[derive(Clone, Copy, Debug, PartialEq, Eq)]
pub enum ReadFault {
    /// The source failed.
    Failed,
    /// `INPUT_LIMIT` bytes were taken and looked at, and the end had not come.
    InputTooLong,
    /// No memory was found for the line.
    OutOfMemory,
}

impl fmt::Display for ReadFault {
    fn fmt<W: fmt::Write>(&self, f: &mut fmt::Formatter<W>) -> fmt::Result {
        match self {
            ReadFault::Failed => write!(f, "the source failed"),
            ReadFault::InputTooLong => write!(f, "the input is too long"),
            ReadFault::OutOfMemory => write!(f, "out of memory"),
        }
    }
}

impl Error for ReadFault {}

impl From<SourceFailed> for ReadFault {
    ghost use Rattle.std.specs.Prelude.{◌≡◌};
    ghost use Rattle.tao_io.specs.declared.lines.ReadFault.TheVariants.{Failed};

    ghost from_gives = { λ _ e. e ≡ Failed };

    fn from(_: SourceFailed) -> ReadFault {
        ReadFault::Failed
    }
}

impl From<AllocError> for ReadFault {
    ghost use Rattle.std.specs.Prelude.{◌≡◌};
    ghost use Rattle.tao_io.specs.declared.lines.ReadFault.TheVariants.{OutOfMemory};

    ghost from_gives = { λ _ e. e ≡ OutOfMemory };

    fn from(_: AllocError) -> ReadFault {
        ReadFault::OutOfMemory
    }
}

/// The place of the first end of a line.
fn line_end(bytes: &[u8]) -> Option<usize>
    ensures { EndsLineAt bytes.now result }
{
    memchr(b'\n', bytes)
}

/// The place of the first byte that ends no line.
fn line_start(bytes: &[u8]) -> Option<usize>
    ensures { StartsLineAt bytes.now result }
{
    bytes.iter().position(|byte| *byte != b'\n')
}

/// Takes some bytes into the front of a chunk, at most as many as there is room for.
fn take_some<R: Source>(
    source: &mut R,
    chunk: &mut [u8],
    room: usize,
) -> Result<usize, SourceFailed>
    requires { room ≤ length chunk.old }
    ensures bound { IfOk result (λ count. count ≤ room) }
    ensures bytes { ReadConsumes (R.left source.old) (R.left source.new) result (take room chunk.new) }
    ensures cause { HasCause (R.faults source.old) (R.faults source.new) result }
{
    source.take(&mut chunk[..room])
}

/// Goes on with a line by a piece. Of a line that is too long only so much is held as shows that it is.
#[tactic(auto, using(crate::proofs::LineLaws::held_with))]
fn hold(line: &mut Vec<u8>, piece: &[u8]) -> Result<(), AllocError>
    requires { vec_len line.old ≤ HELD_LIMIT }
    ensures held { OnOk result (line.new.items ≡ held (line.old.items ++ piece.now)) }
    ensures bounded { vec_len line.new ≤ HELD_LIMIT }
{
    let count = (HELD_LIMIT - line.len()).min(piece.len());
    line.extend_from_slice(&piece[..count])
}

/// What was read, by what is held of it: nothing is the end.
fn kind_of(line: &[u8]) -> NextLine
    ensures { result ≡ line_kind line.now }
{
    if line.is_empty() {
        NextLine::End
    } else if line.len() > LINE_LIMIT {
        NextLine::TooLong
    } else {
        NextLine::Line
    }
}

/// Reads the lines of a source. It keeps one chunk of 64 KiB that it took and hasn't given yet.
#[derive(Drop)]
pub struct LineReader {
    chunk: Vec<u8>,
    at: usize,
    end: usize,
    taken: u64,
}

impl Model for LineReader {
    ghost use Rattle.std.specs.Prelude.{◌-◌, take, drop};
    ghost use Rattle.tao_io.specs.LineReader.{LineReading, IsWithin};

    ghost Value = { LineReading };

    ghost view = { λ r. record { ahead = take (r.end - r.at) (drop r.at r.chunk.items); taken = r.taken } };

    ghost invariant = { λ r. IsWithin r.chunk.items r.at r.end r.taken };
}

impl LineReader {
    /// A reader that took nothing yet.
    pub fn new(alloc: Global) -> Result<LineReader, AllocError>
        ensures ahead { IfOk result (λ reader. reader.ahead ≡ []) }
        ensures taken { IfOk result (λ reader. reader.taken ≡ 0) }
    {
        Ok(LineReader {
            chunk: vec![in alloc; 0; CHUNK]?,
            at: 0,
            end: 0,
            taken: 0,
        })
    }

    /// Whether the next line stands whole ahead, so that `next` reads it without its source.
    pub fn has_line(&self) -> bool
        ensures whole { result ≡ true → HoldsLine self.now.ahead }
        ensures none { result ≡ false → HoldsNoLine self.now.ahead }
    {
        let ahead = &self.chunk[self.at..self.end];
        match line_start(ahead) {
            Some(start) => line_end(&ahead[start..]).is_some(),
            None => false,
        }
    }

    /// Takes a chunk where no byte is ahead. Says whether there is one then: none is the end.
    fn look_ahead<R: Source>(&mut self, source: &mut R) -> Result<bool, ReadFault>
        ensures same { Keeps
            (to_come self.old (R.left source.old)) (to_come self.new (R.left source.new)) }
        ensures may { may_give self.new ≤ may_give self.old }
        ensures some { result ≡ Ok true → 0 < length self.new.ahead }
        ensures end { result ≡ Ok false → IsAtEnd (to_come self.new (R.left source.new)) }
        ensures short { result ≡ Ok false → self.new.taken < input_limit }

        ensures counted { CountsTaken
            (R.left source.old) (R.left source.new) self.old.taken self.new.taken }
        ensures limited { self.new.taken ≤ input_limit }
        ensures later { R.faults source.old ≤ R.faults source.new }
        ensures failed { IsErrOf result ReadFault.Failed →
            Rose (R.faults source.old) (R.faults source.new) }
        ensures long { IsErrOf result ReadFault.InputTooLong → self.new.taken ≡ input_limit }
        ensures looked { IsErrOf result ReadFault.InputTooLong → self.new.ahead ≡ [] }
        ensures near { length self.new.ahead ≤ most_ahead }
    {
        if self.at < self.end {
            return Ok(true);
        }
        let room = CHUNK.min((INPUT_LIMIT - self.taken) as usize);
        if room == 0 {
            return Err(ReadFault::InputTooLong);
        }
        self.at = 0;
        self.end = 0;
        let count = take_some(source, &mut self.chunk, room)?;
        self.end = count;
        self.taken += count as u64;
        Ok(count > 0)
    }

    /// Goes on with a line by what is ahead, up to its end. Says whether the end was there.
    fn go_on(&mut self, line: &mut Vec<u8>) -> Result<bool, AllocError>
        requires { vec_len line.old ≤ HELD_LIMIT }
        ensures found { result ≡ Ok true →
            TakesToEnd self.old.ahead self.new.ahead line.old.items line.new.items }
        ensures none { result ≡ Ok false →
            TakesAll self.old.ahead self.new.ahead line.old.items line.new.items }
        ensures taken { self.new.taken ≡ self.old.taken }
        ensures bounded { vec_len line.new ≤ HELD_LIMIT }
        ensures near { length self.new.ahead ≤ most_ahead }
    {
        let ahead = &self.chunk[self.at..self.end];
        match line_end(ahead) {
            Some(count) => {
                hold(line, &ahead[..count])?;
                self.at += count + 1;
                Ok(true)
            }
            None => {
                hold(line, ahead)?;
                self.at = self.end;
                Ok(false)
            }
        }
    }

    /// Reads the next line into `line`, in place of what it held. A line ends at byte 10 or at the end of the
    /// input; an empty one is skipped. It costs time for each byte of the line, and `line` never holds more than
    /// `LINE_LIMIT` + 1 bytes.
    ///
    /// No more is taken of the source than the chunk in which the line ended, so what is then ahead is a part of that
    /// one chunk.
    ///
    /// Where the line is too long, and after an error, what `line` holds is left open. After an error it is also
    /// open which bytes of the line the reader has passed.
    pub fn next<R: Source>(
        &mut self,
        source: &mut R,
        line: &mut Vec<u8>,
    ) -> Result<NextLine, ReadFault>
        ensures next { IfOk result (λ next. NextLineIs next
            (to_come self.old (R.left source.old)) (to_come self.new (R.left source.new)) line.new.items) }
        ensures uses { IfOk result (λ next. UsesSome next (may_give self.old) (may_give self.new)) }
        ensures short { result ≡ Ok NextLine.End → self.new.taken < input_limit }
        ensures bounded { vec_len line.new ≤ line_limit + 1 }

        ensures counted { CountsTaken
            (R.left source.old) (R.left source.new) self.old.taken self.new.taken }
        ensures limited { self.new.taken ≤ input_limit }
        ensures later { R.faults source.old ≤ R.faults source.new }
        ensures failed { IsErrOf result ReadFault.Failed →
            Rose (R.faults source.old) (R.faults source.new) }
        ensures long { IsErrOf result ReadFault.InputTooLong → self.new.taken ≡ input_limit }
        ensures looked { IsErrOf result ReadFault.InputTooLong → self.new.ahead ≡ [] }
        ensures near { length self.new.ahead ≤ most_ahead }
    {
        line.clear();
        'chunks: loop {
            if !self.look_ahead(source)? {
                return Ok(kind_of(line));
            }
            if self.go_on(line)? && !line.is_empty() {
                return Ok(kind_of(line));
            }
        }
    }
}
