//! What is wrong with a run.
ghost use Rattle.std.specs.Prelude.{◌≡◌, ◌↔◌, None, string_bytes};

use crate::runs::Run;
use std::alloc::{AllocError, Global};

/// What is wrong with how a run ended.
#[derive(Clone, Copy, PartialEq, Eq)]
pub enum Fault {
    /// The reply of this place, from 0 on, is the first that isn't the expected one.
    Reply(usize),
    /// All replies are the expected ones, and the status isn't.
    Status,
}

/// How many whole lines are the same at the beginning.
fn same_lines(a: &[u8], b: &[u8]) -> usize {
    let same = a.iter().zip(b.iter()).take_while(|(a, b)| *a == *b);
    same.filter(|(a, _)| **a == b'\n').count()
}

/// A run is right exactly where it wrote the expected replies, byte for byte, and ended with the expected status.
pub fn fault_of(run: &Run, written: &[u8], code: u8) -> Option<Fault>
    ensures { (result ≡ None) ↔ ((written.now ≡ string_bytes run.now.replies) × (code ≡ run.now.code)) }
{
    let want = run.replies.as_bytes();
    if written != want {
        return Some(Fault::Reply(same_lines(written, want)));
    }
    if code != run.code {
        return Some(Fault::Status);
    }
    None
}

/// The line of a place, as it is shown.
fn shown(text: &[u8], place: usize) -> &str {
    match str::from_utf8(text) {
        Ok(text) => text.lines().nth(place).unwrap_or("nothing"),
        Err(_) => "bytes that are no text",
    }
}

/// What is said of a fault.
pub fn describe(
    alloc: Global,
    fault: Fault,
    run: &Run,
    written: &[u8],
    code: u8,
) -> Result<String, AllocError> {
    match fault {
        Fault::Reply(place) => {
            let number = place.saturating_add(1);
            let wanted = shown(run.replies.as_bytes(), place);
            let came = shown(written, place);
            format!(in alloc; "reply {number}: wanted {wanted} but got {came}")
        }
        Fault::Status => { format!(in alloc; "status: wanted {} but got {code}", run.code) }
    }
}
