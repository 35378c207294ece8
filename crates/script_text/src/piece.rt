//! Pieces of a run's input, and of what it has to write.
use std::alloc::{AllocError, Global};

/// A text that stands there so many times, each time with the end of a line or without it.
#[derive(Clone, Copy)]
pub struct Piece<'a> {
    pub text: &'a str,
    pub copies: u64,
    pub has_end: bool,
}

/// A line that stands there once.
pub fn line_of(text: &str) -> Piece<'_> {
    Piece {
        text,
        copies: 1,
        has_end: true,
    }
}

/// The piece that signs tell: `_` one without the line's end, `* 3` one that stands there three times. One
/// blank after the signs isn't part of the text. `None` where what follows `*` is no number.
pub fn piece_of(line: &str) -> Option<Piece<'_>> {
    let (has_end, rest) = match line.strip_prefix('_') {
        Some(rest) => (false, rest),
        None => (true, line),
    };
    let (copies, text) = match rest.strip_prefix("* ") {
        Some(counted) => {
            let (count, text) = counted.split_once(' ')?;
            (count.parse::<u64>().ok()?, text)
        }
        None => (1, rest.strip_prefix(' ').unwrap_or(rest)),
    };
    Some(Piece {
        text,
        copies,
        has_end,
    })
}

/// The copy of this number: `{1}` is the number, and `{2}` the number and one.
fn push_numbered(
    alloc: Global,
    into: &mut String,
    text: &str,
    number: u64,
) -> Result<(), AllocError> {
    let one = format!(in alloc; "{number}")?;
    let two = format!(in alloc; "{}", number.saturating_add(1))?;
    let first = text.replace(alloc, "{1}", &one)?;
    let copy = first.replace(alloc, "{2}", &two)?;
    into.push_str(&copy)
}

/// Goes on with a text by a piece.
pub fn push_piece(alloc: Global, into: &mut String, piece: Piece<'_>) -> Result<(), AllocError> {
    let is_numbered = piece.text.contains('{') && piece.copies > 1;
    for before in 0..piece.copies {
        if is_numbered {
            push_numbered(alloc, into, piece.text, before.saturating_add(1))?;
        } else {
            into.push_str(piece.text)?;
        }
        if piece.has_end {
            into.push_str("\n")?;
        }
    }
    Ok(())
}
