//! Turns of a sweep, by their numbers.
ghost use Rattle.std.specs.Prelude.{◌≤◌, ◌↔◌, IsTrue};

/// The turns from one to another.
#[derive(Clone, Copy)]
pub struct Turns {
    pub first: u64,
    pub last: u64,
}

impl Turns {
    /// Whether a turn is among them.
    pub fn has(&self, turn: u64) -> bool
        ensures { IsTrue result ↔ ((self.now.first ≤ turn) × (turn ≤ self.now.last)) }
    {
        self.first <= turn && turn <= self.last
    }
}

/// The turns that a text tells: `3`, `3-5`, or `3-` for all from there on.
fn turns_of(text: &str) -> Option<Turns> {
    let Some((first, last)) = text.split_once('-') else {
        let turn = text.parse::<u64>().ok()?;
        return Some(Turns {
            first: turn,
            last: turn,
        });
    };
    let first = first.parse::<u64>().ok()?;
    let last = if last.is_empty() {
        u64::MAX
    } else {
        last.parse::<u64>().ok()?
    };
    Some(Turns { first, last })
}

/// Whether a turn is among those that a text tells, as `1-3,7`. `None` where it tells none.
pub fn tells_turn(text: &str, turn: u64) -> Option<bool> {
    let mut is_told = false;
    for part in text.split(',') {
        let turns = turns_of(part)?;
        is_told = is_told || turns.has(turn);
    }
    Some(is_told)
}
