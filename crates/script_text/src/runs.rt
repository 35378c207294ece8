//! What a script tells.
use std::alloc::{AllocError, Global};

/// Runs, one after the other.
#[derive(Drop)]
pub struct Script {
    /// The calls of a keeper that fail, by their numbers from 1 on.
    pub calls: Vec<u64>,
    /// A keeper's commits that fail.
    pub commits: Vec<u64>,
    /// From which call on each of a keeper's fails, until its first run has ended.
    pub from: Option<u64>,
    /// Whether it is played turn after turn, until nothing fails.
    pub is_swept: bool,
    pub runs: Vec<Run>,
}

/// A store's log before any run: an object for each number, which is that of session 1's write.
#[derive(Drop)]
pub struct GivenLog {
    pub region: u16,
    pub shard: u16,
    pub seqs: Vec<u64>,
}

/// One run: what it is given, and how it has to end.
#[derive(Drop)]
pub struct Run {
    /// Whether it goes over a keeper without tables, and not over that of the run before it.
    pub is_anew: bool,
    /// What stores have before it, where it goes over a keeper without tables.
    pub logs: Vec<GivenLog>,
    pub words: Vec<String>,
    /// The bytes of its source.
    pub input: String,
    /// The carries of the link that fail.
    pub carries: Vec<u64>,
    /// The calls of the source that fail.
    pub takes: Vec<u64>,
    /// The calls of the sink that fail.
    pub puts: Vec<u64>,
    /// How many bytes a narrow sink takes in all, one of each piece; without it the sink takes whole pieces.
    pub room: Option<usize>,
    /// Whether its replies end where that room does.
    pub is_cut: bool,
    /// All that it has to write.
    pub replies: String,
    pub code: u8,
}

impl Script {
    /// A script with no runs, whose keepers don't fail.
    pub fn new(alloc: Global) -> Script {
        Script {
            calls: Vec::new(alloc),
            commits: Vec::new(alloc),
            from: None,
            is_swept: false,
            runs: Vec::new(alloc),
        }
    }
}

impl Run {
    /// A run with these words and no lines yet, which has to end with status 0.
    pub fn begin(alloc: Global, words: &str, is_anew: bool) -> Result<Run, AllocError> {
        let mut run = Run {
            is_anew,
            logs: Vec::new(alloc),
            words: Vec::new(alloc),
            input: String::new(alloc),
            carries: Vec::new(alloc),
            takes: Vec::new(alloc),
            puts: Vec::new(alloc),
            room: None,
            is_cut: false,
            replies: String::new(alloc),
            code: 0,
        };
        for word in words.split_whitespace() {
            run.words.push(String::from_str(alloc, word)?)?;
        }
        Ok(run)
    }
}
