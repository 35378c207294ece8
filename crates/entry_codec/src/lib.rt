//! The spelling of the entries of a shard's log, both ways. Each entry has one, and none begins
//! another.
//!
//! Numbers are big endian. An entry is its position (8 bytes), its kind (1), the two parts of its
//! origin (4 and 8), the number of its touches (1) and the touches. A touch is its key, the key's
//! version (8) and its change. A key is its tag (1), the id (8) and, of a list, the type (2). A
//! change is its tag (1) and
//!
//! - of an object that is put, its type (2) and its data;
//! - of an edge that is set, id2 (8), the time (4), the two parts of the stamp (8 and 2), the time
//!   that it was live at before (a tag, and 4 where the tag is 1), and its data;
//! - of an edge that is cut, id2, the stamp, and the time that it was live at before.
//!
//! A data is the number of its pairs (1), and of each pair the key and the value, each behind its
//! length (2).
//!
//! What it promises. An entry is spelled in one way, and bytes are decoded exactly where they are an entry's
//! spelling; a refusal has exactly the place of the first bad field.
//!
//! The contracts that say so: `Spelled::encode`, `Spelled::decode`, and its laws.
#![tactic(auto)]

ghost use Rattle.entry_codec.specs.Laws.{OneSpelling};

mod data_fields;
mod data_spelled;
mod entry_fields;
mod reader;
mod refusal;
mod spelled;
mod touch_fields;
mod writing;

pub use data_spelled::{decode_data, encode_data};
pub use refusal::EntryRefusal;
pub use spelled::Spelled;

/// Bytes that begin with the spellings of two entries begin with those of one: no spelling begins
/// another, and no two entries are spelled alike.
#[tactic(auto, using(crate::proofs::EntryFields::one_spelling))]
pub fn no_spelling_begins_another()
    ensures { OneSpelling }
{}
