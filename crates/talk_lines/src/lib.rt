//! The lines of a connection: a request, or a batch of reads; and the text of the reply to a batch.
//!
//! What it promises. A line whose word is `batch` is a batch exactly where it has the number of a session and 1 to 256 reads of that session; else the first
//! broken rule is named. Every other line is read as a request is. A batch's reply has the texts of its replies, in their order.
//!
//! The contracts that say so: `read_talk`, `batch_text`.
#![tactic(auto)]

mod batch;
mod fields;
mod line;
mod reads;
mod requests_list;
mod text;

pub use line::{TalkLine, read_talk};
pub use request_json::{LineMemory, LineRefusal};
pub use requests_list::Requests;
pub use text::batch_text;
