//! What an entry of one shard owes to another.
use tao_base::Entry;
use tao_keeper::Job;

/// A job, with the entry whose job it is, the shard in whose log that stands, and the shard on which the job's records lie. All of it is lent.
#[derive(Clone, Copy)]
pub struct OwedJob<'j> {
    pub from: u16,
    pub to: u16,
    pub entry: &'j Entry,
    pub job: &'j Job,
}
