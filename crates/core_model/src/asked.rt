//! What a call is asked, and what stands around it. Each is lent, and none changes.
use std::alloc::Global;
use tao_base::{Origin, Query, Write};
use tao_keeper::Job;
use topology::Config;

/// What stands around every call: whence memory is taken, and the configuration.
#[derive(Clone, Copy)]
pub struct Around<'c> {
    pub alloc: Global,
    pub config: &'c Config,
}

/// A read's query, and the version that its answer must have at least.
#[derive(Clone, Copy)]
pub struct Wanted<'q> {
    pub query: &'q Query,
    pub floor: u64,
}

/// The write of a client, under the origin by which a retry is known.
#[derive(Clone, Copy)]
pub struct AuthoredWrite<'w> {
    pub origin: Origin,
    pub write: &'w Write,
}

/// A job, and the shard in whose log its entry stands.
#[derive(Clone, Copy)]
pub struct ShardJob<'j> {
    pub shard: u16,
    pub job: &'j Job,
}
