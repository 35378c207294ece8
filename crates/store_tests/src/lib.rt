//! Tests of the stores, of what stands between them and of what they are made of, by public calls alone, of what no line can ask for:
//! bytes and streams from outside, a log under two threads, a stand-in for a leader, repairs between two stores, stores of one log, a log
//! that is trimmed, keepers that are called as one, and an inbox that threads share. Beside them, the requests of two seeds.
//! They stand above the crates that they test, so that none of these is proved twice.
#![tactic(auto)]

#[cfg(test)]
mod entries;
#[cfg(test)]
mod fills;
#[cfg(test)]
mod following;
#[cfg(test)]
mod inbox;
#[cfg(test)]
mod jobs;
#[cfg(test)]
mod keepers_as_one;
#[cfg(test)]
mod leaders;
#[cfg(test)]
mod opening;
#[cfg(test)]
mod refusals;
#[cfg(test)]
mod repairs;
#[cfg(test)]
mod rig;
#[cfg(test)]
mod streams_of_bytes;
#[cfg(test)]
mod trims;
#[cfg(test)]
mod two_parts;
#[cfg(test)]
mod two_threads;
#[cfg(test)]
mod workload;
