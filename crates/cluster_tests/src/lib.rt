//! Tests of a whole cluster, by public calls alone, of what no clause can say: that calls succeed and what they cost, that a follower keeps what it may, that
//! a node is pumped until nothing is left, that threads which call one cluster go on beside one another, that none waits for another one's whole call, and that
//! a closed cluster is settled. They stand above the crates that they test, so that none of these is proved twice.
#![tactic(auto)]

#[cfg(test)]
mod clients;
#[cfg(test)]
mod closing;
#[cfg(test)]
mod loading;
#[cfg(test)]
mod many_counts;
#[cfg(test)]
mod playing;
#[cfg(test)]
mod pumping;
#[cfg(test)]
mod replying;
#[cfg(test)]
mod together;
#[cfg(test)]
mod worked;
