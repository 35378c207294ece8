//! What no clause of an inbox can say: that None comes only where no message waits, that each message is taken once, and their order.
mod empties;
mod messages;
mod two_threads;
