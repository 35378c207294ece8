//! A keeper of tables in a file, over SQL.
//!
//! It tells how often it was called and failed, and not its tables: what a file holds no contract can say. So each
//! answer is held to what a keeper may hand out, and a row that is otherwise counts as a fault. Besides that its few
//! lines of SQL are trusted, and tested. A file that a program of before wrote, without cuts and promotions, opens as it is.
//!
//! What it promises. A keeper over SQL tells how often it was called and failed, and not its tables: each call is
//! counted, one that fails makes the count of faults rise, and what it hands out keeps the bounds of a keeper,
//! whatever the rows hold.
//!
//! The contracts that say so: `SqlKeeper::open_memory`, `open_file`.
#![tactic(auto)]

mod ahead;
mod columns;
mod cutting;
mod effects;
mod given;
mod keeper;
mod open;
mod order;
mod reading;
mod rows;
mod schema;
mod spelled;
mod writing;

pub use keeper::SqlKeeper;
