//! What both crates of tests share: readers and writers that give and take little, or fail; requests
//! as they are sent; stores.
//!
//! A crate of its own, since a crate with tests is proved a second time with them.
#![tactic(auto)]

mod fakes;
mod sent;
mod stores;

// Readers and writers that give and take little, or fail.
pub use fakes::{Endless, Interrupted, Narrow, Slow, Tally};

// Requests as they are sent.
pub use sent::{FIRST_TYPE, request};

// Stores with the tables of a farm, and stores in files that are stopped.
pub use stores::{made, make, opened, read, stopping};
