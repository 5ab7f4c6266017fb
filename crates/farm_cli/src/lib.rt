//! The words of the program `farm`, read by `clap`, and the order that they give.
//!
//! A crate of its own, since the reader of words is dear to check and its words rarely change.
//!
//! Read `specs/` in the order App, Orders, Faults: the words that the program has, the order that
//! they name, and what a fault says of them.
#![tactic(auto)]

mod fault;
mod order;
mod words;

// The order that the program's words give.
pub use order::{Database, Order, Report};
pub use words::order_of;

// Help to print, or what is wrong with the words.
pub use fault::OrderFault;
