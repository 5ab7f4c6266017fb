//! Tables of rows in strict order of their keys, which change in place and log the rows that
//! change.
//!
//! Read `specs/Tabled.antt` first, which says what callers see of a table.
#![tactic(auto)]

mod row;
mod table;

// Rows in strict order of their keys, and the log of those that changed.
pub use table::Table;

// What a table asks of its rows, and of what changes them.
pub use row::{Edit, Row};
