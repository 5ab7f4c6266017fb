//! The farm's six tables in a store of SQL.
//!
//! They have two editions. Farms are kept in the second one; tables of the first are read by
//! `load_first`, and made those of the second by `raise`.
//!
//! Read `specs/` in the order Columns, Schema, Stored, Places, Holds, which say what a store holds;
//! then Edits, Texts of writing; then Queries, Versions, Readable, Editions, Reading of
//! reading; Faults has the faults' numbers.
#![tactic(auto)]

mod boards;
mod edition;
mod fault;
mod jobs;
mod kept;
mod laws;
mod meta;
mod queries;
mod raising;
mod rebuilding;
mod reservations;
mod schema;
mod statements;
mod stored;
mod tables;
mod types;
mod upserts;

// The tables, made anew, and the numbers of their editions.
pub use schema::{FIRST_SCHEMA, SCHEMA, create};

// The rows that they hold, read whole; and changed rows put.
pub use queries::{load, load_first};
pub use upserts::put;

// Tables of the first edition made those of the second.
pub use raising::raise;

// Tables made anew, with all rows.
pub use rebuilding::rebuild;

// What the store, or a file, refuses.
pub use fault::StoreFault;

// What is proved of stores and editions: functions that only proofs read.
pub use laws::{
    editions_are_apart, farm_has_six_tables, first_tables_lose_nothing, opened_stands,
    schemas_agree, sound_is_readable, tables_lose_nothing, versions_agree,
};
