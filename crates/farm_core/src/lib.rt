//! The machine of the board farm: one farm, and one call after another.
//!
//! Read `specs/` in the order Plain, Shown, Answers, which say what callers see; then Replies, how
//! kept replies are kept, and Leases, what stands beside each reservation;
//! then Following, Came, Edits, Serving, which say what a command keeps on its way.
#![tactic(auto)]

mod board_effect;
mod change;
mod command;
mod edits;
mod farm;
mod following;
mod job_table;
mod kept;
mod pass;
mod refusal;
mod res_table;
mod tables;

// One farm, its calls and its views.
pub use farm::Farm;

// Why a step gives no answer, and why rows make no farm.
pub use farm::{BadRows, StepFault};
