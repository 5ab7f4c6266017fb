//! What each farm that the machine reaches keeps: the laws that every command keeps a farm sound,
//! and the exact test whether rows are those of a sound farm.
//!
//! `laws` says what is proved of the machine's definitions; `sound` decides them at run time, row
//! by row, among rows that `ordered` found in order.
//!
//! Read `specs/` in the order Keys, ByRows, Served.
#![tactic(auto)]

mod board;
mod job;
mod laws;
mod ordered;
mod reservation;
mod sound;
mod want;

// The exact test whether rows are those of a sound farm.
pub use sound::is_sound;

// What is proved of the machine's definitions: functions that only proofs read.
pub use laws::{
    change_is_a_put, changes_are_puts, collector_is_short, held_once, jobs_are_sound,
    none_is_scheduling, pass_is_sound, pass_serves_all, puts_commute, queue_is_claims,
    reservations_are_sound, run_is_sound, step_is_sound, submit_is_sound, unmet_stays,
};
