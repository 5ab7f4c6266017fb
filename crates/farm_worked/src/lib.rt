//! Worked scripts: calls whose answers and farms were worked out by hand, and which the checker
//! computes from the machine's definitions. No code runs them.
//!
//! Read `specs/` in the order Worked, WorkedJobs, WorkedCollecting, WorkedChecks,
//! WorkedReservations, WorkedWhole: lists of calls, with their answers. In the other modules farms
//! are written out row by row.
//!
//! `specs/Order` has rows that are added out of order; `specs/Groups`, `Checks`, `Reservations` and
//! `Kept` follow rows from their making to their end; `specs/Limits`, `Full` and `Words` have the
//! last number, row and word that is taken, and the first that isn't. `specs/Book` has examples of
//! single definitions, in the order of the chapters of `docs/MACHINE.md`.
#![tactic(auto)]

mod laws;

// The scripts, computed: functions that only proofs read.
pub use laws::{
    all_as_worked, book_as_worked, check_rows_as_worked, checks_as_worked, collecting_as_worked,
    full_as_worked, groups_as_worked, jobs_as_worked, kept_as_worked, limits_as_worked,
    order_as_worked, reservation_rows_as_worked, reservations_as_worked, words_as_worked,
};
