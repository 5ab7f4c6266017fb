//! The keeper of the board farm: one command, one commit.
//!
//! A `Keeper` has a farm and the store that keeps it. A command is answered only after the store
//! has committed what it changed, so a keeper that is made again from the store finds every command
//! that was answered.
//!
//! Read `specs/` in the order KeeperState, Headline, Restarts, Lives; Found has what a look for a farm
//! reports, First the farms of the first edition, Faults the faults' numbers.
#![tactic(auto)]

mod fault;
mod keeper;
mod laws;
mod reading;

// A farm and its store: a command's answer comes after its commit. A connection that wasn't taken.
pub use keeper::{Keeper, RunEnd, Unkept};

// The farm that a store holds, looked at without keeping it; a store of the first edition brought to
// the second, lent or given up.
pub use keeper::upgrade;
pub use reading::{found, migrate};

// Why a command, or a store, wasn't taken.
pub use fault::KeepFault;

// What is proved of keepers: functions that only proofs read.
pub use laws::{
    acts_once, found_after_stop, found_after_upgrade, memory_is_clean, rebuild_migrates,
    restarts_find_a_prefix, restarts_join, rows_put_are_the_farm, runs_join,
};
