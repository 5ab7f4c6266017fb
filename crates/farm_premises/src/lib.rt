//! States that meet the premises of laws: each function makes one in memory, and its clause is the
//! premises of the laws that it names, over what it made. A law whose premises nothing meets would
//! say nothing.
#![tactic(auto)]

mod desks;
mod first_edition;
mod keepers;

// The premises of laws over keepers, their stops and their lives.
pub use keepers::{lives_can_be_met, stops_can_be_met};

// Those of upgrades.
pub use first_edition::upgrades_can_be_met;

// Those of laws over serving and importing.
pub use desks::{imports_can_be_met, serving_can_be_met};
