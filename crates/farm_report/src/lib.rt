//! The farm's reports as text: its queue, its boards and its reservations, a line for each.
//!
//! A line is its columns with a space between them; a column that the next ones stand behind is
//! filled up with spaces to its width. Moments show as the civil date and time at a fixed offset
//! from UTC, which the caller hands in.
//!
//! Read `specs/` in the order Columns, Moments, Lines.
#![tactic(auto)]

mod columns;
mod fault;
mod laws;
mod moment;
mod reports;

// The reports.
pub use reports::{boards_text, claims_text, queue_text, reservations_text};

// The offset from UTC at which moments show.
pub use jiff::tz::Offset;
pub use moment::{MOST_MINUTES, zone_of};

// Why there is no report.
pub use fault::ReportFault;

// What is proved of moments: a function that only proofs read.
pub use laws::moments_agree;
