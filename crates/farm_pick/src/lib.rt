//! Which boards are given to a claim, and which claim goes first. Only `queue_of` and the
//! queues take memory.
//!
//! Read `specs/` in the order Choice, Least, Queue for the least list and the queue of a farm's rows;
//! then Queued, what stands in the queues, and Merged, the pass over them, and Follow, what commands
//! and a pass leave of them; then Index and Several, in what they are looked up, Heads, how their
//! first claims are found, and Walked, how all are lent in order.
#![tactic(auto)]

mod fit;
mod idle;
mod index;
mod kind;
mod laws;
mod picked;
mod queue;
mod queues;
mod search;
mod spot;
mod walk;

// The least list: which boards are given to a claim.
pub use fit::{Candidates, Free, carries_all, is_free};
pub use picked::Picked;
pub use search::{least, least_of};

// The queue: which claim goes first.
pub use queue::{before, queue_of, queue_order};

// The queues and the free boards, kept from call to call.
pub use queues::Queues;
pub use walk::{Heads, Walk};

// What is proved of them: functions that only proofs read.
pub use laws::{
    backs_follow, checks_follow, collecting_follows, commands_follow, ends_follow, giving_follows,
    least_is_least, merging_serves, one_least, unmet_is_skipped, unmet_stays,
};
