//! What HTTP requests ask of the farm, and the bytes of its answers.
//!
//! A request becomes a call of the farm or a view (`Routes::ask`), an answer becomes a status line,
//! fields and JSON text (`answer_bytes`). Reading requests and writing answers whole is
//! `farm_http`'s; its public names stand here again, so that a server needs this crate alone.
//!
//! Read `specs/` in the order Reading, Routes, Sender, Fields, Parameters, Commands, Asked; then
//! Shown, Keys, Plain, Joins, Parts, Replies.
#![tactic(auto)]

mod answers;
mod ask;
mod bodies;
mod fault;
mod fields;
mod head;
mod laws;
mod router;
mod rows_shown;
mod shown;
mod text;
mod value;

// One request, read from an input; and bytes written whole to an output.
pub use farm_http::{Input, Output, Taken, WireFault, read_request, write_whole};

// What a request asks: a call or a view, by the desk's routes.
pub use ask::{Ask, Routes, View};
pub use fault::AskFault;

// The bytes of an answer.
pub use answers::{Allowed, Out, answer_bytes};

// The answers that take no memory.
pub use answers::{closed_answer, no_memory_answer, store_answer};

// The HTTP statuses that the table of refusals doesn't have.
pub use answers::{METHOD_NOT_ALLOWED, OK, UNAVAILABLE};

// What is proved of paths, statuses and keys: functions that only proofs read.
pub use laws::{keys_in_order, other_paths, parameters, paths_with_a_parameter, statuses_agree};
