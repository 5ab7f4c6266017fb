//! What a keeper is asked from outside. A conversation: a request's bytes are read, what it asks is
//! done by the keeper or shown of its farm, and one answer is written. An import: the keeper does
//! what a lab file's text lists.
//!
//! `converse` converses once, `serve` with one client after another, wherever they come from;
//! `import` adds what a lab file lists.
//!
//! Read `src/` in the order fault, answer, conversation; lab_import; clients, serving,
//! scripted_clients; laws. Read `specs/` in the order Faults, Received, Answers, Response,
//! Ends, which say what a conversation is; Serving, Conversations, Clients, Scripts, Connections, what
//! several are; Imports, what an import is; Stops, DeskLives, what is found again after a stop.
#![tactic(auto)]

mod answer;
mod clients;
mod conversation;
mod fault;
mod lab_import;
mod laws;
mod scripted_clients;
mod serving;

// One conversation: a request, what it asks, and its answer.
pub use conversation::converse;
pub use farm_http::{Input, Output};

// A lab file's commands, done by a keeper.
pub use lab_import::{ImportEnd, import};

// Conversations with one client after another.
pub use clients::{Client, Clients};
pub use scripted_clients::{ScriptedClient, ScriptedClients, ServedClient};
pub use serving::serve;

// What ends a conversation, an import or an order.
pub use fault::DeskFault;

// What is proved of conversations: functions that only proofs read.
pub use laws::{
    answered_act_as_run, conversations_join, conversations_keep_a_prefix, converse_in_memory,
    converse_in_turn, desk_lives_keep_what_was_answered, found_after_import, found_after_serving,
    request_answered_again, serve_in_memory,
};
