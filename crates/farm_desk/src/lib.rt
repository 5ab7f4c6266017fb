//! The desk of the board farm: bytes in, bytes out, over a store.
//!
//! `converse`, `serve` and `import` are farm_serve's; `serve_on` serves the clients of a listener;
//! `open_farm` and others are for farms in files; `program` is the program `farm`.
//!
//! Read `src/` in the order lab_files; socket_clients; new_file, preflight, at_hand, carry, files,
//! open_files, spent; report, orders, command_line; laws.
//!
//! Read `specs/` in the order NewFile, Preflight, InFiles, which farm files hold; Faults, Lines, what
//! the program prints; Orders, Program, what it does.
#![tactic(auto)]

mod at_hand;
mod carry;
mod command_line;
mod files;
mod lab_files;
mod laws;
mod new_file;
mod open_files;
mod orders;
mod preflight;
mod report;
mod socket_clients;
mod spent;

// Conversations with one client, and with one after another; imports; what ends them; and what is
// proved of them, functions that only proofs read.
pub use farm_serve::{
    Client, Clients, DeskFault, ImportEnd, Input, Output, ScriptedClient, ScriptedClients,
    ServedClient, answered_act_as_run, conversations_join, conversations_keep_a_prefix, converse,
    converse_in_memory, converse_in_turn, desk_lives_keep_what_was_answered, found_after_import,
    found_after_serving, import, request_answered_again, serve, serve_in_memory,
};
pub use socket_clients::serve_on;

// Farms in files.
pub use files::{FileKeeper, make_farm, make_new_farm, migrate_farm, open_farm};
pub use new_file::NewFile;

// The program: its words, the orders that they name, and its exit statuses.
pub use command_line::{
    DONE, FAILED, OUT_OF_MEMORY, REFUSED, WRONG_WORDS, perform, print_fault, program,
};
pub use farm_cli::{Database, Order, OrderFault, Report, order_of};
pub use lab_files::LabFiles;
pub use orders::{End, carry_out, carry_out_from};

// What is proved of desks: functions that only proofs read.
pub use laws::{
    imported_files_hold, served_files_hold, statuses_agree, stopped_files_hold, upgraded_files_hold,
};
