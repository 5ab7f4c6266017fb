//! The waiting room before a desk: the connections of a listener, from their accept until their
//! answers are taken, or their time is over.
//!
//! A connection owns its bytes: what came of its request is read once, when it comes, and what is
//! left of its answer waits in memory until its client takes it. So whoever answers a request reads
//! it from memory, and nobody waits for a client but the client's own connection.
//!
//! Read `src/` in the order deadline, inbox, outbox, connection, row, connections. Read `specs/` in
//! the order Came, what is known of a request; Waiting, who waits, who is next, and who goes.
#![tactic(auto)]

mod connection;
mod connections;
mod deadline;
mod inbox;
mod outbox;
mod row;

// The connections of a listener, and one of them.
pub use connection::Connection;
pub use connections::Connections;

// What came of a request, and what is left of an answer.
pub use inbox::Inbox;
pub use outbox::Outbox;

// How long clients may take.
pub use deadline::LIMIT_SECONDS;
