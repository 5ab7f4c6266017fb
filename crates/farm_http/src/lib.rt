//! HTTP/1.1 on the wire (RFC 9112): the bytes of one request taken from any reader, and bytes
//! written whole to any writer.
//!
//! Reading takes what it needs and no more, since the bytes behind a request belong to whoever reads
//! next: of the head no further than to the end of a line, then exactly the body that the head
//! declares. Of a buffered reader, or of bytes in memory, a head costs one call for what is at hand
//! of a line, and of any other one for each byte, so a caller buffers what is dear to call.
//!
//! A reader is an `Input` and a writer an `Output`, which say what `Read` and `Write` don't: that
//! bytes in memory never fail, that a vector takes what it has room for, and of any that counts its
//! turns when it failed.
//!
//! Read `specs/` in the order Fields, Request, Heads, Requests, Fronts, Turns, Room, Faults: what a
//! head says, when bytes are a request, when they are refused, what the first ones say, which turns
//! a reader or a writer took, which room a writer keeps, and what a fault says of the bytes.
#![tactic(auto)]

mod digits;
mod fault;
mod fields;
mod front;
mod input;
mod laws;
mod output;
mod reading;
mod request;
mod taken;
mod writing;

// One request, read from an input, and what its first bytes say of it.
pub use front::{Front, front_of};
pub use request::read_request;
pub use taken::Taken;

// The parts of a request: method, target, fields and body.
pub use fields::Repeated;
pub use taken::{Parts, parts_of};

// What decimal digits write.
pub use digits::{is_digits, number_within};

// Bytes written whole to an output.
pub use writing::write_whole;

// What goes wrong between a desk and its client.
pub use fault::WireFault;

// Readers and writers.
pub use input::Input;
pub use output::Output;

// What is proved of reading and writing: functions that only proofs read.
pub use laws::{head_is_found, read_from_memory, request_is_taken, write_to_memory};
