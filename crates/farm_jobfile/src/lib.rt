//! Job files and lab files: TOML texts that spell commands of the farm.
//!
//! A job file asks for one job, or for the jobs of a group (`job_of`); a lab file lists the device
//! types and the boards of a lab (`lab_of`). What a text spells is defined over the tree that the
//! crate `toml` reads from it, field by field, and the first fault is the one that is reported.
//!
//! Read `specs/` in the order Reading, Document, Fields, Job, Lab.
#![tactic(auto)]

mod fault;
mod fields;
mod group;
mod job;
mod lab;

// A job file, and the command that it spells.
pub use job::job_of;

// A lab file, and the calls that it spells.
pub use lab::lab_of;

// The first fault of a file.
pub use fault::{FileFault, FileKind, Reason};
