//! The commands: what each of them, once it isn't refused, makes of the tables.

pub(crate) mod boards;
pub(crate) mod jobs;
pub(crate) mod reservations;
pub(crate) mod submit;
