//! What the program is asked to do.

/// An order: one for each form of the program's words. A moment is in seconds since 1970-01-01
/// 00:00:00 UTC, and a file's name stands as it was given.
#[derive(Debug, Drop, PartialEq, Eq)]
pub enum Order {
    /// Answer one request from the input, at a moment.
    Once {
        database: Database,
        at: u64,
    },
    /// Make an empty farm in a file that has none.
    Init {
        file: String,
    },
    /// Bring the first edition's farm of a file to this one.
    Migrate {
        file: String,
    },
    /// Bring a lab file into the farm of a file, at a moment.
    Import {
        file: String,
        at: u64,
        lab: String,
    },
    /// Listen on a port of 127.0.0.1, from 1 to 65,535, and serve so many connections in turn.
    Serve {
        file: String,
        port: u16,
        max: u64,
    },
    /// Print a report of the farm of a file, with moments of a zone that lies so many minutes east
    /// and west of UTC: each is at most 840, and 0 where it wasn't given.
    Report {
        file: String,
        east: u64,
        west: u64,
        which: Report,
    },
}

/// Where the farm stands.
#[derive(Debug, Drop, PartialEq, Eq)]
pub enum Database {
    /// In memory: it is empty at first, and gone when the program ends.
    Memory,
    /// In a file.
    File(String),
}

/// What a report is of.
#[derive(Clone, Copy, Debug, PartialEq, Eq)]
pub enum Report {
    /// The claims that wait, in the order in which they are served.
    Queue,
    /// The boards.
    Boards,
    /// The reservations.
    Reservations,
}
