//! The words, rows, calls and refusals of the board farm, and in `specs/` the whole machine.
//!
//! Read `specs/` in the order Limits, Words, Table, Reads, Tags, Codes, Called, Refusals, Proper,
//! Farm, Pick, Pass, Refuse, Change, Machine, Sound, Small, Agreed.
#![tactic(auto)]

mod called;
mod calls;
mod claims;
mod fault;
mod laws;
mod limits;
mod refusal;
mod rows;
mod table;
mod tags;
mod words;

// The words that callers hand in: texts and numbers that keep a rule of their own.
pub use fault::WordFault;
pub use tags::{Tag, Tags};
pub use words::{Body, Key, Name, Priority, Word};

// The rows of a farm, and what stands in their columns.
pub use rows::{
    BoardRow, Check, Health, Holder, JobRow, JobState, KeptRow, MetaRow, Outcome, Reply, ResRow,
    ResState, State, TypeRow, Want, copy_name,
};

// Calls of the machine, their answers, and what is seen of a farm.
pub use calls::{Answer, Call, Changes, Cmd, Roles, Rows, Wants};
pub use claims::{Claim, ClaimKind, Status};

// Rows kept in strict order of their keys.
pub use table::{Keyed, is_sorted, upsert};

// The words of checks, which files and requests share.
pub use called::{CheckUnit, is_every};

// Refusals and faults: a code, and the line of the table that it names.
pub use refusal::{Refusal, reason_of};

// The codes of words.
pub use refusal::{BAD_COUNT, BAD_KEY, BAD_NAME, BAD_PRIORITY, BAD_TAG};

// The codes of commands.
pub use refusal::{
    BAD_MOMENT, BOARD_EXISTS, EXPIRED, FORBIDDEN, FULL, HELD, KEY_REUSED, NO_BOARD, NO_JOB,
    NO_RESERVATION, NO_SUCH_BOARDS, NO_TYPE, RETIRED, TYPE_EXISTS, WRONG_RESERVATION_STATE,
    WRONG_STATE,
};

// The codes of requests and of files.
pub use refusal::{
    BAD_CODING, BAD_JOB_FILE, BAD_LAB_FILE, BAD_REQUEST, NO_ROUTE, TOO_LARGE, WRONG_METHOD,
};

// The codes of faults: memory, the store, reading and writing.
pub use refusal::{BAD_STORE, CLOSED, NEW_SCHEMA, NO_MEMORY, OLD_SCHEMA, READ, STORE, WRITE};

// The limits of words and commands.
pub use limits::{
    HIGHEST_PRIORITY, LONGEST_EVERY, LONGEST_KEY, LONGEST_NAME, LONGEST_TAG_KEY, LONGEST_TAG_VALUE,
    LONGEST_TEXT, MOST_TAGS, MOST_WANTS,
};

// The limits of rows and farms.
pub use limits::{
    LAST_KIND, LAST_MOMENT, LEASE, MOST_BOARDS, MOST_BOARDS_OF_TYPE, MOST_COMMANDS, MOST_JOBS,
    MOST_JOBS_SINCE, MOST_REPLIES, MOST_RESERVATIONS, MOST_TYPES, NUMBERS_END,
};

// The limits of requests and files.
pub use limits::{
    LONGEST_BODY, LONGEST_HEAD, LONGEST_JOB_FILE, LONGEST_LAB_FILE, MOST_FIELDS, MOST_READS,
};

// What is proved of the definitions and of the numbers here: functions that only proofs read.
pub use laws::{
    codes_read_back, keys_are_parsed, names_are_parsed, nothing_runs, refusals_agree,
    tags_read_back,
};
pub use limits::limits_agree;
