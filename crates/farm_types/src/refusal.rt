//! The one table of refusals and faults: number, HTTP status and text.
ghost use Rattle.std.specs.Prelude.{◌≡◌, MatchResult, true, false};
ghost use Rattle.farm_types.specs.Refusals.{refusal_text, http_status_of, reason_of};

use std::fmt;

/// Memory ran out: the command may be repeated with its key.
pub const NO_MEMORY: u16 = 1;
/// The moment is beyond the last one that the desk knows.
pub const BAD_MOMENT: u16 = 2;
/// The caller may not give this command.
pub const FORBIDDEN: u16 = 3;
/// The command would go beyond a limit of the farm.
pub const FULL: u16 = 4;
/// A text is no name.
pub const BAD_NAME: u16 = 5;
/// A text is no tag, or a board's own tag has the key `name`.
pub const BAD_TAG: u16 = 6;
/// Too many tags, or no wants, or too many.
pub const BAD_COUNT: u16 = 7;
/// There is no type of that name.
pub const NO_TYPE: u16 = 10;
/// There is a type of that name.
pub const TYPE_EXISTS: u16 = 11;
/// There is no board of that name.
pub const NO_BOARD: u16 = 12;
/// There is a board of that name.
pub const BOARD_EXISTS: u16 = 13;
/// A held board can't be retired.
pub const HELD: u16 = 14;
/// A retired board stays as it is.
pub const RETIRED: u16 = 15;
/// There is no job of that number.
pub const NO_JOB: u16 = 20;
/// The job's state doesn't allow the command.
pub const WRONG_STATE: u16 = 21;
/// No list of boards meets the wants, whoever holds them now.
pub const NO_SUCH_BOARDS: u16 = 22;
/// The priority is no whole number from 0 to 100.
pub const BAD_PRIORITY: u16 = 23;
/// There is no reservation of that number.
pub const NO_RESERVATION: u16 = 30;
/// The reservation's deadline has come.
pub const EXPIRED: u16 = 31;
/// The reservation's state doesn't allow the command.
pub const WRONG_RESERVATION_STATE: u16 = 32;
/// The key's reply is kept for another command.
pub const KEY_REUSED: u16 = 40;
/// A text is no key.
pub const BAD_KEY: u16 = 41;
/// The request can't be read.
pub const BAD_REQUEST: u16 = 50;
/// The head or the body has too many bytes.
pub const TOO_LARGE: u16 = 51;
/// There is nothing at that path.
pub const NO_ROUTE: u16 = 52;
/// The path has other methods.
pub const WRONG_METHOD: u16 = 53;
/// Transfer codings aren't read.
pub const BAD_CODING: u16 = 54;
/// A call of the store was refused: open it again.
pub const STORE: u16 = 60;
/// The desk was closed by an earlier fault.
pub const CLOSED: u16 = 61;
/// The file's rows are no sound farm's.
pub const BAD_STORE: u16 = 62;
/// The file is of an earlier edition.
pub const OLD_SCHEMA: u16 = 63;
/// The file is of this edition, where one of the earlier edition is wanted.
pub const NEW_SCHEMA: u16 = 64;
/// A job file can't be read.
pub const BAD_JOB_FILE: u16 = 70;
/// A lab file can't be read.
pub const BAD_LAB_FILE: u16 = 71;
/// The input failed.
pub const READ: u16 = 80;
/// The output failed.
pub const WRITE: u16 = 81;

/// The line of a number: the HTTP status of its answer (RFC 9110), where it has one, and its text.
#[rattlefmt::skip]
fn line_of(code: u16) -> (Option<u16>, &'static str)
    ensures status { result.0 ≡ http_status_of code }
    ensures text { result.1.now ≡ refusal_text code }
{
    match code {
        NO_MEMORY => (Some(503), "no memory"),
        BAD_MOMENT => (Some(400), "bad moment"),
        FORBIDDEN => (Some(403), "forbidden"),
        FULL => (Some(409), "full"),
        BAD_NAME => (Some(400), "bad name"),
        BAD_TAG => (Some(400), "bad tag"),
        BAD_COUNT => (Some(400), "bad count"),
        NO_TYPE => (Some(404), "no such type"),
        TYPE_EXISTS => (Some(409), "type exists"),
        NO_BOARD => (Some(404), "no such board"),
        BOARD_EXISTS => (Some(409), "board exists"),
        HELD => (Some(409), "board is held"),
        RETIRED => (Some(409), "board is retired"),
        NO_JOB => (Some(404), "no such job"),
        WRONG_STATE => (Some(409), "wrong job state"),
        NO_SUCH_BOARDS => (Some(409), "no such boards"),
        BAD_PRIORITY => (Some(400), "bad priority"),
        NO_RESERVATION => (Some(404), "no such reservation"),
        EXPIRED => (Some(409), "reservation expired"),
        WRONG_RESERVATION_STATE => (Some(409), "wrong reservation state"),
        KEY_REUSED => (Some(409), "key reused"),
        BAD_KEY => (Some(400), "bad key"),
        BAD_REQUEST => (Some(400), "bad request"),
        TOO_LARGE => (Some(413), "too large"),
        NO_ROUTE => (Some(404), "no such route"),
        WRONG_METHOD => (Some(405), "wrong method"),
        BAD_CODING => (Some(501), "bad coding"),
        STORE => (Some(503), "store fault"),
        CLOSED => (Some(503), "closed"),
        BAD_STORE => (None, "bad store"),
        OLD_SCHEMA => (None, "old schema"),
        NEW_SCHEMA => (None, "new schema"),
        BAD_JOB_FILE => (Some(400), "bad job file"),
        BAD_LAB_FILE => (None, "bad lab file"),
        READ => (None, "read fault"),
        WRITE => (None, "write fault"),
        _ => (None, ""),
    }
}

/// A refusal, by its number.
#[derive(Clone, Copy, Debug, PartialEq, Eq)]
pub struct Refusal {
    /// Its number in the table.
    pub code: u16,
}

impl Refusal {
    /// Refuses what is not so.
    pub(crate) fn unless(holds: bool, code: u16) -> Result<(), Refusal>
        ensures { MatchResult result (λ _. holds ≡ true)
            (λ refusal. (refusal.code ≡ code) × (holds ≡ false)) }
    {
        if holds { Ok(()) } else { Err(Refusal { code }) }
    }

    /// What went wrong, in two or three words; empty for a number that the table lacks.
    pub fn text(self) -> &'static str
        ensures { result.now ≡ refusal_text self.code }
    {
        line_of(self.code).1
    }

    /// The HTTP status of its answer, if it is ever answered over HTTP.
    pub fn status(self) -> Option<u16>
        ensures { result ≡ http_status_of self.code }
    {
        line_of(self.code).0
    }
}

impl fmt::Display for Refusal {
    ghost use Rattle.std.specs.Prelude.{Some};
    ghost use Rattle.farm_types.specs.Refusals.{refusal_text};

    ghost output = { λ refusal. Some (refusal_text refusal.code) };

    fn fmt<W: fmt::Write>(&self, f: &mut fmt::Formatter<W>) -> fmt::Result {
        f.write_str(self.text())
    }
}

/// The reason phrase of a status that the desk answers with (RFC 9110).
pub fn reason_of(status: u16) -> &'static str
    ensures { result.now ≡ reason_of status }
{
    match status {
        200 => "OK",
        400 => "Bad Request",
        403 => "Forbidden",
        404 => "Not Found",
        405 => "Method Not Allowed",
        409 => "Conflict",
        413 => "Content Too Large",
        501 => "Not Implemented",
        503 => "Service Unavailable",
        _ => "",
    }
}
