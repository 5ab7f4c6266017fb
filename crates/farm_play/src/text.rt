//! Bytes as transcripts write them.
use std::alloc::{AllocError, Global};
use std::io;
use std::io::ErrorKind;

/// The first word of a line, and what stands after the space behind it.
pub fn first_word(line: &str) -> (&str, &str) {
    line.split_once(" ").unwrap_or((line, ""))
}

/// What a line is that has no meaning.
pub fn unread() -> io::Error {
    io::Error::from(ErrorKind::InvalidData)
}

/// A number as a line has it.
pub fn number_of(text: &str) -> io::Result<u64> {
    match text.parse::<u64>() {
        Ok(number) => Ok(number),
        Err(_) => Err(unread()),
    }
}

/// A status as a line has it.
pub fn status_of(text: &str) -> io::Result<u16> {
    match text.parse::<u16>() {
        Ok(status) => Ok(status),
        Err(_) => Err(unread()),
    }
}

/// Where in an escape a text is.
#[derive(Clone, Copy)]
enum Place {
    Plain,
    Escape,
    Hex,
    Second(u8),
}

/// The value of a digit of base sixteen.
fn digit(byte: u8) -> io::Result<u8> {
    match byte {
        b'0'..=b'9' => Ok(byte - b'0'),
        b'a'..=b'f' => Ok(byte - b'a' + 10),
        _ => Err(unread()),
    }
}

/// Adds what the letter of an escape stands for, unless two digits follow it.
fn push_letter(bytes: &mut Vec<u8>, letter: u8) -> io::Result<Place> {
    match letter {
        b'r' => bytes.push(b'\r')?,
        b'n' => bytes.push(b'\n')?,
        b't' => bytes.push(b'\t')?,
        b'\\' => bytes.push(b'\\')?,
        b'x' => return Ok(Place::Hex),
        _ => return Err(unread()),
    }
    Ok(Place::Plain)
}

/// Reads one byte of a text with escapes.
fn push_byte(bytes: &mut Vec<u8>, place: Place, byte: u8) -> io::Result<Place> {
    match place {
        Place::Plain if byte == b'\\' => return Ok(Place::Escape),
        Place::Plain => bytes.push(byte)?,
        Place::Escape => return push_letter(bytes, byte),
        Place::Hex => return Ok(Place::Second(digit(byte)?)),
        Place::Second(high) => bytes.push((high % 16) * 16 + digit(byte)? % 16)?,
    }
    Ok(Place::Plain)
}

/// Adds the bytes that a text with the escapes `\r`, `\n`, `\t`, `\\` and `\xHH` stands for.
pub fn push_escaped(bytes: &mut Vec<u8>, text: &str) -> io::Result<()> {
    let mut place = Place::Plain;
    for byte in text.as_bytes() {
        place = push_byte(bytes, place, *byte)?;
    }
    match place {
        Place::Plain => Ok(()),
        _ => Err(unread()),
    }
}

/// Adds so many times what a text with escapes stands for.
pub fn push_times(bytes: &mut Vec<u8>, times: u64, text: &str) -> io::Result<()> {
    for _ in 0..times {
        push_escaped(bytes, text)?;
    }
    Ok(())
}

/// Adds a line and its end.
pub fn push_line(bytes: &mut Vec<u8>, line: &str) -> Result<(), AllocError> {
    bytes.extend_from_slice(line.as_bytes())?;
    bytes.extend_from_slice(b"\n")
}

/// What stands behind each HTTP status.
const REASONS: [(u16, &str); 9] = [
    (200, "OK"),
    (400, "Bad Request"),
    (403, "Forbidden"),
    (404, "Not Found"),
    (405, "Method Not Allowed"),
    (409, "Conflict"),
    (413, "Content Too Large"),
    (501, "Not Implemented"),
    (503, "Service Unavailable"),
];

/// What stands behind that HTTP status.
fn reason_of(status: u16) -> io::Result<&'static str> {
    for (number, reason) in &REASONS {
        if *number == status {
            return Ok(reason);
        }
    }
    Err(unread())
}

/// A whole answer with that status, those further fields and that body.
pub fn answer(alloc: Global, status: u16, fields: &str, body: &str) -> io::Result<String> {
    let reason = reason_of(status)?;
    let length = body.len();
    Ok(format!(in alloc;
        "HTTP/1.1 {status} {reason}\r\ncontent-type: application/json\r\ncontent-length: {length}\r\nconnection: close\r\n{fields}\r\n{body}"
    )?)
}

/// Bytes as a message shows them.
pub fn shown(bytes: &[u8]) -> &str {
    str::from_utf8(bytes).unwrap_or("(no text)")
}
