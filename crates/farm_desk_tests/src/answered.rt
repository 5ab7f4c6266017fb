//! Conversations over readers and writers that give and take little, or fail.
use farm_desk::{DeskFault, Input, Output, converse};
use farm_fakes::{FIRST_TYPE, Interrupted, Narrow, Slow, Tally, made, request};
use farm_keep::Keeper;
use sqlite::{Alter, Connection};
use std::alloc::{AllocError, Global};
use std::process::Abort;
use std::test::Fail;

/// The answer to a command that is done and gives no number.
pub(crate) const DONE: &[u8] =
    b"HTTP/1.1 200 OK\r\ncontent-type: application/json\r\ncontent-length: 12\r\nconnection: close\r\n\r\n{\"number\":0}";

/// The same with number 1.
const FIRST_NUMBER: &[u8] =
    b"HTTP/1.1 200 OK\r\ncontent-type: application/json\r\ncontent-length: 12\r\nconnection: close\r\n\r\n{\"number\":1}";

/// How a conversation ends: with its status, or the number of its fault; how often the reader was
/// called, and whether it failed.
type End = (u16, usize, bool);

/// The status, or the number of the fault.
fn code_of(end: Result<u16, DeskFault>) -> u16 {
    match end {
        Ok(status) => status,
        Err(fault) => fault.code(),
    }
}

/// One conversation, at moment 10.
fn talk<R: Input, W: Output, S: Alter>(
    alloc: Global,
    keeper: &mut Keeper<S>,
    reader: &mut R,
    writer: &mut W,
) -> End {
    let (mut input, mut output) = (Tally::new(reader), Tally::new(writer));
    let end = converse(alloc, keeper, &mut input, &mut output, 10);
    (code_of(end), input.calls, input.failures > 0)
}

/// The farm's accepted commands and its jobs; none where the keeper is closed.
fn counts<S: Alter>(keeper: &Keeper<S>) -> Option<(u64, u64)> {
    match keeper.farm() {
        Some(farm) => {
            let status = farm.status();
            Some((status.count, status.jobs))
        }
        None => None,
    }
}

/// What the request of a reader is answered, and how the conversation ends.
fn heard<R: Input, S: Alter>(
    alloc: Global,
    keeper: &mut Keeper<S>,
    reader: &mut R,
) -> (Vec<u8>, End) {
    let mut output = Vec::new(alloc);
    let end = talk(alloc, keeper, reader, &mut output);
    (output, end)
}

/// The same by a writer that takes one byte a call and is interrupted after so many, so often.
fn heard_in_part<R: Input, S: Alter>(
    alloc: Global,
    keeper: &mut Keeper<S>,
    reader: &mut R,
    (room, stops): (usize, u32),
) -> (Vec<u8>, End) {
    let mut output = Narrow::stopping(alloc, room, stops, true);
    let end = talk(alloc, keeper, reader, &mut output);
    (output.held, end)
}

/// The farm is asked by a reader that gives no request, and isn't changed.
fn expect_unread<R: Input, S: Alter>(
    rt: &impl Abort,
    alloc: Global,
    keeper: &mut Keeper<S>,
    reader: &mut R,
) -> (usize, bool) {
    let (answer, (code, calls, failed)) = heard(alloc, keeper, reader);
    assert_eq!(rt; code, 80);
    assert!(rt; answer.is_empty());
    assert_eq!(rt; counts(keeper), Some((0, 0)));
    (calls, failed)
}

/// A reader that fails behind so many bytes once, and one that does for good.
fn expect_failing<S: Alter>(rt: &impl Abort, alloc: Global, keeper: &mut Keeper<S>, left: usize) {
    for fails in [1, u32::MAX] {
        let mut input = Slow::failing(FIRST_TYPE, left, fails);
        let (_, failed) = expect_unread(rt, alloc, keeper, &mut input);
        assert!(rt; failed, "at {left}");
    }
}

/// Readers that fail at each byte in turn, and one that is interrupted for ever.
fn readers_that_fail<S: Alter + Drop>(
    rt: &impl Abort,
    alloc: Global,
    conn: Connection<S>,
) -> Result<(), Fail> {
    let mut keeper = made(alloc, conn).ok_or("no farm")?;
    for left in 0..FIRST_TYPE.len() {
        expect_failing(rt, alloc, &mut keeper, left);
    }
    let end = expect_unread(rt, alloc, &mut keeper, &mut Interrupted);
    assert_eq!(rt; end, (80_000, false));
    Ok(())
}

#[test]
fn reader_that_halts(rt: HostRuntime) -> Result<(), Fail> {
    let alloc = rt.alloc();
    readers_that_fail(&rt, alloc, Connection::open_in_memory(alloc)?)
}

/// Both the reader and the writer give and take one byte a call, and the reader is interrupted
/// once.
fn bytes_one_by_one<S: Alter + Drop>(
    rt: &impl Abort,
    alloc: Global,
    conn: Connection<S>,
) -> Result<(), Fail> {
    let mut keeper = made(alloc, conn).ok_or("no farm")?;
    let mut input = Slow::whole(FIRST_TYPE, 1);
    let (answer, end) = heard_in_part(alloc, &mut keeper, &mut input, (0, 0));
    assert_eq!(rt; end, (200, 74, false));
    assert!(rt; answer.as_slice() == DONE);
    Ok(())
}

#[test]
fn one_byte_a_call(rt: HostRuntime) -> Result<(), Fail> {
    let alloc = rt.alloc();
    bytes_one_by_one(&rt, alloc, Connection::open_in_memory(alloc)?)
}

/// The head of a pass with the largest body.
const LARGEST: &[u8] = b"POST /pass HTTP/1.1\r\nx-user: admin\r\ncontent-length: 65536\r\n\r\n";

const PASSED: &[u8] =
    b"HTTP/1.1 200 OK\r\ncontent-type: application/json\r\ncontent-length: 35\r\nconnection: close\r\n\r\n{\"checks\":0,\"expired\":0,\"served\":0}";

/// A pass with the largest body.
fn largest_request(alloc: Global) -> Result<Vec<u8>, AllocError> {
    let mut request = LARGEST.to_vec(alloc)?;
    request.extend_from_slice(vec![in alloc; b'z'; 65_536]?.as_slice())?;
    Ok(request)
}

/// The largest body, of which each call gives one byte.
fn largest_body<S: Alter + Drop>(
    rt: &impl Abort,
    alloc: Global,
    conn: Connection<S>,
    request: &[u8],
) -> Result<(), Fail> {
    let mut keeper = made(alloc, conn).ok_or("no farm")?;
    let mut input = Slow::whole(request, 0);
    let (answer, end) = heard(alloc, &mut keeper, &mut input);
    assert_eq!(rt; end, (200, 65_597, false));
    assert!(rt; answer.as_slice() == PASSED);
    assert_eq!(rt; counts(&keeper), Some((1, 0)));
    Ok(())
}

#[test]
fn largest_body_byte_by_byte(rt: HostRuntime) -> Result<(), Fail> {
    let alloc = rt.alloc();
    let request = largest_request(alloc)?;
    largest_body(
        &rt,
        alloc,
        Connection::open_in_memory(alloc)?,
        request.as_slice(),
    )
}

/// Hears the next request, and demands that answer and status 200.
fn expect<R: Input, S: Alter>(
    rt: &impl Abort,
    alloc: Global,
    keeper: &mut Keeper<S>,
    reader: &mut R,
    wanted: &[u8],
) {
    let (answer, end) = heard(alloc, keeper, reader);
    assert!(rt; answer.as_slice() == wanted);
    assert_eq!(rt; end.0, 200);
}

/// A request that adds the type `bbb`, and one that looks at the types.
const TYPE_AND_LOOK: &[u8] =
    b"POST /types HTTP/1.1\r\nx-user: admin\r\ncontent-length: 14\r\n\r\n{\"name\":\"bbb\"}GET /types HTTP/1.1\r\n\r\n";

const LOOK: &[u8] = b"GET /types HTTP/1.1\r\n\r\n";

const TYPES: &[u8] =
    b"HTTP/1.1 200 OK\r\ncontent-type: application/json\r\ncontent-length: 51\r\nconnection: close\r\n\r\n{\"types\":[{\"check\":\"none\",\"every\":0,\"name\":\"bbb\"}]}";

/// A conversation takes its own request, and leaves the next one in the reader.
fn one_after_the_other<S: Alter + Drop>(
    rt: &impl Abort,
    alloc: Global,
    conn: Connection<S>,
) -> Result<(), Fail> {
    let mut keeper = made(alloc, conn).ok_or("no farm")?;
    let mut input = TYPE_AND_LOOK;
    expect(rt, alloc, &mut keeper, &mut input, DONE);
    assert!(rt; input == LOOK);
    expect(rt, alloc, &mut keeper, &mut input, TYPES);
    assert!(rt; input.is_empty());
    Ok(())
}

#[test]
fn two_requests_in_one_reader(rt: HostRuntime) -> Result<(), Fail> {
    let alloc = rt.alloc();
    one_after_the_other(&rt, alloc, Connection::open_in_memory(alloc)?)
}

/// Makes the type `bbb` and its Good board b1.
fn prepare<S: Alter>(rt: &impl Abort, alloc: Global, keeper: &mut Keeper<S>) -> Result<(), Fail> {
    let rows = [
        ("POST /types", "{\"name\":\"bbb\"}"),
        ("POST /boards", "{\"name\":\"b1\",\"type\":\"bbb\"}"),
        ("POST /boards/b1/health", "{\"health\":\"Good\"}"),
    ];
    for (line, body) in rows {
        let bytes = request(alloc, "admin", line, body)?;
        expect(rt, alloc, keeper, &mut bytes.as_bytes(), DONE);
    }
    Ok(())
}

/// A job of ann's under the key j1.
const KEYED_JOB: &[u8] =
    b"POST /jobs HTTP/1.1\r\nx-user: ann\r\nx-key: j1\r\ncontent-length: 38\r\n\r\njob_name = \"boot\"\ndevice_type = \"bbb\"\n";

/// A writer that is interrupted after so many bytes, once or for good: these are the answer's
/// first, the command is done, and its repetition is answered by the kept reply.
fn expect_lost<S: Alter>(
    rt: &impl Abort,
    alloc: Global,
    keeper: &mut Keeper<S>,
    (room, stops): (usize, u32),
) -> Result<(), Fail> {
    prepare(rt, alloc, keeper)?;
    let (answer, end) = heard_in_part(alloc, keeper, &mut &KEYED_JOB[..], (room, stops));
    assert_eq!(rt; end.0, 81);
    assert!(rt; answer.len() == room && FIRST_NUMBER.starts_with(answer.as_slice()));
    assert_eq!(rt; counts(keeper), Some((4, 1)));
    expect(rt, alloc, keeper, &mut &KEYED_JOB[..], FIRST_NUMBER);
    assert_eq!(rt; counts(keeper), Some((4, 1)));
    Ok(())
}

/// The same of an empty farm.
fn lost_after<S: Alter + Drop>(
    rt: &impl Abort,
    alloc: Global,
    conn: Connection<S>,
    stop: (usize, u32),
) -> Result<(), Fail> {
    let mut keeper = made(alloc, conn).ok_or("no farm")?;
    expect_lost(rt, alloc, &mut keeper, stop)
}

#[test]
fn answer_lost(rt: HostRuntime) -> Result<(), Fail> {
    let alloc = rt.alloc();
    for room in 0..FIRST_NUMBER.len() {
        for stops in [1, u32::MAX] {
            lost_after(
                &rt,
                alloc,
                Connection::open_in_memory(alloc)?,
                (room, stops),
            )?;
        }
    }
    Ok(())
}
