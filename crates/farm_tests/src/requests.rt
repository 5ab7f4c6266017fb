//! Requests that are read whole or cut, from readers that are slow, fail or never end.
use farm_fakes::{FIRST_TYPE, Interrupted, Slow, Tally};
use farm_http::{Input, Taken, WireFault, read_request};
use farm_types::{BAD_REQUEST, LONGEST_BODY, LONGEST_HEAD, Refusal};
use std::alloc::{AllocError, Global};
use std::io;
use std::io::{BufReader, Read};
use std::test::Fail;

/// What a reader gives.
pub(crate) fn read<R: Input>(alloc: Global, reader: &mut R) -> Result<Taken, WireFault> {
    read_request(alloc, reader)
}

/// What a reader gives, how often it was called, and whether it failed.
fn counted<R: Read>(alloc: Global, reader: &mut R) -> (Result<Taken, WireFault>, usize, bool) {
    let mut input = Tally::new(reader);
    let taken = read(alloc, &mut input);
    (taken, input.calls, input.failures > 0)
}

/// Why a reader gives no request, how often it was called, and whether it failed.
fn fault_of<R: Read>(alloc: Global, reader: &mut R) -> (Option<WireFault>, usize, bool) {
    let (taken, calls, failed) = counted(alloc, reader);
    (taken.err(), calls, failed)
}

/// The request that adds the type, and the beginning of another.
const WITH_MORE: &[u8] =
    b"POST /types HTTP/1.1\r\nx-user: admin\r\ncontent-length: 14\r\n\r\n{\"name\":\"bbb\"}GET / ";

/// What the first request is taken as, and what stays in its reader.
fn first_and_rest(alloc: Global) -> (Result<Taken, WireFault>, &'static [u8]) {
    let mut rest = WITH_MORE;
    let taken = read(alloc, &mut rest);
    (taken, rest)
}

#[test]
fn first_type(rt: HostRuntime) {
    let (taken, rest) = first_and_rest(rt.alloc());
    match taken {
        Ok(taken) => {
            assert!(rt; taken.bytes.as_slice() == FIRST_TYPE);
            assert_eq!(rt; taken.head, 59);
            assert!(rt; rest == b"GET / ".as_slice());
        }
        Err(fault) => {
            assert_eq!(rt; fault, WireFault::NoMemory);
            assert!(rt; rest == WITH_MORE, "nothing is read");
        }
    }
}

/// Whether a reader gives these bytes; how often it was called, and whether it failed.
fn gives<R: Read>(alloc: Global, reader: &mut R, wanted: &[u8]) -> (bool, usize, bool) {
    let (taken, calls, failed) = counted(alloc, reader);
    let is_wanted = match taken {
        Ok(taken) => taken.bytes.as_slice() == wanted,
        Err(_) => false,
    };
    (is_wanted, calls, failed)
}

#[test]
fn one_byte_a_call(rt: HostRuntime) {
    for (stalls, wanted) in [(0, 73), (1, 74), (73, 146)] {
        let mut input = Slow::whole(FIRST_TYPE, stalls);
        let end = gives(rt.alloc(), &mut input, FIRST_TYPE);
        assert_eq!(rt; end, (true, wanted, false));
    }
}

/// Why a request is refused that ends within its head or body.
const REFUSED: WireFault = WireFault::Refused(Refusal { code: BAD_REQUEST });

#[test]
fn cut_at_each_byte(rt: HostRuntime) {
    for n in 0..FIRST_TYPE.len() {
        let (fault, _, failed) = fault_of(rt.alloc(), &mut &FIRST_TYPE[..n]);
        assert_eq!(rt; (fault, failed), (Some(REFUSED), false), "at {n}");
    }
}

#[test]
fn fails_at_each_byte(rt: HostRuntime) {
    for n in 0..FIRST_TYPE.len() {
        let (fault, _, failed) = fault_of(rt.alloc(), &mut Slow::failing(FIRST_TYPE, n, 1));
        assert_eq!(rt; (fault, failed), (Some(WireFault::Read), true), "at {n}");
    }
}

/// A buffered reader of two requests.
type Lines = BufReader<Tally<&'static [u8]>>;

/// Whether a buffered reader gives the first request, and leaves the beginning of the other.
fn gives_lines(alloc: Global, input: &mut Lines) -> Result<bool, Fail> {
    let is_first = read(alloc, input)?.bytes.as_slice() == FIRST_TYPE;
    let mut rest = Vec::new(alloc);
    input.read_to_end(&mut rest)?;
    Ok(is_first && rest.as_slice() == b"GET / ".as_slice())
}

/// Why a buffered reader that fails behind these bytes gives no request, and whether it is blamed.
fn fault_behind(alloc: Global, known: &[u8]) -> io::Result<(Option<WireFault>, bool)> {
    let source = Tally::new(known.chain(Slow::failing(&[], 0, u32::MAX)));
    let mut input = BufReader::new(alloc, source)?;
    let taken = read(alloc, &mut input);
    Ok((taken.err(), input.get_ref().failures > 0))
}

/// A buffered reader gives what it holds of a line at once, whatever it holds: the same bytes are
/// taken, and where it fails behind some, it is blamed.
#[test]
fn lines_at_once(rt: HostRuntime) -> Result<(), Fail> {
    for capacity in [1, 7, 64, 8_192] {
        let mut input = BufReader::with_capacity(rt.alloc(), capacity, Tally::new(WITH_MORE))?;
        assert!(rt; gives_lines(rt.alloc(), &mut input)?);
    }
    for left in 0..FIRST_TYPE.len() {
        let end = fault_behind(rt.alloc(), &FIRST_TYPE[..left])?;
        assert_eq!(rt; end, (Some(WireFault::Read), true), "at {left}");
    }
    Ok(())
}

#[test]
fn interrupted_for_ever(rt: HostRuntime) {
    let end = fault_of(rt.alloc(), &mut Interrupted);
    assert_eq!(rt; end, (Some(WireFault::Read), 80_000, false));
}

/// A request whose head and body are as long as they may be.
fn longest(alloc: Global) -> Result<Vec<u8>, AllocError> {
    let mut bytes = b"POST /jobs HTTP/1.1\r\ncontent-length: 65536\r\nx: ".to_vec(alloc)?;
    bytes.resize(LONGEST_HEAD - 4, b'a')?;
    bytes.extend_from_slice(b"\r\n\r\n")?;
    bytes.resize(LONGEST_HEAD + LONGEST_BODY, b'b')?;
    Ok(bytes)
}

/// A reader is not blamed before all its turns are taken: the longest request comes byte by byte,
/// with as many interruptions as the turns allow, and with one more.
#[test]
fn all_turns(rt: HostRuntime) -> Result<(), Fail> {
    let bytes = longest(rt.alloc())?;
    for (stalls, wanted) in [(0, 73_728), (6_272, 80_000)] {
        let mut input = Slow::whole(bytes.as_slice(), stalls);
        let end = gives(rt.alloc(), &mut input, bytes.as_slice());
        assert_eq!(rt; end, (true, wanted, false));
    }
    let end = fault_of(rt.alloc(), &mut Slow::whole(bytes.as_slice(), 6_273));
    assert_eq!(rt; end, (Some(WireFault::Read), 80_000, false));
    Ok(())
}
