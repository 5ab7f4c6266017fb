//! The lengths that a head declares, and how much is taken behind it.
use crate::requests::read;
use farm_fakes::Endless;
use farm_http::WireFault;
use std::alloc::{AllocError, Global};
use std::test::Fail;

/// A head of a request line, these fields and the empty line.
fn head_with(alloc: Global, fields: &[u8]) -> Result<Vec<u8>, AllocError> {
    let mut head = b"POST /types HTTP/1.1\r\n".to_vec(alloc)?;
    head.extend_from_slice(fields)?;
    head.extend_from_slice(b"\r\n")?;
    Ok(head)
}

/// The length of the body that is taken behind a head, or the number of the refusal; how many bytes
/// behind the head were asked for.
fn taken_behind(alloc: Global, fields: &[u8]) -> Result<(Result<usize, u16>, usize), Fail> {
    let head = head_with(alloc, fields)?;
    let mut input = Endless {
        head: head.as_slice(),
        given: 0,
    };
    match read(alloc, &mut input) {
        Ok(taken) => Ok((
            Ok(taken.bytes.len().saturating_sub(taken.head)),
            input.given,
        )),
        Err(WireFault::Refused(refusal)) => Ok((Err(refusal.code), input.given)),
        Err(fault) => Err(Fail::new(fault)),
    }
}

/// Fields, and the length that they declare or the number of their refusal.
const LENGTHS: [(&str, Result<usize, u16>); 15] = [
    ("", Ok(0)),
    ("content-length: 14\r\n", Ok(14)),
    ("CONTENT-Length:\t00014 \r\n", Ok(14)),
    ("content-length: 65536\r\n", Ok(65_536)),
    ("content-length: 65537\r\n", Err(51)),
    ("content-length: 99999999999999999999\r\n", Err(51)),
    ("content-length:\r\n", Err(50)),
    ("content-length: +5\r\n", Err(50)),
    ("content-length: -5\r\n", Err(50)),
    ("content-length: 5 5\r\n", Err(50)),
    ("content-length: 0x5\r\n", Err(50)),
    ("content-length: 5\r\ncontent-length: 5\r\n", Err(50)),
    ("transfer-encoding: chunked\r\n", Err(54)),
    ("Transfer-Encoding:\r\n", Err(54)),
    ("content-length: 65537\r\ntransfer-encoding: a\r\n", Err(54)),
];

#[test]
fn declared_lengths(rt: HostRuntime) -> Result<(), Fail> {
    for (fields, wanted) in &LENGTHS {
        let (found, given) = taken_behind(rt.alloc(), fields.as_bytes())?;
        assert_eq!(rt; found, *wanted);
        assert_eq!(rt; given, wanted.unwrap_or(0));
    }
    Ok(())
}
