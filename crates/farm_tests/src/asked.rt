//! Calls as requests spell them.
use crate::requests::read;
use farm_fakes::request;
use farm_types::Call;
use farm_wire::Ask;
use std::alloc::Global;
use std::test::Fail;

/// The call that a request asks for at a moment.
pub(crate) fn call(
    alloc: Global,
    now: u64,
    who: &str,
    line: &str,
    body: &str,
) -> Result<Call, Fail> {
    let bytes = request(alloc, who, line, body)?;
    let taken = read(alloc, &mut bytes.as_bytes())?;
    match Ask::of(alloc, &taken, now) {
        Ok(Ask::Call(call)) => Ok(call),
        _ => Err(Fail::new("no call")),
    }
}
