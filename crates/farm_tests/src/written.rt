//! Answers that are written whole, or as far as the writer takes them.
use farm_fakes::{Narrow, Tally};
use farm_http::{Output, WireFault, write_whole};
use std::alloc::Global;
use std::io::Write;
use std::test::Fail;

const TEXT: &[u8] = b"HTTP/1.1 200 OK\r\n";

/// Whether a text was written whole, how often the writer was called, and whether it failed.
fn written<W: Write>(writer: &mut W, text: &[u8]) -> (bool, usize, bool) {
    let mut output = Tally::new(writer);
    let is_whole = write(&mut output, text).is_ok();
    (is_whole, output.calls, output.failures > 0)
}

/// How the writing of the text ends where a writer stops so, and what it holds then.
fn stopped_at(
    alloc: Global,
    room: usize,
    (stops, fails): (u32, bool),
) -> ((bool, usize, bool), Vec<u8>) {
    let mut writer = Narrow::stopping(alloc, room, stops, fails);
    let end = written(&mut writer, TEXT);
    (end, writer.held)
}

/// A writer that stops once or for good ends the writing.
#[test]
fn a_prefix_stands(rt: HostRuntime) {
    for stop in [(1, false), (1, true), (u32::MAX, false), (u32::MAX, true)] {
        for room in 0..TEXT.len() {
            let (end, held) = stopped_at(rt.alloc(), room, stop);
            assert_eq!(rt; end, (false, room + 1, true), "at {room}");
            assert!(rt; held.as_slice() == &TEXT[..room], "at {room}");
        }
        let (end, held) = stopped_at(rt.alloc(), TEXT.len(), stop);
        assert_eq!(rt; end, (true, TEXT.len(), false));
        assert!(rt; held.as_slice() == TEXT);
    }
}

/// A writer that takes all is not blamed, however long the text is: byte by byte, and in one write.
#[test]
fn a_long_text(rt: HostRuntime) -> Result<(), Fail> {
    let text = vec![in rt.alloc(); b'a'; 1_100_000]?;
    let mut writer = Narrow::whole(rt.alloc());
    let end = written(&mut writer, text.as_slice());
    assert_eq!(rt; end, (true, text.len(), false));
    assert!(rt; writer.held == text);
    let mut held = Vec::new(rt.alloc());
    assert_eq!(rt; written(&mut held, text.as_slice()), (true, 1, false));
    assert!(rt; held == text);
    Ok(())
}

/// Writes a text whole.
fn write<W: Output>(writer: &mut W, text: &[u8]) -> Result<(), WireFault> {
    write_whole(writer, text)
}

#[test]
fn one_write_for_all(rt: HostRuntime) -> Result<(), Fail> {
    let mut held = Vec::new(rt.alloc());
    write(&mut held, TEXT)?;
    assert!(rt; held.as_slice() == TEXT);
    Ok(())
}
