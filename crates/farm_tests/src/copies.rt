//! Copies that no command makes.
use crate::rows::want;
use farm_types::{Want, Wants, WordFault};
use std::alloc::Global;
use std::test::Fail;

fn two_wants(alloc: Global) -> Result<Vec<Want>, WordFault> {
    let mut wants = Vec::new(alloc);
    for tag in ["hdmi", "usb"] {
        wants.push(want(alloc, tag)?)?;
    }
    Ok(wants)
}

/// Whether a want asks for one tag, this one.
fn asks(want: &Want, wanted: &str) -> bool {
    match want.tags.items() {
        [tag] => tag.as_str() == wanted,
        _ => false,
    }
}

#[test]
fn wants_are_copied(rt: HostRuntime) -> Result<(), Fail> {
    let wants = Wants::of(two_wants(rt.alloc())?)?;
    let copy = wants.copy()?;
    let [first, second] = copy.items() else {
        return Err(Fail::new("not two wants"));
    };
    assert!(rt; asks(first, "hdmi") && asks(second, "usb"));
    Ok(())
}
