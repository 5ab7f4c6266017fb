//! What meets the premises of laws is built: no clause of farm_premises is true for want of it.
use farm_premises::{
    imports_can_be_met, lives_can_be_met, serving_can_be_met, stops_can_be_met, upgrades_can_be_met,
};
use std::test::Fail;

#[test]
fn premises_are_met(rt: HostRuntime) -> Result<(), Fail> {
    let alloc = rt.alloc();
    stops_can_be_met(alloc).ok_or("no stop")?;
    lives_can_be_met(alloc).ok_or("no life")?;
    upgrades_can_be_met(alloc).ok_or("no first edition")?;
    serving_can_be_met(alloc).ok_or("nobody served")?;
    imports_can_be_met(alloc).ok_or("no import")?;
    Ok(())
}
