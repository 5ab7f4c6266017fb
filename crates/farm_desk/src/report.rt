//! The text of a report, by its kind and its time zone.
ghost use Rattle.std.specs.Prelude.{◌≡◌, ◌≢◌, false, Ok, Err, IfOk, string_bytes};
ghost use Rattle.farm_desk.specs.Orders.{Reports, seconds_ahead};

use farm_cli::Report;
use farm_core::Farm;
use farm_report::{MOST_MINUTES, Offset, ReportFault, boards_text, reservations_text, zone_of};
use std::alloc::{AllocError, Global};

/// The offset that lies so many minutes east of UTC, less so many west; each counts as
/// `MOST_MINUTES` where it is more.
pub(crate) fn zone_between(east: u64, west: u64) -> Offset
    ensures { result.seconds ≡ seconds_ahead east west }
{
    let minutes = east.min(MOST_MINUTES) as i64 - west.min(MOST_MINUTES) as i64;
    zone_of(minutes).unwrap()
}

/// The text of a report of a farm that works, with moments at an offset. Costs one pass over the
/// rows that it lists, and for the queue what serving it costs.
pub(crate) fn report_text(
    alloc: Global,
    farm: &Farm,
    which: Report,
    zone: Offset,
) -> Result<String, AllocError>
    requires { farm.now.failed ≡ false }
    ensures { IfOk result (λ text. Reports which zone.seconds farm.now.farm
        (string_bytes text)) }
{
    match which {
        Report::Queue => farm_report::queue_text(alloc, farm),
        Report::Boards => in_calendar(boards_text(alloc, farm, zone)),
        Report::Reservations => in_calendar(reservations_text(alloc, farm, zone)),
    }
}

/// A report whose moments are in the calendar lacks nothing but memory.
fn in_calendar(made: Result<String, ReportFault>) -> Result<String, AllocError>
    requires { made ≢ Err ReportFault.BadMoment }
    ensures { IfOk result (λ text. made ≡ Ok text) }
{
    match made {
        Ok(text) => Ok(text),
        Err(ReportFault::NoMemory) => Err(AllocError),
        Err(ReportFault::BadMoment) => unreachable!(),
    }
}
