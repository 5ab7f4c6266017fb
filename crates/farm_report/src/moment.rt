//! Moments as text.
ghost use Rattle.std.specs.Prelude.{◌≡◌, ◌↔◌, ◌<◌, ◌*ℤ◌, neg_ℤ, pos, Err, IfOk, IfSome, IsSome};
ghost use Rattle.std.specs.Prelude.{string_bytes};
ghost use Rattle.jiff.specs.Words.{IsBetween};
ghost use Rattle.farm_report.specs.Moments.{ShowsCheck, ShowsMoment, last_second, most_minutes};
ghost use Rattle.farm_report.specs.declared.fault.ReportFault.TheVariants.{BadMoment};

use crate::fault::ReportFault;
use jiff::Timestamp;
use jiff::tz::Offset;
use std::alloc::Global;

/// How far a report's clock may be from UTC, in minutes.
pub const MOST_MINUTES: u64 = 840;

/// The last second that the calendar has at every offset, shortly before the year 10000.
pub const LAST_SECOND: u64 = 253_402_207_200;

/// The offset that is so many minutes east of UTC, or west of it where the number is negative; it
/// is at most `MOST_MINUTES` either side.
pub fn zone_of(minutes: i64) -> Option<Offset>
    ensures taken { IsSome result ↔ IsBetween (neg_ℤ (pos most_minutes)) (pos most_minutes) minutes }
    ensures value { IfSome result (λ zone. zone.seconds ≡ minutes *ℤ pos 60) }
{
    let most = MOST_MINUTES as i64;
    if minutes < -most || minutes > most {
        return None;
    }
    Offset::from_seconds(minutes as i32 * 60).ok()
}

/// The civil date and time of a moment at an offset, as `2023-11-14 22:13:20`.
pub(crate) fn moment_text(alloc: Global, moment: u64, zone: Offset) -> Result<String, ReportFault>
    ensures text { IfOk result (λ text. ShowsMoment zone.seconds moment (string_bytes text)) }
    ensures fault { result ≡ Err BadMoment → last_second < moment }
{
    if moment > LAST_SECOND {
        return Err(ReportFault::BadMoment);
    }
    let instant = Timestamp::from_second(moment as i64).unwrap();
    let civil = zone.to_datetime(instant);
    let (date, time) = (civil.date(), civil.time());
    Ok(format!(in alloc; "{date} {time}")?)
}

/// The moment of a board's last check, or `never`.
pub(crate) fn check_text(alloc: Global, moment: u64, zone: Offset) -> Result<String, ReportFault>
    ensures text { IfOk result (λ text. ShowsCheck zone.seconds moment (string_bytes text)) }
    ensures fault { result ≡ Err BadMoment → last_second < moment }
{
    if moment == 0 {
        return Ok(String::from_str(alloc, "never")?);
    }
    moment_text(alloc, moment, zone)
}
