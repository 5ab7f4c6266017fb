//! The reports of the queue, the boards and the reservations.
ghost use Rattle.std.specs.Prelude.{◌≡◌, ◌<◌, ◌∷◌, [], Err, IfOk, false, map, true, string_bytes, unwrap_or};
ghost use Rattle.farm_types.specs.Pick.{queue, shown_claim};
ghost use Rattle.farm_report.specs.Lines.{claim_line, claims_text};
ghost use Rattle.farm_report.specs.Lines.{AreLines, IsBoardLine, IsReservationLine};
ghost use Rattle.farm_report.specs.Moments.{last_second};
ghost use Rattle.farm_report.specs.declared.fault.ReportFault.TheVariants.{BadMoment};

use crate::columns::{left, push_line, right};
use crate::fault::ReportFault;
use crate::moment::{check_text, moment_text};
use farm_core::Farm;
use farm_types::{BoardRow, Claim, ResRow};
use jiff::tz::Offset;
use std::alloc::{AllocError, Global};

/// The farm's queue, in the order in which its claims are served. What a failed farm shows is open.
pub fn queue_text(alloc: Global, farm: &Farm) -> Result<String, AllocError>
    ensures { IfOk result (λ text. farm.now.failed ≡ false
        → string_bytes text ≡ claims_text (map shown_claim (queue farm.now.farm))) }
{
    claims_text(alloc, &farm.queue()?)
}

/// The claims in the order given, each on its line: priority, number, kind, number of wants and
/// owner. It costs one pass over them.
pub fn claims_text(alloc: Global, claims: &[Claim]) -> Result<String, AllocError>
    ensures { IfOk result (λ text. string_bytes text ≡ claims_text claims.now) }
{
    let mut text = String::new(alloc);
    for claim in claims {
        let line = claim_line(alloc, claim)?;
        push_line(&mut text, line.as_str())?;
    }
    Ok(text)
}

fn claim_line(alloc: Global, claim: &Claim) -> Result<String, AllocError>
    ensures { IfOk result (λ line. string_bytes line ≡ claim_line claim.now) }
{
    let priority = right(alloc, claim.priority.get(), 3)?;
    let number = right(alloc, claim.number, 9)?;
    let kind = left(alloc, claim.kind.word(), 11)?;
    let boards = claim.boards;
    let owner = claim.owner.as_str();
    format!(in alloc; "{priority} {number} {kind} {boards} {owner}")
}

/// The boards in name order, each on its line: health, state, holder, last check, name and type.
/// It costs one pass over them.
pub fn boards_text(alloc: Global, farm: &Farm, zone: Offset) -> Result<String, ReportFault>
    ensures lines { IfOk result (λ text.
        AreLines (IsBoardLine zone.seconds) farm.now.farm.boards (string_bytes text)) }
    ensures fault { result ≡ Err BadMoment → farm.now.failed ≡ true }
{
    // A farm that has not failed is sound, so its last checks lie in the calendar.
    let _failed = farm.is_failed();
    let mut text = String::new(alloc);
    for row in farm.boards() {
        let line = board_line(alloc, row, zone)?;
        push_line(&mut text, line.as_str())?;
    }
    Ok(text)
}

fn board_line(alloc: Global, row: &BoardRow, zone: Offset) -> Result<String, ReportFault>
    ensures line { IfOk result (λ line. IsBoardLine zone.seconds row.now (string_bytes line)) }
    ensures fault { result ≡ Err BadMoment → last_second < row.now.last_check }
{
    let health = left(alloc, row.health.word(), 11)?;
    let state = left(alloc, row.state.word(), 8)?;
    let holder = left(alloc, row.holder.text(alloc)?.as_str(), 21)?;
    let check = left(alloc, check_text(alloc, row.last_check, zone)?.as_str(), 19)?;
    let (name, kind) = (row.name.as_str(), row.kind.as_str());
    Ok(format!(in alloc; "{health} {state} {holder} {check} {name} {kind}")?)
}

/// The reservations in order of number, each on its line: number, state, priority, deadline, board
/// or `-`, and owner. It costs one pass over them.
pub fn reservations_text(alloc: Global, farm: &Farm, zone: Offset) -> Result<String, ReportFault>
    ensures lines { IfOk result (λ text.
        AreLines (IsReservationLine zone.seconds) farm.now.farm.reservations (string_bytes text)) }
    ensures fault { result ≡ Err BadMoment → farm.now.failed ≡ true }
{
    // A farm that has not failed is sound, so its deadlines lie in the calendar.
    let _failed = farm.is_failed();
    let mut text = String::new(alloc);
    for row in farm.reservations() {
        let line = reservation_line(alloc, row, zone)?;
        push_line(&mut text, line.as_str())?;
    }
    Ok(text)
}

fn reservation_line(alloc: Global, row: &ResRow, zone: Offset) -> Result<String, ReportFault>
    ensures line { IfOk result (λ line. IsReservationLine zone.seconds row.now
        (string_bytes line)) }
    ensures fault { result ≡ Err BadMoment → last_second < row.now.deadline }
{
    let number = right(alloc, row.number, 9)?;
    let state = left(alloc, row.state.word(), 9)?;
    let priority = right(alloc, row.priority.get(), 3)?;
    let deadline = moment_text(alloc, row.deadline, zone)?;
    let board = board_name(row);
    let owner = row.owner.as_str();
    Ok(format!(in alloc; "{number} {state} {priority} {deadline} {board} {owner}")?)
}

/// The board's name, or `-`.
fn board_name(row: &ResRow) -> &str
    ensures { result.now ≡ unwrap_or row.now.board (45 ∷ []) }
{
    match &row.board {
        Some(name) => name.as_str(),
        None => "-",
    }
}
