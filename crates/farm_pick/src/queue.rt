//! The queue: the claims that wait, in the order in which they are taken.
ghost use Rattle.std.specs.Prelude.{◌≡◌, ◌++◌, ◌==◌, ◌≤◌, length, take, filter, map, IfOk, OnOk};
ghost use Rattle.std.specs.List.{list_all};
ghost use Rattle.std.specs.Ordering.{is_lt};
ghost use Rattle.farm_types.specs.Farm.{Farm};
ghost use Rattle.farm_types.specs.Sound.{IsSteady};
ghost use Rattle.farm_types.specs.Pick.{is_waiting, queue, shown_claim, shown_cmp, waits};
ghost use Rattle.farm_pick.specs.Queue.{leads, most_mates, shown_group, shown_reservation};
ghost use Rattle.farm_pick.specs.Queue.{shown_groups};

use farm_types::{Claim, ClaimKind, JobRow, JobState, MOST_WANTS, ResRow, ResState};
use std::alloc::{AllocError, Global};
use std::cmp::Ordering;

/// How many rows behind the first member of a group may be members of it.
const MOST_MATES: usize = MOST_WANTS - 1;

fn is_waiting(reservation: &ResRow) -> bool
    ensures { result ≡ is_waiting reservation.now }
{
    reservation.state == ResState::Waiting
}

fn shown_reservation(reservation: &ResRow) -> Claim
    ensures { result ≡ shown_reservation reservation.now }
{
    Claim {
        kind: ClaimKind::Reservation,
        number: reservation.number,
        owner: reservation.owner.copy(),
        priority: reservation.priority,
        boards: 1,
    }
}

/// Adds a claim for each waiting reservation.
fn add_reservations(claims: &mut Vec<Claim>, reservations: &[ResRow]) -> Result<(), AllocError>
    ensures { OnOk result (claims.new.items
        ≡ claims.old.items ++ map shown_reservation (filter is_waiting reservations.now)) }
{
    for reservation in reservations {
        if is_waiting(reservation) {
            claims.push(shown_reservation(reservation))?;
        }
    }
    Ok(())
}

/// A Submitted job waits for boards, and so does a Scheduling one: its board can be taken back.
fn waits(job: &JobRow) -> bool
    ensures { result ≡ waits job.now }
{
    matches!(job.state, JobState::Submitted | JobState::Scheduling)
}

/// The rows that may be members of a group whose first one stands before them.
fn nearby(behind: &[JobRow]) -> &[JobRow]
    ensures near { result.now ≡ take most_mates behind.now }
    ensures few { length result.now ≤ most_mates }
{
    &behind[..behind.len().min(MOST_MATES)]
}

/// Whether the job is the first of a group whose members all wait for boards. The rows near it are
/// looked at only where it waits itself.
fn leads(job: &JobRow, near: &[JobRow]) -> bool
    ensures { result ≡ leads job.now near.now }
{
    job.number == job.group && waits(job) && all_wait(job.group, near)
}

/// Whether all members of the group among these rows wait for boards.
fn all_wait(group: u64, near: &[JobRow]) -> bool
    ensures { result ≡ list_all waits (filter (λ m. m.group == group) near.now) }
{
    near.iter().filter(|job| job.group == group).all(waits)
}

fn count_mates(group: u64, near: &[JobRow]) -> u64
    requires { length near.now ≤ most_mates }
    ensures count { result ≡ length (filter (λ m. m.group == group) near.now) }
    ensures few { result ≤ most_mates }
{
    near.iter().filter(|job| job.group == group).count() as u64
}

fn shown_group(job: &JobRow, near: &[JobRow]) -> Claim
    requires { length near.now ≤ most_mates }
    ensures { result ≡ shown_group job.now near.now }
{
    Claim {
        kind: ClaimKind::Group,
        number: job.group,
        owner: job.owner.copy(),
        priority: job.priority,
        boards: 1 + count_mates(job.group, near),
    }
}

/// Adds a claim for each group whose members all wait for boards.
fn add_groups(claims: &mut Vec<Claim>, jobs: &[JobRow]) -> Result<(), AllocError>
    ensures { OnOk result (claims.new.items ≡ claims.old.items ++ shown_groups jobs.now) }
{
    let mut rest = jobs;
    while let Some((job, behind)) = rest.split_first() {
        let near = nearby(behind);
        if leads(job, near) {
            claims.push(shown_group(job, near))?;
        }
        rest = behind;
    }
    Ok(())
}

/// The claims that wait, in the order of the queue: a waiting reservation, or a group whose members
/// all wait for boards, the one that collects included. As in LAVA the higher priority goes first,
/// and of equal ones the earlier job; jobs and reservations share their numbers, so no two claims
/// tie.
///
/// The rows are those of a sound farm. Each claim has a copy of its owner's name, and `boards` is
/// the number of its wants. With J jobs, R reservations and C claims it costs O(J + R + C log C):
/// members of a group stand side by side in order of number, so only three rows behind a first
/// member are looked at, and the claims are sorted once, in their place.
pub fn queue_of(
    alloc: Global,
    jobs: &[JobRow],
    reservations: &[ResRow],
) -> Result<Vec<Claim>, AllocError>
    ensures { IfOk result (λ claims. (F : Farm) → IsSteady F
        → F.jobs ≡ jobs.now → F.reservations ≡ reservations.now
        → claims.items ≡ map shown_claim (queue F)) }
{
    let mut claims = Vec::new(alloc);
    add_reservations(&mut claims, reservations)?;
    add_groups(&mut claims, jobs)?;
    claims.sort_unstable_by(queue_order);
    Ok(claims)
}

/// Compares the places of two claims in the queue: as in LAVA the higher priority goes first, and
/// of equal ones the smaller number, which was asked for earlier.
pub fn queue_order(first: &Claim, second: &Claim) -> Ordering
    ensures { result ≡ shown_cmp first.now second.now }
{
    let by_priority = second.priority.get().cmp(&first.priority.get());
    by_priority.then(first.number.cmp(&second.number))
}

/// Whether `first` is served before `second`.
pub fn before(first: &Claim, second: &Claim) -> bool
    ensures { result ≡ is_lt (shown_cmp first.now second.now) }
{
    queue_order(first, second).is_lt()
}
