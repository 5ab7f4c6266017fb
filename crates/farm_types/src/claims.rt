//! What a farm shows of its queue and of itself.
use crate::words::{Name, Priority};

/// Who waits in the queue.
#[derive(Clone, Copy, Debug, PartialEq, Eq)]
pub enum ClaimKind {
    Group,
    Reservation,
}

/// A claim that waits for boards: a waiting reservation, or a group whose members are all
/// Submitted or Scheduling.
#[derive(Debug, Drop)]
pub struct Claim {
    /// Which of the two it is.
    pub kind: ClaimKind,
    /// The number of the group or of the reservation.
    pub number: u64,
    /// Who asked for the boards.
    pub owner: Name,
    /// Its priority: the higher goes first.
    pub priority: Priority,
    /// How many boards it asks for: the number of its wants.
    pub boards: u64,
}

/// Numbers of rows, and the farm's four numbers.
#[derive(Clone, Copy, Debug, PartialEq, Eq)]
pub struct Status {
    /// How many boards there are.
    pub boards: u64,
    /// The latest moment of an accepted command, in seconds since 1970.
    pub clock: u64,
    /// The group that collects boards; 0 where none does.
    pub collector: u64,
    /// How many commands were accepted.
    pub count: u64,
    /// How many job rows there are, finished ones too.
    pub jobs: u64,
    /// The number of the next job or reservation.
    pub next: u64,
    /// How many reservation rows there are, ended ones too.
    pub reservations: u64,
    /// How many device types there are.
    pub types: u64,
}
