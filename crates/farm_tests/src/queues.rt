//! Queues over jobs as no farm has them, and without memory.
use crate::rows::job;
use farm_pick::queue_of;
use farm_types::{ClaimKind, JobRow, JobState, Priority};
use std::alloc::Global;
use std::test::Fail;

/// Jobs of priority 50, by number, group and state.
fn jobs(alloc: Global, rows: &[(u64, u64, JobState)]) -> Result<Vec<JobRow>, Fail> {
    let medium = Priority::of(50)?;
    let mut jobs = Vec::new(alloc);
    for (number, group, state) in rows {
        jobs.push(job(alloc, *number, *group, medium, *state)?)?;
    }
    Ok(jobs)
}

const GROUPS: &[(u64, u64, JobState)] = &[
    (1, 1, JobState::Submitted),
    (2, 1, JobState::Submitted),
    (4, 4, JobState::Submitted),
];

/// A group of which one member waits no more isn't in the queue; one that collects is.
const HALVES: &[(u64, u64, JobState)] = &[
    (1, 1, JobState::Submitted),
    (2, 1, JobState::Scheduled),
    (3, 3, JobState::Scheduling),
    (4, 3, JobState::Submitted),
    (5, 5, JobState::Running),
];

#[test]
fn a_group_waits_whole(rt: HostRuntime) -> Result<(), Fail> {
    let jobs = jobs(rt.alloc(), HALVES)?;
    let claims = queue_of(rt.alloc(), jobs.as_slice(), &[])?;
    assert_eq!(rt; claims.len(), 1);
    for claim in claims.iter() {
        assert_eq!(rt; (claim.number, claim.boards), (3, 2));
        assert_eq!(rt; claim.owner.as_str(), "ann");
        assert!(rt; claim.kind == ClaimKind::Group);
    }
    Ok(())
}

/// Where memory is refused there is no queue, and never a shorter one.
#[test]
fn refused_memory(rt: HostRuntime) -> Result<(), Fail> {
    let jobs = jobs(rt.alloc(), GROUPS)?;
    if let Ok(claims) = queue_of(rt.alloc(), jobs.as_slice(), &[]) {
        assert_eq!(rt; claims.len(), 2);
    }
    Ok(())
}
