//! What a least list and a queue are made of: the boards that fit a want, the list of wants that
//! are lent, and which claim goes first.
use crate::rows::{board, name, want};
use farm_pick::{Candidates, Free, before, least_of};
use farm_types::{BoardRow, Claim, ClaimKind, Priority, Want, WordFault, is_sorted};
use std::alloc::Global;
use std::test::Fail;

fn two_boards(alloc: Global) -> Result<Vec<BoardRow>, WordFault> {
    let mut boards = Vec::new(alloc);
    for called in ["b1", "b2"] {
        boards.push(board(alloc, called, "")?)?;
    }
    Ok(boards)
}

/// A want of the second board, of whatever type.
fn want_by_name(alloc: Global) -> Result<Want, WordFault> {
    let mut asked = want(alloc, "name=b2")?;
    asked.kind = None;
    Ok(asked)
}

#[test]
fn lends_what_fits(rt: HostRuntime) -> Result<(), Fail> {
    let boards = two_boards(rt.alloc())?;
    let asked = want_by_name(rt.alloc())?;
    let mut lent = Candidates::new(boards.as_slice(), &[], &asked, Free::ServingIdle);
    assert_eq!(rt; lent.next().ok_or("no board")?.name.as_str(), "b2");
    assert!(rt; lent.next().is_none());
    Ok(())
}

/// The place that one want is given, where the boards stand in name order.
fn place_of(boards: &[BoardRow], asked: &Want) -> Option<usize> {
    if !is_sorted(boards) {
        return None;
    }
    match least_of(boards, &[], &[asked], Free::ServingIdle)?.places() {
        [place] => Some(*place),
        _ => None,
    }
}

#[test]
fn least_of_lent_wants(rt: HostRuntime) -> Result<(), Fail> {
    let boards = two_boards(rt.alloc())?;
    let asked = want_by_name(rt.alloc())?;
    assert_eq!(rt; place_of(boards.as_slice(), &asked), Some(1));
    Ok(())
}

fn claim(alloc: Global, number: u64, priority: u64) -> Result<Claim, Fail> {
    let owner = name("ann")?;
    let priority = Priority::of(priority)?;
    Ok(Claim {
        kind: ClaimKind::Group,
        number,
        owner,
        priority,
        boards: 1,
    })
}

#[test]
fn orders_claims(rt: HostRuntime) -> Result<(), Fail> {
    let urgent = claim(rt.alloc(), 9, 100)?;
    let early = claim(rt.alloc(), 1, 50)?;
    let late = claim(rt.alloc(), 2, 50)?;
    assert!(rt; before(&urgent, &early) && !before(&early, &urgent));
    assert!(rt; before(&early, &late) && !before(&late, &early));
    assert!(rt; !before(&early, &early));
    Ok(())
}
