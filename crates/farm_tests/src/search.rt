//! The least list beside a plain search through all lists of boards, on many small farms.
use crate::rows::{board, type_row, want};
use farm_pick::{Free, least};
use farm_types::{BoardRow, Check, Health, Holder, TypeRow, Want, Wants, WordFault, is_sorted};
use std::alloc::Global;
use std::test::Fail;

// ---- the plain search

fn has_tag(board: &BoardRow, wanted: &str) -> bool {
    for own in board.tags.items() {
        if own.as_str() == wanted {
            return true;
        }
    }
    wanted.strip_prefix("name=") == Some(board.name.as_str())
}

fn fits(board: &BoardRow, want: &Want) -> bool {
    for tag in want.tags.items() {
        if !has_tag(board, tag.as_str()) {
            return false;
        }
    }
    match &want.kind {
        Some(kind) => kind.as_str() == board.kind.as_str(),
        None => true,
    }
}

fn passes(board: &BoardRow, free: Free) -> bool {
    let unchecked = board.kind.as_str() == "aaa";
    let serves = match board.health {
        Health::Good => true,
        Health::Unknown => unchecked,
        _ => false,
    };
    match free {
        Free::ServingIdle => serves && board.holder == Holder::Nobody,
        Free::NotRetired => board.health != Health::Retired,
    }
}

fn meets(boards: &[BoardRow], wants: &[Want], free: Free, list: &[usize]) -> bool {
    for (want, place) in wants.iter().zip(list) {
        let Some(board) = boards.get(*place) else {
            return false;
        };
        if !fits(board, want) || !passes(board, free) {
            return false;
        }
    }
    for (i, place) in list.iter().enumerate() {
        if list[..i].contains(place) {
            return false;
        }
    }
    true
}

/// The four digits of a number to the base four: of rising numbers they rise as lists.
fn digits(number: usize) -> [usize; 4] {
    [number / 64 % 4, number / 16 % 4, number / 4 % 4, number % 4]
}

/// The first list of places below four that meets the wants. The wants are four at most.
fn plain_least(boards: &[BoardRow], wants: &[Want], free: Free) -> Option<[usize; 4]> {
    let skipped = 4usize.saturating_sub(wants.len());
    for number in 0..256 {
        let list = digits(number);
        let unused = list[..skipped].iter().all(|digit| *digit == 0);
        if unused && meets(boards, wants, free, &list[skipped..]) {
            return Some(list);
        }
    }
    None
}

// ---- made farms

/// Numbers that look thrown, the same in each run.
#[derive(Drop)]
struct Dice {
    state: u64,
}

impl Dice {
    /// A number below the number of sides, which is not 0.
    fn throw(&mut self, sides: u64) -> u64 {
        self.state = self
            .state
            .wrapping_mul(6_364_136_223_846_793_005)
            .wrapping_add(1_442_695_040_888_963_407);
        (self.state >> 33) % sides.max(1)
    }

    fn tags(&mut self) -> &'static str {
        match self.throw(4) {
            0 => "",
            1 => "x",
            2 => "y",
            _ => "x,y",
        }
    }

    fn wanted(&mut self) -> &'static str {
        match self.throw(8) {
            0 => "name=b1",
            1 => "name=b3,x",
            _ => self.tags(),
        }
    }

    fn health(&mut self) -> Health {
        match self.throw(12) {
            0 => Health::Bad,
            1 => Health::Maintenance,
            2 => Health::Retired,
            3 | 4 | 5 => Health::Unknown,
            _ => Health::Good,
        }
    }
}

fn made_board(alloc: Global, dice: &mut Dice, called: &str) -> Result<BoardRow, WordFault> {
    let mut row = board(alloc, called, dice.tags())?;
    row.health = dice.health();
    if dice.throw(4) == 0 {
        row.kind = type_row("aaa", Check::Never)?.name;
    }
    if dice.throw(6) == 0 {
        row.holder = Holder::Job(1);
    }
    Ok(row)
}

fn made_boards(alloc: Global, dice: &mut Dice) -> Result<Vec<BoardRow>, WordFault> {
    let mut rows = Vec::new(alloc);
    for called in ["b0", "b1", "b2", "b3"] {
        if dice.throw(8) != 0 {
            rows.push(made_board(alloc, dice, called)?)?;
        }
    }
    Ok(rows)
}

fn made_wants(alloc: Global, dice: &mut Dice) -> Result<Vec<Want>, WordFault> {
    let mut wants = Vec::new(alloc);
    for _ in 0..=dice.throw(4) {
        let mut asked = want(alloc, dice.wanted())?;
        if dice.throw(3) == 0 {
            asked.kind = None;
        }
        wants.push(asked)?;
    }
    Ok(wants)
}

/// Type `aaa` is never checked, type `bbb` each hour.
fn two_types(alloc: Global) -> Result<Vec<TypeRow>, WordFault> {
    let mut types = Vec::new(alloc);
    types.push(type_row("aaa", Check::Never)?)?;
    types.push(type_row("bbb", Check::Hours(1))?)?;
    Ok(types)
}

// ---- the comparison

/// Whether `least` gives what the plain search gives.
fn agree(boards: &[BoardRow], types: &[TypeRow], asked: &Wants, free: Free) -> bool {
    if !is_sorted(boards) {
        return false;
    }
    let skipped = 4usize.saturating_sub(asked.items().len());
    let plain = plain_least(boards, asked.items(), free);
    match (least(boards, types, asked, free), plain) {
        (None, None) => true,
        (Some(picked), Some(list)) => picked.places() == &list[skipped..],
        _ => false,
    }
}

#[test]
fn agrees_with_the_plain_search(rt: HostRuntime) -> Result<(), Fail> {
    let alloc = rt.alloc();
    let types = two_types(alloc)?;
    let mut dice = Dice { state: 1 };
    let mut met = 0u32;
    for round in 0..600 {
        let boards = made_boards(alloc, &mut dice)?;
        let asked = Wants::of(made_wants(alloc, &mut dice)?)?;
        for free in [Free::ServingIdle, Free::NotRetired] {
            let same = agree(boards.as_slice(), types.as_slice(), &asked, free);
            assert!(rt; same, "farm {round}");
        }
        if plain_least(boards.as_slice(), asked.items(), Free::NotRetired).is_some() {
            met = met.wrapping_add(1);
        }
    }
    assert!(rt; 100 < met && met < 500, "{met} farms meet their wants");
    Ok(())
}
