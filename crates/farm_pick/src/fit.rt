//! The tests of one board, and the boards that pass them.
ghost use Rattle.std.specs.Prelude.{◌≡◌, true, bytes_eq, filter};
ghost use Rattle.std.specs.Iterator.{YieldsFirstRef, item_count};
ghost use Rattle.std.specs.List.{list_all, list_any, find};
ghost use Rattle.std.specs.Option.{option_map_or, option_copied};
ghost use Rattle.farm_types.specs.Words.{name_tag};
ghost use Rattle.farm_types.specs.Pick.{fits, check_of, serves, is_free};
ghost use Rattle.farm_pick.specs.Choice.{carries, passes, is_candidate};

use farm_types::{BoardRow, Check, Health, Holder, Name, Tag, TypeRow, Want};
use std::marker::Model;

/// Which boards may be picked.
#[derive(Clone, Copy, PartialEq, Eq)]
pub enum Free {
    /// Those that serve and that nobody holds.
    ServingIdle,
    /// Those that are not Retired, whoever holds them.
    NotRetired,
}

fn is_of_kind(board: &BoardRow, kind: &Option<Name>) -> bool
    ensures { result ≡ option_map_or (λ k. bytes_eq board.now.kind k) kind.now true }
{
    kind.as_ref().is_none_or(|kind| board.kind.is(kind))
}

/// Whether the text is the tag that a board of this name carries for it: `name=` and the name.
fn is_name_tag(text: &str, name: &str) -> bool
    ensures { result ≡ bytes_eq text.now (name_tag name.now) }
{
    text.strip_prefix("name=").is_some_and(|rest| rest == name)
}

fn is_among(tags: &[Tag], wanted: &str) -> bool
    ensures { result ≡ list_any (bytes_eq wanted.now) tags.now }
{
    tags.iter().any(|own| wanted == own.as_str())
}

fn carries(board: &BoardRow, tag: &Tag) -> bool
    ensures { result ≡ carries board.now tag.now }
{
    is_among(board.tags.items(), tag.as_str()) || is_name_tag(tag.as_str(), board.name.as_str())
}

/// Whether the board has each of the tags, or carries it for its name. At most 16 * 16 comparisons
/// of short texts.
pub fn carries_all(board: &BoardRow, tags: &[Tag]) -> bool
    ensures { result ≡ list_all (carries board.now) tags.now }
{
    tags.iter().all(|tag| carries(board, tag))
}

/// Whether the board is of the type that the want names, if it names one, and has each of its tags.
pub fn fits(board: &BoardRow, want: &Want) -> bool
    ensures { result ≡ fits board.now want.now }
{
    is_of_kind(board, &want.kind) && carries_all(board, want.tags.items())
}

fn row_of<'a>(types: &'a [TypeRow], kind: &Name) -> Option<&'a TypeRow>
    ensures { option_copied result ≡ find (λ t. bytes_eq t.name kind.now) types.now }
{
    types.iter().find(|row| row.name.is(kind))
}

/// How often boards of a type are checked: never, where there is no such type.
fn check_of(types: &[TypeRow], kind: &Name) -> Check
    ensures { result ≡ check_of types.now kind.now }
{
    row_of(types, kind).map_or(Check::Never, |row| row.check)
}

/// Whether the board is Good, or Unknown and of a type that isn't checked. Only an Unknown board
/// costs a look at the types, of which a farm has 64 at most.
fn serves(types: &[TypeRow], board: &BoardRow) -> bool
    ensures { result ≡ serves types.now board.now }
{
    match board.health {
        Health::Good => true,
        Health::Unknown => check_of(types, &board.kind) == Check::Never,
        Health::Bad | Health::Maintenance | Health::Retired => false,
    }
}

/// Whether a claim may be given the board: it serves, and nobody holds it.
pub fn is_free(types: &[TypeRow], board: &BoardRow) -> bool
    ensures { result ≡ is_free types.now board.now }
{
    board.holder == Holder::Nobody && serves(types, board)
}

/// Whether the board passes the test.
fn passes(types: &[TypeRow], free: Free, board: &BoardRow) -> bool
    ensures { result ≡ passes types.now free board.now }
{
    match free {
        Free::ServingIdle => is_free(types, board),
        Free::NotRetired => board.health != Health::Retired,
    }
}

/// Whether the board may be given for the want. The test that takes no look at tags comes first;
/// the tags cost at most 16 * 16 comparisons of short texts.
pub fn is_candidate(types: &[TypeRow], want: &Want, free: Free, board: &BoardRow) -> bool
    ensures { result ≡ is_candidate (passes types.now free) want.now board.now }
{
    passes(types, free, board) && fits(board, want)
}

/// Lends the boards that fit a want and pass a test, in the order of the list, each once.
/// Contracts see the list of those that are left. To lend all of them costs one test a board.
#[derive(Drop)]
pub struct Candidates<'a> {
    boards: &'a [BoardRow],
    types: &'a [TypeRow],
    want: &'a Want,
    free: Free,
}

impl<'a> Model for Candidates<'a> {
    ghost use Rattle.std.specs.Prelude.{List, filter};
    ghost use Rattle.farm_types.specs.declared.rows.BoardRow.{BoardRow};
    ghost use Rattle.farm_pick.specs.Choice.{passes, is_candidate};

    ghost Value = { List BoardRow };

    ghost view = { λ c. filter (is_candidate (passes c.types.now c.free) c.want.now) c.boards.now };
}

impl<'a> Candidates<'a> {
    /// The candidates among some boards: in name order, if the boards are.
    pub fn new(
        boards: &'a [BoardRow],
        types: &'a [TypeRow],
        want: &'a Want,
        free: Free,
    ) -> Candidates<'a>
        ensures { result ≡ filter (is_candidate (passes types.now free) want.now) boards.now }
    {
        Candidates {
            boards,
            types,
            want,
            free,
        }
    }
}

impl<'a> Iterator for Candidates<'a> {
    type Item = &'a BoardRow;

    ghost next_gives = { YieldsFirstRef (λ s. s) };

    ghost remaining = { item_count (λ s. s) };

    fn next(&mut self) -> Option<&'a BoardRow> {
        while let Some((first, others)) = self.boards.split_first() {
            self.boards = others;
            if is_candidate(self.types, self.want, self.free, first) {
                return Some(first);
            }
        }
        None
    }
}
