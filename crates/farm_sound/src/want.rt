//! What the types of a row's words prove of them, and the names that it gives of other rows.
ghost use Rattle.std.specs.Prelude.{◌≡◌, ◌↔◌, IsTrue, IsSome, IfSome, IsSomeAnd, Some};
ghost use Rattle.farm_types.specs.Words.{IsName};
ghost use Rattle.farm_types.specs.Farm.{farm_of, type_of};
ghost use Rattle.farm_types.specs.Proper.{is_want};
ghost use Rattle.farm_types.specs.Sound.{IsBoardOf};
ghost use Rattle.farm_sound.specs.ByRows.{IsShown};

use crate::ordered::OrderedRows;
use farm_types::{BoardRow, Holder, Name, State, Want};

/// A want names a type, if it names one, and tags.
pub(crate) fn prove_want(want: &Want)
    ensures { IsTrue (is_want want.now) }
{
    let _tags = want.tags.items();
    prove_role(&want.kind);
}

/// A role, if there is one, is a name.
pub(crate) fn prove_role(role: &Option<Name>)
    ensures { IfSome role.now IsName }
{
    let _name = role.as_ref().map(|name| name.as_str());
}

/// Whether a type is named that is there.
pub fn names_type(ordered: &OrderedRows<'_>, kind: &Option<Name>) -> bool
    ensures { IsTrue result
        ↔ IsSomeAnd kind.now (λ kind. IsSome (type_of (farm_of ordered.now) kind)) }
{
    match kind {
        Some(kind) => ordered.type_of(kind).is_some(),
        None => false,
    }
}

/// Whether the board that is named, if one is, is there.
pub fn names_board(ordered: &OrderedRows<'_>, board: &Option<Name>) -> bool
    ensures { IsTrue result ↔ IsBoardOf (farm_of ordered.now) board.now }
{
    match board {
        Some(name) => ordered.board_of(name).is_some(),
        None => true,
    }
}

/// Whether a board is named, and has this name.
pub fn is_named(board: &Option<Name>, name: &Name) -> bool
    ensures { IsTrue result ↔ (board.now ≡ Some name.now) }
{
    board.as_ref().is_some_and(|board| board.is(name))
}

/// Whether the board that a row holds, where its state gives it one, says so.
pub fn is_shown(
    ordered: &OrderedRows<'_>,
    given: Option<State>,
    board: &Option<Name>,
    holder: Holder,
) -> bool
    ensures { IsTrue result
        ↔ IfSome given (λ _. IsShown (farm_of ordered.now) board.now holder) }
{
    let is_holder = |board: &BoardRow| board.holder == holder;
    match (given, board) {
        (None, _) => true,
        (Some(_), None) => false,
        (Some(_), Some(name)) => ordered.board_of(name).is_some_and(is_holder),
    }
}
