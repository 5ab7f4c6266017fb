//! The commands on types and boards.
ghost use Rattle.std.specs.Prelude.{◌≡◌, IsTrue, OnOk, ◌&&◌, Some, length};
ghost use Rattle.std.specs.List.{filter};
ghost use Rattle.std.specs.Str.{bytes_eq};
ghost use Rattle.farm_types.specs.Farm.{put_type, put_board};
ghost use Rattle.farm_types.specs.Proper.{is_frequency};
ghost use Rattle.farm_types.specs.Refuse.{first_code, add_type_reasons};
ghost use Rattle.farm_types.specs.Refuse.{add_board_reasons, set_tags_reasons, set_health_reasons};
ghost use Rattle.farm_types.specs.Pass.{with_board};
ghost use Rattle.farm_types.specs.Change.{new_board};
ghost use Rattle.farm_core.specs.Came.{CameTo, seen, seen_at};
ghost use Rattle.farm_core.specs.Plain.{plain_farm};

use crate::tables::Tables;
use farm_types::{
    BOARD_EXISTS, BoardRow, Check, HELD, Health, Holder, NO_BOARD, NO_TYPE, Name, RETIRED,
    TYPE_EXISTS, Tags, TypeRow,
};
use std::alloc::AllocError;

impl Tables {
    /// Why a type of that name isn't added.
    pub fn refuse_add_type(&self, name: &Name) -> Option<u16>
        ensures { result ≡ first_code (add_type_reasons (plain_farm self.now) name.now) }
    {
        self.find_type(name).is_some().then_some(TYPE_EXISTS)
    }

    /// Adds a type.
    pub fn add_type(&mut self, name: &Name, check: Check) -> Result<(), AllocError>
        requires { IsTrue (is_frequency check) }
        ensures { OnOk result (CameTo self.old (seen_at (put_type (plain_farm self.old)
            (record { name = name.now; check = check })) (seen self.old)) self.new) }
    {
        let name = name.copy();
        self.types.put(TypeRow { name, check })
    }

    /// How many boards are of a type.
    pub fn count_kind(&self, kind: &Name) -> usize
        ensures { result ≡ length (filter (λ b. bytes_eq b.kind kind.now) (plain_farm self.now).boards) }
    {
        let boards = self.boards.rows();
        boards.iter().filter(|row| row.kind.is(kind)).count()
    }

    /// Why a board of that name and type isn't added.
    pub fn refuse_add_board(&self, name: &Name, kind: &Name) -> Option<u16>
        ensures { result ≡ first_code (add_board_reasons (plain_farm self.now) name.now kind.now) }
    {
        if self.find_type(kind).is_none() {
            return Some(NO_TYPE);
        }
        self.boards.find(name).is_some().then_some(BOARD_EXISTS)
    }

    /// Why a board's tags aren't set.
    pub fn refuse_set_tags(&self, name: &Name) -> Option<u16>
        ensures { result ≡ first_code (set_tags_reasons (plain_farm self.now) name.now) }
    {
        match self.boards.find(name) {
            None => Some(NO_BOARD),
            Some(row) if matches!(row.health, Health::Retired) => Some(RETIRED),
            Some(_) => None,
        }
    }

    /// Why a board's health isn't set.
    pub fn refuse_set_health(&self, name: &Name, health: Health) -> Option<u16>
        ensures { result ≡ first_code (set_health_reasons (plain_farm self.now) name.now health) }
    {
        match self.boards.find(name) {
            None => Some(NO_BOARD),
            Some(row) if matches!(row.health, Health::Retired) => Some(RETIRED),
            Some(row) if health == Health::Retired && row.holder != Holder::Nobody => Some(HELD),
            Some(_) => None,
        }
    }

    /// Adds a board, in Maintenance and in nobody's hands.
    pub fn add_board(&mut self, name: &Name, kind: &Name, tags: &Tags) -> Result<(), AllocError>
        ensures { OnOk result (CameTo self.old (seen_at (put_board (plain_farm self.old)
            (new_board name.now kind.now tags.now)) (seen self.old)) self.new) }
    {
        let row = BoardRow::new(name.copy(), kind.copy(), tags.copy()?);
        self.boards.put(row)
    }

    /// Sets a board's tags.
    pub fn set_tags(&mut self, name: &Name, tags: &Tags) -> Result<(), AllocError>
        ensures { OnOk result (CameTo self.old (seen_at (with_board (λ b. record b { tags = tags.now })
            (plain_farm self.old) (Some name.now)) (seen self.old)) self.new) }
    {
        if let Some(board) = self.boards.find(name) {
            let mut row = board.copy()?;
            row.tags = tags.copy()?;
            self.boards.put(row)?;
        }
        Ok(())
    }

    /// Sets a board's health.
    pub fn set_health(&mut self, name: &Name, health: Health) -> Result<(), AllocError>
        ensures { OnOk result (CameTo self.old (seen_at (with_board (λ b. record b { health = health })
            (plain_farm self.old) (Some name.now)) (seen self.old)) self.new) }
    {
        if let Some(board) = self.boards.find(name) {
            let mut row = board.copy()?;
            row.health = health;
            self.boards.put(row)?;
        }
        Ok(())
    }
}
