//! Laws over the tables.
ghost use Rattle.std.specs.Prelude.{◌≡◌, ◌≢◌, ℕ};
ghost use Rattle.sqlite.specs.Effect.{Database};
ghost use Rattle.sqlite.specs.Held.{state};
ghost use Rattle.sqlite.specs.State.{IsLive, Opens};
ghost use Rattle.farm_types.specs.Farm.{Farm};
ghost use Rattle.farm_store.specs.Columns.{IsOfSchema, TableRows, first_rows_of, first_schema};
ghost use Rattle.farm_store.specs.Columns.{rows_of, second_schema};
ghost use Rattle.farm_store.specs.Holds.{Holds, ShowsTablesWith, Stands};
ghost use Rattle.farm_store.specs.Readable.{IsReadable, IsReadableFirst};
ghost use Rattle.farm_store.specs.Schema.{HasSixTables, TableColumns, schema_with};
ghost use Rattle.farm_store.specs.Versions.{MayHaveVersion, HasVersion};
ghost use Rattle.farm_types.specs.Sound.{IsSound};

use crate::schema::{FIRST_SCHEMA, SCHEMA};
use sqlite::{Alter, Connection};

/// The versions of the tables that the code writes and tests are those of the definitions.
pub fn schemas_agree()
    ensures first { FIRST_SCHEMA ≡ first_schema }
    ensures second { SCHEMA ≡ second_schema }
{}

/// Where a farm's six tables stand, whatever their columns, the version in `meta` is the one in its
/// rows.
pub fn versions_agree()
    ensures may { (columns : TableColumns) (db : Database) (T : TableRows)
        → ShowsTablesWith columns db T → (version : ℕ) → MayHaveVersion version db
        → IsOfSchema version T }
    ensures has { (columns : TableColumns) (db : Database) (T : TableRows)
        → ShowsTablesWith columns db T → (version : ℕ) → IsOfSchema version T
        → HasVersion version db }
{}

/// A farm's schema, whatever its columns, has the six tables that `rebuild` makes anew.
pub fn farm_has_six_tables()
    ensures { (columns : TableColumns) → HasSixTables (schema_with columns) }
{}

/// A connection that was just opened on the farm's tables stands for them: they have the farm's
/// schema, nothing is uncommitted, and a stop now leaves them alone.
pub fn opened_stands<S: Alter>(conn: &Connection<S>)
    ensures { Opens (state S.Store conn.now) → IsLive (state S.Store conn.now) → (T : TableRows)
        → Holds (state S.Store conn.now).committed.trees T
        → Stands (state S.Store conn.now) T }
{
    let _ = conn.is_autocommit();
}

/// Farms whose words are words have the same tables only where they are the same farm.
#[tactic(auto, using(crate::proofs::OneFarm::one_farm))]
pub fn tables_lose_nothing()
    ensures { (F G : Farm) → IsReadable F → IsReadable G → rows_of F ≡ rows_of G → F ≡ G }
{}

/// The same of tables of the first edition, for farms that it knew.
pub fn first_tables_lose_nothing()
    ensures { (F G : Farm) → IsReadableFirst F → IsReadableFirst G
        → first_rows_of F ≡ first_rows_of G → F ≡ G }
{}

/// No farm's tables of this edition are a farm's of the first one.
#[tactic(auto, using(crate::proofs::EditionLemmas::editions_apart))]
pub fn editions_are_apart()
    ensures { (F G : Farm) → rows_of F ≢ first_rows_of G }
{}

/// The words of a sound farm are words, so its tables can be read.
#[tactic(auto, using(crate::proofs::SoundReadable::sound_is_readable))]
pub fn sound_is_readable()
    ensures { (F : Farm) → IsSound F → IsReadable F }
{}
