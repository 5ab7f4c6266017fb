//! A store of the first edition, which no function of the program makes.
ghost use Rattle.std.specs.Prelude.{◌≡◌, [], ◌∷◌, false, IfSome, IsTrue, OnOk, pos};
ghost use Rattle.sqlite.specs.Held.{state};
ghost use Rattle.sqlite.specs.State.{HasCleanDisk};
ghost use Rattle.sqlite.specs.Steps.{over_memory};
ghost use Rattle.sqlite.specs.declared.types.Value.TheVariants.{Int, Text};
ghost use Rattle.sqlite_value.specs.Value.{owned};
ghost use Rattle.farm_types.specs.Farm.{empty_farm};
ghost use Rattle.farm_store.specs.Columns.{first_rows_of, meta_row, no_rows};
ghost use Rattle.farm_store.specs.Edits.{ChangesTables, GoesOn, HasRun};
ghost use Rattle.farm_store.specs.Holds.{IsInside, Stands};
ghost use Rattle.farm_store.specs.Places.{of_meta, put_at};
ghost use Rattle.farm_store.specs.Schema.{no_schema};

use sqlite::types::ValueRef;
use sqlite::{Alter, Connection, Error, MemStore, Transaction};
use std::alloc::Global;

// The tables, which have the columns of this edition.
const TYPES: &str = "CREATE TABLE types(name TEXT PRIMARY KEY NOT NULL, \
    unit INTEGER NOT NULL, every INTEGER NOT NULL) STRICT";

const BOARDS: &str = "CREATE TABLE boards(name TEXT PRIMARY KEY NOT NULL, \
    kind TEXT NOT NULL, tags TEXT NOT NULL, health INTEGER NOT NULL, state INTEGER NOT NULL, \
    holder INTEGER NOT NULL, held_by INTEGER NOT NULL, jobs_since INTEGER NOT NULL, \
    last_check INTEGER NOT NULL) STRICT";

const JOBS: &str = "CREATE TABLE jobs(number INTEGER PRIMARY KEY NOT NULL, \
    grp INTEGER NOT NULL, checking INTEGER NOT NULL, owner TEXT NOT NULL, \
    priority INTEGER NOT NULL, kind TEXT NOT NULL, tags TEXT NOT NULL, role TEXT NOT NULL, \
    state INTEGER NOT NULL, outcome INTEGER NOT NULL, board TEXT NOT NULL, \
    body TEXT NOT NULL) STRICT";

const RESERVATIONS: &str = "CREATE TABLE reservations(number INTEGER PRIMARY KEY NOT NULL, \
    owner TEXT NOT NULL, priority INTEGER NOT NULL, tags TEXT NOT NULL, state INTEGER NOT NULL, \
    deadline INTEGER NOT NULL, board TEXT NOT NULL) STRICT";

const KEPT: &str = "CREATE TABLE kept(caller TEXT NOT NULL, ckey TEXT NOT NULL, \
    kind INTEGER NOT NULL, a INTEGER NOT NULL, b INTEGER NOT NULL, c INTEGER NOT NULL, \
    PRIMARY KEY(caller, ckey)) STRICT";

const META: &str = "CREATE TABLE meta(name TEXT PRIMARY KEY NOT NULL, \
    value INTEGER NOT NULL) STRICT";

/// Puts a number into the row with its name, or adds it.
const PUT: &str = "INSERT INTO meta VALUES (:name, :value) ON CONFLICT (name) DO \
    UPDATE SET value = excluded.value";

/// The tables of the empty farm as the first edition kept them: the premises of `upgrade` and of
/// `migrate`, and of `adopt` where the version is the other one.
pub fn upgrades_can_be_met(alloc: Global) -> Option<Connection<MemStore>>
    ensures first { IfSome result (λ conn. Stands (state over_memory conn)
        (first_rows_of empty_farm)) }
    ensures autocommit { IfSome result (λ conn. conn.in_transaction ≡ false) }
{
    let Ok(mut conn) = Connection::open_in_memory(alloc) else {
        return None;
    };
    match make_farm(&mut conn) {
        Ok(()) => Some(conn),
        Err(_) => None,
    }
}

/// Makes the six tables and their rows in one transaction.
fn make_farm<S: Alter>(conn: &mut Connection<S>) -> Result<(), Error>
    requires autocommit { conn.old.in_transaction ≡ false }
    requires bare { (state S.Store conn.old).now.schema ≡ no_schema }
    ensures made { HasCleanDisk (state S.Store conn.new)
        → OnOk result (Stands (state S.Store conn.new) (first_rows_of empty_farm)) }
    ensures autocommit { conn.new.in_transaction ≡ false }
{
    let mut tx = conn.transaction();
    make_all(&mut tx)?;
    put_numbers(&mut tx)?;
    Ok(tx.commit()?)
}

fn make_all<S: Alter>(tx: &mut Transaction<'_, S>) -> Result<(), Error>
    ensures goes_on { GoesOn S.Store tx.old tx.new }
    ensures made { HasCleanDisk (state S.Store tx.new.conn.now)
        → OnOk result (IsTrue (state S.Store tx.old.conn.now).in_transaction
        → (state S.Store tx.old.conn.now).now.schema ≡ no_schema
        → IsInside (state S.Store tx.new.conn.now) no_rows) }
{
    make(tx, TYPES)?;
    make(tx, BOARDS)?;
    make(tx, JOBS)?;
    make(tx, RESERVATIONS)?;
    make(tx, KEPT)?;
    make(tx, META)
}

fn make<S: Alter>(tx: &mut Transaction<'_, S>, sql: &str) -> Result<(), Error>
    ensures goes_on { GoesOn S.Store tx.old tx.new }
    ensures ran { HasCleanDisk (state S.Store tx.new.conn.now)
        → OnOk result (IsTrue (state S.Store tx.old.conn.now).in_transaction
        → HasRun sql.now (state S.Store tx.old.conn.now) (state S.Store tx.new.conn.now)) }
{
    tx.execute(sql, &[]).map(|_| ())
}

/// No command was accepted at moment 0, the first number is 1, and so is the version.
fn put_numbers<S: Alter>(tx: &mut Transaction<'_, S>) -> Result<(), Error>
    ensures goes_on { GoesOn S.Store tx.old tx.new }
    ensures put { HasCleanDisk (state S.Store tx.new.conn.now)
        → OnOk result (IsInside (state S.Store tx.old.conn.now) no_rows
        → IsInside (state S.Store tx.new.conn.now) (first_rows_of empty_farm)) }
{
    put_number(tx, "clock", 0)?;
    put_number(tx, "count", 0)?;
    put_number(tx, "next", 1)?;
    put_number(tx, "schema", 1)
}

fn put_number<S: Alter>(tx: &mut Transaction<'_, S>, name: &str, value: u8) -> Result<(), Error>
    ensures goes_on { GoesOn S.Store tx.old tx.new }
    ensures put { ChangesTables result (state S.Store tx.old.conn.now)
        (state S.Store tx.new.conn.now) (λ T. put_at of_meta T (meta_row name.now value ∷ [])) }
{
    tx.execute(PUT, &[text(name), number(value)])?;
    Ok(())
}

fn text(text: &str) -> ValueRef<'_>
    ensures { owned result ≡ Text text.now }
{
    ValueRef::Text(text.as_bytes())
}

fn number<'a>(n: u8) -> ValueRef<'a>
    ensures { owned result ≡ Int (pos n) }
{
    ValueRef::Int(i64::from(n))
}
