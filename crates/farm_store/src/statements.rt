//! The statements of a table, each made of the list of its columns.
//!
//! A table's file has the list once, as a macro that hands it to one of these: the table's name, the
//! names of its key, and each column with its kind, those of the key first.

/// Makes the table: STRICT, and nothing in it NULL.
macro_rules! create {
    ($table:literal [$key:literal] $first:literal $first_kind:tt $(, $name:literal $kind:tt)+) => {
        concat!("CREATE TABLE ", $table, "(", $first, " ", $first_kind, " PRIMARY KEY NOT NULL",
            $(", ", $name, " ", $kind, " NOT NULL",)+ ") STRICT")
    };
    ($table:literal [$key:literal, $($more:literal),+]
        $first:literal $first_kind:tt $(, $name:literal $kind:tt)+) => {
        concat!("CREATE TABLE ", $table, "(", $first, " ", $first_kind, " NOT NULL",
            $(", ", $name, " ", $kind, " NOT NULL",)+
            ", PRIMARY KEY(", $key, $(", ", $more,)+ ")) STRICT")
    };
}

/// All rows, in order of their keys.
macro_rules! select {
    ($table:literal [$key:literal $(, $more:literal)*]
        $first:literal $first_kind:tt $(, $name:literal $kind:tt)+) => {
        concat!("SELECT ", $first, $(", ", $name,)+ " FROM ", $table,
            " ORDER BY ", $key $(, ", ", $more)*)
    };
}

/// Puts a row in the place of the one with its key, or adds it.
macro_rules! replace {
    ($table:literal $key:tt $first:literal $first_kind:tt $(, $name:literal $kind:tt)+) => {
        concat!("INSERT OR REPLACE INTO ", $table, " VALUES (:", $first, $(", :", $name,)+ ")")
    };
}

/// Writes a row over the one with its key, which is one column, or adds it.
macro_rules! write_over {
    ($table:literal [$key:literal] $first:literal $first_kind:tt,
        $second:literal $second_kind:tt $(, $name:literal $kind:tt)*) => {
        concat!("INSERT INTO ", $table, " VALUES (:", $first, ", :", $second, $(", :", $name,)*
            ") ON CONFLICT (", $key, ") DO UPDATE SET ", $second, " = excluded.", $second
            $(, ", ", $name, " = excluded.", $name)*)
    };
}

/// The columns and their kinds.
macro_rules! kinds {
    ($table:literal $key:tt $($name:literal $kind:tt),+) => {
        [$(($name, crate::statements::kind!($kind))),+]
    };
}

/// A kind by its name in SQL.
macro_rules! kind {
    ("TEXT") => {
        sqlite_schema::schema::Kind::Text
    };
    ("INTEGER") => {
        sqlite_schema::schema::Kind::Integer
    };
}

pub(crate) use create;
pub(crate) use kind;
pub(crate) use kinds;
pub(crate) use replace;
pub(crate) use select;
pub(crate) use write_over;
