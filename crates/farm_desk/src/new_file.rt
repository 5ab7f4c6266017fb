//! What a new farm's file has before its store is opened: the first page of a database without a
//! table. An open takes the size of the pages from there. A commit writes each page that it
//! changes whole, and a farm's rows are short, so a new farm's pages are the shorter: 1,024 bytes,
//! where `sqlite` alone would make such of 4,096.
ghost use Rattle.std.specs.Prelude.{◌≡◌, OnOk};
ghost use Rattle.std.specs.Io.KnownBytes.{Appends};
ghost use Rattle.farm_desk.specs.NewFile.{first_page, page_head};

use sqlite::Start;
use std::io::{self, Write};

/// The bytes of the first page behind its head.
const REST_OF_PAGE: usize = 916;

/// The head of a database without a table (SQLite's file format, 1.3), and that of its one page, a
/// leaf of the list of tables without a row (1.6).
fn page_head() -> [u8; 108]
    ensures { result ≡ page_head }
{
    *b"SQLite format 3\0\
        \x04\0\x02\x02\0\x40\x20\x20\0\0\0\0\0\0\0\x01\0\0\0\0\
        \0\0\0\0\0\0\0\x01\0\0\0\x04\0\0\0\0\0\0\0\0\0\0\0\x01\
        \0\0\0\0\0\0\0\0\0\0\0\0\0\0\0\0\0\0\0\0\
        \0\0\0\0\0\0\0\0\0\0\0\0\0\0\0\0\0\x2e\x76\x88\
        \x0d\0\0\0\0\x04\0\0"
}

/// Writes the first page.
pub(crate) fn write_first_page<W: Write>(writer: &mut W) -> io::Result<()>
    ensures { OnOk result (Appends (W.contents writer.old) (W.contents writer.new) first_page) }
{
    writer.write_all(&page_head())?;
    writer.write_all(&[0; REST_OF_PAGE])?;
    Ok(())
}

/// What a new farm's file and its log held as they were opened: the first page, and nothing. As of
/// `Unknown` it is supposed that a torn write leaves each byte old or new.
#[derive(Drop)]
pub struct NewFile;

impl Start for NewFile {
    ghost use Rattle.std.specs.Prelude.{[], true};
    ghost use Rattle.farm_desk.specs.NewFile.{first_page};

    ghost log = { [] };

    ghost db = { first_page };

    ghost is_mixing = { true };

    fn mixes() -> bool {
        true
    }
}
