//! The columns of a line.
ghost use Rattle.std.specs.Prelude.{◌≡◌, ◌∷◌, [], ◌++◌, IfOk, OnOk, string_bytes};
ghost use Rattle.farm_report.specs.Columns.{left_column, right_column};

use std::alloc::{AllocError, Global};

/// A text at the left of a column of that width.
pub(crate) fn left(alloc: Global, text: &str, width: usize) -> Result<String, AllocError>
    ensures { IfOk result (λ column. string_bytes column ≡ left_column width text.now) }
{
    let gap = " ".repeat(alloc, width.saturating_sub(text.len()))?;
    format!(in alloc; "{text}{gap}")
}

/// A number at the right of a column of that width.
pub(crate) fn right(alloc: Global, number: u64, width: usize) -> Result<String, AllocError>
    ensures { IfOk result (λ column. string_bytes column ≡ right_column width number) }
{
    let digits = format!(in alloc; "{number}")?;
    let gap = " ".repeat(alloc, width.saturating_sub(digits.len()))?;
    format!(in alloc; "{gap}{digits}")
}

/// Adds a line to a text, with a line feed behind it.
pub(crate) fn push_line(text: &mut String, line: &str) -> Result<(), AllocError>
    ensures { OnOk result (string_bytes text.new
        ≡ string_bytes text.old ++ (line.now ++ 10 ∷ [])) }
{
    text.push_str(line)?;
    text.push_str("\n")
}
