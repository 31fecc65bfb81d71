//! The texts of a matrix.
ghost use Rattle.std.specs.{Prelude.{◌++◌, Some, codes, decimal}, Fmt.DisplaysOnOk, List.flat_map};
ghost use Rattle.bit_set.specs.Texts.{items_text};
ghost use Rattle.bit_matrix.specs.Compared.{rows_text};

use crate::{BitBlock, BitMatrix, Iter};
use std::fmt;

/// A line for each row: its columns in decimal and ascending order, joined by a comma and a space, between braces.
/// Allocates nothing itself, and fails only if the formatter fails. Goes over each row, even if there are no
/// columns.
impl<B: BitBlock> fmt::Display for BitMatrix<B> {
    ghost output = { λ m. Some (rows_text m.rows) };

    fn fmt<W: fmt::Write>(&self, f: &mut fmt::Formatter<W>) -> fmt::Result {
        for row in 0..self.rows() {
            write_row(self.iter(row), f)?;
            f.write_str("\n")?;
        }
        Ok(())
    }
}

/// `BitMatrix { columns: 3, rows: [{0, 2}, {}] }`: the number of columns, and the text of each row. Allocates
/// nothing itself, and fails only if the formatter fails. Goes over each row, even if there are no columns.
impl<B: BitBlock> fmt::Debug for BitMatrix<B> {
    fn fmt<W: fmt::Write>(&self, f: &mut fmt::Formatter<W>) -> fmt::Result {
        f.write_str("BitMatrix { columns: ")?;
        f.write(self.columns())?;
        f.write_str(", rows: [")?;
        for row in 0..self.rows() {
            if row > 0 {
                f.write_str(", ")?;
            }
            write_row(self.iter(row), f)?;
        }
        f.write_str("] }")
    }
}

// Writes the remaining columns between braces.
fn write_row<B: BitBlock, W: fmt::Write>(row: Iter<'_, B>, f: &mut fmt::Formatter<W>) -> fmt::Result
    ensures { DisplaysOnOk W.write_str_gives f.old result (Some (items_text row.entry)) f.new }
{
    f.write_str("{")?;
    let mut rest = row;
    if let Some(first) = rest.next() {
        f.write(first)?;
        write_rest(rest, f)?;
    }
    f.write_str("}")
}

// Writes each remaining column after a comma and a space.
fn write_rest<B: BitBlock, W: fmt::Write>(
    rest: Iter<'_, B>,
    f: &mut fmt::Formatter<W>,
) -> fmt::Result
    ensures { DisplaysOnOk W.write_str_gives f.old result
        (Some (flat_map (λ n. codes ", " ++ decimal n) rest.entry)) f.new }
{
    for item in rest {
        f.write_str(", ")?;
        f.write(item)?;
    }
    Ok(())
}
