//! The texts of a set.
ghost use Rattle.std.specs.{Prelude.{◌++◌, Some, codes, decimal}, Fmt.DisplaysOnOk, List.flat_map};
ghost use Rattle.set_algebra.specs.{Sets.elements, Texts.items_text};

use crate::{BitBlock, BitSet, Iter};
use std::fmt;

pub(crate) mod ranges;

/// The elements in decimal and ascending order, joined by a comma and a space, between braces. Allocates nothing
/// itself, and fails only if the formatter fails.
impl<B: BitBlock> fmt::Display for BitSet<B> {
    ghost output = { λ s. Some (items_text (elements s.values)) };

    fn fmt<W: fmt::Write>(&self, f: &mut fmt::Formatter<W>) -> fmt::Result {
        f.write_str("{")?;
        let mut rest = self.iter();
        if let Some(first) = rest.next() {
            f.write(first)?;
            write_rest(rest, f)?;
        }
        f.write_str("}")
    }
}

/// `BitSet { bit_vec: .. }`, with the text of the bit vector. Allocates nothing itself, and fails only if the
/// formatter fails.
impl<B: BitBlock> fmt::Debug for BitSet<B> {
    fn fmt<W: fmt::Write>(&self, f: &mut fmt::Formatter<W>) -> fmt::Result {
        f.write_str("BitSet { bit_vec: ")?;
        fmt::Debug::fmt(self.get_ref(), f)?;
        f.write_str(" }")
    }
}

// Writes each remaining element after a comma and a space.
fn write_rest<B: BitBlock, W: fmt::Write>(
    rest: Iter<'_, B>,
    f: &mut fmt::Formatter<W>,
) -> fmt::Result
    ensures { DisplaysOnOk W.write_str_gives f.old result
        (Some (flat_map (λ n. codes ", " ++ decimal n) rest.entry.left)) f.new }
{
    for item in rest {
        f.write_str(", ")?;
        f.write(item)?;
    }
    Ok(())
}
