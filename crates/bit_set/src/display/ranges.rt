// The text of a set as the runs of its elements.
ghost use Rattle.std.specs.{Prelude.{◌≡◌, ℕ, ◌<◌, ◌++◌, Some, codes}, Fmt.DisplaysOnOk, List.flat_map};
ghost use Rattle.set_algebra.specs.{Runs.runs_of, Sets.elements};
ghost use Rattle.bit_set.specs.RangeTexts.{ranges_text, run_text};

use crate::{BitBlock, BitSet, Runs};
use std::fmt;
use std::marker::Model;
use std::ops::Range;

/// A set that displays as the runs of its elements, in the form in which Linux lists processors: `0-3, 5, 9-12`.
/// The text of the empty set is empty.
#[derive(Drop)]
pub struct Ranges<'a, B: BitBlock> {
    set: &'a BitSet<B>,
}

impl<'a, B: BitBlock> Model for Ranges<'a, B> {
    ghost use Rattle.std.specs.Prelude.{ℕ, List};
    ghost use Rattle.set_algebra.specs.Sets.{elements};

    ghost Value = { List ℕ };

    ghost view = { λ it. elements it.set.now.values };
}

impl<B: BitBlock> BitSet<B> {
    /// The set as the runs of its elements, for formatting: `write!(f, "{}", set.ranges())`. Constant time.
    ///
    /// ```
    /// // The set is {0, 1, 2, 3, 5, 9, 10}.
    /// let text = format!(in alloc; "{}", set.ranges())?;
    /// assert!(&*text == "0-3, 5, 9-10");
    /// ```
    #[inline]
    pub fn ranges(&self) -> Ranges<'_, B>
        ensures { result ≡ elements self.now.values }
    {
        Ranges { set: self }
    }
}

/// The runs in ascending order, joined by a comma and a space: each as its one number, or as its first and last
/// number with a hyphen between them. Allocates nothing itself, and fails only if the formatter fails.
impl<'a, B: BitBlock> fmt::Display for Ranges<'a, B> {
    ghost output = { λ s. Some (ranges_text (runs_of s)) };

    fn fmt<W: fmt::Write>(&self, f: &mut fmt::Formatter<W>) -> fmt::Result {
        let mut rest = self.set.runs(0..self.set.get_ref().len());
        let Some(first) = rest.next() else {
            return Ok(());
        };
        write_run(first, f)?;
        write_rest(rest, f)
    }
}

// Writes a run, which is not empty.
fn write_run<W: fmt::Write>(run: Range<usize>, f: &mut fmt::Formatter<W>) -> fmt::Result
    requires { run.start < run.end }
    ensures { DisplaysOnOk W.write_str_gives f.old result (Some (run_text run)) f.new }
{
    f.write(run.start)?;
    let last = run.end - 1;
    if run.start < last {
        f.write_str("-")?;
        f.write(last)?;
    }
    Ok(())
}

// Writes each remaining run after a comma and a space.
fn write_rest<B: BitBlock, W: fmt::Write>(
    rest: Runs<'_, B>,
    f: &mut fmt::Formatter<W>,
) -> fmt::Result
    ensures { DisplaysOnOk W.write_str_gives f.old result
        (Some (flat_map (λ run. codes ", " ++ run_text run) (runs_of rest.entry.members))) f.new }
{
    for run in rest {
        f.write_str(", ")?;
        write_run(run, f)?;
    }
    Ok(())
}
