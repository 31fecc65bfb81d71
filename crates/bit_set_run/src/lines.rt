// An input read, its output made and written, by one call. Each of the three steps is in a separate file.
ghost use Rattle.bit_set_run.specs.Ended.{HasEnded};

use crate::LinesFault;
use crate::output::output;
use crate::streams::{read_input, write_output};
use bit_set::BitBlock;
use std::alloc::Global;
use std::io::{Read, Write};

/// Reads lines to the end of the reader, executes their commands on sixteen empty sets over blocks of type `B`, and
/// writes a line for each.
///
/// The whole output is made before any of it is written, and then the writer is flushed. At most 1,048,577 reads
/// are made. At [`LinesFault::Read`], [`LinesFault::TooLarge`] and [`LinesFault::Memory`] nothing was written; at
/// [`LinesFault::Write`] a prefix of the output may have been. No failed read or write is retried.
///
/// ```
/// let mut lines = b"insert a 3\nitems a\n".as_slice();
/// let mut output = Vec::new(alloc);
/// run_lines::<u32, _, _>(alloc, &mut lines, &mut output)?;
/// assert_eq!(output.as_slice(), b"true\n{3}\n".as_slice());
/// ```
pub fn run_lines<B: BitBlock, R: Read, W: Write>(
    alloc: Global,
    reader: &mut R,
    writer: &mut W,
) -> Result<(), LinesFault>
    ensures { HasEnded result (R.remaining reader.old) (R.remaining reader.new) W.contents writer.old writer.new }
{
    let input = read_input(alloc, reader)?;
    let text = output::<B>(alloc, input.as_slice())?;
    write_output(writer, text.as_slice())
}
