//! The output of an input, a line at a time.

ghost use Rattle.std.specs.Prelude.{◌≡◌, ◌≢◌, [], ◌∷◌, ◌++◌, IfOk, OnOk, OnErr};
ghost use Rattle.bit_set_run.specs.Output.{line_text, output, sets_after};
ghost use Rattle.bit_set_commands.specs.{Reading.reading, Texts.text_of_bad};

use crate::Table;
use crate::stepping::step;
use bit_set::BitBlock;
use bit_set_commands::{BadLine, append_reply, bad_text, next_line, read_line};
use std::alloc::{AllocError, Global};

/// What the program writes for the input: for each of its lines a text and a newline. For an empty input it
/// allocates nothing.
pub(crate) fn output<B: BitBlock>(alloc: Global, input: &[u8]) -> Result<Vec<u8>, AllocError>
    ensures text { IfOk result (λ text. text.items ≡ output input.now) }
    ensures fails { OnErr result (input.now ≢ []) }
{
    let mut table = Table::<B>::new(alloc);
    let mut text = Vec::new(alloc);
    let mut rest = input;
    while let Some((line, after)) = next_line(rest) {
        reply_to_line(alloc, &mut table, line, &mut text)?;
        rest = after;
    }
    Ok(text)
}

// Executes the command of a line and appends the text of its reply.
fn reply_to_line<B: BitBlock>(
    alloc: Global,
    table: &mut Table<B>,
    line: &[u8],
    text: &mut Vec<u8>,
) -> Result<(), AllocError>
    ensures sets { OnOk result (table.new ≡ sets_after table.old (reading line.now)) }
    ensures text { OnOk result (text.new.items ≡ text.old.items
        ++ (line_text table.old (reading line.now) ++ 10 ∷ [])) }
{
    match read_line(alloc, line)? {
        Err(bad) => append_bad_line(text, bad),
        Ok(command) => {
            let reply = step(alloc, &mut table.sets, &command)?;
            append_reply(text, &reply)?;
            text.push(b'\n')?;
            Ok(())
        }
    }
}

// Appends the text of the reply to a line that is not a command.
fn append_bad_line(text: &mut Vec<u8>, bad: BadLine) -> Result<(), AllocError>
    ensures { OnOk result (text.new.items ≡ text.old.items ++ (text_of_bad bad ++ 10 ∷ [])) }
{
    text.extend_from_slice(bad_text(bad))?;
    text.push(b'\n')?;
    Ok(())
}
