//! The texts of replies.

ghost use Rattle.std.specs.Prelude.{◌≡◌, ◌++◌, OnOk, codes, decimal};
ghost use Rattle.bit_set_commands.specs.Texts.{items_text, text_of, text_of_bad};

use crate::Reply;
use crate::reading::BadLine;
use itoa::Buffer;
use std::alloc::AllocError;
use std::cmp::Ordering;

/// Appends the text of the reply. Fails only if memory runs out, and may then have appended a part of it.
pub fn append_reply(out: &mut Vec<u8>, reply: &Reply) -> Result<(), AllocError>
    ensures { OnOk result (out.new.items ≡ out.old.items ++ text_of reply.now) }
{
    match reply {
        Reply::Truth(true) => out.extend_from_slice(b"true"),
        Reply::Truth(false) => out.extend_from_slice(b"false"),
        Reply::Done => out.extend_from_slice(b"ok"),
        Reply::Number(number) => append_decimal(out, *number),
        Reply::Items(items) => append_items(out, items.as_slice()),
        Reply::Order(Ordering::Less) => out.extend_from_slice(b"Less"),
        Reply::Order(Ordering::Equal) => out.extend_from_slice(b"Equal"),
        Reply::Order(Ordering::Greater) => out.extend_from_slice(b"Greater"),
        Reply::Rest(count, items) => append_rest(out, *count, items.as_slice()),
        Reply::Same => out.extend_from_slice(b"refused same"),
        Reply::Element => out.extend_from_slice(b"refused element"),
    }
}

/// The reply to a line that is not a command.
pub fn bad_text(bad: BadLine) -> &'static [u8]
    ensures { result.now ≡ text_of_bad bad }
{
    match bad {
        BadLine::BadCommand => b"bad command",
        BadLine::BadNumber => b"bad number",
    }
}

fn append_items(out: &mut Vec<u8>, items: &[usize]) -> Result<(), AllocError>
    ensures { OnOk result (out.new.items
        ≡ out.old.items ++ items_text items.now) }
{
    out.extend_from_slice(b"{")?;
    for (place, item) in items.iter().enumerate() {
        if place > 0 {
            out.extend_from_slice(b", ")?;
        }
        append_decimal(out, *item)?;
    }
    out.extend_from_slice(b"}")
}

fn append_rest(out: &mut Vec<u8>, count: usize, items: &[usize]) -> Result<(), AllocError>
    ensures { OnOk result (out.new.items
        ≡ out.old.items ++ (decimal count ++ codes " " ++ items_text items.now)) }
{
    append_decimal(out, count)?;
    out.extend_from_slice(b" ")?;
    append_items(out, items)
}

fn append_decimal(out: &mut Vec<u8>, number: usize) -> Result<(), AllocError>
    ensures { OnOk result (out.new.items ≡ out.old.items ++ decimal number) }
{
    let mut buffer = Buffer::new();
    out.extend_from_slice(buffer.format(number).as_bytes())
}
