// Runs of commands, and of the lines that spell them.
use crate::asks::Ask;
use crate::faults::Fault;
use crate::states::has_just;
use crate::sweep::{Row, Trial, table};
use bit_set::BitBlock;
use bit_set_commands::{append_reply, read_line};
use bit_set_run::{Command, Reply, RunFault, SetName, Table, run, run_lines};
use std::alloc::{AllocError, Global};

// The elements of the sets `a`, `b` and `c`.
type Three = [&'static [usize]; 3];

// A line, its reply, and what the sets may be where its command fails.
struct Line {
    text: &'static str,
    reply: &'static str,
    failed: &'static [Three],
}

// What they are behind the union, and at last.
const UNITED: Three = [&[3, 447, 5000], &[5000], &[3, 447]];

macro_rules! lines {
    ($($text:literal, $reply:literal, $($failed:expr),+;)*) => {
        &[$(Line { text: $text, reply: $reply, failed: &[$($failed),+] }),*]
    };
}

// Of the items of an extend a front may be in.
const LINES: &[Line] = lines! {
    "extend a 3 447", "ok", [&[], &[], &[]], [&[3], &[], &[]];
    "insert b 5000", "true", [&[3, 447], &[], &[]];
    "copy a c", "ok", [&[3, 447], &[5000], &[]];
    "union_with a b", "ok", [&[3, 447], &[5000], &[3, 447]];
    "items a", "{3, 447, 5000}", UNITED;
    "intersection a b", "{5000}", UNITED;
    "rest iter a 1", "2 {447, 5000}", UNITED;
    "append c b", "ok", UNITED;
    "split_off c 448 b", "ok", [&[3, 447, 5000], &[], &[3, 447, 5000]];
    "reserve a 9000", "ok", UNITED;
    "reserve_exact b 9000", "ok", UNITED;
    "shrink a", "ok", UNITED;
};

// What the sets may be behind all lines.
const LAST: &[Three] = &[UNITED];

// The memory that the commands may ask for, one after another, and then some more: the sets, the numbers in three of
// the replies, and the vector of the replies, which doubles twice.
macro_rules! asks_of_commands {
    ($($more:expr),*) => {
        &[
            Ask::Grown(4), Ask::Grown(448), Ask::Grown(5001), Ask::Exact(448), Ask::Grown(5001), Ask::Other(3, 3 * 32),
            Ask::Grown(5001), Ask::Exact(5001), Ask::Grown(9000), Ask::Exact(9000), Ask::Exact(5001),
            Ask::Other(3, (4 + 8 + 16) * 64), $($more),*
        ]
    };
}

// Past that the lines may ask for the input, the two numbers of a line, and the output, which doubles from 8 bytes on.
const ASKS_OF_LINES: &[Ask] = asks_of_commands!(
    Ask::Other(1, 2 * 170),
    Ask::Other(1, 32),
    Ask::Other(5, 8 + 16 + 32 + 64 + 128)
);

pub enum Call {
    OfCommands,
    // A thousand that need no memory, with capacity for their replies.
    Thousand,
    OfLines,
}

pub const ROWS: &[Row<Call>] = table! {
    "run", asks_of_commands!(), Call::OfCommands;
    "run_thousand_within", &[], Call::Thousand;
    "run_lines", ASKS_OF_LINES, Call::OfLines;
};

/// Commands on a table, the replies to those that were executed, and how many these are; and lines, and what is
/// written, which takes the whole output without memory.
#[derive(Drop)]
pub struct Running<B: BitBlock> {
    commands: Vec<Command>,
    table: Table<B>,
    replies: Vec<Reply>,
    done: usize,
    input: Vec<u8>,
    written: Vec<u8>,
}

// The commands that the lines spell.
fn commands(alloc: Global) -> Result<Vec<Command>, AllocError> {
    let mut commands = Vec::new(alloc);
    for line in LINES {
        if let Ok(command) = read_line(alloc, line.text.as_bytes())? {
            commands.push(command)?;
        }
    }
    Ok(commands)
}

fn thousand_commands(alloc: Global) -> Result<Vec<Command>, AllocError> {
    let mut commands = Vec::new(alloc);
    for n in 0..1000 {
        if let Some(name) = SetName::from_letter(b'a') {
            commands.push(Command::Contains(name, n))?;
        }
    }
    Ok(commands)
}

// The lines, or what replies to them.
fn joined(alloc: Global, are_replies: bool) -> Result<Vec<u8>, AllocError> {
    let mut text = Vec::new(alloc);
    for line in LINES {
        let part = if are_replies { line.reply } else { line.text };
        text.extend_from_slice(part.as_bytes())?;
        text.push(b'\n')?;
    }
    Ok(text)
}

// Whether the sets are these.
fn are<B: BitBlock>(table: &Table<B>, wanted: &Three) -> bool {
    let mut is_right = true;
    for (letter, elements) in b"abc".iter().zip(wanted) {
        is_right &= match SetName::from_letter(*letter) {
            Some(name) => has_just(table.get(name), elements, usize::MAX),
            None => false,
        };
    }
    is_right
}

fn are_one_of<B: BitBlock>(table: &Table<B>, allowed: &[Three]) -> bool {
    let mut is_one = false;
    for wanted in allowed {
        is_one |= are(table, wanted);
    }
    is_one
}

// Whether the sets may be so where the command of this place fails, or behind them all.
fn may_stand<B: BitBlock>(table: &Table<B>, place: usize) -> bool {
    match LINES.get(place) {
        Some(line) => are_one_of(table, line.failed),
        None => are_one_of(table, LAST),
    }
}

// Whether this many commands have just their replies.
fn are_replies(alloc: Global, count: usize, replies: &[Reply]) -> Result<bool, AllocError> {
    let mut text = Vec::new(alloc);
    let mut is_right = replies.len() == count;
    for (reply, line) in replies.iter().zip(LINES) {
        text.clear();
        append_reply(&mut text, reply)?;
        is_right &= text.as_slice() == line.reply.as_bytes();
    }
    Ok(is_right)
}

impl<B: BitBlock> Running<B> {
    fn run(&mut self, alloc: Global) -> Result<bool, Fault> {
        match run(alloc, &mut self.table, &self.commands, &mut self.replies) {
            Ok(()) => {
                self.done = self.commands.len();
                Ok(true)
            }
            Err(RunFault::Memory(place)) => {
                self.done = place;
                Err(Fault::Memory)
            }
        }
    }

    // Whether one more command is executed.
    fn goes_on(&mut self, alloc: Global) -> bool {
        match SetName::from_letter(b'b') {
            Some(name) => {
                let commands = [Command::Insert(name, 9)];
                run(alloc, &mut self.table, &commands, &mut self.replies).is_ok()
            }
            None => false,
        }
    }
}

impl<B: BitBlock> Trial<Call> for Running<B> {
    fn prepare(alloc: Global, call: &Call) -> Result<Self, Fault> {
        let (commands, capacity) = match call {
            Call::Thousand => (thousand_commands(alloc)?, 1000),
            _ => (commands(alloc)?, 0),
        };
        let replies = Vec::with_capacity(alloc, capacity)?;
        let input = joined(alloc, false)?;
        let written = Vec::with_capacity(alloc, joined(alloc, true)?.len())?;
        Ok(Running {
            commands,
            table: Table::new(alloc),
            replies,
            done: 0,
            input,
            written,
        })
    }

    fn make(&mut self, alloc: Global, call: &Call) -> Result<bool, Fault> {
        match call {
            Call::OfLines => {
                let mut reader = self.input.as_slice();
                run_lines::<B, _, _>(alloc, &mut reader, &mut self.written)?;
                Ok(true)
            }
            _ => self.run(alloc),
        }
    }

    // Whether what was executed has its replies and left the sets as it must, and one more command is executed.
    fn is_right(&mut self, alloc: Global, call: &Call, has_returned: bool) -> Result<bool, Fault> {
        let is_done = has_returned == (self.done == self.commands.len());
        match call {
            Call::OfCommands => {
                let are_right = are_replies(alloc, self.done, self.replies.as_slice())?;
                Ok(is_done & are_right & may_stand(&self.table, self.done) & self.goes_on(alloc))
            }
            Call::Thousand => Ok(is_done & (self.replies.len() == 1000)),
            Call::OfLines if !has_returned => Ok(self.written.is_empty()),
            Call::OfLines => Ok(joined(alloc, true)?.as_slice() == self.written.as_slice()),
        }
    }
}
