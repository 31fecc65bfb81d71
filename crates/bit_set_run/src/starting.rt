// The whole program over any reader and writer: its words, and its status and text at the end. No line is read here.
ghost use Rattle.std.specs.Prelude.{◌≡◌, ◌↔◌, IsTrue, false, map, string_bytes, is_some, Result};
ghost use Rattle.bit_set_run.specs.{Ended.HasEnded, declared.streams.LinesFault.LinesFault};
ghost use Rattle.bit_set_run.specs.Exits.{takes, text_at, status_at, type_of_words, type_of_word, usage};

use crate::{LinesFault, run_lines};
use std::alloc::Global;
use std::io::{Read, Write};

/// How the program ends: its status, and what it says on standard error, which is nothing at status 0.
#[derive(Clone, Copy, Debug, PartialEq, Eq)]
pub struct Exit {
    /// The status that the program leaves.
    pub status: u8,
    /// What it says, without a newline.
    pub text: &'static str,
}

/// Does what the program does: replies to the lines of the reader, over the block type that the word names, or over
/// `u32` if there is no word.
///
/// | Status | When |
/// |---|---|
/// | 0 | each line has its reply |
/// | 2 | the words are others; nothing is read or written |
/// | 3 | memory ran out; nothing was written |
/// | 4 | a read failed, and nothing was written; or a write failed, and a beginning may have been |
/// | 5 | the input has more than 1,048,576 bytes; nothing was written |
///
/// ```
/// let mut lines = b"count a\n".as_slice();
/// let mut output = Vec::new(alloc);
/// let exit = start(alloc, &[], &mut lines, &mut output);
/// assert_eq!(exit.status, 0);
/// assert_eq!(output.as_slice(), b"0\n".as_slice());
/// ```
pub fn start<R: Read, W: Write>(
    alloc: Global,
    words: &[String],
    reader: &mut R,
    writer: &mut W,
) -> Exit
    // The words are checked first, and nothing else is done if they are not the program's.
    ensures misused { (result.status ≡ 2) ↔ (takes (map string_bytes words.now) ≡ false) }
    ensures misused_text { result.status ≡ 2 → result.text.now ≡ usage }
    ensures misused_unread { result.status ≡ 2 → reader.new ≡ reader.old }
    ensures misused_unwritten { result.status ≡ 2 → writer.new ≡ writer.old }

    // Otherwise the lines were run, and the exit is that of how this ended.
    ensures ended { IsTrue (takes (map string_bytes words.now)) → (outcome : Result Unit LinesFault)
        × (result.status ≡ status_at outcome) × (result.text.now ≡ text_at outcome)
        × HasEnded outcome (R.remaining reader.old) (R.remaining reader.new) W.contents writer.old writer.new }
{
    let ended = match block_type(words) {
        None => {
            return Exit {
                status: 2,
                text: "usage: bitset [u8|u16|u32|u64|usize|u128]",
            };
        }
        Some(BlockType::U8) => run_lines::<u8, R, W>(alloc, reader, writer),
        Some(BlockType::U16) => run_lines::<u16, R, W>(alloc, reader, writer),
        Some(BlockType::U32) => run_lines::<u32, R, W>(alloc, reader, writer),
        Some(BlockType::U64) => run_lines::<u64, R, W>(alloc, reader, writer),
        Some(BlockType::Usize) => run_lines::<usize, R, W>(alloc, reader, writer),
        Some(BlockType::U128) => run_lines::<u128, R, W>(alloc, reader, writer),
    };
    Exit::of(ended)
}

impl Exit {
    /// How the program ends after [`run_lines`] returned this. Constant time.
    ///
    /// ```
    /// assert_eq!(Exit::of(Ok(())).status, 0);
    /// assert_eq!(Exit::of(Err(LinesFault::TooLarge)).status, 5);
    /// ```
    pub fn of(ended: Result<(), LinesFault>) -> Self
        ensures status { result.status ≡ status_at ended }
        ensures text { result.text.now ≡ text_at ended }
    {
        match ended {
            Ok(()) => Exit {
                status: 0,
                text: "",
            },
            Err(fault) => Exit {
                status: status_of(fault),
                text: fault.text(),
            },
        }
    }
}

fn status_of(fault: LinesFault) -> u8
    ensures { result ≡ status_at {X = Unit} (Err fault) }
{
    match fault {
        LinesFault::Memory => 3,
        LinesFault::Read | LinesFault::Write => 4,
        LinesFault::TooLarge => 5,
    }
}

// The types of blocks that the program's word chooses from.
#[derive(Clone, Copy)]
enum BlockType {
    U8,
    U16,
    U32,
    U64,
    Usize,
    U128,
}

// The type that the words choose, `u32` if there is no word; `None` if they are not the program's.
fn block_type(words: &[String]) -> Option<BlockType>
    ensures chosen { result ≡ type_of_words (map string_bytes words.now) }
{
    match words {
        [] => Some(BlockType::U32),
        [word] => type_of_word(word.as_str()),
        _ => None,
    }
}

// The type that the word names.
fn type_of_word(word: &str) -> Option<BlockType>
    ensures named { result ≡ type_of_word word.now }
{
    match word {
        "u8" => Some(BlockType::U8),
        "u16" => Some(BlockType::U16),
        "u32" => Some(BlockType::U32),
        "u64" => Some(BlockType::U64),
        "usize" => Some(BlockType::Usize),
        "u128" => Some(BlockType::U128),
        _ => None,
    }
}
