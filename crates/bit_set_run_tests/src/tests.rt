//! Rows and runs with their exact bytes, and readers and writers that fail.

mod callers;
mod examples;
mod fakes;
mod faults;
mod tables;

use crate::expect::{Test, expect, expect_eq, ok, table};
use bit_set_run::{LinesFault, run_lines, start};
use block24::Block24;
use fakes::{EndlessReader, PieceReader, PieceWriter};
use std::alloc::Global;
use std::io::{ErrorKind, Read, Write};

const ELEMENT_COMMANDS: &[u8] =
    b"insert a 3\ninsert a 3\ninsert a 400\ncontains a 3\nremove a 3\ncontains a 3\ncount a\nitems a\nitems b\n";

const ELEMENT_REPLIES: &[u8] = b"true\nfalse\ntrue\ntrue\ntrue\nfalse\n1\n{400}\n{}\n";

// Inputs, and their outputs.
const ROWS: &[(&[u8], &[u8])] = table! {
    ELEMENT_COMMANDS, ELEMENT_REPLIES;
    b"insert a 18446744073709551615\ncontains a 18446744073709551615\nfrob\nfrob 99999999999999999999\ninsert a 99999999999999999999\n",
        b"refused element\nfalse\nbad command\nbad command\nbad number\n";
    b"insert q 99999999999999999999\n\ninsert a\ninsert  a 1\ninsert a -1\ninsert a 007\nremove a 18446744073709551615\nitems a\n",
        b"bad command\nbad command\nbad command\nbad command\nbad command\ntrue\nfalse\n{7}\n";
    b"extend a 9 18446744073709551615 11\nextend a\nitems a\ncopy a a\ncopy a b\nitems b\ntruncate b 9\nis_empty b\nextend b 5 6 99999999999999999999\nextend b 5 x 99999999999999999999\nitems b\nextend b 3 1 2 1\ncount b\nempty b\nreset a\nitems a\n",
        b"refused element\nok\n{9}\nrefused same\nok\n{9}\nok\ntrue\nbad number\nbad command\n{}\nok\n3\nok\nok\n{}\n";
    b"extend b 3 200\nrest iter b 0\nrest iter b 1\nrest iter b 9\nrest iter q 1\n",
        b"ok\n2 {3, 200}\n1 {200}\n0 {}\nbad command\n";
    b"insert a 18446744073709551615\nunion_with a a\nfrob\ninsert a 99999999999999999999\ninsert q 1\n\ninsert a\ninsert a -1\ninsert a 007\ncopy a a\ncontains a 18446744073709551615\nextend a 9 18446744073709551615 11\nextend a\nitems a",
        b"refused element\nrefused same\nbad command\nbad number\nbad command\nbad command\nbad command\nbad command\ntrue\nrefused same\nfalse\nrefused element\nok\n{7, 9}\n";
    b"extend a 1 3 5 200 500\nextend b 3 200\nrest frob a b 1\nrest union a b\nunion a\nunion a b 1\nrest union a b 99999999999999999999\nrest intersection a b 1\nrest symmetric_difference a b 2\nsymmetric_difference a a\ndifference b a\nintersection a b\ncmp c a\nsuperset c a\ndisjoint a c\nsubset a b\neq a b\nitems a\n",
        b"ok\nok\nbad command\nbad command\nbad command\nbad command\nbad number\n1 {200}\n1 {500}\n{}\n{}\n{3, 200}\nLess\nfalse\ntrue\nfalse\nfalse\n{1, 3, 5, 200, 500}\n";
    b"extend a 1 3 5 200 500\nextend b 3 200\ndifference a b\nrest difference a b 1\nrest difference a b 9\nrest iter b 0\nrest union a b 3\nunion a b\nsymmetric_difference b a\nintersection a a\nsuperset a b\nintersect_with a b\nitems a\neq a b\ncmp a b\ncmp a c\nsubset c a\ndisjoint a b\nreserve c 100\nshrink a\ntruncate a 200\nitems a\nunion_with c b\nsymmetric_difference_with c a\nitems c\ndifference_with b a\nitems b\ncopy d a\nis_empty a\nempty b\nreset c\neq b c\nreserve_exact c 64\ncount c\n",
        b"ok\nok\n{1, 5, 500}\n2 {5, 500}\n0 {}\n2 {3, 200}\n2 {200, 500}\n{1, 3, 5, 200, 500}\n{1, 5, 500}\n{1, 3, 5, 200, 500}\ntrue\nok\n{3, 200}\ntrue\nEqual\nGreater\ntrue\nfalse\nok\nok\nok\n{3}\nok\nok\n{200}\nok\n{200}\nok\ntrue\nok\nok\ntrue\nok\n0\n";
    b"extend a 3 200\nreserve a 100\nreserve_exact a 500\nitems a\nshrink a\nitems a\nreserve a\nreserve a 1 2\nreserve_exact q 99999999999999999999\nreserve_exact a 99999999999999999999\nshrink\nshrink a 1\nshrink q\nreserve_len a 1\nitems a\n",
        b"ok\nok\nok\n{3, 200}\nok\n{3, 200}\nbad command\nbad command\nbad command\nbad number\nbad command\nbad command\nbad command\nbad command\n{3, 200}\n";
    b"extend a 2 6\nextend b 1 3 6\nappend a b\nitems a\nitems b\nsplit_off a 3 c\nitems a\nitems c\nsplit_off a 0 c\nitems a\nitems c\nsplit_off c 50 d\nitems d\nappend c c\nsplit_off c 1 c\n",
        b"ok\nok\nok\n{1, 2, 3, 6}\n{}\nok\n{1, 2}\n{3, 6}\nok\n{}\n{1, 2}\nok\n{}\nrefused same\nrefused same\n";
    b"extend a 4 9 300\nappend a\nappend a b c\nappend a 1\nsplit_off a 5\nsplit_off a b 5\nsplit_off a 5 b c\nsplit_off a 99999999999999999999 q\nsplit_off a 99999999999999999999 b\nsplit_off a 18446744073709551615 b\nsplit_off a 009 b\nitems a\nitems b\nappend b a\nappend b a\nitems b\ncount a\n",
        b"ok\nbad command\nbad command\nbad command\nbad command\nbad command\nbad command\nbad command\nbad number\nok\nok\n{4}\n{9, 300}\nok\nok\n{4, 9, 300}\n0\n";
    // The greatest numbers, at each verb that takes one and needs no memory for it.
    b"insert a 5\ncontains a 18446744073709551614\nremove a 18446744073709551614\nremove a 18446744073709551615\ntruncate a 18446744073709551614\ntruncate a 18446744073709551615\nextend a 18446744073709551615\nextend a 7 18446744073709551615 9\nrest iter a 18446744073709551614\nrest iter a 18446744073709551615\nrest union a b 18446744073709551615\nrest intersection a b 18446744073709551615\nrest difference a b 18446744073709551615\nrest symmetric_difference a b 18446744073709551615\nremove a 18446744073709551616\nrest iter a 18446744073709551616\ntruncate a 18446744073709551616\nitems a\n",
        b"true\nfalse\nfalse\nfalse\nok\nok\nrefused element\nrefused element\n0 {}\n0 {}\n0 {}\n0 {}\n0 {}\n0 {}\nbad number\nbad number\nbad number\n{5, 7}\n";
    b"", b"";
    // The last line may lack its newline.
    b"insert p 0\ninsert p 10\nitems p", b"true\ntrue\n{0, 10}\n";
    // A carriage return, a tab, a byte past ASCII, a capital letter, a plus sign and spaces at the ends.
    b"count a\r\n\tcount a\ncount\t a\ncount \xC3\xA4\nCount a\ninsert a +1\n count a\ncount a \n\n",
        b"bad command\nbad command\nbad command\nbad command\nbad command\nbad command\nbad command\nbad command\nbad command\n";
};

// The status of the program, and what it says.
type Ended = (u8, &'static str);

const DONE: Ended = (0, "");

const REFUSED: Ended = (3, "memory refused");

const INPUT_TOO_LARGE: Ended = (5, "input too large");

// How the program ends at these words.
fn ended<R: Read, W: Write>(
    rt: &impl Test,
    words: &[&str],
    reader: &mut R,
    writer: &mut W,
) -> Ended {
    let mut owned = Vec::new(rt.alloc());
    for word in words {
        let word = ok(rt, String::from_str(rt.alloc(), word));
        expect(rt, owned.push(word).is_ok());
    }
    let exit = start(rt.alloc(), &owned, reader, writer);
    (exit.status, exit.text)
}

// The words of the program, one for each type of blocks, and none.
const WORDS: &[&[&str]] = &[
    &[],
    &["u8"],
    &["u16"],
    &["u32"],
    &["u64"],
    &["usize"],
    &["u128"],
];

// At these words and this input the program ends so, and leaves this output.
fn check_run(rt: &impl Test, words: &[&str], (input, output): (&[u8], &[u8]), wanted: Ended) {
    let mut reader = input;
    let mut writer = Vec::new(rt.alloc());
    let found = ended(rt, words, &mut reader, &mut writer);
    assert_eq!(rt; found, wanted, "of {words:?}");
    assert_eq!(rt; writer.as_slice(), output, "of {words:?}");
}

// An element or a capacity that no memory holds.
const PAST_ALL_MEMORY: &[&[u8]] = &[
    b"insert a 18446744073709551614\n",
    b"reserve a 18446744073709551615\n",
    b"insert a 3\nreserve_exact a 18446744073709551615\nitems a\n",
    b"reserve a 18446744073709551614\n",
    b"reserve_exact a 18446744073709551614\n",
];

#[test]
fn replies_to_rows_under_each_word(rt: HostRuntime) {
    for words in WORDS {
        for row in ROWS {
            check_run(&rt, words, *row, DONE);
        }
        for input in PAST_ALL_MEMORY {
            check_run(&rt, words, (*input, b""), REFUSED);
        }
    }
}

// The rows need no program: over blocks that no word names they come out the same.
#[test]
fn replies_to_rows_over_blocks_of_24_bits(rt: HostRuntime) {
    for (input, output) in ROWS {
        let mut reader = *input;
        let mut writer = Vec::new(rt.alloc());
        let result = run_lines::<Block24, _, _>(rt.alloc(), &mut reader, &mut writer);
        expect_eq(&rt, &result, &Ok(()));
        expect_eq(&rt, &writer.as_slice(), &*output);
    }
}

const OTHER_WORDS: &[&[&str]] = &[&["u9"], &["u8", "u8"], &["u128", "u8"]];

#[test]
fn rejects_other_words(rt: HostRuntime) {
    let misused = (2, "usage: bitset [u8|u16|u32|u64|usize|u128]");
    for words in OTHER_WORDS {
        let mut reader = reader(ELEMENT_COMMANDS);
        let mut writer = writer(rt.alloc());
        let found = ended(&rt, words, &mut reader, &mut writer);
        expect_eq(&rt, &found, &misused);
        expect(&rt, reader.calls == 0 && is_unused(&writer));
    }
}

fn is_unused(writer: &PieceWriter) -> bool {
    writer.calls == 0 && writer.flushes == 0
}

#[test]
fn says_that_a_read_or_a_write_failed(rt: HostRuntime) {
    let mut bytes = Vec::new(rt.alloc());
    let mut broken = reader(ELEMENT_COMMANDS);
    broken.fails_at = 0;
    let found = ended(&rt, &[], &mut broken, &mut bytes);
    expect_eq(&rt, &found, &(4, "read failed"));
    expect(&rt, bytes.is_empty());
    let mut closed = writer(rt.alloc());
    closed.fails_at = 0;
    let found = ended(&rt, &[], &mut reader(ELEMENT_COMMANDS), &mut closed);
    expect_eq(&rt, &found, &(4, "write failed"));
}

#[test]
fn says_that_an_input_is_too_large(rt: HostRuntime) {
    let mut bytes = Vec::new(rt.alloc());
    let mut endless = EndlessReader { calls: 0 };
    let found = ended(&rt, &[], &mut endless, &mut bytes);
    expect_eq(&rt, &found, &INPUT_TOO_LARGE);
    expect_eq(&rt, &(endless.calls, bytes.len()), &(1_048_577, 0));
}

// A reader of these bytes, seven at a call, that does not fail.
fn reader(bytes: &[u8]) -> PieceReader<'_> {
    PieceReader {
        bytes,
        piece: 7,
        fails_at: usize::MAX,
        kind: ErrorKind::Other,
        calls: 0,
    }
}

// A writer that takes seven bytes at a call and does not fail.
fn writer(alloc: Global) -> PieceWriter {
    PieceWriter {
        bytes: Vec::new(alloc),
        piece: 7,
        fails_at: usize::MAX,
        kind: Some(ErrorKind::Other),
        calls: 0,
        flush_fails: false,
        flushes: 0,
    }
}

// What comes of the commands with this reader and this writer.
fn outcome(
    rt: &impl Test,
    reader: &mut PieceReader<'_>,
    writer: &mut PieceWriter,
) -> Result<(), LinesFault> {
    run_lines::<u32, _, _>(rt.alloc(), reader, writer)
}

// A read that fails so is not tried again, and nothing is written.
fn check_read(rt: &impl Test, kind: ErrorKind, fails_at: usize) {
    let mut reader = reader(ELEMENT_COMMANDS);
    reader.fails_at = fails_at;
    reader.kind = kind;
    let mut writer = writer(rt.alloc());
    let found = outcome(rt, &mut reader, &mut writer);
    expect_eq(rt, &found, &Err(LinesFault::Read));
    expect_eq(rt, &reader.calls.saturating_sub(1), &fails_at);
    expect(rt, is_unused(&writer));
}

const READ_FAULTS: &[ErrorKind] = &[
    ErrorKind::Other,
    ErrorKind::Interrupted,
    ErrorKind::UnexpectedEof,
    ErrorKind::WouldBlock,
    ErrorKind::TimedOut,
    ErrorKind::OutOfMemory,
];

#[test]
fn leaves_a_read_that_failed(rt: HostRuntime) {
    let last = ELEMENT_COMMANDS.len().div_ceil(7);
    for kind in READ_FAULTS {
        for fails_at in [0, 1, last] {
            check_read(&rt, *kind, fails_at);
        }
    }
}

// The front of the replies that this many writes of seven bytes have written.
fn written(writes: usize) -> &'static [u8] {
    let count = writes.saturating_mul(7);
    ELEMENT_REPLIES.get(..count).unwrap_or(b"?")
}

// A write that fails so is not tried again, and what was written before it stays.
fn check_write(rt: &impl Test, kind: Option<ErrorKind>, fails_at: usize) {
    let mut writer = writer(rt.alloc());
    writer.fails_at = fails_at;
    writer.kind = kind;
    let found = outcome(rt, &mut reader(ELEMENT_COMMANDS), &mut writer);
    expect_eq(rt, &found, &Err(LinesFault::Write));
    let calls = (writer.calls.saturating_sub(1), writer.flushes);
    expect_eq(rt, &calls, &(fails_at, 0));
    expect_eq(rt, &writer.bytes.as_slice(), &written(fails_at));
}

const WRITE_FAULTS: &[Option<ErrorKind>] = &[
    Some(ErrorKind::Other),
    Some(ErrorKind::Interrupted),
    Some(ErrorKind::WouldBlock),
    Some(ErrorKind::StorageFull),
    Some(ErrorKind::WriteZero),
    None,
];

#[test]
fn leaves_a_write_that_failed(rt: HostRuntime) {
    let last = ELEMENT_REPLIES.len().div_ceil(7).saturating_sub(1);
    for kind in WRITE_FAULTS {
        for fails_at in [0, 1, last] {
            check_write(&rt, *kind, fails_at);
        }
    }
}

#[test]
fn writes_in_pieces_and_flushes(rt: HostRuntime) {
    let mut patient = writer(rt.alloc());
    patient.piece = 1;
    let mut read = reader(ELEMENT_COMMANDS);
    let found = outcome(&rt, &mut read, &mut patient);
    expect_eq(&rt, &found, &Ok(()));
    // None comes after the end.
    let calls = ELEMENT_COMMANDS.len().div_ceil(7).saturating_add(1);
    expect_eq(&rt, &(read.calls, patient.flushes), &(calls, 1));
    expect_eq(&rt, &patient.bytes.as_slice(), &ELEMENT_REPLIES);
}

#[test]
fn flushes_an_empty_output_too(rt: HostRuntime) {
    let mut idle = writer(rt.alloc());
    let found = outcome(&rt, &mut reader(b""), &mut idle);
    expect_eq(&rt, &found, &Ok(()));
    expect_eq(&rt, &(idle.calls, idle.flushes), &(0, 1));
}

#[test]
fn leaves_a_flush_that_failed(rt: HostRuntime) {
    let mut unflushed = writer(rt.alloc());
    unflushed.flush_fails = true;
    let found = outcome(&rt, &mut reader(ELEMENT_COMMANDS), &mut unflushed);
    expect_eq(&rt, &found, &Err(LinesFault::Write));
    expect_eq(&rt, &unflushed.bytes.as_slice(), &ELEMENT_REPLIES);
    expect_eq(&rt, &unflushed.flushes, &1);
}

// Some bytes, in lines of 64 that spell no command.
fn long_lines(rt: &impl Test, count: usize) -> Vec<u8> {
    let mut input = ok(rt, vec![in rt.alloc(); b'x'; count]);
    for line in input.chunks_mut(64) {
        if let Some(last) = line.last_mut() {
            *last = b'\n';
        }
    }
    input
}

const FOUR_REPLIES: &[u8] = b"bad command\nbad command\nbad command\nbad command\n";

// How many bytes there are, in copies of four replies to lines that spell no command.
fn bad_commands(rt: &impl Test, output: &[u8]) -> usize {
    for lines in output.chunks(48) {
        expect_eq(rt, &lines, &FOUR_REPLIES);
    }
    output.len()
}

#[test]
fn takes_inputs_up_to_the_limit(rt: HostRuntime) {
    let input = long_lines(&rt, 1_048_576);
    let mut writer = Vec::new(rt.alloc());
    let found = ended(&rt, &[], &mut input.as_slice(), &mut writer);
    expect_eq(&rt, &found, &DONE);
    expect_eq(&rt, &bad_commands(&rt, &writer), &196_608);
}

#[test]
fn runs_no_line_of_an_input_past_the_limit(rt: HostRuntime) {
    let mut input = long_lines(&rt, 1_048_576);
    ok(&rt, input.push(b'\n'));
    check_run(&rt, &[], (input.as_slice(), b""), INPUT_TOO_LARGE);
    let mut reader = reader(&input);
    reader.piece = usize::MAX;
    let mut writer = writer(rt.alloc());
    let found = outcome(&rt, &mut reader, &mut writer);
    expect_eq(&rt, &found, &Err(LinesFault::TooLarge));
    expect(&rt, is_unused(&writer));
}
