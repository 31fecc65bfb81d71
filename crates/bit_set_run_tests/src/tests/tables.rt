//! Commands executed on a table by hand. What came of them is compared as the text that Debug shows.
use crate::expect::{Test, expect, expect_eq, ok, table};
use bit_set_commands::read_line;
use bit_set_run::laws::replies_agree;
use bit_set_run::{Command, Numbers, SetName, Table, run};
use std::fmt::Write;

// The name of this letter.
fn name(rt: &impl Test, letter: u8) -> SetName {
    ok(rt, SetName::from_letter(letter).ok_or("no name"))
}

// The command that a line spells.
fn command_of(rt: &impl Test, line: &str) -> Command {
    let read = ok(rt, read_line(rt.alloc(), line.as_bytes()));
    ok(rt, read)
}

// Those of some lines come behind some commands.
fn append_commands(rt: &impl Test, commands: &mut Vec<Command>, lines: &str) {
    for line in lines.split('\n') {
        expect(rt, commands.push(command_of(rt, line)).is_ok());
    }
}

fn commands_of(rt: &impl Test, lines: &str) -> Vec<Command> {
    let mut commands = Vec::new(rt.alloc());
    append_commands(rt, &mut commands, lines);
    commands
}

// How the commands end on sixteen empty sets, their replies, and behind them the numbers of the set `a`, are shown so.
fn check_replies(rt: &impl Test, lines: &str, wanted: &str) {
    let commands = commands_of(rt, lines);
    let mut table: Table<u32> = Table::new(rt.alloc());
    let mut replies = Vec::new(rt.alloc());
    let ended = run(rt.alloc(), &mut table, &commands, &mut replies);
    let items = [command_of(rt, "items a")];
    ok(rt, run(rt.alloc(), &mut table, &items, &mut replies));
    let text = ok(rt, format!(in rt.alloc(); "{ended:?} {replies:?}"));
    expect_eq(rt, &text.as_str(), &wanted);
}

// Commands, their end and their replies. Memory ends the commands at one that stays undone, or is done in front.
const REPLIES: &[(&str, &str)] = table! {
    "insert a 5\nremove a 6\ncontains a 5\ncount a\nitems a\ninsert a 18446744073709551615\ninsert a 18446744073709551614\ncount a",
        "Err(Memory(6)) [Truth(true), Truth(false), Truth(true), Number(1), Items(Numbers { items: [5] }), Element, Items(Numbers { items: [5] })]";
    "count a\nextend a 5 18446744073709551614\ncount a", "Err(Memory(1)) [Number(0), Items(Numbers { items: [5] })]";
    "insert a 5\nreserve a 64\nshrink a\nreserve a 18446744073709551615\ninsert a 6",
        "Err(Memory(3)) [Truth(true), Done, Done, Items(Numbers { items: [5] })]";
};

#[test]
fn commands_have_replies(rt: HostRuntime) {
    expect_eq(&rt, &SetName::from_letter(b'q'), &None);
    for (lines, wanted) in REPLIES {
        check_replies(&rt, lines, wanted);
    }
}

// The length or the capacity of the set of this letter.
fn size_of(rt: &impl Test, table: &Table<u32>, (letter, is_length): (u8, bool)) -> usize {
    let set = table.get(name(rt, letter));
    if is_length {
        set.get_ref().len()
    } else {
        set.capacity()
    }
}

// What is shown of the sets after each command.
type Shown = [(u8, bool); 2];

const LENGTHS: Shown = [(b'a', true), (b'b', true)];

const CAPACITIES: Shown = [(b'a', false), (b'b', false)];

const LENGTH_AND_CAPACITY: Shown = [(b'a', true), (b'a', false)];

// The sizes that are shown after each of the commands.
fn check_sizes(rt: &impl Test, commands: &[Command], [one, other]: Shown, wanted: &str) {
    let mut table: Table<u32> = Table::new(rt.alloc());
    let mut replies = Vec::new(rt.alloc());
    let mut text = String::new(rt.alloc());
    for command in commands.chunks(1) {
        ok(rt, run(rt.alloc(), &mut table, command, &mut replies));
        let (first, second) = (size_of(rt, &table, one), size_of(rt, &table, other));
        ok(rt, write!(text, "{first} {second}, "));
    }
    expect_eq(rt, &text.as_str(), &wanted);
}

// Commands, and the sizes that are shown after each.
const SIZES: &[(&str, Shown, &str)] = table! {
    "count a\ninsert a 400\ninsert a 3\nextend a 7 500\ntruncate a 450\ntruncate a 900\nempty a\ncopy a b\nreset a\ncopy a b",
        LENGTHS, "0 0, 401 0, 401 0, 501 0, 450 0, 450 0, 450 0, 450 450, 0 450, 0 0, ";
    // What is appended keeps its length, and what is split off has that of the set that it comes from, but an end of
    // no numbers has none.
    "extend a 2 6\nextend b 1 3 40\nappend a b\nsplit_off a 3 b\nappend b a\nsplit_off b 50 a\nsplit_off b 0 a\nsplit_off a 0 a",
        LENGTHS, "7 0, 7 41, 41 41, 3 41, 3 41, 0 41, 41 0, 41 0, ";
    // What is asked for exactly is a whole number of blocks.
    "count a\nreserve_exact a 100\ninsert a 3\nreserve a 5\nshrink a\nremove a 3\nshrink a", LENGTH_AND_CAPACITY,
        "0 0, 0 128, 4 128, 4 128, 32 32, 32 32, 0 0, ";
    // A set without capacity gets the blocks that it is asked for, 32 for 1,000.
    "reserve a 1000\nreserve_exact b 1000", CAPACITIES, "1024 0, 1024 1024, ";
    // A copy and what is split off have the blocks of their length. Nothing that is copied or split off at the length
    // has any, and all that is split off has those that were there.
    "reserve_exact a 500\nextend a 40 1 3\ncopy a b\nreset b\nshrink b\nsplit_off a 3 b\nsplit_off a 0 b\ncopy a b\nsplit_off b 0 a\nsplit_off a 5 b",
        CAPACITIES, "512 0, 512 0, 512 64, 512 64, 512 0, 512 64, 0 512, 0 512, 512 0, 512 0, ";
};

#[test]
fn sets_have_their_sizes(rt: HostRuntime) {
    for (lines, shown, wanted) in SIZES {
        check_sizes(&rt, &commands_of(&rt, lines), *shown, wanted);
    }
}

// The numbers below this one, the greatest first, so that the first takes all the blocks and the others none.
fn extend_below(rt: &impl Test, letter: u8, end: usize) -> Command {
    let numbers = ok(rt, (0..end).rev().collect(rt.alloc()));
    Command::Extend(name(rt, letter), Numbers::from_vec(numbers))
}

// Where a set has capacity, `reserve` at least doubles it, as a vector does, and `reserve_exact` makes no more than
// these blocks. 900 numbers take 29 blocks of 32.
#[test]
fn sets_grow_as_they_are_asked(rt: HostRuntime) {
    let mut commands = Vec::new(rt.alloc());
    for letter in [b'a', b'b'] {
        expect(&rt, commands.push(extend_below(&rt, letter, 900)).is_ok());
    }
    let lines = "reserve a 1000\nreserve_exact b 1000\nshrink a\nshrink b";
    append_commands(&rt, &mut commands, lines);
    let wanted = "928 0, 928 928, 1856 928, 1856 1024, 928 1024, 928 928, ";
    check_sizes(&rt, &commands, CAPACITIES, wanted);
}

// Within the capacity each command leaves it as it is.
const WITHIN: &str =
    "reserve_exact a 500\nextend b 40 1 3\ninsert a 511\nremove a 511\ncontains a 3\nextend a 7 500\ntruncate a 450\nreserve a 512\nreserve_exact a 64\ncount a\nis_empty a\nitems a\nunion_with a b\nintersect_with a b\ndifference_with a b\nsymmetric_difference_with a b\nunion a b\nsubset a b\nsuperset a b\ndisjoint a b\neq a b\ncmp a b\nrest iter a 1\nrest union a b 1\ncopy b a\nappend a b\nempty a\nreset a";

#[test]
fn sets_keep_their_capacity(rt: HostRuntime) {
    let kept = ok(&rt, "512 128, ".repeat(rt.alloc(), 27));
    let wanted = ok(&rt, format!(in rt.alloc(); "512 0, {kept}"));
    let commands = commands_of(&rt, WITHIN);
    check_sizes(&rt, &commands, CAPACITIES, wanted.as_str());
}

const ON_TWO_TABLES: &str =
    "extend a 9 18446744073709551615 11\nextend a 200\ncopy a a\ncopy a b\nrest iter b 1\nsplit_off b 10 a\nappend a b\nitems a";

#[test]
fn two_types_of_blocks_agree(rt: HostRuntime) {
    let commands = commands_of(&rt, ON_TWO_TABLES);
    let mut first: Table<u8> = Table::new(rt.alloc());
    let mut second: Table<u64> = Table::new(rt.alloc());
    let agreed = replies_agree(rt.alloc(), &mut first, &mut second, &commands);
    let text = ok(&rt, format!(in rt.alloc(); "{:?}", ok(&rt, agreed)));
    expect_eq(
        &rt,
        &text.as_str(),
        &"([Element, Done, Same, Done, Rest(1, Numbers { items: [200] }), Done, Done, Items(Numbers { items: [9, 200] })], [Element, Done, Same, Done, Rest(1, Numbers { items: [200] }), Done, Done, Items(Numbers { items: [9, 200] })])",
    );
}
