//! The texts of the runs of sets.
use crate::expect::{Test, expect, expect_eq, ok, set_of};
use bit_set::{BitBlock, BitSet, RangesError};
use block24::Block24;

fn is_written<B: BitBlock>(rt: &impl Test, elements: &[usize], wanted: &str) {
    let set = set_of::<B>(rt, elements);
    let text = ok(rt, format!(in rt.alloc(); "{}", set.ranges()));
    expect(rt, &*text == wanted);
}

const THREE_RUNS: &[usize] = &[0, 1, 2, 3, 5, 9, 10, 11, 12];

#[test]
fn runs_are_written_as_linux_lists_processors(rt: HostRuntime) {
    is_written::<u8>(&rt, THREE_RUNS, "0-3, 5, 9-12");
    is_written::<u32>(&rt, &[], "");
    is_written::<u64>(&rt, &[5], "5");
    is_written::<u128>(&rt, &[5, 6], "5-6");
    is_written::<u8>(&rt, &[0, 2, 4, 7000], "0, 2, 4, 7000");
}

fn is_read<B: BitBlock>(rt: &impl Test, text: &str, wanted: &[usize]) {
    let set: BitSet<B> = ok(rt, BitSet::from_ranges(rt.alloc(), text));
    expect(rt, set.iter().eq(wanted.iter().copied()));
}

#[test]
fn lists_of_ranges_are_read(rt: HostRuntime) {
    is_read::<u8>(&rt, "0-3, 5, 9-12", THREE_RUNS);
    is_read::<u32>(&rt, "0-3,5,9-12", THREE_RUNS);
    is_read::<u64>(&rt, "", &[]);
    is_read::<u128>(&rt, "007", &[7]);
    is_read::<Block24>(&rt, "70-71, 4-6,5,4", &[4, 5, 6, 70, 71]);
    is_read::<u8>(&rt, "3-3", &[3]);
}

// A text that is no list, the fault, and what that says.
const FAULTS: &[(&str, RangesError, &str)] = &[
    (
        "18446744073709551615",
        RangesError::Number,
        "a number is too large",
    ),
    (
        "1-99999999999999999999, x",
        RangesError::Number,
        "a number is too large",
    ),
    ("x", RangesError::Text, "not a list of ranges"),
];

const BAD_TEXTS: &[&str] = &[
    ",", "1,", ",1", " 1", "1 ", "1 ,2", "1,  2", "-", "1-", "-1", "1--2", "1-2-3", "2-1", "+1",
    "a", "1;2", "{1}",
];

fn error_of(rt: &impl Test, text: &str) -> Option<RangesError> {
    BitSet::<u32>::from_ranges(rt.alloc(), text).err()
}

#[test]
fn other_texts_are_faults(rt: HostRuntime) {
    for text in BAD_TEXTS {
        expect_eq(&rt, &error_of(&rt, text), &Some(RangesError::Text));
    }
    for (text, fault, said) in FAULTS {
        expect_eq(&rt, &error_of(&rt, text), &Some(*fault));
        expect_eq(&rt, &&*ok(&rt, format!(in rt.alloc(); "{fault}")), said);
    }
}
