//! The JSON form: rows with their exact results, from texts that `serde_json` reads, and each call over each type
//! of blocks.
use crate::expect::{Test, expect, expect_eq, ok, set_of, shows};
use crate::steps::{has_just, len_of};
use bit_set::bit_vec::BitVec;
use bit_set::{BitSet, JsonBlock, JsonError};
use serde_json::Value;
use std::alloc::AllocError;

// What a text gives: a set and its length, or a fault.
fn outcome<B: JsonBlock>(rt: &impl Test, text: &str) -> String {
    let value = ok(rt, Value::from_str(rt.alloc(), text));
    match BitSet::<B>::from_json(rt.alloc(), &value) {
        Ok(set) => ok(rt, format!(in rt.alloc(); "{set} of {}", len_of(&set))),
        Err(fault) => ok(rt, format!(in rt.alloc(); "{fault:?}")),
    }
}

// Ends the test where a text gives something else.
fn gives<B: JsonBlock>(rt: &impl Test, text: &str, wanted: &str) {
    let found = outcome::<B>(rt, text);
    assert_eq!(rt; found.as_str(), wanted, "of {text}");
}

// The texts of `storage` and `nbits`, and the outcome.
type Row = (&'static str, &'static str, &'static str);

fn give<B: JsonBlock>(rt: &impl Test, rows: &[Row]) {
    for row in rows {
        let (storage, nbits, wanted) = *row;
        let text = format!(in rt.alloc();
            "{{\"bit_vec\": {{\"storage\": {storage}, \"nbits\": {nbits}}}}}"
        );
        gives::<B>(rt, ok(rt, text).as_str(), wanted);
    }
}

fn text_of<B: JsonBlock>(rt: &impl Test, set: &BitSet<B>) -> String {
    let value = ok(rt, set.to_json(rt.alloc()));
    ok(rt, value.to_string(rt.alloc()))
}

// A set goes to text and back.
fn goes_round<B: JsonBlock>(rt: &impl Test, set: &BitSet<B>) {
    let text = text_of(rt, set);
    let value = ok(rt, Value::from_str(rt.alloc(), text.as_str()));
    let back: BitSet<B> = ok(rt, BitSet::from_json(rt.alloc(), &value));
    expect(rt, back == *set && len_of(&back) == len_of(set));
}

#[test]
fn sets_are_spelt(rt: HostRuntime) {
    let text = text_of::<u32>(&rt, &set_of(&rt, &[11, 42, 100, 101]));
    let wanted = "{\"bit_vec\":{\"nbits\":102,\"storage\":[2048,1024,0,48]}}";
    expect_eq(&rt, &text.as_str(), &wanted);
    let text = text_of(&rt, &BitSet::new(rt.alloc()));
    let wanted = "{\"bit_vec\":{\"nbits\":0,\"storage\":[]}}";
    expect_eq(&rt, &text.as_str(), &wanted);
}

const SHAPES: &[&str] = &[
    "null",
    "[]",
    "{}",
    "{\"bit_vec\": null}",
    "{\"bit_vec\": {}}",
    "{\"bit_set\": {\"storage\": [8], \"nbits\": 4}}",
    "{\"bit_vec\": {\"storage\": [8], \"nbits\": 4}, \"more\": 1}",
    "{\"bit_vec\": {\"storage\": [8], \"nbits\": 4, \"more\": 1}}",
    "{\"bit_vec\": {\"storage\": [8], \"nbits\": \"4\", \"more\": 1}}",
    "{\"bit_vec\": {\"storage\": {}, \"nbits\": 4}}",
    "{\"bit_vec\": {\"storage\": 8, \"nbits\": \"4\"}}",
    "{\"bit_vec\": {\"nbits\": 4}}",
    "{\"bit_vec\": {\"storage\": [8]}}",
    "{\"bit_vec\": {\"blocks\": [8], \"nbits\": 4}}",
    "{\"storage\": [8], \"nbits\": 4}",
];

// Of members of one name `serde_json` keeps the last.
const TWICE: &[(&str, &str)] = &[
    (
        "{\"bit_vec\": {\"storage\": [16], \"nbits\": 4, \"storage\": [8]}}",
        "{3} of 4",
    ),
    (
        "{\"bit_vec\": {\"storage\": [8], \"nbits\": 4, \"storage\": [16]}}",
        "Unclean",
    ),
    (
        "{\"bit_vec\": null, \"bit_vec\": {\"storage\": [8], \"nbits\": 4}}",
        "{3} of 4",
    ),
];

#[test]
fn the_shape_is_asked_for(rt: HostRuntime) {
    for text in SHAPES {
        gives::<u32>(&rt, text, "Shape");
    }
    for (text, wanted) in TWICE {
        gives::<u32>(&rt, text, wanted);
    }
}

const ROWS_OF_32: &[Row] = &[
    ("[8]", "4", "{3} of 4"),
    ("[]", "0", "{} of 0"),
    ("[16]", "4", "Unclean"),
    ("[8, 0]", "4", "Blocks"),
    ("[16, 0]", "4", "Blocks"),
    ("[1]", "33", "Blocks"),
    ("[]", "1", "Blocks"),
    ("[]", "18446744073709551615", "Blocks"),
    ("[0, 4294967295]", "63", "Unclean"),
    ("[4294967296]", "4", "Number"),
    ("[4294967296, 1]", "4", "Number"),
];

const NUMBERS: &[Row] = &[
    ("[8]", "4.0", "Number"),
    ("[-1]", "4", "Number"),
    ("[8]", "\"4\"", "Number"),
    ("[8]", "null", "Number"),
    ("[8]", "-4", "Number"),
    ("[8.0]", "4", "Number"),
    ("[1e0]", "4", "Number"),
    ("[1]", "1e0", "Number"),
    ("[-0]", "4", "Number"),
    ("[\"8\"]", "4", "Number"),
    ("[null]", "4", "Number"),
    ("[[8]]", "4", "Number"),
    ("[8, null]", "4", "Number"),
    ("[]", "18446744073709551616", "Number"),
    ("[18446744073709551616]", "64", "Number"),
];

const ROWS_OF_8: &[Row] = &[
    ("[256]", "4", "Number"),
    ("[256, 1]", "9", "Number"),
    ("[255]", "7", "Unclean"),
    ("[127]", "7", "{0, 1, 2, 3, 4, 5, 6} of 7"),
    ("[0]", "0", "Blocks"),
    ("[0]", "1", "{} of 1"),
];

const ROWS_OF_16: &[Row] = &[
    ("[65536]", "17", "Number"),
    ("[32768, 1]", "17", "{15, 16} of 17"),
];

const ROWS_OF_64: &[Row] = &[
    ("[9223372036854775808]", "64", "{63} of 64"),
    ("[18446744073709551615]", "63", "Unclean"),
    ("[18446744073709551616]", "64", "Number"),
];

#[test]
fn blocks_of_each_width_are_read(rt: HostRuntime) {
    give::<u8>(&rt, ROWS_OF_8);
    give::<u16>(&rt, ROWS_OF_16);
    give::<u32>(&rt, ROWS_OF_32);
    give::<u32>(&rt, NUMBERS);
    give::<u64>(&rt, ROWS_OF_64);
    give::<usize>(&rt, ROWS_OF_64);
}

// Elements in the reach of each width.
const REACHES: &[usize] = &[0, 7, 8, 31, 63, 64, 130];

#[test]
fn blocks_of_each_width_go_round(rt: HostRuntime) {
    goes_round::<u8>(&rt, &set_of(&rt, REACHES));
    goes_round::<u16>(&rt, &set_of(&rt, REACHES));
    goes_round::<u32>(&rt, &set_of(&rt, REACHES));
    goes_round::<u64>(&rt, &set_of(&rt, REACHES));
    goes_round::<usize>(&rt, &set_of(&rt, REACHES));
    let ones = ok(&rt, BitVec::from_elem(rt.alloc(), 1_000_000, true));
    goes_round(&rt, &BitSet::from_bit_vec(ones));
}

const TEXTS: &[(JsonError, &str)] = &[
    (JsonError::Shape, "not the form of a bit set"),
    (JsonError::Number, "a number out of range"),
    (JsonError::Blocks, "a wrong number of blocks"),
    (JsonError::Unclean, "a bit past the length"),
    (JsonError::Memory(AllocError), "memory refused"),
];

#[test]
fn faults_have_texts(rt: HostRuntime) {
    for (fault, text) in TEXTS {
        shows(&rt, fault, text);
    }
}

// Reads a set and puts its length at the end of a list: one `?` serves both.
fn keep_length(
    rt: &impl Test,
    lengths: &mut Vec<usize>,
    value: &Value,
) -> Result<BitSet, JsonError> {
    let set = BitSet::from_json(rt.alloc(), value)?;
    lengths.push(set.get_ref().len())?;
    Ok(set)
}

#[test]
fn a_set_is_read_and_a_list_grows_in_one_function(rt: HostRuntime) {
    let text = "{\"bit_vec\": {\"storage\": [5], \"nbits\": 3}}";
    let value = ok(&rt, Value::from_str(rt.alloc(), text));
    let mut lengths = Vec::new(rt.alloc());
    let set = ok(&rt, keep_length(&rt, &mut lengths, &value));
    expect(&rt, has_just(&set, &[0, 2]));
    expect_eq(&rt, &lengths.as_slice(), &[3].as_slice());
}
