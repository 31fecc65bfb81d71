//! The rows of equality, order, hash and texts, with their exact results.
ghost use Rattle.std.specs.Prelude.{◌+◌, ◌*◌, ◌%◌, ◌^◌, fold};

use crate::expect::{Test, expect, expect_at, expect_eq, ok, set_of, set_of_bytes, shows};
use bit_set::{BitBlock, BitSet};
use block24::Block24;
use std::cmp::Ordering;
use std::collections::{BTreeMap, HashMap};
use std::fmt;
use std::hash::{Hash, Hasher};

// Counts the calls of `write`, and keeps the last sixteen bytes that it was fed, the first byte
// highest.
#[derive(Drop)]
struct Recorder {
    calls: u64,
    bytes: u128,
}

impl Hasher for Recorder {
    ghost write = { λ s bytes. record {
      calls = (s.calls + 1) % 2 ^ 64;
      bytes = fold (λ n b. (n * 256 % 2 ^ 128 + b) % 2 ^ 128) s.bytes bytes;
    } };

    ghost finish = { λ s. s.calls };

    fn finish(&self) -> u64 {
        self.calls
    }

    fn write(&mut self, bytes: &[u8]) {
        self.calls = self.calls.wrapping_add(1);
        for byte in bytes {
            self.bytes = self.bytes.wrapping_mul(256).wrapping_add(*byte as u128);
        }
    }
}

// How many writes a set feeds, and their bytes.
fn feed<B: BitBlock>(set: &BitSet<B>) -> (u64, u128) {
    let mut recorder = Recorder { calls: 0, bytes: 0 };
    set.hash(&mut recorder);
    (recorder.calls, recorder.bytes)
}

// What the set of 1 and 10 feeds, each as eight bytes, the lowest first.
fn feeds_one_and_ten<B: BitBlock>(rt: &impl Test, numbers: &[usize]) {
    let fed = feed(&set_of::<B>(rt, numbers));
    expect_eq(rt, &fed, &(2, 0x0100_0000_0000_0000_0a00_0000_0000_0000));
}

#[test]
fn each_element_is_fed_once(rt: HostRuntime) {
    feeds_one_and_ten::<u8>(&rt, &[1, 10]);
    feeds_one_and_ten::<u64>(&rt, &[10, 1]);
    feeds_one_and_ten::<Block24>(&rt, &[1, 10]);
    feeds_one_and_ten::<u128>(&rt, &[10, 1]);
}

#[test]
fn sets_show_their_elements(rt: HostRuntime) {
    shows(&rt, &set_of::<u32>(&rt, &[1, 10, 50, 2]), "{1, 2, 10, 50}");
    shows(&rt, &set_of::<u32>(&rt, &[]), "{}");
    shows(&rt, &set_of::<Block24>(&rt, &[18446744]), "{18446744}");
}

// What its bit vector is shown as.
fn shows_bits<B: BitBlock>(rt: &impl Test, numbers: &[usize], text: &str) {
    let set = set_of::<B>(rt, numbers);
    let shown = ok(rt, format!(in rt.alloc(); "{set:?}"));
    expect_eq(rt, &shown.as_str(), &text);
}

const OF_51: &str =
    "BitSet { bit_vec: BitVec { storage: \"01100000001000000000000000000000 0000000000000000001\", nbits: 51 } }";

const OF_NONE: &str = "BitSet { bit_vec: BitVec { storage: \"\", nbits: 0 } }";

const OF_11: &str = "BitSet { bit_vec: BitVec { storage: \"01000000 001\", nbits: 11 } }";

#[test]
fn sets_show_their_bit_vectors(rt: HostRuntime) {
    shows_bits::<u32>(&rt, &[1, 10, 50, 2], OF_51);
    shows_bits::<u32>(&rt, &[], OF_NONE);
    shows_bits::<u8>(&rt, &[1, 10], OF_11);
}

// Takes some calls, and fails from then on.
#[derive(Drop)]
struct Fails {
    taken: usize,
}

impl fmt::Write for Fails {
    fn write_str(&mut self, _s: &str) -> fmt::Result {
        if self.taken == 0 {
            return Err(fmt::Error);
        }
        self.taken -= 1;
        Ok(())
    }
}

// Whether a set, or its bit vector, is shown by this many calls, and how many of them are left.
fn shown(set: &BitSet<u8>, debug: bool, taken: usize) -> (bool, usize) {
    let mut out = Fails { taken };
    let ended = if debug {
        fmt::Write::write_fmt(&mut out, format_args!("{set:?}"))
    } else {
        fmt::Write::write_fmt(&mut out, format_args!("{set}"))
    };
    (ended.is_ok(), out.taken)
}

#[test]
fn a_text_fails_where_the_formatter_does(rt: HostRuntime) {
    let set = set_of(&rt, &[3, 4]);
    for debug in [false, true] {
        let (is_shown, left) = shown(&set, debug, 100);
        let calls = 100usize.saturating_sub(left);
        // A brace, a number, a comma, a number and a brace.
        expect(&rt, is_shown && (debug || calls == 5));
        for taken in 0..=calls {
            expect_at(&rt, taken, shown(&set, debug, taken).0 == (taken == calls));
        }
    }
}

fn orders<B: BitBlock>(a: &BitSet<B>, b: &BitSet<B>) -> [Ordering; 2] {
    [a.cmp(b), b.cmp(a)]
}

// The first of two sets is less, seen from each.
fn come_in_order<B: BitBlock>(rt: &impl Test, a: &[usize], b: &[usize]) {
    let found = orders::<B>(&set_of(rt, a), &set_of(rt, b));
    expect_eq(rt, &found, &[Ordering::Less, Ordering::Greater]);
}

#[test]
fn sets_compare_as_lists(rt: HostRuntime) {
    come_in_order::<u8>(&rt, &[3], &[3, 90]);
    come_in_order::<Block24>(&rt, &[3, 23, 24], &[3, 24]);
}

// Three sets, two of them equal.
const KEYS: [(&[usize], char); 3] = [(&[1, 1], 'a'), (&[0, 1], 'b'), (&[1, 0], 'c')];

fn sorted_at(names: &BTreeMap<BitSet<u8>, char>, set: &BitSet<u8>) -> (usize, Option<char>) {
    (names.len(), names.get(set).copied())
}

// How many keys a sorted map has of these, and what is at a longer set of the same elements.
fn sorted(rt: &impl Test) -> (usize, Option<char>) {
    let mut names = BTreeMap::new(rt.alloc());
    for (numbers, name) in KEYS {
        ok(rt, names.insert(set_of(rt, numbers), name));
    }
    sorted_at(&names, &set_of_bytes(rt, &[0b1100_0000, 0]))
}

fn hashed_at(names: &HashMap<BitSet<u8>, char>, set: &BitSet<u8>) -> (usize, Option<char>) {
    (names.len(), names.get(set).copied())
}

// How many keys a map by hashes has of these, and what is at a longer set of the same elements.
fn hashed(rt: &impl Test) -> (usize, Option<char>) {
    let mut names = HashMap::new(rt.alloc());
    for (numbers, name) in KEYS {
        ok(rt, names.insert(set_of(rt, numbers), name));
    }
    hashed_at(&names, &set_of_bytes(rt, &[0b1100_0000, 0]))
}

#[test]
fn sets_are_keys(rt: HostRuntime) {
    expect_eq(&rt, &sorted(&rt), &(2, Some('c')));
    expect_eq(&rt, &hashed(&rt), &(2, Some('c')));
}
