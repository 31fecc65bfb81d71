//! Merges and comparisons of two lists, with steps too, and the texts of lists.
use crate::expect::{Test, expect, expect_eq, list_of, ok};
use bit_words::bit_vec::{BitBlock, BitVec, BitsError, Merge, Steps};
use block24::Block24;
use std::alloc::AllocError;
use std::fmt;

// A list that is long enough for a summary, by which it is searched once it is merged with steps.
fn merged(rt: &impl Test, merge: Merge) -> (usize, Option<usize>, Option<usize>) {
    let mut bits = list_of::<Block24>(rt, 1600, &[1, 300, 1599]);
    let other = list_of(rt, 400, &[2, 300, 399]);
    if other.len() <= bits.len() {
        bits.merge_blocks(&other, merge, &mut Steps::new());
    }
    (
        bits.count_ones(),
        bits.first_one_from(2),
        bits.first_one_from(400),
    )
}

#[test]
fn a_long_list_is_searched_after_a_merge(rt: HostRuntime) {
    for (merge, wanted) in [
        (Merge::Union, (5, Some(2), Some(1599))),
        (Merge::Intersection, (1, Some(300), None)),
        (Merge::Difference, (2, Some(1599), Some(1599))),
        (Merge::Symmetric, (4, Some(2), Some(1599))),
    ] {
        expect_eq(&rt, &merged(&rt, merge), &wanted);
    }
}

// What two bytes become as blocks. It has no clause, so that a test that compares it does not carry one along.
fn merge_of_bytes<B: BitBlock>(merge: Merge, a: u8, b: u8) -> B {
    merge.of_blocks(B::from_byte(a), B::from_byte(b))
}

#[test]
fn two_blocks_merge(rt: HostRuntime) {
    for (merge, wanted) in [
        (Merge::Union, 0b1110),
        (Merge::Intersection, 0b1000),
        (Merge::Difference, 0b0100),
        (Merge::Symmetric, 0b0110),
    ] {
        expect_eq(&rt, &merge_of_bytes::<u16>(merge, 0b1100, 0b1010), &wanted);
    }
}

// Whether a list is within another, and whether it is apart from it, with steps and without.
fn relations<B: BitBlock>(first: &BitVec<B>, second: &BitVec<B>) -> [(bool, bool); 2] {
    let mut steps = Steps::new();
    let within = first.is_subset_of(second, &mut steps);
    let apart = first.is_disjoint_from(second, &mut steps);
    [
        (within, apart),
        (first.is_subset(second), first.is_disjoint(second)),
    ]
}

#[test]
fn lists_are_within_one_another_or_apart(rt: HostRuntime) {
    let low = list_of::<u128>(&rt, 400, &[200]);
    // The longer is within the shorter.
    let both = list_of(&rt, 201, &[100, 200]);
    expect_eq(&rt, &relations(&low, &both), &[(true, false); 2]);
    let apart = list_of(&rt, 700, &[101, 300, 699]);
    expect_eq(&rt, &relations(&both, &apart), &[(false, true); 2]);
}

// A list is shown as this text.
fn shows<B: BitBlock>(rt: &impl Test, bits: &BitVec<B>, text: &str) {
    let shown = ok(rt, format!(in rt.alloc(); "{bits:?}"));
    expect_eq(rt, &shown.as_str(), &text);
}

#[test]
fn lists_show_their_bits(rt: HostRuntime) {
    let bits = list_of::<u8>(&rt, 11, &[1, 10]);
    shows(
        &rt,
        &bits,
        "BitVec { storage: \"01000000 001\", nbits: 11 }",
    );
    let whole = list_of::<Block24>(&rt, 24, &[0, 23]);
    let text = "BitVec { storage: \"100000000000000000000001\", nbits: 24 }";
    shows(&rt, &whole, text);
    let empty = BitVec::new(rt.alloc());
    shows(&rt, &empty, "BitVec { storage: \"\", nbits: 0 }");
}

// Takes some calls, and fails from then on.
#[derive(Drop)]
struct Fails {
    taken: usize,
}

impl fmt::Write for Fails {
    fn write_str(&mut self, _s: &str) -> fmt::Result {
        if self.taken == 0 {
            return Err(fmt::Error);
        }
        self.taken -= 1;
        Ok(())
    }
}

// Whether a list is shown by this many calls, and how many of them are left.
fn shown(bits: &BitVec<u8>, taken: usize) -> (bool, usize) {
    let mut out = Fails { taken };
    let is_shown = fmt::Write::write_fmt(&mut out, format_args!("{bits:?}")).is_ok();
    (is_shown, out.taken)
}

#[test]
fn a_text_fails_where_the_formatter_does(rt: HostRuntime) {
    let bits = list_of::<u8>(&rt, 10, &[3, 9]);
    let (is_shown, left) = shown(&bits, 100);
    let calls = 100usize.saturating_sub(left);
    expect(&rt, is_shown && calls > 0);
    for taken in 0..=calls {
        assert!(rt; shown(&bits, taken).0 == (taken == calls), "at {taken}");
    }
}

#[test]
fn faults_have_their_texts(rt: HostRuntime) {
    for (fault, text) in [
        (BitsError::Length, "too many bits"),
        (BitsError::Memory(AllocError), "memory refused"),
    ] {
        let said = ok(&rt, format!(in rt.alloc(); "{fault}"));
        expect_eq(&rt, &said.as_str(), &text);
    }
}
