//! Walks over sets of millions of places.
use crate::expect::{Test, expect, expect_eq, ok};
use bit_set::{BitBlock, BitSet};

// A set of 1,048,576 bytes.
fn millions(rt: &impl Test, byte: u8) -> BitSet<u8> {
    let bytes = ok(rt, vec![in rt.alloc(); byte; 1_048_576]);
    ok(rt, BitSet::from_bytes_general(rt.alloc(), &bytes))
}

// How many elements a walk gives, and the last.
fn last_of<B: BitBlock>(set: &BitSet<B>) -> (usize, Option<usize>) {
    let (mut count, mut last) = (0usize, None);
    for item in set {
        count = count.wrapping_add(1);
        last = Some(item);
    }
    (count, last)
}

fn last_of_union<B: BitBlock>(a: &BitSet<B>, b: &BitSet<B>) -> (usize, Option<usize>) {
    let (mut count, mut last) = (0usize, None);
    for item in a.union(b) {
        count = count.wrapping_add(1);
        last = Some(item);
    }
    (count, last)
}

// How many elements a set has once another is joined to it, and whether the other is within it.
fn joined(rt: &impl Test, set: &mut BitSet<u8>, other: &BitSet<u8>) -> (usize, bool) {
    ok(rt, set.union_with(other));
    (set.count(), other.is_subset(set))
}

// A body that goes over all blocks once for each item would not end in time.
#[test]
fn millions_of_places_are_passed_once(rt: HostRuntime) {
    let mut a = millions(&rt, 0x80);
    let b = millions(&rt, 0x01);
    expect_eq(&rt, &last_of(&a), &(1048576, Some(8388600)));
    expect_eq(&rt, &last_of_union(&a, &b), &(2097152, Some(8388607)));
    expect(&rt, a.is_disjoint(&b));
    expect_eq(&rt, &joined(&rt, &mut a, &b), &(2097152, true));
}
