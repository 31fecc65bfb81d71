//! The uses of `BitMatrix` and of `BitVec`.
use crate::expect::{Test, expect, expect_eq, has_members, ok, ok_as_said, set_of};
use bit_matrix::BitMatrix;
use bit_set::BitSet;
use bit_words::bit_vec::BitVec;
use uses::bits::{mark, push_true};
use uses::matrices::{image, is_symmetric, remove_column};

#[test]
fn a_column_leaves_each_row(rt: HostRuntime) {
    let mut matrix = ok_as_said(&rt, BitMatrix::new(rt.alloc(), 2, 5));
    matrix.fill_row(1);
    remove_column(&mut matrix, 3);
    expect(&rt, matrix.iter(1).eq([0, 1, 2, 4]));
}

fn images(rt: &impl Test, matrix: &BitMatrix<u8>, from: &BitSet<u8>) -> BitSet<u8> {
    ok(rt, image(rt.alloc(), matrix, from))
}

#[test]
fn pairs_are_a_relation(rt: HostRuntime) {
    let mut matrix: BitMatrix<u8> = ok_as_said(&rt, BitMatrix::new_general(rt.alloc(), 3, 3));
    matrix.insert(0, 2);
    expect(&rt, !is_symmetric(&matrix));
    let from = set_of(&rt, &[0, 9]);
    has_members(&rt, &images(&rt, &matrix, &from), &[2]);
}

#[test]
fn pairs_lead_back(rt: HostRuntime) {
    let mut matrix: BitMatrix<u8> = ok_as_said(&rt, BitMatrix::new_general(rt.alloc(), 2, 2));
    matrix.insert(0, 1);
    matrix.insert(1, 0);
    expect(&rt, is_symmetric(&matrix));
}

#[test]
fn bits_are_appended_and_marked(rt: HostRuntime) {
    let mut bits: BitVec<u8> = ok_as_said(&rt, BitVec::from_elem_general(rt.alloc(), 8, false));
    ok_as_said(&rt, push_true(&mut bits));
    let new = [mark(&mut bits, 3), mark(&mut bits, 3)];
    expect_eq(&rt, &new, &[true, false]);
    expect_eq(&rt, &bits.storage(), &[8, 1].as_slice());
}
