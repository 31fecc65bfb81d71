//! Blocks of each type, and what is read of lists of them.
use crate::expect::{expect, expect_eq};
use bit_words::bit_vec::{BitBlock, block_or_zero, has_one_from, take_lowest_one};
use block24::Block24;

// The ones of a byte, of its complement, and of what is left of it once only its low four bits fit above and the
// low one of those is dropped.
fn counts<B: BitBlock>(byte: u8) -> [usize; 3] {
    let low = B::from_byte(byte);
    let high = low.shift_left(B::bits() - 4);
    let dropped = high.shift_right(B::bits() - 3);
    [low.count_ones(), (!low).count_ones(), dropped.count_ones()]
}

#[test]
fn bits_move_within_the_width(rt: HostRuntime) {
    for (counts, wanted) in [
        (counts::<u8>(0b0100_1011), [4, 4, 2]),
        (counts::<u16>(0b0100_1011), [4, 12, 2]),
        (counts::<Block24>(0b0100_1011), [4, 20, 2]),
        (counts::<u32>(0b0100_1011), [4, 28, 2]),
        (counts::<u64>(0b0100_1011), [4, 60, 2]),
        (counts::<usize>(0b0100_1011), [4, 60, 2]),
        (counts::<u128>(0b0100_1011), [4, 124, 2]),
    ] {
        expect_eq(&rt, &counts, &wanted);
    }
}

// The digits on both sides of the middle of a block of 128, which the machine keeps as two words.
#[test]
fn digits_pass_the_middle_of_a_wide_block(rt: HostRuntime) {
    let middle = u128::from_byte(0b1100_0000).shift_left(57);
    // The values are facts for the operations below.
    assert_eq!(rt;
        [middle, middle.shift_left(64), middle.shift_right(63)],
        [
            27670116110564327424,
            170141183460469231731687303715884105728,
            3
        ]
    );
    let one = middle & (!middle + u128::one());
    assert_eq!(rt;
        [one, middle - one],
        [9223372036854775808, 18446744073709551616]
    );
    expect_eq(&rt, &BitBlock::count_ones(middle - u128::one()), &64);
}

// The highest digit of an odd block is its own complement and one, so that it is the lowest one too.
#[test]
fn the_highest_digit_of_an_odd_block(rt: HostRuntime) {
    expect_eq(&rt, &!Block24::zero(), &Block24(16777215));
    let block = Block24(8388608);
    let wrapping_neg = !block + Block24(1);
    expect_eq(&rt, &wrapping_neg, &block);
    let below = (block & wrapping_neg) - Block24(1);
    expect_eq(&rt, &BitBlock::count_ones(below), &23);
    let mut rest = block;
    expect_eq(&rt, &take_lowest_one(&mut rest), &23);
    expect_eq(&rt, &rest, &Block24(0));
}

#[test]
fn past_the_end_a_block_is_zero(rt: HostRuntime) {
    expect_eq(&rt, &block_or_zero(&[7u8], 0), &7);
    expect_eq(&rt, &block_or_zero(&[7u8], 1), &0);
    expect(&rt, has_one_from(Block24(0x80_0000), 23));
    expect(&rt, !has_one_from(0b0100u8, 3));
}
