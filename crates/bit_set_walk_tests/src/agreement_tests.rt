//! Sets of the same elements over two block types: no test and no walk tells them apart, as the laws say.
ghost use Rattle.std.specs.Prelude.{◌≡◌, OnOk};
ghost use Rattle.bit_set.specs.Sets.{elements};

use crate::expect::{Test, expect_eq};
use bit_set::laws::{calls_are_set_algebra, full_walks, tests_agree, walks_agree};
use bit_set::{BitBlock, BitSet, Iter, SetError};
use block24::Block24;

// The same calls on two sets of the same elements: they have the same elements again.
fn change_both<A: BitBlock, B: BitBlock>(
    a: &mut BitSet<A>,
    b: &mut BitSet<B>,
    value: usize,
) -> Result<(), SetError>
    requires { elements a.old.values ≡ elements b.old.values }
    ensures { OnOk result (elements a.new.values ≡ elements b.new.values) }
{
    a.reserve_len(200)?;
    a.insert(value)?;
    b.insert(value)?;
    cut_both(a, b);
    b.shrink_to_fit()?;
    Ok(())
}

fn cut_both<A: BitBlock, B: BitBlock>(a: &mut BitSet<A>, b: &mut BitSet<B>)
    requires { elements a.old.values ≡ elements b.old.values }
    ensures { elements a.new.values ≡ elements b.new.values }
{
    a.truncate(100);
    b.truncate(100);
}

// The next item of two walks that have the same elements left.
fn next_of_both<A: BitBlock + 'static, B: BitBlock + 'static>(
    a: &mut Iter<'_, A>,
    b: &mut Iter<'_, B>,
) -> (Option<usize>, Option<usize>)
    requires { a.old.left ≡ b.old.left }
    ensures items { result.0 ≡ result.1 }
    ensures left { a.new.left ≡ b.new.left }
{
    walks_agree::<A, B>();
    (a.next(), b.next())
}

// How many items are left of two walks that have the same elements left.
fn left_of_both<A: BitBlock, B: BitBlock>(a: &Iter<'_, A>, b: &Iter<'_, B>) -> (usize, usize)
    requires { a.now.left ≡ b.now.left }
    ensures { result.0 ≡ result.1 }
{
    (a.clone().count(), b.clone().count())
}

// The first two items of each set, and how many follow.
fn walk_both<A: BitBlock + 'static, B: BitBlock + 'static>(
    a: &BitSet<A>,
    b: &BitSet<B>,
) -> (Option<usize>, Option<usize>, usize)
    requires { elements a.now.values ≡ elements b.now.values }
{
    let mut walk = a.iter();
    let mut other = b.iter();
    let first = next_of_both(&mut walk, &mut other);
    let second = next_of_both(&mut walk, &mut other);
    let left = left_of_both(&walk, &other);
    prove!(first.0 == first.1);
    prove!(second.0 == second.1);
    prove!(left.0 == left.1);
    (first.0, second.0, left.0)
}

// Puts 3, 40 and 77 into both, and 101, which is cut off again.
fn fill_both<A: BitBlock, B: BitBlock>(a: &mut BitSet<A>, b: &mut BitSet<B>) -> Result<(), SetError>
    requires { elements a.old.values ≡ elements b.old.values }
    ensures { OnOk result (elements a.new.values ≡ elements b.new.values) }
{
    for value in [77, 3, 40, 101] {
        change_both(a, b, value)?;
    }
    Ok(())
}

// {3, 40, 77} over two block types, with other lengths and capacities.
fn walked<A: BitBlock + 'static, B: BitBlock + 'static>(
    rt: &impl Test,
) -> (Option<usize>, Option<usize>, usize) {
    let mut a = BitSet::<A>::with_capacity_general(rt.alloc(), 500).expect(rt, "the call fails");
    let mut b = BitSet::<B>::new_general(rt.alloc());
    fill_both(&mut a, &mut b).expect(rt, "the call fails");
    tests_agree(&a, &a, &b, &b, 40);
    walk_both(&a, &b)
}

#[test]
fn sets_over_two_block_types_agree(rt: HostRuntime) {
    calls_are_set_algebra();
    full_walks::<u8>();
    for walked in [
        walked::<u8, u128>(&rt),
        walked::<Block24, u32>(&rt),
        walked::<usize, Block24>(&rt),
    ] {
        expect_eq(&rt, &walked, &(Some(3), Some(40), 1));
    }
}
