//! What walks pull and count, and the bytes of a set.
ghost use Rattle.std.specs.Prelude.{◌≡◌, ℕ, ◌-◌, ◌≤◌, ◌^◌, Bool, None, List, [], ◌∷◌, length};
ghost use Rattle.std.specs.Iterator.{UpTo, YieldsThen};
ghost use Rattle.bit_blocks.specs.Bits.{blocks_for};
ghost use Rattle.bit_set.specs.Sets.{elements};
ghost use Rattle.bit_set.specs.Walk.{Walk, IsAtStart};

mod two_sets;

use crate::expect::{expect_eq, ok, set_of};
use bit_set::laws::{sparse_walks, whole_walks};
use bit_set::{BitSet, Iter};
use block24::Block24;

// A set of 401 places over `u32` has 13 blocks, and its whole walk makes 14 pulls at most.
fn pulls_at_401_places()
    ensures { (values : List Bool) (s t : Walk) (items : List ℕ) → length values ≡ 401 → IsAtStart 32 values s
        → YieldsThen ⟦<Iter<'static, u32> as Iterator>⟧.next_gives s items None t → t.pulls ≤ 14 }
{
    whole_walks::<u32>();
}

// Over `u32` the whole walk of {400} pulls two blocks and once more at the end, that of {0, 100000} too, and that of a
// set without an element the first block alone. The summary of 3126 blocks, in 98, is pulled once each and once more.
fn pulls_of_sparse_sets()
    ensures one { (values : List Bool) (s t : Walk) (items : List ℕ) → elements values ≡ 400 ∷ []
        → IsAtStart 32 values s → YieldsThen ⟦<Iter<'static, u32> as Iterator>⟧.next_gives s items None t
        → t.pulls ≡ 3 }
    ensures two { (values : List Bool) (s t : Walk) (items : List ℕ) → elements values ≡ 0 ∷ 100000 ∷ []
        → IsAtStart 32 values s → YieldsThen ⟦<Iter<'static, u32> as Iterator>⟧.next_gives s items None t
        → t.pulls ≡ 3 }
    ensures none { (values : List Bool) (s t : Walk) (items : List ℕ) → elements values ≡ [] → IsAtStart 32 values s
        → YieldsThen ⟦<Iter<'static, u32> as Iterator>⟧.next_gives s items None t → t.pulls ≡ 2 }
    ensures summary { (values : List Bool) (s t : Walk) (items : List ℕ) → length values ≡ 100001
        → IsAtStart 32 values s → YieldsThen ⟦<Iter<'static, u32> as Iterator>⟧.next_gives s items None t
        → t.summary_pulls ≡ 99 }
    ensures blocks { (blocks_for 32 100001 ≡ 3126) × (blocks_for 32 3126 ≡ 98) }
{
    sparse_walks::<u32>();
}

// What generic code counts.
pub(crate) fn counted<I: Iterator<Item = usize>>(items: I) -> usize
    requires may_call { I.can_next items }
    requires few { UpTo (I.remaining items) (2 ^ 64 - 1) }
{
    items.count()
}

fn counts(set: &BitSet) -> [usize; 4] {
    [
        set.iter().count(),
        counted(set.iter()),
        counted(set.missing(0..400)),
        counted(set.range(4..401)),
    ]
}

#[test]
fn walks_are_counted(rt: HostRuntime) {
    pulls_at_401_places();
    pulls_of_sparse_sets();
    let set = set_of(&rt, &[3, 4, 100, 400]);
    expect_eq(&rt, &counts(&set), &[4, 4, 397, 3]);
}

// The calls for blocks of any type. Those for `u32` are examples.
#[test]
fn the_bytes_are_those_that_were_read_lowest_bit_first(rt: HostRuntime) {
    let bytes = [0b0100_1010, 3, 0, 255];
    let made = BitSet::<Block24>::from_bytes_lsb_general(rt.alloc(), &bytes);
    let set = ok(&rt, made);
    let written = ok(&rt, set.to_bytes_lsb(rt.alloc()));
    expect_eq(&rt, &written.as_slice(), &bytes.as_slice());
}
