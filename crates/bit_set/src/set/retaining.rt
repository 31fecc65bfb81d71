// The call that keeps the elements that pass a test.
ghost use Rattle.std.specs.{Prelude.{◌≡◌, ℕ, ◌^◌, ◌<◌, ◌≤◌, ◌&&◌, All, Bool, List, [], false, length}, Bool.MatchBool, Fn.Called, Iterator.Runs.CallKeepsClosure, List.Retain.IsFiltered};
ghost use Rattle.set_algebra.specs.Sets.{elements, has};
ghost use Rattle.bit_set.specs.{Changes.{Change, Changes, Outcome.Done}, Retained.{HasTested, ones}, Sizes.KeepsSize};

use crate::bit_vec::{block_or_zero, take_lowest_one, with_bit};
use crate::{BitBlock, BitSet};

// The block with those of its ones for which `keep` returns true, called for the index of each in ascending order.
// The first digit has the index `index`.
#[inline]
fn kept_ones<B: BitBlock, F: FnMut(usize) -> bool>(block: B, index: usize, keep: &mut F) -> B
    requires callable { F.IsAlwaysCallable keep.old }
    requires of_block { B.is_block block }
    requires fits { All (λ n. n < 2 ^ 64) (ones B.width index (B.number block)) }
    ensures of_block { B.is_block result }
    ensures tested { HasTested (λ state value passed next. F.step state value passed next) keep.old
        (ones B.width index (B.number block)) keep.new (ones B.width index (B.number result)) [] }
    ensures callable { F.IsAlwaysCallable keep.new }
{
    let mut rest = block;
    let mut kept = block;
    while rest != B::zero() {
        let bit = take_lowest_one(&mut rest);
        if !keep(index + bit) {
            kept = with_bit(kept, bit, false);
        }
    }
    kept
}

impl<B: BitBlock> BitSet<B> {
    /// Keeps the elements for which `keep` returns true. It is called once for each element, in ascending order.
    /// The length stays. One search for each nonzero block, and one write of it; constant time within a block.
    ///
    /// ```
    /// let mut set = BitSet::from_bytes(alloc, &[0b0100_1010])?;
    /// set.retain(|value| value != 4);
    /// assert!(set.iter().eq([1, 6]));
    /// ```
    pub fn retain<F: FnMut(usize) -> bool>(&mut self, mut keep: F)
        requires { F.IsAlwaysCallable keep }
        ensures elements { IsFiltered (λ state value passed next. F.step state value passed next) keep
            (elements self.old.values) (elements self.new.values) }
        ensures members { (test : ℕ → Bool)
            → ((value : ℕ) (passed : Bool) (next : F) → F.step keep value passed next → (passed ≡ test value) × (next ≡ keep))
            → (n : ℕ) → has (elements self.new.values) n ≡ (test n && has (elements self.old.values) n) }
        ensures asked { CallKeepsClosure F.FnMut keep → (n : ℕ) → MatchBool (has (elements self.old.values) n)
            (Called F.FnMut keep (n, tt) (has (elements self.new.values) n) keep) (has (elements self.new.values) n ≡ false) }
        ensures count { length (elements self.new.values) ≤ length (elements self.old.values) }
        ensures size { KeepsSize self.old self.new }
        ensures changes { (answers : List Bool)
            × Changes (Change.Retain answers) self.old.values Done self.new.values }
    {
        let mut from = 0;
        while let Some(value) = self.next(from) {
            let k = value / B::bits();
            let index = k * B::bits();
            let block = block_or_zero(self.bits.storage(), k);
            let kept = kept_ones(block, index, &mut keep);
            self.bits.keep_in_block(k, kept);
            from = index.saturating_add(B::bits());
        }
    }
}
