//! Laws over plain numbers and lists, stated as the contracts of functions that do nothing.
ghost use Rattle.std.specs.{Prelude.{◌≡◌, ℕ, ◌+◌, ◌-◌, ◌*◌, ◌^◌, ◌<◌, ◌≤◌, ◌↔◌, ◌==◌, Bool, true, Some, None, List, length, slice_get, slice_index}, Int.{bit_at, RustNames.count_ones}};
ghost use Rattle.std.specs.{Iterator.YieldsThen, List.{sum_by, count_by, range_with_len}};
ghost use Rattle.bit_blocks.specs.{Bits.{blocks_for, blocks_of, values_of_bytes, Bits, IsCapacityOfBlocks}, Lowest.LowestIsFound};
ghost use Rattle.bit_words.specs.Source.{Source};

use crate::bit_vec::Blocks;
use bit_blocks::block::BitBlock;

/// What the blocks of a list of truth values are. Block `k` has a 1 at digit `j` exactly if the list is true at
/// index `k * w + j`, and there are just enough blocks for the list.
pub fn blocks_of_values()
    ensures digits { (w k j : ℕ) (values : List Bool) → j < w → (bit_at (slice_index (blocks_of w values) k) j ≡ 1)
        ↔ (slice_get values (k * w + j) ≡ Some true) }
    ensures below { (w k : ℕ) (values : List Bool) → slice_index (blocks_of w values) k < 2 ^ w }
    ensures enough { (w : ℕ) (values : List Bool) → 0 < w → length values ≤ length (blocks_of w values) * w }
    ensures least { (w n : ℕ) (values : List Bool) → 0 < w → length values ≤ n * w → length (blocks_of w values) ≤ n }
{}

/// The list of some bytes: eight values for each byte, the value of its highest bit first.
pub fn values_of_each_byte()
    ensures len { (bytes : List ℕ) → length (values_of_bytes bytes) ≡ 8 * length bytes }
    ensures values { (bytes : List ℕ) (i j : ℕ) → i < length bytes → j < 8
        → slice_get (values_of_bytes bytes) (8 * i + j) ≡ Some (bit_at (slice_index bytes i) (7 - j) == 1) }
{}

/// The length that the blocks of a list allow: a bit vector whose capacity is that of whole blocks, which
/// `capacity` ensures of each, can fill its blocks without allocating.
pub fn capacity_of_whole_blocks()
    ensures { (w n : ℕ) (v : Bits) → IsCapacityOfBlocks w v → n ≤ 2 ^ 64 - 1 → n ≤ blocks_for w (length v.values) * w
        → n ≤ v.capacity }
{}

/// What complete iteration over blocks yields: the blocks that were left, each once and in order, by one pull for
/// each and one that finds the end.
pub fn walk_of_blocks<B: BitBlock + 'static>()
    ensures items { (s t : Source B) (items : List B)
        → YieldsThen ⟦<Blocks<'static, B> as Iterator>⟧.next_gives s items None t → items ≡ s.left }
    ensures pulls { (s t : Source B) (items : List B)
        → YieldsThen ⟦<Blocks<'static, B> as Iterator>⟧.next_gives s items None t
        → t.pulls ≡ s.pulls + length s.left + 1 }
{}

/// Counting the digits that are 1, block by block, counts the true values of a list. In one number, the count is
/// the sum of its digits.
pub fn ones_of_blocks()
    ensures blocks { (w : ℕ) (values : List Bool) → 0 < w
        → sum_by count_ones (blocks_of w values) ≡ count_by (λ value. value) values }
    ensures digits { (w m : ℕ) → m < 2 ^ w → count_ones m ≡ sum_by (bit_at m) (range_with_len 0 w) }
{}

/// How to remove the lowest 1 from a nonzero block, at every width. `!m + 1` does not wrap, `m & (!m + 1)` is only
/// that 1, one less than it has as many ones as its index, and `m & (m - 1)` is `m` with that digit set to 0.
pub fn lowest_one()
    ensures { (w m : ℕ) → 0 < m → m < 2 ^ w → (i : ℕ) × LowestIsFound w m i }
{}
