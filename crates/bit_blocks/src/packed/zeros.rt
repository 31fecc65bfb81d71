// Blocks that are 0 at the ends of a slice of blocks.
ghost use Rattle.std.specs.Prelude.{◌≡◌, ◌≢◌, ℕ, ◌+◌, ◌-◌, ◌*◌, ◌<◌, ◌≤◌, ◌↔◌, All, IsTrue, get_or, length, map};

use crate::block::BitBlock;
use crate::block::operators::same;
use crate::packed::access::block_at;
use crate::packed::differences::{are_others, differing_group};
use crate::packed::groups::GROUP;
use crate::packed::others::Zeros;

/// How many zero blocks there are before the first nonzero one.
#[inline]
pub fn zeros_before<B: BitBlock>(blocks: &[B]) -> usize
    requires each { All B.is_block blocks.now }
    ensures within { result ≤ length blocks.now }
    ensures zeros { (k : ℕ) → k < result → get_or (map B.number blocks.now) k 0 ≡ 0 }
    ensures end { result < length blocks.now → get_or (map B.number blocks.now) result 0 ≢ 0 }
{
    // Most often it is the first: that is not worth a group.
    if !blocks.is_empty() && !same(block_at(blocks, 0), B::zero()) {
        return 0;
    }
    let zeros = Zeros {
        count: blocks.len(),
    };
    let groups = differing_group(blocks, zeros, 0, blocks.len() / GROUP, GROUP);
    for k in groups * GROUP..blocks.len() {
        if !same(block_at(blocks, k), B::zero()) {
            return k;
        }
    }
    blocks.len()
}

// How many blocks are left where groups of zeros at the end are taken away.
#[inline]
fn without_zero_groups<B: BitBlock>(blocks: &[B]) -> usize
    requires each { All B.is_block blocks.now }
    ensures within { result ≤ length blocks.now }
    ensures zeros { (k : ℕ) → result ≤ k → get_or (map B.number blocks.now) k 0 ≡ 0 }
{
    let zeros = Zeros {
        count: blocks.len(),
    };
    for group in 0..blocks.len() / GROUP {
        let end = blocks.len() - group * GROUP;
        if !are_others(blocks, zeros, end - GROUP, GROUP) {
            return end;
        }
    }
    blocks.len() % GROUP
}

/// How many blocks there are up to the last nonzero one. Reads them from the back.
pub fn used_blocks<B: BitBlock>(blocks: &[B]) -> usize
    requires { All B.is_block blocks.now }
    ensures within { result ≤ length blocks.now }
    ensures zeros { (k : ℕ) → result ≤ k → get_or (map B.number blocks.now) k 0 ≡ 0 }
    ensures last { 0 < result → get_or (map B.number blocks.now) (result - 1) 0 ≢ 0 }
{
    for k in (0..without_zero_groups(blocks)).rev() {
        if !same(block_at(blocks, k), B::zero()) {
            return k + 1;
        }
    }
    0
}

/// Whether all blocks are 0.
pub fn are_zero<B: BitBlock>(blocks: &[B]) -> bool
    requires { All B.is_block blocks.now }
    ensures { IsTrue result ↔ All (λ block. B.number block ≡ 0) blocks.now }
{
    zeros_before(blocks) == blocks.len()
}
