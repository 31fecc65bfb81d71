//! Bit vectors, as a caller writes them.
ghost use Rattle.std.specs.Prelude.{◌≡◌, ◌<◌, ◌++◌, ◌↔◌, false, true, length, replicate, slice_get, slice_set, IsTrue, OnErr, OnOk, Some};

use bit_words::bit_vec::{BitBlock, BitVec};
use std::alloc::AllocError;

/// Appends one true value.
pub fn push_true<B: BitBlock>(bits: &mut BitVec<B>) -> Result<(), AllocError>
    requires { length bits.old.values < usize.MAX }
    ensures ok { OnOk result (bits.new.values ≡ bits.old.values ++ replicate 1 true) }
    ensures err { OnErr result (bits.new ≡ bits.old) }
{
    bits.grow(1, true)
}

/// Makes value `i` true, and returns whether it was false: each index is new once.
pub fn mark<B: BitBlock>(bits: &mut BitVec<B>, i: usize) -> bool
    requires { i < length bits.old.values }
    ensures new { IsTrue result ↔ (slice_get bits.old.values i ≡ Some false) }
    ensures values { bits.new.values ≡ slice_set bits.old.values i true }
{
    !bits.replace(i, true)
}
