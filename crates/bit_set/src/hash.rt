//! The hash of a set, which depends only on its elements.
ghost use Rattle.std.{specs.Cmp.Lexicographic.bytes_decides, proofs.Common.ap};
ghost use Rattle.set_algebra.specs.{Sets.elements, Order.fed_of_set};

use crate::{BitBlock, BitSet};
use std::hash::{Hash, Hasher};

/// Feeds each element as a `usize`, in ascending order, and nothing else.
impl<B: BitBlock> Hash for BitSet<B> {
    ghost hash_input = { λ s. fed_of_set (elements s.values) };

    ghost respects_eq = { λ s t same. ap fed_of_set ((bytes_decides (elements s.values) (elements t.values)).0 same) };

    fn hash<H: Hasher>(&self, state: &mut H) {
        for item in self {
            state.write_usize(item);
        }
    }
}
