//! The JSON form of sets: an object with one member, `bit_vec`, which is an object with the members `storage`, the
//! numbers of the blocks, and `nbits`, the length.
ghost use Rattle.std.specs.Prelude.{◌≡◌, Bool, List, [], alloc_error, IfErr, IfOk, IsErrOf, IsOk, length};
ghost use Rattle.bit_blocks.specs.Bits.{blocks_for, blocks_of, capacity_of};
ghost use Rattle.serde_json.specs.View.{view};
ghost use Rattle.set_algebra.specs.{Members.IsSameSet, Sets.elements};
ghost use Rattle.bit_set.specs.{Json.{IsFault, IsFirstFault, Spells}, declared.json.JsonError.JsonError};

use crate::BitSet;
use serde_json::Value;
use std::alloc::{AllocError, AllocFailed, Global};
use thiserror::Error;

mod block;
mod checking;
mod growing;
mod writing;

pub use block::JsonBlock;
use checking::entries_and_len;
use growing::bits_of_entries;
use writing::{form, numbers};

/// Why a value is not the JSON form of a set.
#[derive(Clone, Copy, Debug, PartialEq, Eq, Error)]
pub enum JsonError {
    /// A member is missing or unexpected, or something else stands where an object or an array must be.
    #[error("not the form of a bit set")]
    Shape,
    /// `nbits` or an entry of `storage` is not a number that `as_u64` returns, or the entry does not fit a block.
    #[error("a number out of range")]
    Number,
    /// The length requires another number of blocks.
    #[error("a wrong number of blocks")]
    Blocks,
    /// The last block has a 1 at an index at or past the length.
    #[error("a bit past the length")]
    Unclean,
    /// Memory for the set ran out.
    #[error("memory refused")]
    Memory(AllocError),
}

impl From<AllocError> for JsonError {
    ghost use Rattle.bit_set.specs.declared.json.JsonError.TheVariants.{Memory};

    ghost from_gives = { λ fault error. error ≡ Memory fault };

    fn from(fault: AllocError) -> JsonError {
        JsonError::Memory(fault)
    }
}

// So that `?` also works for a push to a `Vec`.
impl<T: Drop> From<AllocFailed<T>> for JsonError {
    ghost use Rattle.bit_set.specs.declared.json.JsonError.TheVariants.{Memory};

    ghost from_gives = { λ _ error. error ≡ Memory alloc_error };

    fn from(_fault: AllocFailed<T>) -> JsonError {
        JsonError::Memory(AllocError)
    }
}

impl<B: JsonBlock> BitSet<B> {
    /// The value that represents the blocks and the length: an object with one member, `bit_vec`, which is an
    /// object with the members `storage`, the numbers of the blocks, and `nbits`, the length. One step for each
    /// block. Fails only if memory runs out.
    ///
    /// The set {0, 2}, of length 3, gives `{"bit_vec": {"storage": [5], "nbits": 3}}`.
    pub fn to_json(&self, alloc: Global) -> Result<Value, AllocError>
        ensures { IfOk result (λ value. Spells B.width (view value) (blocks_of B.width self.now.values)
            (length self.now.values)) }
    {
        let bits = self.get_ref();
        let storage = numbers(alloc, bits.storage())?;
        form(alloc, storage, bits.len())
    }

    /// The set that a value represents. One step for each block and each element. The capacity is that of its
    /// blocks. The value is checked first, and the first fault in the order of [`JsonError`] is returned. `Memory`
    /// is returned only if the value represents a set, and never if that has length 0.
    pub fn from_json(alloc: Global, value: &Value) -> Result<Self, JsonError>
        ensures ok { IfOk result (λ set. Spells B.width (view value.now) (blocks_of B.width set.values)
            (length set.values)) }
        ensures members { (values : List Bool)
            → Spells B.width (view value.now) (blocks_of B.width values) (length values)
            → IfOk result (λ set. IsSameSet (elements set.values) (elements values)) }
        ensures capacity { IfOk result (λ set. set.capacity
            ≡ capacity_of B.width (blocks_for B.width (length set.values))) }
        ensures err { IfErr result (IsFault B.width (view value.now)) }
        ensures fault { (fault : JsonError) → IsFirstFault B.width (view value.now) fault → IsErrOf result fault }
        ensures empty { Spells B.width (view value.now) [] 0 → IsOk result }
    {
        let (entries, len) = entries_and_len::<B>(value)?;
        let bits = bits_of_entries::<B>(alloc, entries, len)?;
        Ok(BitSet::from_bit_vec_general(bits))
    }
}
