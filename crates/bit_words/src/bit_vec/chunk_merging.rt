// Calls that merge a second list into some of the values of the list, as many as one block of the summary is about.
ghost use Rattle.std.specs.Prelude.{◌≡◌, ℕ, ◌+◌, ◌*◌, ◌<◌, ◌≤◌, false, length, true};
ghost use Rattle.bit_blocks.specs.{Bits.blocks_for, Merges.merge_of_values};
ghost use Rattle.bit_words.specs.Chunks.{MergesBetween};

use crate::bit_vec::BitVec;
use crate::summary::merges::in_chunk::merge_chosen_in_chunk;
use bit_blocks::block::BitBlock;
use bit_blocks::block::merge::Merge;
use bit_blocks::packed::access::block_count;

impl<B: BitBlock> BitVec<B> {
    /// How many chunks the list has: each is as many blocks as a block has bits, and the last is what remains.
    /// Constant time.
    ///
    /// ```
    /// // Of 72 values, over blocks of 8 bits.
    /// assert_eq!(bits.chunk_count(), 2);
    /// ```
    #[inline]
    pub fn chunk_count(&self) -> usize
        ensures value { result ≡ blocks_for B.width (blocks_for B.width (length self.now.values)) }
        ensures each { (q : ℕ) → q < result → q * B.width * B.width < length self.now.values }
        ensures all { length self.now.values ≤ result * B.width * B.width }
    {
        block_count::<B>(self.blocks.len())
    }

    /// Each value of a chunk becomes its merge with that of `other`, which counts as false past its end. The values
    /// of other chunks stay. The chunk must have a value, and `other` must not be longer if the merge makes a false
    /// value true. Reads and writes each block of the chunk once, and allocates nothing. To merge many lists into
    /// one while the blocks of a chunk are in the cache, merge all of them before the next chunk.
    ///
    /// ```
    /// // Of 72 values, over blocks of 8 bits, those at 5 and 70 are true, and in `other` those at 6 and 71.
    /// bits.merge_chunk_with(&other, Merge::Union, 1);
    /// assert_eq!(bits.storage(), [0b0010_0000, 0, 0, 0, 0, 0, 0, 0, 0b1100_0000].as_slice());
    /// ```
    #[inline(always)]
    pub fn merge_chunk_with(&mut self, other: &Self, merge: Merge, chunk: usize)
        requires some { chunk * B.width * B.width < length self.old.values }
        requires fits { length self.old.values < length other.now.values
            → merge_of_values merge false true ≡ false }
        ensures values { MergesBetween merge (chunk * B.width * B.width) ((chunk + 1) * B.width * B.width)
            self.old.values other.now.values self.new.values }
        ensures capacity { self.new.capacity ≡ self.old.capacity }
    {
        let count = self.blocks.len().min(other.blocks.len());
        // Past the end of the other only an intersection changes a value.
        if merge != Merge::Intersection && count <= chunk * B::bits() {
            return;
        }
        self.search_start = 0;
        merge_chosen_in_chunk(
            self.blocks.as_mut_slice(),
            self.summary.as_mut_slice(),
            &other.blocks[..count],
            merge,
            chunk,
        );
    }
}
