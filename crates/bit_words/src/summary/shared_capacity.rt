// Capacity for blocks and their summary together, and what is left if one of the two fails. No bit changes here.
ghost use Rattle.std.specs.Prelude.{◌≡◌, ◌-◌, ◌<◌, ◌≤◌, false, IsTrue, OnErr, OnOk, length, max, vec_len, vec_capacity};
ghost use Rattle.bit_words.specs.{Growth.{Reserves, ReservesShared}, Summary.shared_capacity};

use crate::summary::stored_count;
use bit_blocks::block::BitBlock;
use std::alloc::AllocError;

// Reserves capacity for `count` blocks, and for no more if that is requested. Allocates nothing if there is enough.
#[inline]
fn reserve_blocks<B: BitBlock>(
    blocks: &mut Vec<B>,
    count: usize,
    exact: bool,
) -> Result<(), AllocError>
    ensures items { blocks.new.items ≡ blocks.old.items }
    ensures len { vec_len blocks.new ≡ vec_len blocks.old }
    ensures exact { IsTrue exact → OnOk result (vec_capacity blocks.new ≡ max (vec_capacity blocks.old) count) }
    ensures capacity { Reserves count result (vec_capacity blocks.old) (vec_capacity blocks.new) }
{
    if count <= blocks.capacity() {
        return Ok(());
    }
    let missing = count - blocks.len();
    if exact {
        blocks.reserve_exact(missing)
    } else {
        blocks.reserve(missing)
    }
}

// Whether there is capacity for `count` blocks and their summary.
#[inline]
#[tactic(auto, using(crate::proofs::CapacityLemmas::shared_tests))]
pub(crate) fn have_capacity<B: BitBlock>(blocks: &Vec<B>, summary: &Vec<B>, count: usize) -> bool
    ensures yes { IsTrue result → count ≤ shared_capacity B.width (vec_capacity blocks.now) (vec_capacity summary.now) }
    ensures no { result ≡ false → shared_capacity B.width (vec_capacity blocks.now) (vec_capacity summary.now) < count }
{
    count <= blocks.capacity() && stored_count::<B>(count) <= summary.capacity()
}

// Reserves capacity for `count` blocks and their summary if it is missing. The one with more capacity grows first,
// so that a failure of the other leaves the capacity that they share.
#[cold]
#[inline(never)]
fn grow_shared_capacity<B: BitBlock>(
    blocks: &mut Vec<B>,
    summary: &mut Vec<B>,
    count: usize,
    exact: bool,
) -> Result<(), AllocError>
    requires { shared_capacity B.width (vec_capacity blocks.old) (vec_capacity summary.old) < count }
    ensures items { blocks.new.items ≡ blocks.old.items }
    ensures summary { summary.new.items ≡ summary.old.items }
    ensures len { vec_len blocks.new ≡ vec_len blocks.old }
    ensures summary_len { vec_len summary.new ≡ vec_len summary.old }
    ensures capacity { ReservesShared B.width count exact result
        (vec_capacity blocks.old) (vec_capacity summary.old) (vec_capacity blocks.new) (vec_capacity summary.new) }
{
    let needed = stored_count::<B>(count);
    if stored_count::<B>(blocks.capacity()) <= summary.capacity() {
        reserve_blocks(summary, needed, exact)?;
        reserve_blocks(blocks, count, exact)
    } else {
        reserve_blocks(blocks, count, exact)?;
        reserve_blocks(summary, needed, exact)
    }
}

// Reserves capacity for `count` blocks and their summary. If there is enough, that costs two comparisons.
#[inline]
pub(crate) fn reserve_shared<B: BitBlock>(
    blocks: &mut Vec<B>,
    summary: &mut Vec<B>,
    count: usize,
    exact: bool,
) -> Result<(), AllocError>
    ensures items { blocks.new.items ≡ blocks.old.items }
    ensures summary { summary.new.items ≡ summary.old.items }
    ensures len { vec_len blocks.new ≡ vec_len blocks.old }
    ensures summary_len { vec_len summary.new ≡ vec_len summary.old }
    ensures capacity { ReservesShared B.width count exact result
        (vec_capacity blocks.old) (vec_capacity summary.old) (vec_capacity blocks.new) (vec_capacity summary.new) }
{
    if have_capacity(blocks, summary, count) {
        return Ok(());
    }
    grow_shared_capacity(blocks, summary, count, exact)
}

// Reserves capacity for `count` blocks and their summary, and for no more. If the blocks had capacity for more and
// their summary had not, they give the rest back first.
pub(crate) fn reserve_shared_exact<B: BitBlock>(
    blocks: &mut Vec<B>,
    summary: &mut Vec<B>,
    count: usize,
) -> Result<(), AllocError>
    requires longer { vec_len blocks.old ≤ count }
    ensures items { blocks.new.items ≡ blocks.old.items }
    ensures summary { summary.new.items ≡ summary.old.items }
    ensures len { vec_len blocks.new ≡ vec_len blocks.old }
    ensures summary_len { vec_len summary.new ≡ vec_len summary.old }
    ensures exact { OnOk result
        (shared_capacity B.width (vec_capacity blocks.new) (vec_capacity summary.new)
        ≡ max (shared_capacity B.width (vec_capacity blocks.old) (vec_capacity summary.old)) count) }
    ensures err { OnErr result
        (shared_capacity B.width (vec_capacity blocks.new) (vec_capacity summary.new)
        ≡ shared_capacity B.width (vec_capacity blocks.old) (vec_capacity summary.old)) }
    ensures full { OnErr result (shared_capacity B.width (vec_capacity blocks.old) (vec_capacity summary.old) < count) }
{
    if stored_count::<B>(count) <= summary.capacity() {
        return reserve_shared(blocks, summary, count, true);
    }
    blocks.shrink_to(count);
    if count < blocks.capacity() {
        return Err(AllocError);
    }
    reserve_shared(blocks, summary, count, true)
}

// Gives back what the blocks and their summary do not need, as far as there is memory to move them to. A failure of
// one does not prevent the other.
pub(crate) fn shrink_shared_capacity<B: BitBlock>(blocks: &mut Vec<B>, summary: &mut Vec<B>)
    ensures items { blocks.new.items ≡ blocks.old.items }
    ensures summary { summary.new.items ≡ summary.old.items }
    ensures holds { length blocks.old.items ≤ vec_capacity blocks.new }
    ensures holds_summary { length summary.old.items ≤ vec_capacity summary.new }
    ensures capacity { vec_capacity blocks.new ≤ vec_capacity blocks.old }
    ensures summary_capacity { vec_capacity summary.new ≤ vec_capacity summary.old }
    ensures empty { length blocks.old.items ≡ 0 → vec_capacity blocks.new ≡ 0 }
{
    blocks.shrink_to_fit();
    summary.shrink_to_fit();
}
