//! Members by how many are below them, and in pages.
ghost use Rattle.std.specs.Prelude.{◌≡◌, ◌+◌, ◌-◌, ◌/◌, ◌<◌, false, length, take, IfOk, IfSome, MatchOption};
ghost use Rattle.bit_set.specs.Choices.{IsSelected};
ghost use Rattle.bit_set.specs.Members.{HasNone};
ghost use Rattle.bit_set.specs.Sets.{elements, has, those_from};

use bit_set::{BitBlock, BitSet, laws};
use std::alloc::{AllocError, Global};

/// How many tickets are called before this one, or `None` if it does not wait.
pub fn place_in_queue<B: BitBlock>(waiting: &BitSet<B>, ticket: usize) -> Option<usize>
    ensures place { MatchOption result (has (elements waiting.now.values) ticket ≡ false)
        (λ place. IsSelected (elements waiting.now.values) place ticket) }
    ensures within { IfSome result (λ place. place < length (elements waiting.now.values)) }
{
    if !waiting.contains(ticket) {
        return None;
    }
    laws::ranks_of_members();
    let before = waiting.count_in_range(0..ticket);
    Some(before)
}

/// The median, the lower one of two.
pub fn median<B: BitBlock>(set: &BitSet<B>) -> Option<usize>
    ensures { MatchOption result (HasNone (elements set.now.values))
        (IsSelected (elements set.now.values) ((length (elements set.now.values) - 1) / 2)) }
{
    let count = set.count();
    if count == 0 {
        return None;
    }
    let mut walk = set.iter();
    walk.nth((count - 1) / 2)
}

/// A page: the first `count` members above `last`.
pub fn page<B: BitBlock>(
    alloc: Global,
    set: &BitSet<B>,
    last: usize,
    count: usize,
) -> Result<Vec<usize>, AllocError>
    requires { last < usize.MAX }
    ensures { IfOk result (λ page. page.items ≡ take count (those_from (elements set.now.values) (last + 1))) }
{
    set.iter_from(last + 1).take(count).collect(alloc)
}
