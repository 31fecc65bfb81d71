//! A set read from the text of its runs.
ghost use Rattle.std.specs.{Prelude.{◌≡◌, ◌≢◌, ◌<◌, ◌≤◌, ◌∷◌, ◌++◌, ℕ, List, [], Err, Ok, IfErr, IfNone, IfOk, IfSome, MatchOption, length}, List.All};
ghost use Rattle.std.specs.declared.ops.Range.{Range};
ghost use Rattle.bit_blocks.specs.Bits.{blocks_for, capacity_of};
ghost use Rattle.set_algebra.specs.{Members.HasNone, Runs.in_ranges, Sets.{elements, has}};
ghost use Rattle.bit_set.specs.RangeReading.{IsRangesFault, end_of, items_of, number_of, range_between, range_of, ranges_in, without_space};
ghost use Rattle.bit_set.specs.Sizes.{KeepsSize};

use crate::{BitBlock, BitSet};
use std::alloc::{AllocError, Global};
use std::ops::Range;
use thiserror::Error;

/// Why a text could not be read as ranges.
#[derive(Clone, Copy, Debug, PartialEq, Eq, Error)]
pub enum RangesError {
    /// An item is neither a number nor two ascending or equal numbers with a hyphen between them.
    #[error("not a list of ranges")]
    Text,
    /// A number is `usize::MAX` or above.
    #[error("a number is too large")]
    Number,
    /// Memory ran out.
    #[error("memory refused")]
    Memory(AllocError),
}

impl<B: BitBlock> BitSet<B> {
    /// The set that a text lists in the form in which Linux lists processors, `0-3, 5, 9-12`: numbers, and ranges
    /// from a first to a last number, separated by a comma and at most one space. They may be in any order and
    /// overlap; numbers may have leading zeros. The empty text is the empty set. The length is one more than the
    /// greatest number, and the capacity that of its blocks. Two passes over the text, and one write of each block
    /// of a range. Fails at the first malformed item, however much memory there is. A text with no such item fails
    /// only if memory for the blocks runs out, and the empty one never does.
    ///
    /// ```
    /// let set: BitSet = BitSet::from_ranges(alloc, "0-3, 5,9-10")?;
    /// assert!(set.iter().eq([0, 1, 2, 3, 5, 9, 10]));
    /// ```
    pub fn from_ranges(alloc: Global, text: &str) -> Result<Self, RangesError>
        ensures read { IfOk result (λ set. (rs : List (Range ℕ)) × (ranges_in text.now ≡ Ok rs)
            × ((n : ℕ) → has (elements set.values) n ≡ in_ranges rs n) × (length set.values ≡ end_of rs)) }
        ensures capacity { IfOk result (λ set. set.capacity
            ≡ capacity_of B.width (blocks_for B.width (length set.values))) }
        ensures fault { IfErr result (IsRangesFault text.now) }
    {
        let bytes = text.as_bytes();
        let end = end_of_ranges(bytes)?;
        let Ok(mut set) = BitSet::with_capacity_general(alloc, end) else {
            return Err(RangesError::Memory(AllocError));
        };
        set.insert_ranges(bytes);
        Ok(set)
    }

    // Inserts the numbers that a text lists. The set is empty and long enough for them.
    fn insert_ranges(&mut self, text: &[u8])
        requires reads { (rs : List (Range ℕ)) × (ranges_in text.now ≡ Ok rs) × (end_of rs ≤ length self.old.values) }
        requires none { HasNone (elements self.old.values) }
        ensures members { (rs : List (Range ℕ)) → ranges_in text.now ≡ Ok rs
            → (n : ℕ) → has (elements self.new.values) n ≡ in_ranges rs n }
        ensures size { KeepsSize self.old self.new }
    {
        let mut rest = all_items(text);
        'items: while let Some(items) = rest {
            let (item, after) = first_item(items);
            // The text was read before, so there is capacity for it.
            let range = read_range(item).unwrap();
            self.insert_range(range).unwrap();
            rest = after;
        }
    }
}

// One more than the greatest number that a text lists, or 0 if there is none.
fn end_of_ranges(text: &[u8]) -> Result<usize, RangesError>
    ensures read { IfOk result (λ end. (rs : List (Range ℕ)) × (ranges_in text.now ≡ Ok rs) × (end ≡ end_of rs)) }
    ensures fault { IfErr result (λ fault. ranges_in text.now ≡ Err fault) }
{
    let mut end: usize = 0;
    let mut rest = all_items(text);
    'items: while let Some(items) = rest {
        let (item, after) = first_item(items);
        end = end.max(read_range(item)?.end);
        rest = after;
    }
    Ok(end)
}

// The text, if it has an item.
fn all_items(text: &[u8]) -> Option<&[u8]>
    ensures some { IfSome result (λ items. (items.now ≡ text.now) × (text.now ≢ [])) }
    ensures none { IfNone result (text.now ≡ []) }
{
    (!text.is_empty()).then_some(text)
}

// The first item, and the text of the others; `None` if there are none.
fn first_item(text: &[u8]) -> (&[u8], Option<&[u8]>)
    ensures items { MatchOption result.1 (items_of text.now ≡ result.0.now ∷ [])
        (λ rest. items_of text.now ≡ result.0.now ∷ items_of rest.now) }
    ensures shorter { IfSome result.1 (λ rest. length rest.now < length text.now) }
{
    match split_once(text, b',') {
        Some((item, rest)) => (item, Some(after_space(rest))),
        None => (text, None),
    }
}

fn after_space(text: &[u8]) -> &[u8]
    ensures { result.now ≡ without_space text.now }
{
    match text.split_first() {
        Some((b' ', rest)) => rest,
        _ => text,
    }
}

// What is before the first such byte and what is after it; `None` if there is none.
fn split_once(text: &[u8], byte: u8) -> Option<(&[u8], &[u8])>
    ensures whole { IfNone result (All (λ b. b ≢ byte) text.now) }
    ensures first { IfSome result (λ parts. All (λ b. b ≢ byte) parts.0.now) }
    ensures joined { IfSome result (λ parts. text.now ≡ parts.0.now ++ byte ∷ parts.1.now) }
{
    let at = text.iter().position(|b| *b == byte)?;
    Some((&text[..at], &text[at + 1..]))
}

// The texts of the first and of the last number of an item.
fn ends_of(item: &[u8]) -> (&[u8], &[u8])
    ensures { range_of item.now ≡ range_between (number_of result.0.now) (number_of result.1.now) }
{
    match split_once(item, b'-') {
        Some((first, last)) => (first, last),
        None => (item, item),
    }
}

// The range that an item writes.
fn read_range(item: &[u8]) -> Result<Range<usize>, RangesError>
    ensures { result ≡ range_of item.now }
{
    let (first, last) = ends_of(item);
    let first = read_number(first)?;
    let last = read_number(last)?;
    if first > last {
        return Err(RangesError::Text);
    }
    Ok(first..last + 1)
}

// The number that digits write.
fn read_number(digits: &[u8]) -> Result<usize, RangesError>
    ensures { result ≡ number_of digits.now }
{
    if digits.is_empty() {
        return Err(RangesError::Text);
    }
    let mut number: usize = 0;
    for digit in digits {
        if !digit.is_ascii_digit() {
            return Err(RangesError::Text);
        }
        // `usize::MAX` stands for a number that is too large.
        number = number
            .saturating_mul(10)
            .saturating_add(usize::from(*digit - b'0'));
    }
    if number == usize::MAX {
        return Err(RangesError::Number);
    }
    Ok(number)
}
