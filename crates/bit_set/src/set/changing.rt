// Calls that change a set in place.
ghost use Rattle.std.specs.Prelude.{◌≡◌, ℕ, ◌+◌, ◌-◌, ◌<◌, ◌≤◌, ◌↔◌, if◌then◌else◌, max, min, not, IfOk, IfErr, OnErr, OnOk, IsOk, IsErrOf, All, List, [], ◌++◌, length, replicate, false, true, Some};
ghost use Rattle.std.specs.Iterator.{Drains, HoldsAlong, IsFinite, YieldsThen, Runs.WholeRun};
ghost use Rattle.bit_blocks.specs.Bits.{blocks_for, capacity_of};
ghost use Rattle.bit_words.specs.Growth.{Grows};
ghost use Rattle.set_algebra.specs.{Sets.{bound_of, elements, has, put, those_below, without}, Members.{HasNone, IsCounted, IsSameSet, KeepsBelow, Updates}};
ghost use Rattle.bit_set.specs.{Effects.TakesIn, Faults.IsInsertFault, Changes.{Change, Changes}};
ghost use Rattle.bit_set.specs.{Changes.{outcome_of_result, outcome_of_insert, Outcome.{Done, Returned}}, Capacity.IsPastBlocks};
ghost use Rattle.bit_set.specs.Sizes.{KeepsMembers, KeepsSize, Lengthens};

use crate::{BitBlock, BitSet, SetError};
use std::alloc::AllocError;

// By how many values the items of `extend` must lengthen a list before it grows ahead of the next ones.
const LEAST_GROWN: usize = 64;

// The most values by which it grows ahead: 64 KB of bits.
const MOST_AHEAD: usize = 1 << 19;

impl<B: BitBlock> BitSet<B> {
    /// Inserts `value`, and returns whether it is new. Constant time, except for a growth at or past the length.
    /// Fails for `usize::MAX`, and if a growth past the capacity fails; elements, length and capacity are then
    /// unchanged.
    #[inline]
    pub fn insert(&mut self, value: usize) -> Result<bool, SetError>
        ensures returned { IfOk result (λ new. new ≡ not (has (elements self.old.values) value)) }
        ensures elements { OnOk result (elements self.new.values ≡ put (elements self.old.values) value) }
        ensures members { OnOk result (Updates (elements self.old.values) (elements self.new.values) value true) }
        ensures count { IfOk result (λ new. length (elements self.new.values)
            ≡ length (elements self.old.values) + (if new then 1 else 0)) }
        ensures counted { IsCounted self.new.values }

        ensures unfit { IsErrOf result SetError.Element ↔ (value ≡ usize.MAX) }
        ensures fails { IfErr result (λ fault. IsInsertFault fault value self.old.capacity) }
        ensures grows { Lengthens (value + 1) result self.old self.new }
        ensures past_blocks { IfErr result (λ fault. IsPastBlocks fault B.width (length self.old.values) value) }
        ensures changes { Changes (Change.Insert value) self.old.values (outcome_of_insert result) self.new.values }
    {
        if value >= self.bits.len() {
            self.lengthen_past(value)?;
        }
        Ok(!self.bits.replace(value, true))
    }

    // Sets the length to one more than a value at or past it. It is separate from `insert`, which is then small
    // enough to be inlined into its caller's loop.
    #[cold]
    #[inline(never)]
    fn lengthen_past(&mut self, value: usize) -> Result<(), SetError>
        requires { length self.old.values ≤ value }
        ensures values { OnOk result (self.new.values ≡ self.old.values
            ++ replicate (value + 1 - length self.old.values) false) }
        ensures unfit { IsErrOf result SetError.Element ↔ (value ≡ usize.MAX) }
        ensures fit { OnOk result (value < usize.MAX) }
        ensures fails { IfErr result (λ fault. IsInsertFault fault value self.old.capacity) }
        ensures grows { Grows (value + 1) result self.old self.new }
        ensures past_blocks { IfErr result (λ fault. IsPastBlocks fault B.width (length self.old.values) value) }
    {
        let len = self.bits.len();
        if value == usize::MAX {
            return Err(SetError::Element);
        }
        // Only for the proof: the call of `capacity` brings in its clauses, by which the capacity is that of whole
        // blocks and holds the list.
        prove!(len <= self.bits.capacity());
        self.bits.grow(value - len + 1, false)?;
        Ok(())
    }

    /// Inserts the items, one by one, up to the end of the iterator, which must end. Constant time for each item,
    /// except for growths. It stops at the first item for which [`BitSet::insert`] fails: the items before it stay
    /// in the set, and the rest are dropped.
    pub fn extend<I: Iterator<Item = usize> + Drop>(&mut self, iter: I) -> Result<(), SetError>
        requires can { I.can_next iter }
        requires ends { IsFinite (I.remaining iter) }
        ensures ok { OnOk result ((items : List ℕ) × Drains I.next_gives iter items
            × TakesIn items self.old.values self.new.values) }
        ensures runs { OnOk result (WholeRun I.next_gives iter
            (λ run. TakesIn run.items self.old.values self.new.values)) }
        ensures err { IfErr result (λ fault. (items : List ℕ) × (item : ℕ) × (rest : I)
            × YieldsThen I.next_gives iter items (Some item) rest
            × TakesIn items self.old.values self.new.values × (length self.new.values ≤ item)
            × IsInsertFault fault item self.new.capacity × IsPastBlocks fault B.width (length self.new.values) item) }
        ensures succeeds { HoldsAlong I.next_gives iter (All (λ item. item < self.old.capacity)) → IsOk result }
        ensures capacity { self.old.capacity ≤ self.new.capacity }
        ensures within { HoldsAlong I.next_gives iter (All (λ item. item < self.old.capacity))
            → self.new.capacity ≡ self.old.capacity }
        ensures kept { length self.new.values ≤ self.old.capacity → self.new.capacity ≡ self.old.capacity }
    {
        let start = self.bits.len();
        let mut len = start;
        for item in iter {
            match self.put_ahead(start, len, item) {
                Ok(longer) => len = longer,
                Err(fault) => {
                    self.cut_ahead(start);
                    return Err(fault);
                }
            }
        }
        self.cut_ahead(start);
        Ok(())
    }

    // Inserts an item of `extend`, and returns the length of the list, which was `len`: the loop keeps it in a
    // variable, and reads it from the list only after a growth. The list had `start` values before the first item,
    // and may become longer than the items need: it grows ahead by as much as it had grown for the items before, so
    // the first costs only what it needs.
    #[inline]
    fn put_ahead(&mut self, start: usize, len: usize, item: usize) -> Result<usize, SetError>
        requires from { start ≤ len }
        requires len { len ≡ length self.old.values }
        ensures len { IfOk result (λ longer. longer ≡ length self.new.values) }
        ensures elements { OnOk result (elements self.new.values ≡ put (elements self.old.values) item) }
        ensures within { OnOk result (item < length self.new.values) }
        ensures longer { OnOk result (length self.old.values ≤ length self.new.values) }
        ensures exact { OnOk result (length self.new.values ≤ start + LEAST_GROWN
            → length self.new.values ≡ max (length self.old.values) (item + 1)) }
        ensures fit { OnOk result (item < usize.MAX) }
        ensures fails { IfErr result (λ fault. IsInsertFault fault item self.old.capacity) }
        ensures past { OnErr result (length self.old.values ≤ item) }
        ensures grows { Grows (item + 1) result self.old self.new }
        ensures past_blocks { IfErr result (λ fault. IsPastBlocks fault B.width (length self.old.values) item) }
    {
        // Only for the proof: the call of `len` brings in its clauses, by which the capacity holds the list.
        prove!(len <= self.bits.len());
        let mut longer = len;
        if item >= len {
            self.lengthen_past(item)?;
            self.go_ahead(len - start);
            longer = self.bits.len();
        }
        self.bits.set(item, true);
        Ok(longer)
    }

    // Lengthens the list by this many values, by at most 64 KB, and within the capacity; does nothing if they are
    // few.
    #[inline]
    fn go_ahead(&mut self, most: usize)
        ensures kept { KeepsMembers self.old self.new }
        ensures longer { length self.old.values ≤ length self.new.values }
        ensures few { most < LEAST_GROWN → self.new ≡ self.old }
    {
        if most >= LEAST_GROWN {
            self.grow_within(most);
        }
    }

    // Does so if they are not few.
    #[cold]
    #[inline(never)]
    fn grow_within(&mut self, most: usize)
        ensures kept { KeepsMembers self.old self.new }
        ensures longer { length self.old.values ≤ length self.new.values }
    {
        let free = self.bits.capacity() - self.bits.len();
        let ahead = most.min(MOST_AHEAD).min(free);
        // Within the capacity it succeeds.
        let _grown = self.bits.grow(ahead, false);
    }

    // Cuts the list after the last item of `extend`; it can have grown ahead only if it grew by more than
    // `LEAST_GROWN` values.
    #[inline]
    fn cut_ahead(&mut self, start: usize)
        requires { start ≤ length self.old.values }
        ensures kept { KeepsMembers self.old self.new }
        ensures few { length self.old.values ≤ start + LEAST_GROWN → self.new ≡ self.old }
        ensures cut { start + LEAST_GROWN < length self.old.values
            → length self.new.values ≡ max start (bound_of (elements self.old.values)) }
    {
        if self.bits.len() - start > LEAST_GROWN {
            self.cut_to_last(start);
        }
    }

    // Cuts the list after its last true value, but keeps the first `least` values.
    #[cold]
    #[inline(never)]
    fn cut_to_last(&mut self, least: usize)
        requires { least ≤ length self.old.values }
        ensures kept { KeepsMembers self.old self.new }
        ensures length { length self.new.values ≡ max least (bound_of (elements self.old.values)) }
    {
        let len = match self.last() {
            Some(last) => least.max(last + 1),
            None => least,
        };
        self.bits.truncate(len);
    }

    /// Removes `value`, and returns whether it was present. Constant time.
    #[inline]
    pub fn remove(&mut self, value: usize) -> bool
        ensures returned { result ≡ has (elements self.old.values) value }
        ensures elements { elements self.new.values ≡ without (elements self.old.values) value }
        ensures members { Updates (elements self.old.values) (elements self.new.values) value false }
        ensures count { length (elements self.new.values) + (if result then 1 else 0)
            ≡ length (elements self.old.values) }
        ensures size { KeepsSize self.old self.new }
        ensures unchanged { result ≡ false → self.new ≡ self.old }
        ensures changes { Changes (Change.Remove value) self.old.values (Returned result) self.new.values }
    {
        if value >= self.bits.len() {
            return false;
        }
        self.bits.replace(value, false)
    }

    /// Removes `value` if it is present, and inserts it if not; returns whether it is present now. Constant time,
    /// except for a growth at or past the length. Fails as [`BitSet::insert`] does, and only if `value` is absent;
    /// elements, length and capacity are then unchanged.
    ///
    /// ```
    /// // The set is {1, 4}.
    /// assert!(!set.toggle(4)?);
    /// assert!(set.toggle(2)?);
    /// assert!(set.iter().eq([1, 2]));
    /// ```
    pub fn toggle(&mut self, value: usize) -> Result<bool, SetError>
        ensures returned { IfOk result (λ now. now ≡ not (has (elements self.old.values) value)) }
        ensures elements { OnOk result (elements self.new.values
            ≡ (if has (elements self.old.values) value then without (elements self.old.values) value
            else put (elements self.old.values) value)) }
        ensures members { OnOk result (Updates (elements self.old.values) (elements self.new.values) value
            (not (has (elements self.old.values) value))) }
        ensures unfit { IsErrOf result SetError.Element ↔ (value ≡ usize.MAX) }
        ensures fails { IfErr result (λ fault. IsInsertFault fault value self.old.capacity) }
        ensures grows { Lengthens (value + 1) result self.old self.new }
        ensures changes { Changes (Change.Toggle value) self.old.values (outcome_of_insert result) self.new.values }
    {
        prove!(self.bits.len() <= usize::MAX);
        if self.remove(value) {
            return Ok(false);
        }
        self.insert(value)
    }

    /// Inserts `value` if `bit` is true, and removes it if not; returns whether that changed the set. Constant
    /// time, except for a growth at or past the length. Fails as [`BitSet::insert`] does, and only if `bit` is
    /// true; elements, length and capacity are then unchanged.
    ///
    /// ```
    /// // The set is {1, 4}.
    /// assert!(set.set(2, true)?);
    /// assert!(!set.set(3, false)?);
    /// assert!(set.iter().eq([1, 2, 4]));
    /// ```
    pub fn set(&mut self, value: usize, bit: bool) -> Result<bool, SetError>
        ensures returned { IfOk result (λ changed. changed
            ≡ (if bit then not (has (elements self.old.values) value) else has (elements self.old.values) value)) }
        ensures elements { OnOk result (elements self.new.values
            ≡ (if bit then put (elements self.old.values) value else without (elements self.old.values) value)) }
        ensures members { OnOk result (Updates (elements self.old.values) (elements self.new.values) value bit) }
        ensures length { OnOk result (length self.new.values
            ≡ (if bit then max (length self.old.values) (value + 1) else length self.old.values)) }
        ensures unfit { IsErrOf result SetError.Element ↔ ((bit ≡ true) × (value ≡ usize.MAX)) }
        ensures clears { bit ≡ false → IsOk result }
        ensures fails { IfErr result (λ fault. IsInsertFault fault value self.old.capacity) }
        ensures grows { Grows (if bit then value + 1 else 0) result self.old self.new }
        ensures changes { Changes (Change.Set value bit) self.old.values (outcome_of_insert result) self.new.values }
    {
        prove!(self.bits.len() <= usize::MAX);
        if bit {
            self.insert(value)
        } else {
            Ok(self.remove(value))
        }
    }

    /// Keeps the elements below `len`, and shortens the length to it. Writes at most one block. Constant time, once
    /// the compiler has removed std's loop over the dropped blocks.
    pub fn truncate(&mut self, len: usize)
        ensures elements { elements self.new.values ≡ those_below (elements self.old.values) len }
        ensures members { KeepsBelow (elements self.old.values) (elements self.new.values) len }
        ensures length { length self.new.values ≡ min (length self.old.values) len }
        ensures capacity { self.new.capacity ≡ self.old.capacity }
        ensures changes { Changes (Change.Truncate len) self.old.values Done self.new.values }
    {
        self.bits.truncate(len);
    }

    /// Removes every element; the length stays. Writes each block at most once: if there are many, it may skip
    /// those that are zero.
    pub fn make_empty(&mut self)
        ensures whole { self.new ≡ record {
          values = replicate (length self.old.values) false;
          capacity = self.old.capacity;
        } }
        ensures elements { elements self.new.values ≡ [] }
        ensures members { HasNone (elements self.new.values) }
        ensures changes { Changes Change.MakeEmpty self.old.values Done self.new.values }
    {
        self.bits.fill(false);
    }

    /// Removes every element: the older name of [`BitSet::make_empty`].
    #[inline]
    pub fn clear(&mut self)
        ensures whole { self.new ≡ record {
          values = replicate (length self.old.values) false;
          capacity = self.old.capacity;
        } }
        ensures elements { elements self.new.values ≡ [] }
        ensures members { HasNone (elements self.new.values) }
        ensures changes { Changes Change.MakeEmpty self.old.values Done self.new.values }
    {
        self.make_empty();
    }

    /// Removes every element and sets the length to 0. The capacity stays. Constant time, as [`BitSet::truncate`].
    pub fn reset(&mut self)
        ensures whole { self.new ≡ record { values = []; capacity = self.old.capacity } }
        ensures changes { Changes Change.Reset self.old.values Done self.new.values }
    {
        self.bits.remove_all();
    }

    /// Becomes equal to `other`, in one pass over its blocks. If the capacity was too small, it becomes that of the
    /// blocks of `other`. Fails only then, and changes nothing.
    pub fn clone_from(&mut self, other: &Self) -> Result<(), AllocError>
        ensures ok { OnOk result (self.new.values ≡ other.now.values) }
        ensures members { OnOk result (IsSameSet (elements self.new.values) (elements other.now.values)) }
        ensures grows { Grows (length other.now.values) result self.old self.new }
        ensures exact { OnOk result (self.new.capacity ≡ max self.old.capacity
            (capacity_of B.width (blocks_for B.width (length other.now.values)))) }
        ensures changes { Changes (Change.CloneFrom (elements other.now.values))
            self.old.values (outcome_of_result result) self.new.values }
    {
        self.bits.clone_from(&other.bits)
    }
}
