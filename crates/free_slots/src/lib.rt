//! Numbered slots, each of them free or taken: for schedulers, and for tables whose entries go by number.
#![tactic(auto)]

ghost use Rattle.std.specs.Prelude.{◌≡◌, ◌≢◌, ◌≤◌, ◌<◌, ◌↔◌, false, length, IfOk, IfSome, IsOk, IsTrue, MatchOption, None, [], ◌+◌, ℕ};
ghost use Rattle.bit_set.specs.Sets.{IsAscending, has, put, those_from, without};
ghost use Rattle.free_slots.specs.{Runs.Happens, Runs.Event.{GiveBack, Take, TakeRun}};
ghost use Rattle.free_slots.specs.Slots.{IsFreeRun, IsLowestFree, IsLowestRun, all_free, is_taken, without_run};

pub mod laws;

use bit_set::bit_vec::BitVec;
use bit_set::laws::{
    members_of_sets, numbers_of_ranges, parts_of_ranges, sets_are_their_members, sets_ascend,
    sets_in_one_another,
};
use bit_set::{BitBlock, BitSet};
use std::alloc::{AllocError, Global};
use std::marker::Model;

/// Slots numbered from 0, each of them free or taken. Only `with_slots` allocates; no clause says so, but it is
/// tested.
#[derive(Drop)]
pub struct Slots<B: BitBlock> {
    // Its length is the number of slots, and its elements are the free ones.
    free: BitSet<B>,
    // No slot below `searched` is free, except perhaps `given`.
    given: usize,
    searched: usize,
}

impl<B: BitBlock> Model for Slots<B> {
    ghost use Rattle.std.specs.Prelude.{◌≤◌, length};
    ghost use Rattle.bit_set.specs.Sets.{elements};
    ghost use Rattle.free_slots.specs.Slots.{HasNoneBut, SlotTable};

    ghost Value = { SlotTable };

    ghost view = { λ it. record { len = length it.free.values; free = elements it.free.values } };

    ghost invariant = { λ it. (length it.free.values ≤ it.free.capacity)
        × HasNoneBut (elements it.free.values) it.given it.searched };
}

impl<B: BitBlock> Slots<B> {
    /// This many slots, all of them free. Fails if memory runs out; allocates nothing if there are no slots. One
    /// pass over the blocks of the set.
    ///
    /// ```
    /// let mut slots = Slots::<u32>::with_slots(alloc, 3)?;
    /// assert_eq!(slots.take(), Some(0));
    /// ```
    pub fn with_slots(alloc: Global, n: usize) -> Result<Self, AllocError>
        ensures free { IfOk result (λ slots. slots ≡ all_free n) }
        ensures none { n ≡ 0 → IsOk result }
    {
        let all = BitVec::from_elem_general(alloc, n, true)?;
        Ok(Slots {
            free: BitSet::from_bit_vec_general(all),
            given: 0,
            searched: 0,
        })
    }

    /// How many slots there are, free and taken. Constant time.
    ///
    /// ```
    /// // Of three slots one is taken.
    /// assert_eq!(slots.len(), 3);
    /// ```
    pub fn len(&self) -> usize
        ensures value { result ≡ self.now.len }
        ensures ascending { IsAscending self.now.free }
        ensures inside { (slot : ℕ) → IsTrue (has self.now.free slot) → slot < self.now.len }
    {
        members_of_sets();
        sets_ascend();
        self.free.get_ref().len()
    }

    /// Whether the slot is free; false if there is no such slot. Constant time.
    ///
    /// ```
    /// // Slot 0 is taken.
    /// assert!(!slots.is_free(0));
    /// ```
    pub fn is_free(&self, slot: usize) -> bool
        ensures { result ≡ has self.now.free slot }
    {
        self.free.contains(slot)
    }

    /// How many slots are free. One pass over the blocks of the set.
    ///
    /// ```
    /// // Of three slots one is taken.
    /// assert_eq!(slots.free_count(), 2);
    /// ```
    pub fn free_count(&self) -> usize
        ensures { result ≡ length self.now.free }
    {
        self.free.count()
    }

    /// Takes the lowest free slot and returns it; `None` if all are taken. It keeps a number below which all slots
    /// are taken, except perhaps one that was given back; taking that one is constant time. Any other slot takes a
    /// search of the set's summary from that number, which then becomes the number after the slot.
    ///
    /// ```
    /// let mut slots = Slots::<u32>::with_slots(alloc, 3)?;
    /// assert_eq!(slots.take(), Some(0));
    /// ```
    pub fn take(&mut self) -> Option<usize>
        ensures full { (result ≡ None) ↔ (self.old.free ≡ []) }
        ensures none { result ≡ None → self.new ≡ self.old }
        ensures lowest { IfSome result (λ slot. IsLowestFree self.old 0 slot) }
        ensures taken { IfSome result (λ slot. self.new.free ≡ without self.old.free slot) }
        ensures ascending { IsAscending self.old.free × IsAscending self.new.free }
        ensures len { self.new.len ≡ self.old.len }
        ensures happens { Happens self.old (Take 0 result) self.new }
    {
        sets_ascend();
        let slot = self.lowest_free()?;
        self.free.remove(slot);
        self.searched = self.searched.max(slot.saturating_add(1));
        Some(slot)
    }

    // The lowest free slot.
    #[inline]
    fn lowest_free(&self) -> Option<usize>
        ensures { MatchOption result (self.now.free ≡ []) (λ slot. IsLowestFree self.now 0 slot) }
    {
        members_of_sets();
        sets_ascend();
        if self.given <= self.searched && self.free.contains(self.given) {
            return Some(self.given);
        }
        self.free.next(self.searched)
    }

    /// Takes the lowest free slot at or above `slot` and returns it; `None` if each of these is taken. Searches the
    /// set's summary from `slot`.
    ///
    /// ```
    /// assert_eq!(slots.take_at_or_above(2), Some(2));
    /// assert_eq!(slots.take_at_or_above(2), None);
    /// ```
    pub fn take_at_or_above(&mut self, slot: usize) -> Option<usize>
        ensures full { (result ≡ None) ↔ (those_from self.old.free slot ≡ []) }
        ensures none { result ≡ None → self.new ≡ self.old }
        ensures lowest { IfSome result (λ taken. IsLowestFree self.old slot taken) }
        ensures taken { IfSome result (λ taken. self.new.free ≡ without self.old.free taken) }
        ensures ascending { IsAscending self.old.free × IsAscending self.new.free }
        ensures len { self.new.len ≡ self.old.len }
        ensures happens { Happens self.old (Take slot result) self.new }
    {
        members_of_sets();
        sets_ascend();
        let taken = self.free.next(slot)?;
        self.free.remove(taken);
        self.searched = after_taking(self.searched, slot, taken);
        Some(taken)
    }

    /// Takes the lowest `count` free slots in a row and returns the first of them; `None` if there are not that
    /// many in a row, and then nothing changes. If `count` is 0, it takes none and returns 0. Searches alternately
    /// for the next free slot and the next taken one, up to the taken one after those that it takes.
    ///
    /// ```
    /// // Of five slots all but 1 are free.
    /// assert_eq!(slots.take_run(2), Some(2));
    /// assert_eq!(slots.take_run(2), None);
    /// ```
    pub fn take_run(&mut self, count: usize) -> Option<usize>
        ensures full { result ≡ None → (first : ℕ) → IsFreeRun self.old count first → ⊥ }
        ensures none { result ≡ None → self.new ≡ self.old }
        ensures lowest { IfSome result (λ first. IsLowestRun self.old count first) }
        ensures taken { IfSome result (λ first. self.new.free ≡ without_run self.old.free count first) }
        ensures count { IfSome result (λ first. length self.new.free + count ≡ length self.old.free) }
        ensures len { self.new.len ≡ self.old.len }
        ensures happens { Happens self.old (TakeRun count result) self.new }
    {
        members_of_sets();
        sets_ascend();
        numbers_of_ranges();
        parts_of_ranges();
        sets_in_one_another();
        let first = self.lowest_run(count)?;
        self.free.remove_range(first..first + count);
        Some(first)
    }

    // The first of the lowest run of this many free slots.
    fn lowest_run(&self, count: usize) -> Option<usize>
        ensures lowest { MatchOption result
            ((first : ℕ) → IsFreeRun self.now count first → ⊥) (IsLowestRun self.now count) }
        ensures fits { IfSome result (λ first. first + count ≤ usize.MAX) }
    {
        if count == 0 {
            return Some(0);
        }
        let mut from = self.given.min(self.searched);
        while let Some(first) = self.free.next(from) {
            let end = self.free.next_missing(first);
            if end - first >= count {
                return Some(first);
            }
            from = end;
        }
        None
    }

    /// Gives back a taken slot, which becomes free. Returns `false`, and changes nothing, if the slot is free or
    /// there is no such slot. Constant time.
    ///
    /// ```
    /// assert!(slots.give_back(2));
    /// assert!(!slots.give_back(2));
    /// ```
    pub fn give_back(&mut self, slot: usize) -> bool
        ensures taken { result ≡ is_taken self.old slot }
        ensures free { IsTrue result → self.new.free ≡ put self.old.free slot }
        ensures unchanged { result ≡ false → self.new ≡ self.old }
        ensures len { self.new.len ≡ self.old.len }
        ensures happens { Happens self.old (GiveBack slot result) self.new }
    {
        members_of_sets();
        sets_ascend();
        sets_are_their_members();
        let is_free = self.free.contains(self.given);
        (self.given, self.searched) = after_giving(self.given, self.searched, slot, is_free);
        slot < self.len() && self.free.insert(slot).unwrap()
    }
}

// The new `searched` after the lowest free slot at or above `slot` was taken: past it, if no slot lies between.
#[inline]
fn after_taking(searched: usize, slot: usize, taken: usize) -> usize
    ensures { (n : ℕ) → n < result → searched ≤ n → (slot ≤ n) × (n ≤ taken) }
{
    if slot <= searched {
        searched.max(taken.saturating_add(1))
    } else {
        searched
    }
}

// The new `given` and `searched` after `slot` was given back, by whether `given` was free before. If two slots
// below `searched` are then free, the search begins at the higher one.
#[inline]
fn after_giving(given: usize, searched: usize, slot: usize, is_free: bool) -> (usize, usize)
    ensures { (n : ℕ) → n < result.1 → n ≢ result.0
        → (n < searched) × (n ≢ slot) × (IsTrue is_free → n ≢ given) }
{
    if slot >= searched {
        (given, searched)
    } else if is_free {
        (given.min(slot), searched.min(given.max(slot)))
    } else {
        (slot, searched)
    }
}
