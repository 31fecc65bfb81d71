// Sets, each with a number.
ghost use Rattle.std.specs.Prelude.{◌≡◌, ◌+◌, ◌<◌, ◌≤◌, ◌↔◌, ℕ, IfOk, IsErrOf, IsOk, OnOk, [], length};
ghost use Rattle.bit_set.specs.Sets.{elements};
ghost use Rattle.automata.specs.Numbering.{IsNew, Numbers, set_of};

use crate::DfaError;
use bit_set::laws::sets_compare;
use bit_set::{BitBlock, BitSet};
use std::alloc::{AllocError, Global};
use std::collections::BTreeMap;
use std::marker::Model;

// Sets in the order in which they were met, and the number of each.
#[derive(Drop)]
pub(crate) struct Numbering<B: BitBlock> {
    sets: Vec<BitSet<B>>,
    numbers: BTreeMap<BitSet<B>, usize>,
}

impl<B: BitBlock> Model for Numbering<B> {
    ghost use Rattle.std.specs.Prelude.{ℕ, List};
    ghost use Rattle.std.specs.BTreeMap.{get};
    ghost use Rattle.bit_set.specs.Order.{order_of_sets};
    ghost use Rattle.bit_set.specs.Sets.{elements};
    ghost use Rattle.automata.specs.Numbering.{Finds};
    ghost use Rattle.automata.specs.Runs.{row_of_sets};

    ghost Value = { List (List ℕ) };

    ghost view = { λ it. row_of_sets it.sets.items };

    ghost invariant = { λ it. Finds (get (λ s t. order_of_sets (elements s.values) (elements t.values)) it.numbers)
        (row_of_sets it.sets.items) };
}

impl<B: BitBlock> Numbering<B> {
    // No sets.
    pub(crate) fn new(alloc: Global) -> Self
        ensures { result ≡ [] }
    {
        Numbering {
            sets: Vec::new(alloc),
            numbers: BTreeMap::new(alloc),
        }
    }

    // How many sets there are.
    pub(crate) fn len(&self) -> usize
        ensures { result ≡ length self.now }
    {
        self.sets.len()
    }

    // The set with the number.
    pub(crate) fn set(&self, number: usize) -> &BitSet<B>
        requires { number < length self.now }
        ensures { elements result.now.values ≡ set_of self.now number }
    {
        &self.sets[number]
    }

    // The number of the set; if it was not met before, this is the next number, provided that it is below `most`.
    pub(crate) fn number_of(
        &mut self,
        alloc: Global,
        set: &BitSet<B>,
        most: usize,
    ) -> Result<usize, DfaError>
        ensures ok { IfOk result (λ number. Numbers self.old (elements set.now.values) number self.new) }
        ensures limit { IsOk result → length self.old ≤ most → length self.new ≤ most }
        ensures too_many { IsErrOf result DfaError.TooMany
            ↔ (IsNew self.old (elements set.now.values) × (most ≤ length self.old)) }
    {
        match self.numbers.get(set).copied() {
            Some(number) => Ok(number),
            None => {
                if self.sets.len() >= most {
                    return Err(DfaError::TooMany);
                }
                Ok(self.add(alloc, set)?)
            }
        }
    }

    // Gives a set that was not met before the next number. It is copied twice.
    fn add(&mut self, alloc: Global, set: &BitSet<B>) -> Result<usize, AllocError>
        requires { IsNew self.old (elements set.now.values) }
        ensures ok { IfOk result (λ number. Numbers self.old (elements set.now.values) number self.new) }
        ensures longer { OnOk result (length self.new ≡ length self.old + 1) }
    {
        sets_compare();
        let number = self.sets.len();
        let key = set.clone(alloc)?;
        let copy = set.clone(alloc)?;
        self.sets.reserve(1)?;
        self.numbers.insert(key, number)?;
        self.sets.push_reserved(copy);
        Ok(number)
    }
}
