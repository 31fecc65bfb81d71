// The table of sixteen sets. What commands do to it is in `stepping`.
ghost use Rattle.std.specs.Prelude.{◌≡◌};
ghost use Rattle.bit_set_run.specs.{Elements.elements_of, Run.{no_sets, set_of}};

use crate::SetName;
use crate::two_sets::set_of;
use bit_set::{BitBlock, BitSet};
use std::alloc::Global;
use std::marker::Model;

/// Sixteen sets of numbers, each under its name.
#[derive(Drop)]
pub struct Table<B: BitBlock> {
    pub(crate) sets: [BitSet<B>; 16],
}

impl<B: BitBlock> Model for Table<B> {
    ghost use Rattle.std.specs.Prelude.{ℕ, List, map};
    ghost use Rattle.bit_set_run.specs.Elements.{elements_of};

    ghost Value = { List (List ℕ) };

    ghost view = { λ table. map elements_of table.sets };
}

impl<B: BitBlock> Table<B> {
    /// Sixteen empty sets. Constant time, and allocates nothing.
    ///
    /// ```
    /// // `a` is the name of the first set.
    /// let mut table = Table::<u32>::new(alloc);
    /// ```
    pub fn new(alloc: Global) -> Self
        ensures { result ≡ no_sets }
    {
        let set = || BitSet::new_general(alloc);
        Table {
            sets: [
                set(),
                set(),
                set(),
                set(),
                set(),
                set(),
                set(),
                set(),
                set(),
                set(),
                set(),
                set(),
                set(),
                set(),
                set(),
                set(),
            ],
        }
    }

    /// The set of this name, in constant time.
    ///
    /// ```
    /// // After the command `insert a 3`.
    /// assert_eq!(table.get(a).first(), Some(3));
    /// ```
    #[inline]
    pub fn get(&self, name: SetName) -> &BitSet<B>
        ensures { elements_of result.now ≡ set_of self.now name }
    {
        set_of(&self.sets, name)
    }
}
