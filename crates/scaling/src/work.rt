// Work that is done a number of times over.
use crate::faults::Fault;
use crate::shapes::Shape;
use bit_set::BitSet;
use std::alloc::Global;

/// A set, and one that was equal to it at first.
#[derive(Drop)]
pub struct Sets {
    pub set: BitSet<u64>,
    pub other: BitSet<u64>,
}

/// One kind of calls.
pub trait Work: Copy {
    /// The call of this name.
    fn from_name(name: &str) -> Option<Self>;

    /// Makes the call on the sets, which are of size `n`, and returns a number that depends on what it does.
    fn turn(self, alloc: Global, sets: &mut Sets, n: usize) -> Result<usize, Fault>;
}

/// Does the work this many times, and adds up what it returns. Before each turn 1 is removed: if nothing wrote to
/// the set, the compiler could make the call once for all turns.
pub fn turns_of<W: Work>(
    alloc: Global,
    work: W,
    shape: Shape,
    n: usize,
    turns: usize,
) -> Result<usize, Fault> {
    let set = shape.set(alloc, n)?;
    let other = set.clone(alloc)?;
    let mut sets = Sets { set, other };
    let mut sum = 0usize;
    for _turn in 0..turns {
        sets.set.remove(1);
        sum = sum.wrapping_add(work.turn(alloc, &mut sets, n)?);
    }
    Ok(sum)
}
