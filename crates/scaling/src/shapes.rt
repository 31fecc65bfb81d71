// The sets that work is done on.
use crate::faults::Fault;
use bit_set::BitSet;
use std::alloc::Global;

/// Which numbers are in a set of a size n.
#[derive(Clone, Copy)]
pub enum Shape {
    /// 0 and n.
    Two,
    /// 0 alone, in a set as long as one of 0 and n.
    Zero,
    /// One in 16 numbers below n, scattered.
    Many,
    /// Each number below n.
    Full,
}

impl Shape {
    /// The shape of this name.
    pub fn from_name(name: &str) -> Option<Self> {
        Some(match name {
            "two" => Shape::Two,
            "zero" => Shape::Zero,
            "many" => Shape::Many,
            "full" => Shape::Full,
            _ => return None,
        })
    }

    /// The set of this shape.
    pub fn set(self, alloc: Global, n: usize) -> Result<BitSet<u64>, Fault> {
        let mut set = BitSet::new_general(alloc);
        set.insert(0)?;
        set.insert(n)?;
        match self {
            Shape::Two => {}
            Shape::Zero => {
                set.remove(n);
            }
            Shape::Many => set.extend((0..n / 16).map(move |k| scattered(k, n)))?,
            Shape::Full => set.insert_range(0..n)?,
        }
        Ok(set)
    }
}

// A number below `n`, another for almost each `k`.
fn scattered(k: usize, n: usize) -> usize {
    k.wrapping_mul(2_654_435_761).checked_rem(n).unwrap_or(0)
}
