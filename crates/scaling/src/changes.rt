// Calls on two sets: operations in place that tell whether they changed the set, the ones that make a set of many, and what
// compares and counts.
use crate::faults::Fault;
use crate::work::{Sets, Work};
use bit_set::BitSet;
use std::alloc::Global;

#[derive(Clone, Copy)]
pub enum Change {
    Union,
    Intersection,
    Difference,
    SymmetricDifference,
    UnionWithDifference,
    CopyDifference,
    UnionOf,
    IntersectionOf,
    Eq,
    IntersectionCount,
}

impl Work for Change {
    fn from_name(name: &str) -> Option<Self> {
        Some(match name {
            "union_changes" => Change::Union,
            "intersection_changes" => Change::Intersection,
            "difference_changes" => Change::Difference,
            "symmetric_difference_changes" => Change::SymmetricDifference,
            "union_with_difference" => Change::UnionWithDifference,
            "copy_difference" => Change::CopyDifference,
            "union_of" => Change::UnionOf,
            "intersection_of" => Change::IntersectionOf,
            "eq" => Change::Eq,
            "intersection_count" => Change::IntersectionCount,
            _ => return None,
        })
    }

    fn turn(self, alloc: Global, sets: &mut Sets, n: usize) -> Result<usize, Fault> {
        let Sets { set, other } = sets;
        Ok(match self {
            Change::Union => usize::from(set.union_changes(other)?),
            Change::Intersection => usize::from(set.intersection_changes(other)?),
            Change::Difference => usize::from(set.difference_changes(other)?),
            Change::SymmetricDifference => usize::from(set.symmetric_difference_changes(other)?),
            Change::UnionWithDifference => {
                usize::from(set.union_with_difference(other, &BitSet::new_general(alloc))?)
            }
            Change::CopyDifference => {
                usize::from(set.copy_difference(other, &BitSet::new_general(alloc))?)
            }
            Change::UnionOf => {
                let united = BitSet::union_of(alloc, &copies(alloc, set, other)?)?;
                usize::from(united.contains(n / 2))
            }
            Change::IntersectionOf => {
                let common = BitSet::intersection_of(alloc, &copies(alloc, set, other)?)?;
                usize::from(common.contains(n / 2))
            }
            Change::Eq => usize::from(*set == *other),
            Change::IntersectionCount => set.intersection_count(other),
        })
    }
}

// Four copies, two of each set.
fn copies(
    alloc: Global,
    set: &BitSet<u64>,
    other: &BitSet<u64>,
) -> Result<[BitSet<u64>; 4], Fault> {
    Ok([
        set.clone(alloc)?,
        other.clone(alloc)?,
        set.clone(alloc)?,
        other.clone(alloc)?,
    ])
}
