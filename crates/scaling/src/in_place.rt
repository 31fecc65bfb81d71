// Operations in place that do not tell whether they changed the set, and tests of two sets. No clause says how many blocks these
// read or write.
use crate::faults::Fault;
use crate::work::{Sets, Work};
use std::alloc::Global;

#[derive(Clone, Copy)]
pub enum InPlace {
    Union,
    Intersection,
    Difference,
    SymmetricDifference,
    IsSubset,
    IsDisjoint,
}

impl Work for InPlace {
    fn from_name(name: &str) -> Option<Self> {
        Some(match name {
            "union_with" => InPlace::Union,
            "intersect_with" => InPlace::Intersection,
            "difference_with" => InPlace::Difference,
            "symmetric_difference_with" => InPlace::SymmetricDifference,
            "is_subset" => InPlace::IsSubset,
            "is_disjoint" => InPlace::IsDisjoint,
            _ => return None,
        })
    }

    fn turn(self, _alloc: Global, sets: &mut Sets, n: usize) -> Result<usize, Fault> {
        let Sets { set, other } = sets;
        match self {
            InPlace::Union => set.union_with(other)?,
            InPlace::Intersection => set.intersect_with(other)?,
            InPlace::Difference => set.difference_with(other)?,
            InPlace::SymmetricDifference => set.symmetric_difference_with(other)?,
            InPlace::IsSubset => return Ok(usize::from(set.is_subset(other))),
            // Nothing is left in the set, so that no block decides.
            InPlace::IsDisjoint => {
                set.difference_with(other)?;
                return Ok(usize::from(set.is_disjoint(other)));
            }
        }
        Ok(usize::from(set.contains(n / 2)))
    }
}
