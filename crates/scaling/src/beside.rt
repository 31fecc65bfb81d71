// Calls on a set and a short one, or one that differs at a low number: what they read does not grow with the set, but for what a
// count keeps of it.
use crate::faults::Fault;
use crate::shapes::Shape;
use crate::work::{Sets, Work};
use std::alloc::Global;

#[derive(Clone, Copy)]
pub enum Beside {
    IntersectionCount,
    UnionCount,
    DifferenceCount,
    IsSubset,
    IsDisjoint,
    Eq,
    Less,
}

impl Work for Beside {
    fn from_name(name: &str) -> Option<Self> {
        Some(match name {
            "intersection_count_of_short" => Beside::IntersectionCount,
            "union_count_of_short" => Beside::UnionCount,
            "difference_count_of_short" => Beside::DifferenceCount,
            "is_subset_of_short" => Beside::IsSubset,
            "is_disjoint_of_short" => Beside::IsDisjoint,
            "eq_of_others" => Beside::Eq,
            "less_of_others" => Beside::Less,
            _ => return None,
        })
    }

    fn turn(self, alloc: Global, sets: &mut Sets, _n: usize) -> Result<usize, Fault> {
        let Sets { set, other } = sets;
        // It is so long that it stores a summary.
        let short = Shape::Two.set(alloc, 40_000)?;
        set.insert(3)?;
        Ok(match self {
            Beside::IntersectionCount => short.intersection_count(set),
            Beside::UnionCount => short.union_count(set),
            Beside::DifferenceCount => short.difference_count(set),
            Beside::IsSubset => usize::from(short.is_subset(set)),
            // Both have 0, but for this.
            Beside::IsDisjoint => {
                set.remove(0);
                usize::from(short.is_disjoint(set))
            }
            Beside::Eq => usize::from(*set == *other),
            Beside::Less => usize::from(*set < *other),
        })
    }
}
