// Laws of what operations in place return.
ghost use Rattle.std.specs.Prelude.{◌≡◌, ◌↔◌, ℕ, List, [], true};
ghost use Rattle.set_algebra.specs.Order.{same_sets};
ghost use Rattle.set_algebra.specs.Sets.{IsAscending, difference, intersection, is_disjoint, is_subset, symmetric_difference, union};

/// When an operation in place leaves a set unchanged, which `union_changes` and the calls like it return: a union
/// if the other set is a subset of this one, an intersection if this one is a subset of the other, a difference if
/// they have nothing in common, and a symmetric difference if the other is empty. `union_with_difference` is a
/// union with a difference.
#[tactic(auto, using(crate::proofs::ReportedLemmas::merges_that_keep))]
pub fn merges_that_keep_sets()
    ensures union { (s t : List ℕ) → IsAscending s → same_sets s (union s t) ≡ is_subset t s }
    ensures intersection { (s t : List ℕ) → IsAscending s → same_sets s (intersection s t) ≡ is_subset s t }
    ensures difference { (s t : List ℕ) → IsAscending s → same_sets s (difference s t) ≡ is_disjoint s t }
    ensures symmetric_difference { (s t : List ℕ) → IsAscending s
        → (same_sets s (symmetric_difference s t) ≡ true) ↔ (t ≡ []) }
{}
