//! Commands that change a set by means of another.

ghost use Rattle.std.specs.Prelude.{◌≡◌, map, IfOk, OnErr, OnOk};
ghost use Rattle.bit_set_run.specs.Capacities.{ChangesCapacities, KeepsCapacities, PairCapacities};
ghost use Rattle.bit_set_run.specs.{Elements.elements_of, Pairs.{command_of, pair_after, MayAsk}, Run.{step, FailsAt}};

use crate::{Reply, SetName};
use bit_set::bit_vec::Merge;
use bit_set::{BitBlock, BitSet};
use std::alloc::{AllocError, Global};
use std::mem;

/// What a command does to a set and another one.
#[derive(Clone, Copy)]
pub(crate) enum PairChange {
    /// The set becomes the other.
    Copy,
    /// The set is merged with the other.
    Merge(Merge),
    /// The numbers of the other move to the set.
    Append,
    /// The set's numbers from this one on become those of the other.
    SplitOff(usize),
}

/// Changes a set by means of another, which must be a different one. It is one command, over the sets themselves.
pub(crate) fn change_by_another<B: BitBlock>(
    alloc: Global,
    sets: &mut [BitSet<B>; 16],
    to: SetName,
    from: SetName,
    change: PairChange,
) -> Result<Reply, AllocError>
    ensures reply { IfOk result (λ reply. reply ≡ (step (map elements_of sets.old) (command_of change to from)).reply) }
    ensures sets { OnOk result (map elements_of sets.new
        ≡ (step (map elements_of sets.old) (command_of change to from)).sets) }
    ensures fails { OnErr result (FailsAt (map elements_of sets.old) (command_of change to from)
        (map elements_of sets.new)) }
    ensures capacities { OnOk result (ChangesCapacities B.width sets.old (command_of change to from) sets.new) }
    ensures capacities_left { OnErr result (KeepsCapacities sets.old (command_of change to from) sets.new) }
{
    let to = to.place();
    let from = from.place();
    if to == from {
        return Ok(Reply::Same);
    }
    // The other set is moved out of its place, so that both can be lent at once. This allocates nothing.
    let mut other = mem::replace(&mut sets[from], BitSet::new_general(alloc));
    let changed = change_pair(alloc, &mut sets[to], &mut other, change);
    sets[from] = other;
    changed?;
    Ok(Reply::Done)
}

// Makes of the two sets what the command does.
fn change_pair<B: BitBlock>(
    alloc: Global,
    set: &mut BitSet<B>,
    other: &mut BitSet<B>,
    change: PairChange,
) -> Result<(), AllocError>
    ensures set { OnOk result (elements_of set.new
        ≡ (pair_after change (elements_of set.old) (elements_of other.old)).0) }
    ensures other { OnOk result (elements_of other.new
        ≡ (pair_after change (elements_of set.old) (elements_of other.old)).1) }
    ensures capacities { OnOk result (PairCapacities B.width change set.old other.old set.new other.new) }
    ensures fails { OnErr result (MayAsk change) }
    ensures set_left { OnErr result (set.new ≡ set.old) }
    ensures other_left { OnErr result (other.new ≡ other.old) }
{
    match change {
        PairChange::Copy => set.clone_from(other),
        PairChange::Merge(Merge::Union) => set.union_with(other),
        PairChange::Merge(Merge::Intersection) => set.intersect_with(other),
        PairChange::Merge(Merge::Difference) => set.difference_with(other),
        PairChange::Merge(Merge::Symmetric) => set.symmetric_difference_with(other),
        PairChange::Append => set.append(other),
        PairChange::SplitOff(n) => {
            *other = set.split_off(alloc, n)?;
            Ok(())
        }
    }
}
