//! One command over sixteen sets.

ghost use Rattle.std.specs.Prelude.{◌≡◌, ◌≢◌, ℕ, ◌+◌, ◌<◌, ◌≤◌, ◌==◌, ◌∷◌, false, not, map, List, length, drop, [], ◌++◌, IfOk, OnOk, OnErr, if◌then◌else◌};
ghost use Rattle.std.specs.List.{list_any};
ghost use Rattle.bit_set.specs.{Bounds.greatest, Sets.{bound_of, has, put, put_all}};
ghost use Rattle.bit_set_run.specs.Capacities.{ChangesCapacities, GrowsExactlyTo, GrowsPast, GrowsTo, KeepsCapacities, Shrinks};
ghost use Rattle.bit_set_run.specs.{Elements.elements_of, Run.{step, elements_before_greatest, FailsAt}};
ghost use Rattle.bit_set_commands.specs.declared.commands.Reply.TheVariants.{Truth, Done, Rest, Element};

use crate::pairs::{PairChange, change_by_another};
use crate::two_sets::{rest_of_walk, set_of, walk};
use crate::walking::{items, rest};
use crate::{Command, Numbers, Reply};
use bit_set::{BitBlock, BitSet, SetError};
use std::alloc::{AllocError, Global};

// One command, over the sets themselves.
pub(crate) fn step<B: BitBlock>(
    alloc: Global,
    sets: &mut [BitSet<B>; 16],
    command: &Command,
) -> Result<Reply, AllocError>
    ensures reply { IfOk result (λ reply. reply ≡ (step (map elements_of sets.old) command.now).reply) }
    ensures sets { OnOk result (map elements_of sets.new ≡ (step (map elements_of sets.old) command.now).sets) }
    ensures fails { OnErr result (FailsAt (map elements_of sets.old) command.now (map elements_of sets.new)) }

    // A table's contract sees no capacities, so these two clauses are only of this function.
    ensures capacities { OnOk result (ChangesCapacities B.width sets.old command.now sets.new) }
    ensures capacities_left { OnErr result (KeepsCapacities sets.old command.now sets.new) }
{
    match command {
        // On one set.
        Command::Insert(name, n) => insert(&mut sets[name.place()], *n),
        Command::Remove(name, n) => Ok(Reply::Truth(sets[name.place()].remove(*n))),
        Command::Extend(name, items) => extend(&mut sets[name.place()], items),
        Command::Truncate(name, n) => {
            sets[name.place()].truncate(*n);
            Ok(Reply::Done)
        }
        Command::Empty(name) => {
            sets[name.place()].make_empty();
            Ok(Reply::Done)
        }
        Command::Reset(name) => {
            sets[name.place()].reset();
            Ok(Reply::Done)
        }
        Command::Reserve(name, n) => reserve(&mut sets[name.place()], *n),
        Command::ReserveExact(name, n) => reserve_exact(&mut sets[name.place()], *n),
        Command::Shrink(name) => shrink(&mut sets[name.place()]),
        // On a pair.
        Command::Copy(from, to) => change_by_another(alloc, sets, *to, *from, PairChange::Copy),
        Command::InPlace(merge, s, t) => change_by_another(
            alloc,
            sets,
            *s,
            *t,
            PairChange::Merge(*merge),
        ),
        Command::Append(s, t) => change_by_another(alloc, sets, *s, *t, PairChange::Append),
        Command::SplitOff(s, n, t) => change_by_another(
            alloc,
            sets,
            *s,
            *t,
            PairChange::SplitOff(*n),
        ),
        // Questions.
        Command::Contains(name, n) => Ok(Reply::Truth(set_of(sets, *name).contains(*n))),
        Command::Count(name) => Ok(Reply::Number(set_of(sets, *name).count())),
        Command::IsEmpty(name) => Ok(Reply::Truth(set_of(sets, *name).is_empty())),
        Command::Items(name) => items(alloc, set_of(sets, *name).iter()),
        Command::Walk(merge, s, t) => walk(alloc, sets, *merge, *s, *t),
        Command::Subset(s, t) => Ok(Reply::Truth(set_of(sets, *s).is_subset(set_of(sets, *t)))),
        Command::Superset(s, t) => Ok(Reply::Truth(set_of(sets, *s).is_superset(set_of(sets, *t)))),
        Command::Disjoint(s, t) => Ok(Reply::Truth(set_of(sets, *s).is_disjoint(set_of(sets, *t)))),
        Command::Equal(s, t) => Ok(Reply::Truth(*set_of(sets, *s) == *set_of(sets, *t))),
        Command::Compare(s, t) => Ok(Reply::Order(set_of(sets, *s).cmp(set_of(sets, *t)))),
        Command::RestIter(name, n) => rest(alloc, set_of(sets, *name).iter(), *n),
        Command::RestWalk(merge, s, t, n) => rest_of_walk(alloc, sets, *merge, *s, *t, *n),
    }
}

fn insert<B: BitBlock>(set: &mut BitSet<B>, n: usize) -> Result<Reply, AllocError>
    ensures reply { IfOk result (λ reply. reply ≡ (if n == greatest then Element else Truth
        (not (has (elements_of set.old) n)))) }
    ensures after { OnOk result (elements_of set.new ≡
        (if n == greatest then elements_of set.old else put (elements_of set.old) n)) }
    ensures fails { OnErr result ((n < greatest) × (has (elements_of set.old) n ≡ false) × (set.new ≡ set.old)) }
    ensures grown { OnOk result (GrowsTo (n + 1) set.old set.new) }
    ensures unfit { n ≡ greatest → set.new ≡ set.old }
{
    match set.insert(n) {
        Ok(new) => Ok(Reply::Truth(new)),
        Err(SetError::Memory(fault)) => Err(fault),
        Err(_) => Ok(Reply::Element),
    }
}

fn extend<B: BitBlock>(set: &mut BitSet<B>, items: &Numbers) -> Result<Reply, AllocError>
    ensures reply { IfOk result (λ reply. reply ≡ (if list_any (λ n. n == greatest) items.now then Element else Done)) }
    ensures after { OnOk result (elements_of set.new ≡ put_all (elements_of set.old)
        (elements_before_greatest items.now)) }
    ensures fails { OnErr result ((front : List ℕ) × (item : ℕ) × (back : List ℕ)
        × (elements_before_greatest items.now ≡ front ++ item ∷ back)
        × (has (put_all (elements_of set.old) front) item ≡ false)
        × (elements_of set.new ≡ put_all (elements_of set.old) front)) }
    ensures grown { OnOk result (GrowsPast items.now set.old set.new) }
    ensures capacity { set.old.capacity ≤ set.new.capacity }
{
    match set.extend(items.as_slice().iter().copied()) {
        Ok(()) => Ok(Reply::Done),
        Err(SetError::Element) => Ok(Reply::Element),
        Err(SetError::Memory(fault)) => Err(fault),
        Err(SetError::Length) => unreachable!(),
    }
}

#[tactic(auto, using(crate::proofs::SteppingLemmas::bound_of_elements))]
fn reserve<B: BitBlock>(set: &mut BitSet<B>, len: usize) -> Result<Reply, AllocError>
    ensures reply { IfOk result (λ reply. reply ≡ Done) }
    ensures after { OnOk result (elements_of set.new ≡ elements_of set.old) }
    ensures fails { OnErr result ((bound_of (elements_of set.old) < len) × (set.new ≡ set.old)) }
    ensures capacity { OnOk result (len ≤ set.new.capacity) }
    ensures grown { OnOk result (GrowsTo len set.old set.new) }
{
    set.reserve_len(len)?;
    Ok(Reply::Done)
}

#[tactic(auto, using(crate::proofs::SteppingLemmas::bound_of_elements))]
fn reserve_exact<B: BitBlock>(set: &mut BitSet<B>, len: usize) -> Result<Reply, AllocError>
    ensures reply { IfOk result (λ reply. reply ≡ Done) }
    ensures after { OnOk result (elements_of set.new ≡ elements_of set.old) }
    ensures fails { OnErr result ((bound_of (elements_of set.old) < len) × (set.new ≡ set.old)) }
    ensures grown { OnOk result (GrowsExactlyTo B.width len set.old set.new) }
{
    set.reserve_len_exact(len)?;
    Ok(Reply::Done)
}

fn shrink<B: BitBlock>(set: &mut BitSet<B>) -> Result<Reply, AllocError>
    ensures reply { IfOk result (λ reply. reply ≡ Done) }
    ensures after { OnOk result (elements_of set.new ≡ elements_of set.old) }
    ensures fails { OnErr result ((elements_of set.old ≢ []) × (elements_of set.new ≡ elements_of set.old)) }
    ensures fitted { OnOk result (Shrinks B.width set.old set.new) }
    ensures capacity { set.new.capacity ≤ set.old.capacity }
{
    set.shrink_to_fit()?;
    Ok(Reply::Done)
}
