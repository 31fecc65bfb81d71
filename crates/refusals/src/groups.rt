// Calls that take no memory, in groups. A function makes the calls of one group, on the set of 3 and 447 with length 5001 and
// on the one that is lent, and returns whether each call returns what stands beside it.
ghost use Rattle.std.specs.Iterator.{IsFinite};

use crate::failing_writers::{Text, pieces};
use crate::feed::Feed;
use bit_set::bit_vec::{BitVec, Merge, Steps};
use bit_set::{BitBlock, BitSet};
use bit_set_run::{Numbers, SetName, Table};
use std::alloc::Global;
use std::cmp::Ordering;
use std::hash::{Hash, Hasher};
use std::mem;

/// A group of calls.
pub enum Group {
    EmptyOnes,
    Questions,
    Comparisons,
    Walks,
    Hints,
    Counts,
    Moves,
    Texts,
    Changes,
    Bits,
    BitWalks,
    BitChanges,
    Ends,
    Ranges,
    Shifts,
    BitEnds,
    Runs,
}

macro_rules! return_these {
    ($($call:expr => $wanted:expr;)+) => { $((($call) == $wanted))&+ };
}

// How long the set `p` of a new table is.
fn len_in_table<B: BitBlock>(alloc: Global) -> usize {
    let table = Table::<B>::new(alloc);
    match SetName::from_letter(b'p') {
        Some(name) => table.get(name).get_ref().len(),
        None => 1,
    }
}

fn empty_ones<B: BitBlock>(alloc: Global) -> bool {
    let (set, plain) = (BitSet::<B>::new_general(alloc), BitSet::new(alloc));
    return_these! {
        set.count() => 0; set.capacity() => 0; set.is_empty() => true; plain.is_empty() => true;
        len_in_table::<B>(alloc) => 0; set.into_bit_vec().len() => 0;
        Numbers::from_vec(Vec::new(alloc)).as_slice().len() => 0;
    }
}

fn questions<B: BitBlock>(set: &BitSet<B>, lent: &BitSet<B>) -> bool {
    return_these! {
        set.count() => 2; set.len() => 2; set.contains(447) => true; set.is_empty() => false;
        set.capacity() >= set.get_ref().len() => true; set.is_subset(lent) => false; set.is_superset(lent) => false;
        set.is_disjoint(lent) => false;
    }
}

fn hash_of<B: BitBlock>(set: &BitSet<B>) -> u64 {
    let mut feed = Feed { count: 0 };
    set.hash(&mut feed);
    feed.finish()
}

fn comparisons<B: BitBlock>(set: &BitSet<B>, lent: &BitSet<B>) -> bool {
    return_these! {
        set == lent => false; set == set => true; set.cmp(lent) => Ordering::Greater;
        set.partial_cmp(lent) => Some(Ordering::Greater); set < lent => false; hash_of(set) => 16;
    }
}

// The sum of what a walk gives.
fn total<I: Iterator<Item = usize> + Drop>(items: I) -> usize
    requires can { I.can_next items }
    requires ends { IsFinite (I.remaining items) }
{
    let mut total: usize = 0;
    for item in items {
        total = total.saturating_add(item);
    }
    total
}

fn count_past_first<B: BitBlock>(set: &BitSet<B>) -> usize {
    let mut walk = set.iter().clone();
    walk.next();
    walk.count()
}

fn walks<B: BitBlock>(set: &BitSet<B>, lent: &BitSet<B>) -> bool {
    return_these! {
        total(set.into_iter()) => 450; count_past_first(set) => 1; total(set.union(lent).clone()) => 5457;
        total(set.intersection(lent).clone()) => 3; total(set.difference(lent).clone()) => 447;
        total(set.symmetric_difference(lent).clone()) => 5454;
    }
}

// The most that a walk over 5001 places says, or 0 if it says that it gives from none up to those of their whole blocks.
fn most_of<B: BitBlock>(hint: (usize, Option<usize>)) -> usize {
    let width = B::bits();
    let blocks = 5001_usize.div_ceil(width.max(1));
    if hint == (0, blocks.checked_mul(width)) {
        0
    } else {
        hint.1.unwrap_or(0)
    }
}

fn hints<B: BitBlock>(set: &BitSet<B>, lent: &BitSet<B>) -> bool {
    return_these! {
        most_of::<B>(set.iter().size_hint()) => 0; most_of::<B>(set.union(lent).size_hint()) => 0;
        most_of::<B>(set.intersection(lent).size_hint()) => 5001;
        most_of::<B>(set.difference(lent).size_hint()) => 0;
        most_of::<B>(set.symmetric_difference(lent).size_hint()) => 0;
    }
}

fn counts<B: BitBlock>(set: &BitSet<B>, lent: &BitSet<B>) -> bool {
    return_these! {
        set.union(lent).count() => 4; set.intersection(lent).count() => 1; set.difference(lent).count() => 1;
        set.symmetric_difference(lent).count() => 3;
    }
}

fn moves<B: BitBlock>(alloc: Global, set: &mut BitSet<B>) -> bool {
    let bits = mem::replace(set, BitSet::new_general(alloc)).into_bit_vec();
    *set = BitSet::from_bit_vec_general(bits);
    return_these! { set.count() => 2; set.get_ref().len() => 5001; }
}

fn texts<B: BitBlock>(set: &mut BitSet<B>) -> bool {
    set.truncate(448);
    return_these! {
        pieces(&Text::Set, set) > 1 => true; pieces(&Text::SetDebug, set) > 1 => true;
        pieces(&Text::BitsDebug, set) > 1 => true;
    }
}

fn changes<B: BitBlock>(set: &mut BitSet<B>) -> bool {
    set.truncate(100);
    let are_removed =
        return_these! { set.count() => 1; set.remove(3) => true; set.remove(3) => false; };
    set.make_empty();
    let is_long = set.get_ref().len() == 100;
    set.clear();
    let is_empty = set.count() == 0;
    set.reset();
    are_removed & is_long & is_empty & (set.get_ref().len() == 0)
}

fn bits<B: BitBlock>(bits: &BitVec<B>, lent: &BitVec<B>) -> bool {
    return_these! {
        bits.len() => 5001; bits.get(447) => Some(true); bits.get(5001) => None; bits.capacity() >= 5001 => true;
        bits.storage().len() >= 7 => true; bits.none() => false; bits.is_subset(lent) => false;
        bits.is_subset_of(lent, &mut Steps::new()) => false; bits.is_disjoint(lent) => false;
        bits.is_disjoint_from(lent, &mut Steps::new()) => false;
    }
}

// Whether a walk over the blocks gives as many as there are, and says so.
fn gives_blocks<B: BitBlock>(bits: &BitVec<B>) -> bool {
    let blocks = bits.storage().len();
    let mut walk = bits.blocks();
    let whole = walk.clone();
    let is_first = walk.next().is_some();
    let rest = walk.as_slice().len();
    let is_said = walk.size_hint() == (rest, Some(rest));
    is_first & is_said & (rest < blocks) & (whole.count() == blocks)
}

// How many blocks a walk over those that are not zero, and the first, gives.
fn count_nonzero<B: BitBlock>(bits: &BitVec<B>) -> usize {
    let mut count: usize = 0;
    for _ in bits.nonzero().clone() {
        count = count.saturating_add(1);
    }
    count
}

fn bit_walks<B: BitBlock>(bits: &BitVec<B>) -> bool {
    return_these! {
        gives_blocks(bits) => true; bits.count_ones() => 2; count_nonzero(bits) => 2;
        bits.nonzero_past_first().as_slice().len() => bits.storage().len();
    }
}

// Makes the values at 5 and 447 true and false, where there are such. Whether the second was true.
fn is_replaced<B: BitBlock>(bits: &mut BitVec<B>) -> bool {
    if bits.len() <= 447 {
        return false;
    }
    bits.set(5, true);
    bits.replace(447, false)
}

fn merge_twice<B: BitBlock>(bits: &mut BitVec<B>, lent: &BitVec<B>) {
    if lent.len() <= bits.len() {
        bits.merge_blocks(lent, Merge::Symmetric, &mut Steps::new());
    }
    if lent.len() <= bits.len() {
        bits.merge(lent, Merge::Union);
    }
}

// Cuts the values off. Whether there are as many as is said before, after that, and where all are false.
fn are_cut<B: BitBlock>(bits: &mut BitVec<B>) -> bool {
    bits.truncate(448);
    let is_cut = bits.len() == 448;
    bits.cut_zero_blocks();
    let is_one_block = bits.len() == B::bits();
    bits.fill(true);
    let is_filled = !bits.none();
    bits.remove_all();
    is_cut & is_one_block & is_filled & (bits.len() == 0)
}

fn bit_changes<B: BitBlock>(bits: &mut BitVec<B>, lent: &BitVec<B>) -> bool {
    let is_replaced = is_replaced(bits);
    merge_twice(bits, lent);
    is_replaced & (bits.get(7) == Some(true)) & are_cut(bits)
}

fn ends<B: BitBlock>(set: &mut BitSet<B>) -> bool {
    return_these! {
        set.first() => Some(3); set.last() => Some(447); set.next(4) => Some(447); set.previous(447) => Some(3);
        set.next_missing(3) => 4; set.pop_first() => Some(3); set.pop_last() => Some(447);
    }
}

fn ranges<B: BitBlock>(set: &mut BitSet<B>) -> bool {
    let are_found = return_these! {
        set.count_in_range(0..448) => 2; set.contains_any_in_range(4..447) => false;
        set.contains_all_in_range(447..448) => true;
    };
    set.remove_range(0..447);
    let are_put = set.toggle_range(446..448).is_ok()
        & set.insert_range(0..2).is_ok()
        & (set.count() == 3);
    set.retain(|element| element > 0);
    are_found & are_put & (set.count() == 2)
}

fn shifts<B: BitBlock>(set: &mut BitSet<B>) -> bool {
    let is_up = return_these! {
        set.first_gap(4, 443) => Some(4); set.first_gap(4, 444) => Some(448); set.shift_up(4000).is_ok() => true;
        set.first() => Some(4003);
    };
    set.shift_down(4004);
    is_up & (set.first() == Some(443)) & (set.count() == 1)
}

fn bit_ends<B: BitBlock>(bits: &BitVec<B>) -> bool {
    return_these! {
        bits.count_ones_in_range(0..448) => 2; bits.any_in_range(4..447) => false; bits.all_in_range(447..448) => true;
        bits.first_one_from(4) => Some(447); bits.last_one_before(447) => Some(3); bits.first_zero_from(3) => 4;
    }
}

// The runs of the set are those of 3 and 447.
fn runs<B: BitBlock>(set: &BitSet<B>, lent: &BitSet<B>) -> bool {
    let mut walk = set.runs(0..448);
    let first = walk.next().unwrap_or(0..0);
    let second = walk.clone().next().unwrap_or(0..0);
    walk.next();
    let found = [first.start, first.end, second.start, second.end];
    (found == [3, 4, 447, 448]) & walk.next().is_none() & !set.is_proper_subset(lent)
}

impl Group {
    /// Makes the calls one after another. Whether each returns what it must.
    pub fn is_right<B: BitBlock>(
        &self,
        alloc: Global,
        set: &mut BitSet<B>,
        lent: &BitSet<B>,
    ) -> bool {
        match self {
            Group::EmptyOnes => empty_ones::<B>(alloc),
            Group::Questions => questions(set, lent),
            Group::Comparisons => comparisons(set, lent),
            Group::Walks => walks(set, lent),
            Group::Hints => hints(set, lent),
            Group::Counts => counts(set, lent),
            Group::Moves => moves(alloc, set),
            Group::Texts => texts(set),
            Group::Changes => changes(set),
            Group::Bits => bits(set.get_ref(), lent.get_ref()),
            Group::BitWalks => bit_walks(set.get_ref()),
            Group::BitChanges => bit_changes(set.get_mut(), lent.get_ref()),
            Group::Ends => ends(set),
            Group::Ranges => ranges(set),
            Group::Shifts => shifts(set),
            Group::BitEnds => bit_ends(set.get_ref()),
            Group::Runs => runs(set, lent),
        }
    }
}
