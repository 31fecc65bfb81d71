// Calls that read a set, alone or beside a second one, by what they return.
use crate::answers::{Answer, Answers};
use crate::calls::{Reading, Telling};
use crate::feed::feed_of;
use crate::widths::Width;
use bit_set::{BitBlock, BitSet};
use std::alloc::Global;

pub(crate) fn read<B: BitBlock>(
    reading: Reading,
    set: &BitSet<B>,
    other: &BitSet<B>,
    (number, end): (usize, usize),
) -> Answer {
    match reading {
        Reading::Count => Answer::Number(set.count()),
        Reading::Len => Answer::Number(set.len()),
        Reading::CountInRange => Answer::Number(set.count_in_range(number..end)),
        Reading::NextMissing => Answer::Number(set.next_missing(number)),
        Reading::Union => Answer::Number(set.union_count(other)),
        Reading::Intersection => Answer::Number(set.intersection_count(other)),
        Reading::Difference => Answer::Number(set.difference_count(other)),
        Reading::SymmetricDifference => Answer::Number(set.symmetric_difference_count(other)),
        Reading::Contains => Answer::Truth(set.contains(number)),
        Reading::IsEmpty => Answer::Truth(set.is_empty()),
        Reading::Capacity => Answer::Truth(set.get_ref().len() <= set.capacity()),
        Reading::IsSubset => Answer::Truth(set.is_subset(other)),
        Reading::IsSuperset => Answer::Truth(set.is_superset(other)),
        Reading::IsDisjoint => Answer::Truth(set.is_disjoint(other)),
        Reading::Eq => Answer::Truth(*set == *other),
        Reading::ContainsAllInRange => Answer::Truth(set.contains_all_in_range(number..end)),
        Reading::ContainsAnyInRange => Answer::Truth(set.contains_any_in_range(number..end)),
        Reading::IsProperSubset => Answer::Truth(set.is_proper_subset(other)),
        Reading::First => Answer::Item(set.first()),
        Reading::Last => Answer::Item(set.last()),
        Reading::Next => Answer::Item(set.next(number)),
        Reading::Previous => Answer::Item(set.previous(number)),
        Reading::FirstGap => Answer::Item(set.first_gap(number, end)),
    }
}

fn compare<B: BitBlock>(set: &BitSet<B>, other: &BitSet<B>, answers: &mut Answers) {
    answers.order(set.cmp(other));
    answers.truth(set.partial_cmp(other).is_some());
    answers.truth(*set < *other);
    answers.truth(*set >= *other);
}

fn feed<B: BitBlock>(set: &BitSet<B>, answers: &mut Answers) {
    let (calls, digest) = feed_of(set);
    answers.number(calls as usize);
    answers.number(digest as usize);
}

// The text of the runs, and whether the set that it lists is the same.
fn tell_ranges<B: BitBlock>(alloc: Global, set: &BitSet<B>, answers: &mut Answers) {
    let Ok(text) = format!(in alloc; "{}", set.ranges()) else {
        answers.refuse();
        return;
    };
    match BitSet::from_ranges(alloc, &text) {
        Ok(back) => {
            answers.text(Ok(text));
            answers.truth(back == *set);
        }
        Err(_) => answers.refuse(),
    }
}

pub(crate) fn tell<B: Width>(
    alloc: Global,
    telling: Telling,
    set: &BitSet<B>,
    other: &BitSet<B>,
    answers: &mut Answers,
) {
    match telling {
        Telling::Cmp => compare(set, other, answers),
        Telling::Hash => feed(set, answers),
        Telling::Display => answers.text(format!(in alloc; "{set}")),
        Telling::Debug => answers.text(format!(in alloc; "{set:?}")),
        Telling::Json => B::through_json(alloc, set, answers),
        Telling::ToBytes => answers.made_bytes(set.to_bytes(alloc)),
        Telling::ToBytesLsb => answers.made_bytes(set.to_bytes_lsb(alloc)),
        Telling::Ranges => tell_ranges(alloc, set, answers),
    }
}
