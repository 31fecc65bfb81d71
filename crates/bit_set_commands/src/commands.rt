// What a command is and what a reply is. How a line is read as a command is in `reading`, and how a reply is written
// in `reply_texts`; what a command does to sets is not in this crate.
use crate::{Numbers, SetName};
use bit_blocks::block::merge::Merge;
use std::cmp::Ordering;

/// What `run` is asked to do.
#[derive(Debug, Drop, PartialEq, Eq)]
pub enum Command {
    /// Insert a number into a set.
    Insert(SetName, usize),
    /// Remove a number from a set.
    Remove(SetName, usize),
    /// Whether a number is in a set.
    Contains(SetName, usize),
    /// Insert some numbers into a set, one after another.
    Extend(SetName, Numbers),
    /// Remove the numbers that are not below this one.
    Truncate(SetName, usize),
    /// Remove all numbers; the set keeps its length.
    Empty(SetName),
    /// Remove all numbers; the length of the set becomes 0.
    Reset(SetName),
    /// Reserve capacity, so that inserting numbers below this one into a set allocates nothing.
    Reserve(SetName, usize),
    /// Reserve exactly the capacity with which inserting numbers below this one into a set allocates nothing.
    ReserveExact(SetName, usize),
    /// Give back the capacity that a set does not need for its numbers.
    Shrink(SetName),
    /// How many numbers are in a set.
    Count(SetName),
    /// Whether no number is in a set.
    IsEmpty(SetName),
    /// The numbers in a set.
    Items(SetName),
    /// Copy the first set to the second.
    Copy(SetName, SetName),
    /// Set the first set to what is in either, in both, only in the first, or in exactly one.
    InPlace(Merge, SetName, SetName),
    /// Move the numbers of the second set into the first.
    Append(SetName, SetName),
    /// Move the numbers that are not below this one from the first set to the second, replacing what that held.
    SplitOff(SetName, usize, SetName),
    /// What is in either set, in both, only in the first, or in exactly one.
    Walk(Merge, SetName, SetName),
    /// Whether each number of the first set is in the second.
    Subset(SetName, SetName),
    /// Whether each number of the second set is in the first.
    Superset(SetName, SetName),
    /// Whether the two sets have no number in common.
    Disjoint(SetName, SetName),
    /// Whether two sets have the same numbers.
    Equal(SetName, SetName),
    /// How two sets compare, as the lists of their numbers in ascending order.
    Compare(SetName, SetName),
    /// What is left of an iterator over a set after some of its numbers: how many, and which.
    RestIter(SetName, usize),
    /// What is left of an iterator over a merge of two sets after some of its numbers: how many, and which.
    RestWalk(Merge, SetName, SetName, usize),
}

/// What `run` returns for a command.
#[derive(Debug, Drop, PartialEq, Eq)]
pub enum Reply {
    /// Whether the set changed, or the result of a test.
    Truth(bool),
    /// It is done.
    Done,
    /// How many.
    Number(usize),
    /// The numbers of a set, or of a merge of two sets, ascending.
    Items(Numbers),
    /// How two sets compare.
    Order(Ordering),
    /// How many numbers an iterator has left, and which, ascending.
    Rest(usize, Numbers),
    /// A number cannot be an element, and is not inserted.
    Element,
    /// A set cannot be copied or appended to itself, merged in place with itself or split off to itself; nothing
    /// changed.
    Same,
}
