//! The first words of commands.

ghost use Rattle.std.specs.{Map.lookup, Option.option_map, Prelude.{◌≡◌, map}, Str.bytes_eq};
ghost use Rattle.bit_set_commands.specs.Verbs.{usage, usage_of, walk_of};

use bit_blocks::block::merge::Merge;

/// The first word of a command.
#[derive(Clone, Copy)]
pub(crate) enum Verb {
    Insert,
    Remove,
    Contains,
    Extend,
    Truncate,
    Empty,
    Reset,
    Reserve,
    ReserveExact,
    Shrink,
    Count,
    IsEmpty,
    Items,
    Copy,
    InPlace(Merge),
    Append,
    SplitOff,
    Walk(Merge),
    Subset,
    Superset,
    Disjoint,
    Equal,
    Compare,
    Rest,
}

/// An iterator, of which `rest` says what is left.
#[derive(Clone, Copy)]
pub(crate) enum SetWalk {
    /// Over one set.
    One,
    /// Over a merge of two sets.
    Two(Merge),
}

const VERBS: [(&[u8], Verb); 30] = [
    (b"insert", Verb::Insert),
    (b"remove", Verb::Remove),
    (b"contains", Verb::Contains),
    (b"extend", Verb::Extend),
    (b"truncate", Verb::Truncate),
    (b"empty", Verb::Empty),
    (b"reset", Verb::Reset),
    (b"reserve", Verb::Reserve),
    (b"reserve_exact", Verb::ReserveExact),
    (b"shrink", Verb::Shrink),
    (b"count", Verb::Count),
    (b"is_empty", Verb::IsEmpty),
    (b"items", Verb::Items),
    (b"copy", Verb::Copy),
    (b"union_with", Verb::InPlace(Merge::Union)),
    (b"intersect_with", Verb::InPlace(Merge::Intersection)),
    (b"difference_with", Verb::InPlace(Merge::Difference)),
    (
        b"symmetric_difference_with",
        Verb::InPlace(Merge::Symmetric),
    ),
    (b"append", Verb::Append),
    (b"split_off", Verb::SplitOff),
    (b"union", Verb::Walk(Merge::Union)),
    (b"intersection", Verb::Walk(Merge::Intersection)),
    (b"difference", Verb::Walk(Merge::Difference)),
    (b"symmetric_difference", Verb::Walk(Merge::Symmetric)),
    (b"subset", Verb::Subset),
    (b"superset", Verb::Superset),
    (b"disjoint", Verb::Disjoint),
    (b"eq", Verb::Equal),
    (b"cmp", Verb::Compare),
    (b"rest", Verb::Rest),
];

const WALKS: [(&[u8], SetWalk); 5] = [
    (b"iter", SetWalk::One),
    (b"union", SetWalk::Two(Merge::Union)),
    (b"intersection", SetWalk::Two(Merge::Intersection)),
    (b"difference", SetWalk::Two(Merge::Difference)),
    (b"symmetric_difference", SetWalk::Two(Merge::Symmetric)),
];

/// The verb that the word is.
pub(crate) fn verb_of(word: &[u8]) -> Option<Verb>
    ensures { option_map usage result ≡ usage_of word.now }
{
    lookup(&VERBS, word)
}

/// The walk that the word is.
pub(crate) fn walk_of(word: &[u8]) -> Option<SetWalk>
    ensures { result ≡ walk_of word.now }
{
    lookup(&WALKS, word)
}

// What is beside the word in the table.
fn lookup<T: Copy>(mut table: &[(&[u8], T)], word: &[u8]) -> Option<T>
    ensures { result ≡ lookup (bytes_eq word.now) (map (λ entry. (entry.0.now, entry.1)) table.entry.now) }
{
    while let [entry, rest @ ..] = table {
        if word == entry.0 {
            return Some(entry.1);
        }
        table = rest;
    }
    None
}
