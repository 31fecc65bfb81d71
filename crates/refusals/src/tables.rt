// The calls on sets, in the order in which they are made, with what each may ask for and leaves.
use crate::asks::Ask::{self, Exact, Grown, Lists, Other};
use crate::changes::{Bits, Call, Change, Exchange, InPlace, Make, Order, Put, Report};
use crate::groups::Group;
use crate::plain::Plain;
use crate::states::State::{self, Blocks, Filled, Of};
use crate::states::{AMPLE, EMPTY, FIRST, FULL, LENT, LONG, SHORT};
use crate::sweep::Row;

const NONE: &[Ask] = &[];

const GROWN: &[Ask] = &[Grown(5001)];

const LENGTHENED: State = Of(&[3, 447], 5001);

const UNION: State = Of(&[3, 7, 447, 5000], 5001);

// A row for each line: the name, the memory that the call may ask for, the call, the start, what is left of the set and
// of the one that is lent where it returns, and of the set where it fails.
macro_rules! changes {
    ($($name:literal, $asks:expr, $kind:ident::$call:ident$(($($with:expr),+))?, $start:expr,
        $returned:expr, $lent:expr, $failed:expr;)*) => {
        &[$(Row {
            name: $name,
            asks: $asks,
            call: Change {
                call: Call::$kind($kind::$call$(($($with),+))?),
                start: $start, returned: $returned, lent: $lent, failed: $failed,
            },
        }),*]
    };
}

pub const CHANGES: &[Row<Change>] = changes! {
    "insert", GROWN, Put::Insert(5000), SHORT, Of(&[3, 447, 5000], 5001), LENT, FIRST;
    "insert_within", NONE, Put::Insert(5000), AMPLE, Of(&[3, 447, 5000], 5001), LENT, FIRST;
    "insert_next", &[Grown(1101)], Put::Insert(1100), SHORT, Of(&[3, 447, 1100], 1101), LENT, FIRST;
    "extend", GROWN, Put::Extend, SHORT, Of(&[3, 9, 447, 450, 5000], 5001), LENT, Of(&[3, 9, 447, 450], 451);
    "extend_within", NONE, Put::Extend, AMPLE, Of(&[3, 9, 447, 450, 5000], 5001), LENT, FIRST;
    "union_with", GROWN, InPlace::Union, SHORT, UNION, LENT, FIRST;
    "union_with_within", NONE, InPlace::Union, AMPLE, UNION, LENT, FIRST;
    "intersect_with", GROWN, InPlace::Intersection, SHORT, Of(&[3], 5001), LENT, FIRST;
    "intersect_with_within", NONE, InPlace::Intersection, AMPLE, Of(&[3], 5001), LENT, FIRST;
    "difference_with", GROWN, InPlace::Difference, SHORT, Of(&[447], 5001), LENT, FIRST;
    "difference_with_within", NONE, InPlace::Difference, AMPLE, Of(&[447], 5001), LENT, FIRST;
    "symmetric_difference_with", GROWN, InPlace::Symmetric, SHORT, Of(&[7, 447, 5000], 5001), LENT, FIRST;
    "symmetric_difference_with_within", NONE, InPlace::Symmetric, AMPLE, Of(&[7, 447, 5000], 5001), LENT, FIRST;
    "clone_from", &[Exact(5001)], InPlace::CloneFrom, SHORT, LENT, LENT, FIRST;
    "clone_from_within", NONE, InPlace::CloneFrom, AMPLE, LENT, LENT, FIRST;
    "reserve_len", GROWN, InPlace::Reserve, SHORT, FIRST, LENT, FIRST;
    "reserve_len_within", NONE, InPlace::Reserve, AMPLE, FIRST, LENT, FIRST;
    "reserve_len_exact", &[Exact(5001)], InPlace::ReserveExact, SHORT, FIRST, LENT, FIRST;
    "reserve_len_exact_within", NONE, InPlace::ReserveExact, AMPLE, FIRST, LENT, FIRST;
    "shrink_to_fit", &[Exact(448)], InPlace::Shrink, LONG, Blocks(&[3, 447], 448), LENT, Blocks(&[3, 447], 448);
    "shrink_to_fit_exact", NONE, InPlace::Shrink, FULL, Blocks(&[3, 447], 448), LENT, Blocks(&[3, 447], 448);
    "insert_hundred_within", NONE, Put::InsertHundred, AMPLE, Filled(&[3, 447], 500, 600), LENT, FIRST;
    "union_changes", GROWN, Report::Union, SHORT, UNION, LENT, FIRST;
    "union_changes_within", NONE, Report::Union, AMPLE, UNION, LENT, FIRST;
    "intersection_changes", GROWN, Report::Intersection, SHORT, Of(&[3], 5001), LENT, FIRST;
    "difference_changes", GROWN, Report::Difference, SHORT, Of(&[447], 5001), LENT, FIRST;
    "symmetric_difference_changes", GROWN, Report::Symmetric, SHORT, Of(&[7, 447, 5000], 5001), LENT, FIRST;
    "union_with_difference", GROWN, Report::UnionWithDifference, SHORT, UNION, LENT, FIRST;
    "union_with_difference_within", NONE, Report::UnionWithDifference, AMPLE, UNION, LENT, FIRST;
    "union_with_intersection", GROWN, Report::UnionWithIntersection, SHORT, UNION, LENT, FIRST;
    "copy_difference", GROWN, Report::CopyDifference, SHORT, LENT, LENT, FIRST;
    "insert_range", GROWN, Put::InsertRange, SHORT, Filled(&[3, 447], 500, 5001), LENT, FIRST;
    "insert_range_within", NONE, Put::InsertRange, AMPLE, Filled(&[3, 447], 500, 5001), LENT, FIRST;
    "toggle_range", GROWN, Put::ToggleRange, SHORT, Filled(&[3], 448, 5001), LENT, FIRST;
    "toggle_range_within", NONE, Put::ToggleRange, AMPLE, Filled(&[3], 448, 5001), LENT, FIRST;
    "toggle", GROWN, Put::Toggle, SHORT, Of(&[3, 447, 5000], 5001), LENT, FIRST;
    "set", GROWN, Put::Set, SHORT, Of(&[3, 447, 5000], 5001), LENT, FIRST;
    "shift_up", GROWN, Put::ShiftUp, SHORT, Of(&[4556, 5000], 5001), LENT, FIRST;
    "shift_up_within", NONE, Put::ShiftUp, AMPLE, Of(&[4556, 5000], 5001), LENT, FIRST;
    "append", GROWN, Exchange::Append, SHORT, UNION, Of(&[], 5001), FIRST;
    "append_within", NONE, Exchange::Append, AMPLE, UNION, Of(&[], 5001), FIRST;
    "split_off", &[Exact(448)], Exchange::SplitOff(3), SHORT, Of(&[], 3), FIRST, FIRST;
    "split_off_last", &[Exact(448)], Exchange::SplitOff(447), SHORT, Of(&[3], 447), Of(&[447], 448), FIRST;
    "split_off_at_0", NONE, Exchange::SplitOff(0), SHORT, EMPTY, FIRST, FIRST;
    "split_off_at_the_length", NONE, Exchange::SplitOff(448), SHORT, FIRST, EMPTY, FIRST;
    "copy_range", &[Exact(448)], Exchange::CopyRange(4, 5000), SHORT, FIRST, Of(&[447], 448), FIRST;
    "copy_range_of_the_first", &[Exact(4)], Exchange::CopyRange(0, 4), SHORT, FIRST, Of(&[3], 4), FIRST;
    "copy_range_past_the_length", NONE, Exchange::CopyRange(448, 5000), SHORT, FIRST, EMPTY, FIRST;
    "with_capacity", &[Exact(5000)], Make::WithCapacity, FULL, Of(&[], 5000), LENT, FIRST;
    "from_bytes", &[Exact(128)], Make::FromBytes(Order::High), FULL, Of(&[0, 9, 90, 127], 128), LENT, FIRST;
    "from_bytes_lsb", &[Exact(128)], Make::FromBytes(Order::Low), FULL, Of(&[7, 14, 93, 120], 128), LENT, FIRST;
    "from_iter", &[Grown(10), Grown(451), Grown(5001)], Make::FromIter, FULL, Of(&[9, 450, 5000], 5001), LENT, FIRST;
    "from_ranges", &[Exact(5001)], Make::FromRanges, FULL, Of(&[9, 450, 5000], 5001), LENT, FIRST;
    // A copy of the other set comes first, which is the one set of the slice.
    "union_of", &[Lists(2, 5001)], Make::UnionOf, FULL, LENT, LENT, FIRST;
    "intersection_of", &[Lists(2, 5001)], Make::IntersectionOf, FULL, LENT, LENT, FIRST;
    "clone", &[Exact(5001)], Make::Clone, FULL, LENT, LENT, FIRST;
    "bits_from_elem", &[Exact(5000)], Make::BitsFromElem, FULL, Of(&[], 5000), LENT, FIRST;
    "bits_from_bytes", &[Exact(128)], Make::BitsFromBytes, FULL, Of(&[0, 9, 90, 127], 128), LENT, FIRST;
    "bits_clone", &[Exact(5001)], Make::BitsClone, FULL, LENT, LENT, FIRST;
    "bits_clone_tail", &[Exact(5001)], Make::BitsCloneTail, FULL, Of(&[7, 5000], 5001), LENT, FIRST;
    // The bytes come first, and then the set of these.
    "to_bytes", &[Other(1, 626), Exact(5008)], Make::Reread(Order::High), FULL, Of(&[3, 7, 5000], 5008), LENT, FIRST;
    "to_bytes_lsb", &[Other(1, 626), Exact(5008)], Make::Reread(Order::Low), FULL, Of(&[3, 7, 5000], 5008), LENT, FIRST;
    "bits_grow", GROWN, Bits::Grow(false), SHORT, LENGTHENED, LENT, FIRST;
    "bits_grow_within", NONE, Bits::Grow(false), AMPLE, LENGTHENED, LENT, FIRST;
    "bits_grow_true", GROWN, Bits::Grow(true), SHORT, Filled(&[3, 447], 448, 5001), LENT, FIRST;
    "bits_grow_true_within", NONE, Bits::Grow(true), AMPLE, Filled(&[3, 447], 448, 5001), LENT, FIRST;
    "bits_reserve", GROWN, Bits::Reserve, SHORT, FIRST, LENT, FIRST;
    "bits_reserve_within", NONE, Bits::Reserve, AMPLE, FIRST, LENT, FIRST;
    "bits_reserve_exact", &[Exact(5001)], Bits::ReserveExact, SHORT, FIRST, LENT, FIRST;
    "bits_reserve_exact_within", NONE, Bits::ReserveExact, AMPLE, FIRST, LENT, FIRST;
    "bits_clone_from", &[Exact(5001)], Bits::CloneFrom, SHORT, LENT, LENT, FIRST;
    "bits_clone_from_within", NONE, Bits::CloneFrom, AMPLE, LENT, LENT, FIRST;
    "bits_shrink_to_fit", &[Exact(448)], Bits::Shrink, AMPLE, FIRST, LENT, FIRST;
    "bits_shrink_to_fit_exact", NONE, Bits::Shrink, FULL, FIRST, LENT, FIRST;
};

/// Those over blocks of 32 bits alone, each of which makes a set beside the others.
pub const PLAIN: &[Row<Change>] = changes! {
    "plain_with_capacity", &[Exact(5000)], Plain::WithCapacity, FULL, FIRST, LENT, FIRST;
    "plain_from_bytes", &[Exact(128)], Plain::FromBytes, FULL, FIRST, LENT, FIRST;
    "plain_from_bytes_lsb", &[Exact(128)], Plain::FromBytesLsb, FULL, FIRST, LENT, FIRST;
    "plain_bits_from_elem", &[Exact(5000)], Plain::BitsFromElem, FULL, FIRST, LENT, FIRST;
    "plain_bits_from_bytes", &[Exact(128)], Plain::BitsFromBytes, FULL, FIRST, LENT, FIRST;
};

/// Groups of calls that take no memory.
pub const GROUPS: &[Row<Change>] = changes! {
    "empty_ones", NONE, Group::EmptyOnes, LONG, LENGTHENED, LENT, LENGTHENED;
    "questions", NONE, Group::Questions, LONG, LENGTHENED, LENT, LENGTHENED;
    "comparisons", NONE, Group::Comparisons, LONG, LENGTHENED, LENT, LENGTHENED;
    "walks", NONE, Group::Walks, LONG, LENGTHENED, LENT, LENGTHENED;
    "hints", NONE, Group::Hints, LONG, LENGTHENED, LENT, LENGTHENED;
    "counts", NONE, Group::Counts, LONG, LENGTHENED, LENT, LENGTHENED;
    "moves", NONE, Group::Moves, LONG, LENGTHENED, LENT, LENGTHENED;
    "texts", NONE, Group::Texts, LONG, FIRST, LENT, LENGTHENED;
    "changes", NONE, Group::Changes, LONG, EMPTY, LENT, LENGTHENED;
    "bits", NONE, Group::Bits, LONG, LENGTHENED, LENT, LENGTHENED;
    "bit_walks", NONE, Group::BitWalks, LONG, LENGTHENED, LENT, LENGTHENED;
    "bit_changes", NONE, Group::BitChanges, LONG, EMPTY, LENT, LENGTHENED;
    "ends", NONE, Group::Ends, LONG, Of(&[], 5001), LENT, LENGTHENED;
    "ranges", NONE, Group::Ranges, LONG, Of(&[1, 446], 5001), LENT, LENGTHENED;
    "shifts", NONE, Group::Shifts, LONG, Of(&[443], 5001), LENT, LENGTHENED;
    "bit_ends", NONE, Group::BitEnds, LONG, LENGTHENED, LENT, LENGTHENED;
    "runs", NONE, Group::Runs, LONG, LENGTHENED, LENT, LENGTHENED;
};
