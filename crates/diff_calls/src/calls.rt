// The calls of a script, by what they take and return. The place of a call in the table is its number.
use bit_set::bit_vec::Merge;

// What makes a set, or the bit vector of one.
#[derive(Clone, Copy)]
pub(crate) enum Making {
    New,
    WithCapacity,
    FromBytes,
    FromBytesLsb,
    Bits,
    BitsFromElem,
    BitsFromBytes,
}

// What makes a set of all four sets, or of the numbers of a line.
#[derive(Clone, Copy)]
pub(crate) enum Gathering {
    UnionOf,
    IntersectionOf,
    FromIter,
}

// What changes a set, and may fail or says whether it did, or what it took out.
#[derive(Clone, Copy)]
pub(crate) enum Changing {
    Insert,
    Remove,
    Extend,
    ReserveLen,
    ReserveLenExact,
    ShrinkToFit,
    InsertRange,
    ToggleRange,
    Toggle,
    Set,
    ShiftUp,
    PopFirst,
    PopLast,
}

// What leaves less of a set, and returns nothing.
#[derive(Clone, Copy)]
pub(crate) enum Lessening {
    Truncate,
    MakeEmpty,
    Clear,
    Reset,
    RemoveRange,
    Retain,
    ShiftDown,
}

// What makes a set of a second one, or changes both, or makes a set of its own bit vector.
#[derive(Clone, Copy)]
pub(crate) enum Moving {
    IntoBitVec,
    CloneFrom,
    Clone,
    Append,
    SplitOff,
    BitsClone,
    BitsCloneTail,
    CopyRange,
}

// What makes a set, or a list of bits, what it and two others give.
#[derive(Clone, Copy)]
pub(crate) enum Fusing {
    UnionWithDifference,
    UnionWithIntersection,
    CopyDifference,
}

// What returns a number, a truth value or an element of a set, alone or beside a second one.
#[derive(Clone, Copy)]
pub(crate) enum Reading {
    Count,
    Len,
    CountInRange,
    NextMissing,
    Union,
    Intersection,
    Difference,
    SymmetricDifference,
    Contains,
    IsEmpty,
    Capacity,
    IsSubset,
    IsSuperset,
    IsDisjoint,
    Eq,
    ContainsAllInRange,
    ContainsAnyInRange,
    IsProperSubset,
    First,
    Last,
    Next,
    Previous,
    FirstGap,
}

// What says of a set more than that.
#[derive(Clone, Copy)]
pub(crate) enum Telling {
    Cmp,
    Hash,
    Display,
    Debug,
    Json,
    ToBytes,
    ToBytesLsb,
    Ranges,
}

// The walks over one set, and over two.
#[derive(Clone, Copy)]
pub(crate) enum Walking {
    Iter,
    IntoIter,
    IterFrom,
    IterEnds,
    Range,
    Nth,
    Missing,
    Runs,
    Union,
    Intersection,
    Difference,
    SymmetricDifference,
}

// What changes the bit vector that a set lends.
#[derive(Clone, Copy)]
pub(crate) enum Writing {
    Set,
    Replace,
    Fill,
    Truncate,
    RemoveAll,
    ShrinkToFit,
    CutZeroBlocks,
    CloneFrom,
    KeepInBlock,
}

// What gives it more values, or capacity for more.
#[derive(Clone, Copy)]
pub(crate) enum Lengthening {
    Grow,
    Reserve,
    ReserveExact,
}

// What changes a range of it.
#[derive(Clone, Copy)]
pub(crate) enum Ranged {
    Set,
    Clear,
    Negate,
}

// What returns a number, a truth value or a place of it, alone or beside a second one.
#[derive(Clone, Copy)]
pub(crate) enum BitReading {
    Len,
    CountOnes,
    CountOnesInRange,
    FirstZeroFrom,
    None,
    Capacity,
    IsSubsetOf,
    IsDisjointFrom,
    AllInRange,
    AnyInRange,
    FirstOneFrom,
    LastOneBefore,
    Get,
}

// What makes a text or bytes of it.
#[derive(Clone, Copy)]
pub(crate) enum BitTelling {
    Debug,
    ToBytes,
}

// What reads its blocks.
#[derive(Clone, Copy)]
pub(crate) enum Looking {
    Storage,
    Blocks,
    NextIf,
    Nonzero,
    NonzeroPastFirst,
    NonzeroPast,
    NonzeroEnds,
    Refill,
    RefillEnds,
    Mismatch,
    Block,
    ZerosInBlock,
}

// A call. Those that are named as `..General` are over blocks of any type, and those without that over blocks of 32 bits
// alone; those named as `..AndTell` say whether they changed anything.
#[derive(Clone, Copy)]
pub(crate) enum Call {
    Make(Making),
    MakeGeneral(Making),
    Gather(Gathering),
    Change(Changing),
    Lessen(Lessening),
    Combine(Merge),
    CombineAndTell(Merge),
    Fuse(Fusing),
    Move(Moving),
    Read(Reading),
    Tell(Telling),
    Walk(Walking),
    Write(Writing),
    Lengthen(Lengthening),
    WriteRange(Ranged),
    MergeBlocks(Merge),
    MergeAndTell(Merge),
    FuseBits(Fusing),
    ReadBits(BitReading),
    TellBits(BitTelling),
    Look(Looking),
}

// The calls of some kinds, one kind after another.
macro_rules! calls {
    ($($call:ident($of:ident): $($name:ident)*;)*) => { &[$($(Call::$call($of::$name),)*)*] };
}

const CALLS: &[Call] = calls! {
    Make(Making): New; MakeGeneral(Making): New; Make(Making): WithCapacity; MakeGeneral(Making): WithCapacity;
    Make(Making): FromBytes; MakeGeneral(Making): FromBytes; Make(Making): FromBytesLsb;
    MakeGeneral(Making): FromBytesLsb; Gather(Gathering): FromIter; Make(Making): Bits;
    MakeGeneral(Making): Bits; Make(Making): BitsFromElem; MakeGeneral(Making): BitsFromElem;
    Make(Making): BitsFromBytes; MakeGeneral(Making): BitsFromBytes; Gather(Gathering): UnionOf IntersectionOf;
    Change(Changing): Insert Remove Extend; Lessen(Lessening): Truncate MakeEmpty Clear Reset;
    Change(Changing): ReserveLen ReserveLenExact ShrinkToFit; Move(Moving): IntoBitVec CloneFrom;
    Combine(Merge): Union Intersection Difference Symmetric;
    CombineAndTell(Merge): Union Intersection Difference Symmetric;
    Fuse(Fusing): UnionWithDifference UnionWithIntersection CopyDifference; Change(Changing): InsertRange;
    Lessen(Lessening): RemoveRange; Change(Changing): ToggleRange Toggle Set PopFirst PopLast;
    Lessen(Lessening): Retain; Change(Changing): ShiftUp; Lessen(Lessening): ShiftDown;
    Move(Moving): Clone Append SplitOff BitsClone BitsCloneTail CopyRange;
    Read(Reading): Contains Count Len IsEmpty Capacity IsSubset IsSuperset IsDisjoint Eq;
    Tell(Telling): Cmp Hash Display Debug Json;
    Read(Reading): ContainsAllInRange ContainsAnyInRange CountInRange First Last Next Previous NextMissing;
    Tell(Telling): ToBytes ToBytesLsb; Read(Reading): FirstGap IsProperSubset; Tell(Telling): Ranges;
    Read(Reading): Union Intersection Difference SymmetricDifference;
    Walk(Walking): Iter IntoIter IterFrom IterEnds Range Nth Missing Runs Union Intersection Difference
        SymmetricDifference; Write(Writing): Set Replace Fill Truncate RemoveAll;
    Lengthen(Lengthening): Grow Reserve ReserveExact; Write(Writing): ShrinkToFit CutZeroBlocks CloneFrom;
    MergeBlocks(Merge): Union Intersection Difference Symmetric;
    MergeAndTell(Merge): Union Intersection Difference Symmetric;
    FuseBits(Fusing): UnionWithDifference UnionWithIntersection CopyDifference;
    WriteRange(Ranged): Set Clear Negate; Write(Writing): KeepInBlock;
    ReadBits(BitReading): Len Get None CountOnes Capacity;
    Look(Looking): Storage Blocks NextIf Nonzero NonzeroPastFirst NonzeroPast NonzeroEnds Refill RefillEnds
        Mismatch Block; ReadBits(BitReading): IsSubsetOf IsDisjointFrom; TellBits(BitTelling): Debug;
    ReadBits(BitReading): CountOnesInRange AllInRange AnyInRange FirstOneFrom LastOneBefore FirstZeroFrom;
    Look(Looking): ZerosInBlock; TellBits(BitTelling): ToBytes;
};

impl Call {
    // The call of this number, where there is one.
    pub(crate) fn numbered(number: usize) -> Option<Call> {
        CALLS.get(number).copied()
    }
}
