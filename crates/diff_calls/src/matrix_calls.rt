// The calls of a script on matrices, by what they take and return. The place of a call in the table is its number.

// What makes a matrix: of numbers, of the set, or of the other matrix.
#[derive(Clone, Copy)]
pub(crate) enum MatrixMaking {
    New,
    FromRow,
    Clone,
    Transpose,
}

// What becomes of the set by a number.
#[derive(Clone, Copy)]
pub(crate) enum OfSet {
    Insert,
    Remove,
}

// What is done at a row and a column.
#[derive(Clone, Copy)]
pub(crate) enum AtColumn {
    Insert,
    Remove,
    Contains,
}

// What is done with two rows.
#[derive(Clone, Copy)]
pub(crate) enum OfRows {
    Union,
    Intersect,
    Difference,
    IsSubset,
    IsDisjoint,
}

// What is done with a row, and a range of columns.
#[derive(Clone, Copy)]
pub(crate) enum OfRow {
    InsertRange,
    Fill,
    Clear,
    Count,
    Iter,
    IterFrom,
    CloneOfIter,
    UnionWithSet,
    ToSet,
}

// What is said of a whole matrix.
#[derive(Clone, Copy)]
pub(crate) enum MatrixTelling {
    Eq,
    Display,
    Debug,
    Hash,
}

// What is of no such kind.
#[derive(Clone, Copy)]
pub(crate) enum Alone {
    Swap,
    Get,
}

#[derive(Clone, Copy)]
pub(crate) enum MatrixCall {
    Make(MatrixMaking),
    Alone(Alone),
    Set(OfSet),
    At(AtColumn),
    Rows(OfRows),
    Row(OfRow),
    Tell(MatrixTelling),
}

// The calls of some kinds, one kind after another.
macro_rules! calls {
    ($($call:ident($of:ident): $($name:ident)*;)*) => { &[$($(MatrixCall::$call($of::$name),)*)*] };
}

const CALLS: &[MatrixCall] = calls! {
    Make(MatrixMaking): New FromRow Clone Transpose; Alone(Alone): Swap; Set(OfSet): Insert Remove;
    At(AtColumn): Insert Remove Contains; Alone(Alone): Get;
    Rows(OfRows): Union Intersect Difference IsSubset IsDisjoint;
    Row(OfRow): InsertRange Fill Clear Count Iter IterFrom CloneOfIter UnionWithSet ToSet;
    Tell(MatrixTelling): Eq Display Debug;
};

impl MatrixCall {
    // The call of a number; past the others the one that hashes.
    pub(crate) fn numbered(number: usize) -> MatrixCall {
        match CALLS.get(number) {
            Some(call) => *call,
            None => MatrixCall::Tell(MatrixTelling::Hash),
        }
    }
}
