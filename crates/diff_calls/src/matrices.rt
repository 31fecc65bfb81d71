// Scripts of calls on two matrices and a set. A row or a column past the end is left out, where a call does not ask for it.
ghost use Rattle.std.specs.Prelude.{◌<◌, length};

use crate::answers::Answers;
use crate::feed::feed_of;
use crate::matrix_calls::{
    Alone, AtColumn, MatrixCall, MatrixMaking, MatrixTelling, OfRow, OfRows, OfSet,
};
use bit_matrix::{BitMatrix, Iter, MatrixError};
use bit_set::{BitBlock, BitSet};
use std::alloc::Global;
use std::mem;

// What represents a refused length.
const LENGTH: usize = 3;

// A line of a script: a call and three numbers.
#[derive(Clone, Copy)]
struct Line {
    call: MatrixCall,
    first: usize,
    second: usize,
    third: usize,
}

fn made<B: BitBlock>(
    alloc: Global,
    making: MatrixMaking,
    (rows, columns): (usize, usize),
    other: &BitMatrix<B>,
    set: &BitSet<B>,
) -> Result<BitMatrix<B>, MatrixError> {
    match making {
        MatrixMaking::New => BitMatrix::new_general(alloc, rows, columns),
        MatrixMaking::FromRow => BitMatrix::from_row(alloc, set, rows),
        MatrixMaking::Clone => Ok(other.clone(alloc)?),
        MatrixMaking::Transpose => other.transpose(alloc),
    }
}

// Puts a matrix that was made in the place of one.
fn put_made<B: BitBlock>(
    made: Result<BitMatrix<B>, MatrixError>,
    matrix: &mut BitMatrix<B>,
    answers: &mut Answers,
) {
    match made {
        Ok(made) => {
            *matrix = made;
            answers.truth(true);
        }
        Err(MatrixError::Length) => answers.number(LENGTH),
        Err(MatrixError::Memory(_)) => answers.refuse(),
    }
}

fn change_set<B: BitBlock>(
    changing: OfSet,
    set: &mut BitSet<B>,
    number: usize,
    answers: &mut Answers,
) {
    match changing {
        OfSet::Insert => answers.change(set.insert(number)),
        OfSet::Remove => answers.truth(set.remove(number)),
    }
}

fn at_column<B: BitBlock>(
    at: AtColumn,
    matrix: &mut BitMatrix<B>,
    row: usize,
    column: usize,
    answers: &mut Answers,
) {
    if row < matrix.rows() && column < matrix.columns() {
        answers.truth(match at {
            AtColumn::Insert => matrix.insert(row, column),
            AtColumn::Remove => matrix.remove(row, column),
            AtColumn::Contains => matrix.contains(row, column),
        });
    }
}

// Calls on two rows, of which the second is written where one is.
fn of_rows<B: BitBlock>(
    of: OfRows,
    matrix: &mut BitMatrix<B>,
    row: usize,
    other: usize,
    answers: &mut Answers,
) {
    if row < matrix.rows() && other < matrix.rows() {
        answers.truth(match of {
            OfRows::Union => matrix.union_rows(row, other),
            OfRows::Intersect => matrix.intersect_rows(row, other),
            OfRows::Difference => matrix.difference_rows(row, other),
            OfRows::IsSubset => matrix.is_subset_row(row, other),
            OfRows::IsDisjoint => matrix.is_disjoint_row(row, other),
        });
    }
}

// What is left of a walk, and how much that is.
fn walk<B: BitBlock>(left: Iter<'_, B>, answers: &mut Answers) {
    let mut count = 0usize;
    for column in left {
        answers.number(column);
        count = count.wrapping_add(1);
    }
    answers.number(count);
}

// A walk of some steps, a copy of what is left, and the rest of both.
fn walk_twice<B: BitBlock>(row: Iter<'_, B>, steps: usize, answers: &mut Answers) {
    let mut left = row;
    for _ in 0..steps {
        answers.item(left.next());
    }
    walk(left.clone(), answers);
    walk(left, answers);
}

// Puts the elements of the set that are columns into the row.
fn unite_with_set<B: BitBlock>(matrix: &mut BitMatrix<B>, set: &mut BitSet<B>, row: usize) -> bool
    requires { row < length matrix.old.rows }
{
    set.truncate(matrix.columns());
    matrix.union_row_with(set, row)
}

fn insert_range<B: BitBlock>(matrix: &mut BitMatrix<B>, row: usize, start: usize, end: usize)
    requires { row < length matrix.old.rows }
{
    if end <= matrix.columns() {
        matrix.insert_range(row, start..end);
    }
}

// The set becomes the row.
fn to_set<B: BitBlock>(
    alloc: Global,
    matrix: &BitMatrix<B>,
    set: &mut BitSet<B>,
    row: usize,
    answers: &mut Answers,
)
    requires { row < length matrix.now.rows }
{
    match matrix.row_to_set(alloc, row) {
        Ok(made) => *set = made,
        Err(_) => answers.refuse(),
    }
}

fn of_row<B: BitBlock>(
    alloc: Global,
    of: OfRow,
    matrix: &mut BitMatrix<B>,
    set: &mut BitSet<B>,
    line: &Line,
    answers: &mut Answers,
) {
    let row = line.first;
    if row >= matrix.rows() {
        return;
    }
    match of {
        OfRow::InsertRange => insert_range(matrix, row, line.second, line.third),
        OfRow::Fill => matrix.fill_row(row),
        OfRow::Clear => matrix.clear_row(row),
        OfRow::Count => answers.number(matrix.count(row)),
        OfRow::Iter => walk(matrix.iter(row), answers),
        OfRow::IterFrom => walk(matrix.iter_from(row, line.second), answers),
        OfRow::CloneOfIter => walk_twice(matrix.iter(row), line.second % 8, answers),
        OfRow::UnionWithSet => answers.truth(unite_with_set(matrix, set, row)),
        OfRow::ToSet => to_set(alloc, matrix, set, row, answers),
    }
}

fn tell<B: BitBlock>(
    alloc: Global,
    telling: MatrixTelling,
    matrix: &BitMatrix<B>,
    other: &BitMatrix<B>,
    answers: &mut Answers,
) {
    match telling {
        MatrixTelling::Eq => answers.truth(*matrix == *other),
        MatrixTelling::Display => answers.text(format!(in alloc; "{matrix}")),
        MatrixTelling::Debug => answers.text(format!(in alloc; "{matrix:?}")),
        MatrixTelling::Hash => {
            let (calls, digest) = feed_of(matrix);
            answers.number(calls as usize);
            answers.number(digest as usize);
        }
    }
}

// Makes the call of a line on the first matrix.
fn call<B: BitBlock>(
    alloc: Global,
    line: &Line,
    (matrix, other): (&mut BitMatrix<B>, &mut BitMatrix<B>),
    set: &mut BitSet<B>,
    answers: &mut Answers,
) {
    let (first, second) = (line.first, line.second);
    match line.call {
        MatrixCall::Make(making) => {
            let made = made(alloc, making, (first, second), other, set);
            put_made(made, matrix, answers);
        }
        MatrixCall::Alone(Alone::Swap) => mem::swap(matrix, other),
        MatrixCall::Set(changing) => change_set(changing, set, first, answers),
        MatrixCall::At(at) => at_column(at, matrix, first, second, answers),
        MatrixCall::Alone(Alone::Get) => answers.bit(matrix.get(first, second)),
        MatrixCall::Rows(of) => of_rows(of, matrix, first, second, answers),
        MatrixCall::Row(of) => of_row(alloc, of, matrix, set, line, answers),
        MatrixCall::Tell(telling) => tell(alloc, telling, matrix, other, answers),
    }
}

// The rows of a matrix, and how many columns there are.
fn all_rows<B: BitBlock>(matrix: &BitMatrix<B>, answers: &mut Answers) {
    answers.number(matrix.columns());
    for row in 0..matrix.rows() {
        walk(matrix.iter(row), answers);
    }
}

// Makes the calls of a script, each followed by the numbers of rows and columns and the length of the set, and writes all
// rows at the end.
fn run_with<B: BitBlock>(
    alloc: Global,
    script: &[usize],
    matrix: BitMatrix<B>,
    other: BitMatrix<B>,
    answers: &mut Answers,
) {
    let (mut matrix, mut other) = (matrix, other);
    let mut set = BitSet::new_general(alloc);
    let mut rest = script;
    for _ in 0..script.len() {
        let [number, first, second, third, after @ ..] = rest else {
            break;
        };
        let line = Line {
            call: MatrixCall::numbered(*number),
            first: *first,
            second: *second,
            third: *third,
        };
        call(alloc, &line, (&mut matrix, &mut other), &mut set, answers);
        if answers.is_refused() {
            return;
        }
        answers.number(matrix.rows());
        answers.number(matrix.columns());
        answers.number(set.get_ref().len());
        rest = after;
    }
    all_rows(&matrix, answers);
    all_rows(&other, answers);
}

pub(crate) fn run_matrices<B: BitBlock>(alloc: Global, script: &[usize], answers: &mut Answers) {
    match (
        BitMatrix::<B>::new_general(alloc, 0, 0),
        BitMatrix::<B>::new_general(alloc, 0, 0),
    ) {
        (Ok(matrix), Ok(other)) => run_with(alloc, script, matrix, other, answers),
        _ => answers.refuse(),
    }
}
