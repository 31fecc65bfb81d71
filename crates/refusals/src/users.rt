// Calls of the libraries that are over sets: walks over graphs, the closure of a graph, dominators, and slots.
use crate::asks::Ask;
use crate::faults::Fault;
use crate::states::{State, has_just, is_state, set_of, sets_of, works};
use crate::sweep::{Row, Trial, table};
use bit_matrix::BitMatrix;
use bit_set::{BitBlock, BitSet, SetError};
use free_slots::Slots;
use graph_walks::{close, dominators, reachable, reachable_from_any, reaches_all_of};
use std::alloc::{AllocError, Global};

// The ends of the edges of four nodes, and where paths of at least one edge lead. Two ends are past the last node.
const ENDS: [&[usize]; 4] = [&[1, 40], &[2], &[0, 5000], &[]];

const REACHED: &[usize] = &[0, 1, 2, 40, 5000];

const CLOSED: [&[usize]; 4] = [REACHED, REACHED, REACHED, &[]];

pub enum Call {
    // A walk from node 0 over lists, or over sets, and one from the starts.
    Reach,
    ReachOverSets,
    ReachAny,
    // The closure, where each row has the capacity for it, or no more than it takes.
    Close(bool),
    Compare,
    // The dominators, where this is the entry.
    Dominate(usize),
    MakeSlots,
    TakeSlots,
}

// A walk may ask for the memory of its set, and of its stack.
pub const ROWS: &[Row<Call>] = table! {
    "reachable", &[Ask::Grown(1), Ask::Grown(41), Ask::Grown(5001), Ask::Other(1, 64)], Call::Reach;
    "reachable_from_any", &[Ask::Exact(4), Ask::Grown(41), Ask::Grown(5001), Ask::Other(2, 16 + 64)], Call::ReachAny;
    "close", &[Ask::Exact(5001), Ask::Grown(5001), Ask::Grown(5001)], Call::Close(false);
    "close_within", &[Ask::Exact(5001)], Call::Close(true);
    "reaches_all_of", &[], Call::Compare;
    "reachable_over_sets", &[Ask::Grown(1), Ask::Grown(41), Ask::Grown(5001), Ask::Other(1, 64)], Call::ReachOverSets;
    "dominators", &[Ask::Rows(4, 4)], Call::Dominate(0);
    "dominators_of_no_node", &[Ask::Rows(4, 4)], Call::Dominate(4);
    "with_slots", &[Ask::Exact(5001)], Call::MakeSlots;
    "slots", &[], Call::TakeSlots;
};

// A graph as lists and as sets, some starts, and slots.
#[derive(Drop)]
pub struct Users<B: BitBlock> {
    lists: Vec<Vec<usize>>,
    rows: Vec<BitSet<B>>,
    starts: BitSet<B>,
    slots: Slots<B>,
}

// The graph as lists.
fn lists(alloc: Global) -> Result<Vec<Vec<usize>>, AllocError> {
    let mut rows = Vec::new(alloc);
    for ends in &ENDS {
        rows.push(ends.to_vec(alloc)?)?;
    }
    Ok(rows)
}

fn reserve<B: BitBlock>(rows: &mut [BitSet<B>]) -> Result<(), AllocError> {
    for row in rows {
        row.reserve_len(5001)?;
    }
    Ok(())
}

// The graph as sets, with capacity for its longest row, or for no more than each takes.
fn sets<B: BitBlock>(alloc: Global, has_capacity: bool) -> Result<Vec<BitSet<B>>, Fault> {
    let mut rows = sets_of(alloc, &ENDS)?;
    if has_capacity {
        reserve(rows.as_mut_slice())?;
    }
    Ok(rows)
}

fn reached<B: BitBlock>(
    alloc: Global,
    call: &Call,
    users: &Users<B>,
) -> Result<BitSet<B>, SetError> {
    match call {
        Call::ReachAny => reachable_from_any(alloc, users.lists.as_slice(), &users.starts),
        Call::ReachOverSets => reachable(alloc, users.rows.as_slice(), 0),
        _ => reachable(alloc, users.lists.as_slice(), 0),
    }
}

// Whether a walk comes by what it may, in a set that works.
fn reaches<B: BitBlock>(alloc: Global, call: &Call, users: &Users<B>) -> Result<bool, SetError> {
    let mut reached = reached(alloc, call, users)?;
    let wanted = match call {
        Call::ReachAny => State::Of(&[0, 1, 2, 3, 40, 5000], 5001),
        _ => State::Of(REACHED, 5001),
    };
    Ok(is_state(&reached, wanted) & works(&mut reached))
}

// Whether the rows have just these elements, and work as sets.
fn are_just<B: BitBlock>(rows: &mut [BitSet<B>], wanted: &[&[usize]]) -> bool {
    let mut is_right = rows.len() == wanted.len();
    for (row, elements) in rows.iter_mut().zip(wanted) {
        is_right &= has_just(row, elements, usize::MAX) & works(row);
    }
    is_right
}

// Whether each row has the ends that it had at first.
fn have_ends<B: BitBlock>(alloc: Global, rows: &[BitSet<B>]) -> Result<bool, SetError> {
    let mut is_right = rows.len() == ENDS.len();
    for (row, ends) in rows.iter().zip(&ENDS) {
        let had = set_of::<B>(alloc, ends)?;
        is_right &= had.is_subset(row);
    }
    Ok(is_right)
}

// Whether the rows are as they may be after a closure. Where it failed each still has all that it had, and nothing else
// where all had the capacity; and a further call leaves the rows of the closure, so that they had nothing else.
fn may_be_closed<B: BitBlock>(
    alloc: Global,
    rows: &mut [BitSet<B>],
    has_capacity: bool,
    has_returned: bool,
) -> Result<bool, SetError> {
    let was_right = if has_returned {
        are_just(rows, &CLOSED)
    } else if has_capacity {
        are_just(rows, &ENDS)
    } else {
        have_ends(alloc, rows)?
    };
    close(alloc, rows)?;
    Ok(was_right & are_just(rows, &CLOSED))
}

// Whether these are the dominators of the four nodes, where each path begins at this one. From node 0 there is one path
// to 1 and 2 and none to 3; and past the last node none begins.
fn are_dominators<B: BitBlock>(found: &BitMatrix<B>, entry: usize) -> bool {
    let all: &[usize] = &[0, 1, 2, 3];
    let mut is_right = found.rows() == 4 && found.columns() == 4;
    for node in 0..found.rows() {
        let dominators: &[usize] = match node {
            0 if entry == 0 => &[0],
            1 if entry == 0 => &[0, 1],
            2 if entry == 0 => &[0, 1, 2],
            _ => all,
        };
        is_right &= found.iter(node).eq(dominators.iter().copied());
    }
    is_right
}

// Takes slots and gives them back. Whether each call returns what it may.
fn takes_slots<B: BitBlock>(slots: &mut Slots<B>) -> bool {
    let taken = [
        slots.take(),
        slots.take_at_or_above(5000),
        slots.take_at_or_above(5000),
    ];
    let was_free = slots.is_free(5000);
    let given_back = [
        slots.give_back(0),
        slots.give_back(0),
        slots.give_back(5001),
    ];
    let is_right = taken == [Some(0), Some(5000), None] && given_back == [true, false, false];
    is_right && !was_free && slots.take() == Some(0)
}

impl<B: BitBlock> Trial<Call> for Users<B> {
    fn prepare(alloc: Global, call: &Call) -> Result<Self, Fault> {
        let lists = lists(alloc)?;
        let rows = sets(alloc, matches!(call, Call::Close(true)))?;
        let starts = set_of(alloc, &[1, 3])?;
        let slots = Slots::with_slots(alloc, 5001)?;
        Ok(Users {
            lists,
            rows,
            starts,
            slots,
        })
    }

    fn make(&mut self, alloc: Global, call: &Call) -> Result<bool, Fault> {
        match call {
            Call::Close(_) => {
                close(alloc, self.rows.as_mut_slice())?;
                Ok(true)
            }
            Call::Compare => {
                let rows = self.rows.as_slice();
                Ok(reaches_all_of(rows, 0, 3) && !reaches_all_of(rows, 0, 1))
            }
            Call::Dominate(entry) => {
                let found: BitMatrix<B> = dominators(alloc, self.rows.as_slice(), *entry)?;
                Ok(are_dominators(&found, *entry))
            }
            Call::MakeSlots => {
                let slots = Slots::<B>::with_slots(alloc, 5001)?;
                Ok((slots.len() == 5001) & (slots.free_count() == 5001))
            }
            Call::TakeSlots => Ok(takes_slots(&mut self.slots)),
            _ => Ok(reaches(alloc, call, self)?),
        }
    }

    fn is_right(&mut self, alloc: Global, call: &Call, has_returned: bool) -> Result<bool, Fault> {
        let are_kept = is_state(&self.starts, State::Of(&[1, 3], 4));
        let is_right = match call {
            Call::Close(has_capacity) => {
                may_be_closed(alloc, self.rows.as_mut_slice(), *has_capacity, has_returned)?
            }
            Call::TakeSlots => self.slots.free_count() == 4999,
            _ => self.slots.free_count() == 5001,
        };
        Ok(are_kept & is_right)
    }
}
