//! Sets of whole numbers, and matrices of bits, for C: `bindings/c/bit_set.h` has the prototypes.
#![tactic(auto)]

mod bitmaps;
mod block;
mod blocks;
mod bytes;
mod capacity;
mod changing;
mod counts;
mod ends;
mod handed;
mod in_place;
mod making;
mod matrix;
mod members;
mod merges;
mod ranges;
mod reading;
mod relations;
mod reporting;
mod searching;
mod shifting;
mod stretches;
