//! Scripts of public calls on sets, bit vectors and matrices. `diff/run` makes the same calls of other libraries, and compares
//! what each call returns. A script is read by `lines`, and what its calls return is written by `answers`.
#![tactic(auto)]

mod answers;
mod bits;
mod block_walks;
mod blocks;
mod calls;
mod changing;
mod feed;
mod lines;
mod looking;
mod making;
mod matrices;
mod matrix_calls;
mod reading;
mod running;
mod walks;
mod widths;
