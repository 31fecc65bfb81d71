//! Sets of whole numbers, as contracts speak of them: each is the list of its members in strictly ascending order.
//! There is no code here. `specs/` has the definitions by which every set of this repository is specified, and [`laws`]
//! what they mean.
#![tactic(auto)]

pub mod laws;
