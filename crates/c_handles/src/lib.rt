//! What C passes to proved exports and receives from them: values that it lends or owns, and numbers that answer.
#![tactic(auto)]

mod answers;
mod bitmaps;
mod parts;

pub use answers::{answer_of_change, answer_of_order};
pub use bitmaps::{ExclusiveBitmap, OwnedBitmap, SharedBitmap};
pub use parts::Parts;
