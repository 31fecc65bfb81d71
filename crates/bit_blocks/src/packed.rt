//! Bits in a list of blocks, by functions on the blocks and the index of a bit: bit `i` is bit `i % B::bits()` of
//! block `i / B::bits()`. A list of bits is stored in this way, with zeros past its length, and so is any table of
//! bits.
// Nothing here knows of a summary.
pub mod access;
pub mod becoming;
pub mod block_merges;
pub mod bytes;
pub mod changes;
pub mod comparing;
pub mod copies;
pub mod counted;
pub mod differences;
pub mod groups;
pub mod inclusion;
pub mod nonzero;
pub mod ones;
pub mod others;
pub mod resizing;
pub mod searching;
pub mod shifting;
pub mod span_queries;
pub mod spans;
pub mod tail_copies;
pub mod zeros;

pub use crate::block::operators::same;
pub use access::{bit_index, block_at, block_count, block_index, get_bit, put_in, replace_bit};
pub use comparing::or_mismatch;
pub use copies::{copy_of, push_copies};
pub use inclusion::{difference_is_zero, intersection_is_zero};
pub use span_queries::{ones_in_span, span_merges_to_false};
pub use spans::merge_span;
