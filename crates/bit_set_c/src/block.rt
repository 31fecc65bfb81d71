//! The blocks of the sets. `bindings/c/build` proves and builds the library again over blocks of 32 bits: for that it
//! replaces `u64` and 64 by `u32` and 32 in this file, `specs/Block.antt` and `proofs/Sets.antt`.

pub(crate) type Block = u64;

pub(crate) const WIDTH: usize = 64;
