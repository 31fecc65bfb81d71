// The text of a bit vector, for who looks for a fault.
use crate::bit_vec::BitVec;
use bit_blocks::block::BitBlock;
use bit_blocks::packed::access::bit_index;
use std::fmt;

/// `BitVec { storage: ".. ..", nbits: N }`: a digit for each value, in order, with a space between the values of
/// one block and those of the next, and then the number of values. Allocates nothing itself, and fails only if the
/// formatter fails.
impl<B: BitBlock> fmt::Debug for BitVec<B> {
    fn fmt<W: fmt::Write>(&self, f: &mut fmt::Formatter<W>) -> fmt::Result {
        f.write_str("BitVec { storage: \"")?;
        for i in 0..self.len {
            let begins_block = i != 0 && bit_index::<B>(i) == 0;
            f.write_str(digit(self.get(i) == Some(true), begins_block))?;
        }
        write!(f, "\", nbits: {} }}", self.len)
    }
}

// The digit of a value, after a space if it begins a block other than the first.
fn digit(value: bool, begins_block: bool) -> &'static str {
    match (value, begins_block) {
        (false, false) => "0",
        (true, false) => "1",
        (false, true) => " 0",
        (true, true) => " 1",
    }
}
