// The texts of sets and bit vectors, each written to what fails after some pieces.
use bit_set::{BitBlock, BitSet};
use std::fmt;

// Takes this many pieces of a text and fails from then on, and counts those that it is offered.
#[derive(Drop)]
struct Sink {
    most: usize,
    offered: usize,
}

impl fmt::Write for Sink {
    fn write_str(&mut self, _text: &str) -> fmt::Result {
        self.offered = self.offered.saturating_add(1);
        if self.offered > self.most {
            return Err(fmt::Error);
        }
        Ok(())
    }
}

/// Display of a set, and Debug of it and of its bit vector.
pub enum Text {
    Set,
    SetDebug,
    BitsDebug,
}

// Writes the text to what takes this many pieces. How many it was offered, and whether the writing failed.
fn offered<B: BitBlock>(text: &Text, set: &BitSet<B>, most: usize) -> (usize, bool) {
    let mut sink = Sink { most, offered: 0 };
    let ended = match text {
        Text::Set => fmt::Write::write_fmt(&mut sink, format_args!("{set}")),
        Text::SetDebug => fmt::Write::write_fmt(&mut sink, format_args!("{set:?}")),
        Text::BitsDebug => fmt::Write::write_fmt(&mut sink, format_args!("{:?}", set.get_ref())),
    };
    (sink.offered, ended.is_err())
}

/// How many pieces the text has, where its writing fails exactly if the sink does: at the first piece that is one
/// too many, which is the last that it is offered. 0 where that is not so.
pub fn pieces<B: BitBlock>(text: &Text, set: &BitSet<B>) -> usize {
    let (count, failed) = offered(text, set, usize::MAX);
    let mut is_right = !failed;
    for most in 0..count {
        is_right &= offered(text, set, most) == (most + 1, true);
    }
    is_right &= offered(text, set, count) == (count, false);
    if is_right { count } else { 0 }
}
