// What memory a call may ask for, by plain arithmetic on lengths and widths that knows nothing of the library.

/// Memory that a call may ask for.
pub enum Ask {
    /// The blocks of a list of this length and their summary, where one is stored, and no more.
    Exact(usize),
    /// The blocks and their summary where they grow: for each of the two twice what it takes, and 8 blocks at least.
    Grown(usize),
    /// So many lists, each exactly of this length.
    Lists(usize, usize),
    /// So many rows in one list, each at whole blocks for so many bits.
    Rows(usize, usize),
    /// For each block of a list of this length so many bytes, in one request.
    Entries(usize, usize),
    /// So many requests, of so many bytes together.
    Other(usize, usize),
}

/// How often a call may ask for memory, and for how many bytes together.
#[derive(Clone, Copy)]
pub struct Bound {
    pub requests: usize,
    pub bytes: usize,
}

// This many blocks, or twice as many and 8 at least where they grow.
fn asked(blocks: usize, grows: bool) -> usize {
    if grows {
        blocks.saturating_mul(2).max(8)
    } else {
        blocks
    }
}

// How many blocks of this many bits a list of this length takes.
fn blocks_of(len: usize, width: usize) -> usize {
    len.div_ceil(width.max(1))
}

fn bytes_of(blocks: usize, width: usize) -> usize {
    blocks.saturating_mul(width / 8)
}

// A list of this length, over blocks of this many bits: its blocks, and a bit for each of them where there are more
// than four times as many as a block has bits.
fn bound_of_list(len: usize, width: usize, grows: bool) -> Bound {
    let count = blocks_of(len, width);
    let (requests, rows) = if count > width.saturating_mul(4) {
        (2, asked(blocks_of(count, width), grows))
    } else {
        (1, 0)
    };
    Bound {
        requests,
        bytes: bytes_of(asked(count, grows).saturating_add(rows), width),
    }
}

impl Bound {
    // That often.
    fn times(self, count: usize) -> Bound {
        Bound {
            requests: self.requests.saturating_mul(count),
            bytes: self.bytes.saturating_mul(count),
        }
    }
}

impl Ask {
    // What this is over blocks of this many bits.
    fn bound(&self, width: usize) -> Bound {
        match *self {
            Ask::Exact(len) => bound_of_list(len, width, false),
            Ask::Grown(len) => bound_of_list(len, width, true),
            Ask::Lists(count, len) => bound_of_list(len, width, false).times(count),
            Ask::Rows(rows, len) => Bound {
                requests: 1,
                bytes: bytes_of(blocks_of(len, width), width).saturating_mul(rows),
            },
            Ask::Entries(len, bytes) => Bound {
                requests: 1,
                bytes: blocks_of(len, width).saturating_mul(bytes),
            },
            Ask::Other(requests, bytes) => Bound { requests, bytes },
        }
    }
}

/// All of these together, over blocks of so many bits.
pub fn bound_of(asks: &[Ask], width: usize) -> Bound {
    let mut all = Bound {
        requests: 0,
        bytes: 0,
    };
    for ask in asks {
        let one = ask.bound(width);
        all.requests = all.requests.saturating_add(one.requests);
        all.bytes = all.bytes.saturating_add(one.bytes);
    }
    all
}
