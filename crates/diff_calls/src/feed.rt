// A hasher that says what it was fed.
ghost use Rattle.std.specs.Prelude.{◌+◌, ◌*◌, ◌%◌, ◌^◌, fold};

use std::hash::{Hash, Hasher};

// How often it was fed, and a number that says the bytes that it was fed.
#[derive(Drop)]
struct Feed {
    calls: u64,
    digest: u64,
}

impl Hasher for Feed {
    ghost write = { λ s bytes. record {
      calls = (s.calls + 1) % 2 ^ 64;
      digest = fold (λ n b. (n * 1099511628211 % 2 ^ 64 + b) % 2 ^ 64) s.digest bytes;
    } };

    ghost finish = { λ s. s.digest };

    fn finish(&self) -> u64 {
        self.digest
    }

    fn write(&mut self, bytes: &[u8]) {
        self.calls = self.calls.wrapping_add(1);
        for byte in bytes {
            self.digest = self
                .digest
                .wrapping_mul(1099511628211)
                .wrapping_add(*byte as u64);
        }
    }
}

// How often a set or a matrix feeds a hasher, and what.
pub(crate) fn feed_of<T: Hash>(value: &T) -> (u64, u64) {
    let mut feed = Feed {
        calls: 0,
        digest: 0,
    };
    value.hash(&mut feed);
    (feed.calls, feed.finish())
}
