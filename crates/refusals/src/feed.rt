// A hasher that takes no memory.
ghost use Rattle.std.specs.Prelude.{◌+◌, ◌%◌, ◌^◌, length};

use std::hash::Hasher;

/// A hasher that counts the bytes that it is fed.
#[derive(Drop)]
pub struct Feed {
    pub count: u64,
}

impl Hasher for Feed {
    ghost write = { λ feed bytes. record { count = (feed.count + length bytes) % 2 ^ 64 } };

    ghost finish = { λ feed. feed.count };

    fn finish(&self) -> u64 {
        self.count
    }

    fn write(&mut self, bytes: &[u8]) {
        self.count = self.count.wrapping_add(bytes.len() as u64);
    }
}
