//! Readers and writers that work in pieces, count their calls and fail where a test wants it.

use std::io;
use std::io::{ErrorKind, Read, Write};

/// Gives its bytes in pieces, and fails at one call.
#[derive(Drop)]
pub struct PieceReader<'a> {
    pub bytes: &'a [u8],
    pub piece: usize,
    pub fails_at: usize,
    pub kind: ErrorKind,
    pub calls: usize,
}

impl Read for PieceReader<'_> {
    fn read(&mut self, buf: &mut [u8]) -> io::Result<usize> {
        let call = self.calls;
        self.calls = call.saturating_add(1);
        if call == self.fails_at {
            return Err(self.kind.into());
        }
        let count = self.piece.min(self.bytes.len()).min(buf.len());
        buf[..count].copy_from_slice(&self.bytes[..count]);
        self.bytes = &self.bytes[count..];
        Ok(count)
    }
}

/// Gives a newline at each call, for ever.
#[derive(Drop)]
pub struct EndlessReader {
    pub calls: usize,
}

impl Read for EndlessReader {
    fn read(&mut self, buf: &mut [u8]) -> io::Result<usize> {
        self.calls = self.calls.saturating_add(1);
        if buf.is_empty() {
            return Ok(0);
        }
        buf[0] = b'\n';
        Ok(1)
    }
}

/// Takes bytes in pieces, and fails at one call: with an error, or by taking no byte where it has no kind.
#[derive(Drop)]
pub struct PieceWriter {
    pub bytes: Vec<u8>,
    pub piece: usize,
    pub fails_at: usize,
    pub kind: Option<ErrorKind>,
    pub calls: usize,
    pub flush_fails: bool,
    pub flushes: usize,
}

impl Write for PieceWriter {
    fn write(&mut self, buf: &[u8]) -> io::Result<usize> {
        let call = self.calls;
        self.calls = call.saturating_add(1);
        if call == self.fails_at {
            return match self.kind {
                Some(kind) => Err(kind.into()),
                None => Ok(0),
            };
        }
        let count = self.piece.min(buf.len());
        self.bytes.extend_from_slice(&buf[..count])?;
        Ok(count)
    }

    fn flush(&mut self) -> io::Result<()> {
        self.flushes = self.flushes.saturating_add(1);
        if self.flush_fails {
            return Err(ErrorKind::Other.into());
        }
        Ok(())
    }
}
