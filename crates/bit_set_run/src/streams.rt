// An input read to its end and an output written; no failed call is retried. The meaning of the bytes is elsewhere.
ghost use Rattle.std.specs.{Io.KnownBytes.Appends, Prelude.{◌≡◌, ◌≢◌, ℕ, ◌+◌, IfOk, IfErr, OnOk, OnErr, Err, Some}};
ghost use Rattle.bit_set_run.specs.{Exits.text_at, declared.streams.LinesFault.TheVariants.Memory};
ghost use Rattle.bit_set_run.specs.Streams.{limit, GaveAll, GaveCount, GaveSome, GaveUntil, HoldsBeginning};

use std::alloc::{AllocError, AllocFailed, Global};
use std::error::Error;
use std::fmt;
use std::io::{Read, Write};

/// Why lines got no replies, or not all of them.
#[derive(Clone, Copy, Debug, PartialEq, Eq)]
pub enum LinesFault {
    /// A read failed.
    Read,
    /// The input has more than 1,048,576 bytes.
    TooLarge,
    /// Memory ran out.
    Memory,
    /// A write failed or took no byte, or the flush failed.
    Write,
}

impl LinesFault {
    /// What the program says about it on standard error. Constant time.
    ///
    /// ```
    /// assert_eq!(LinesFault::TooLarge.text(), "input too large");
    /// ```
    pub fn text(self) -> &'static str
        ensures { result.now ≡ text_at {X = Unit} (Err self) }
    {
        match self {
            LinesFault::Read => "read failed",
            LinesFault::TooLarge => "input too large",
            LinesFault::Memory => "memory refused",
            LinesFault::Write => "write failed",
        }
    }
}

impl fmt::Display for LinesFault {
    ghost output = { λ fault. Some (text_at {X = Unit} (Err fault)) };

    fn fmt<W: fmt::Write>(&self, f: &mut fmt::Formatter<W>) -> fmt::Result {
        f.write_str(self.text())
    }
}

impl Error for LinesFault {}

impl From<AllocError> for LinesFault {
    ghost from_gives = { λ _ fault. fault ≡ Memory };

    fn from(_fault: AllocError) -> Self {
        LinesFault::Memory
    }
}

impl<T: Drop> From<AllocFailed<T>> for LinesFault {
    ghost from_gives = { λ _ fault. fault ≡ Memory };

    fn from(_fault: AllocFailed<T>) -> Self {
        LinesFault::Memory
    }
}

// How many bytes an input may have.
const LIMIT: usize = 1_048_576;

// The most bytes that a read requests.
const PIECE: usize = 8192;

// Reads to the end. A read that succeeds returns at least one byte, so at most one more read is made than the input
// has bytes.
pub(crate) fn read_input<R: Read>(alloc: Global, reader: &mut R) -> Result<Vec<u8>, LinesFault>
    ensures ok { IfOk result (λ input. GaveAll (R.remaining reader.old) (R.remaining reader.new) input.items) }
    ensures read { result ≡ Err LinesFault.Read → GaveUntil (R.remaining reader.old) (R.remaining reader.new) limit }
    ensures too_large { result ≡ Err LinesFault.TooLarge
        → GaveCount (R.remaining reader.old) (R.remaining reader.new) (limit + 1) }
    ensures memory { result ≡ Err LinesFault.Memory → GaveSome (R.remaining reader.old) (R.remaining reader.new) limit }
    ensures not_write { result ≢ Err LinesFault.Write }
{
    let mut input = Vec::new(alloc);
    let mut piece = [0u8; PIECE];
    for _ in 0..LIMIT + 1 {
        let wanted = PIECE.min(LIMIT + 1 - input.len());
        let Ok(count) = reader.read(&mut piece[..wanted]) else {
            return Err(LinesFault::Read);
        };
        if count == 0 {
            return Ok(input);
        }
        if input.len() + count > LIMIT {
            return Err(LinesFault::TooLarge);
        }
        input.extend_from_slice(&piece[..count])?;
    }
    Err(LinesFault::TooLarge)
}

// Writes all of the text and flushes. A failed write is not retried.
pub(crate) fn write_output<W: Write>(writer: &mut W, text: &[u8]) -> Result<(), LinesFault>
    ensures ok { OnOk result (Appends (W.contents writer.old) (W.contents writer.new) text.now) }
    ensures write { OnErr result (HoldsBeginning (W.contents writer.old) (W.contents writer.new) text.now) }
    ensures fault { IfErr result (λ fault. fault ≡ LinesFault.Write) }
{
    let mut rest = text;
    while !rest.is_empty() {
        match writer.write(rest) {
            Ok(0) | Err(_) => return Err(LinesFault::Write),
            Ok(count) => rest = &rest[count..],
        }
    }
    match writer.flush() {
        Ok(()) => Ok(()),
        Err(_) => Err(LinesFault::Write),
    }
}
