// Why a matrix could not be made.
ghost use Rattle.std.specs.Prelude.{◌≡◌};

use std::alloc::{AllocError, AllocFailed};
use thiserror::Error;

/// Why a matrix could not be made.
#[derive(Clone, Copy, Debug, PartialEq, Eq, Error)]
pub enum MatrixError {
    /// The rows, each in whole blocks, have more bits than a `usize` can count.
    #[error("too many bits")]
    Length,
    /// Memory for the blocks ran out.
    #[error("memory refused")]
    Memory(AllocError),
}

impl From<AllocError> for MatrixError {
    ghost use Rattle.bit_matrix.specs.declared.faults.MatrixError.TheVariants.{Memory};

    ghost from_gives = { λ fault error. error ≡ Memory fault };

    fn from(fault: AllocError) -> MatrixError {
        MatrixError::Memory(fault)
    }
}
