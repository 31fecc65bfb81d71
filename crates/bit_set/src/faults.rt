// Why a set does not accept something. The faults of the JSON form are in `json`.
ghost use Rattle.std.specs.Prelude.{◌≡◌, alloc_error};

use crate::bit_vec::BitsError;
use std::alloc::{AllocError, AllocFailed};
use thiserror::Error;

/// Why a set did not accept something.
#[derive(Clone, Copy, Debug, PartialEq, Eq, Error)]
pub enum SetError {
    /// The number is `usize::MAX`, or would become that or more. The length exceeds each element, and cannot exceed
    /// `usize::MAX`.
    #[error("the element does not fit")]
    Element,
    /// The bytes have more bits than a `usize` can count.
    #[error("too many bits")]
    Length,
    /// Memory ran out, for a growth or for a new set.
    #[error("memory refused")]
    Memory(AllocError),
}

impl From<AllocError> for SetError {
    ghost use Rattle.bit_set.specs.declared.faults.SetError.TheVariants.{Memory};

    ghost from_gives = { λ fault error. error ≡ Memory fault };

    fn from(fault: AllocError) -> SetError {
        SetError::Memory(fault)
    }
}

// So that `?` also works for a push to a `Vec`.
impl<T: Drop> From<AllocFailed<T>> for SetError {
    ghost use Rattle.bit_set.specs.declared.faults.SetError.TheVariants.{Memory};

    ghost from_gives = { λ _ error. error ≡ Memory alloc_error };

    fn from(_fault: AllocFailed<T>) -> SetError {
        SetError::Memory(AllocError)
    }
}

impl From<BitsError> for SetError {
    ghost use Rattle.bit_set.specs.Faults.{of_bits};

    ghost from_gives = { λ fault error. error ≡ of_bits fault };

    fn from(fault: BitsError) -> SetError {
        match fault {
            BitsError::Length => SetError::Length,
            BitsError::Memory(fault) => SetError::Memory(fault),
        }
    }
}
