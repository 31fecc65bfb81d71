// Why an automaton was not determinized.
ghost use Rattle.std.specs.Prelude.{◌≡◌, alloc_error};

use std::alloc::{AllocError, AllocFailed};
use thiserror::Error;

/// Why a deterministic automaton could not be made.
#[derive(Clone, Copy, Debug, PartialEq, Eq, Error)]
pub enum DfaError {
    /// It has more states than the caller allows.
    #[error("too many states")]
    TooMany,
    /// Memory for it ran out.
    #[error("no memory")]
    Memory(AllocError),
}

impl From<AllocError> for DfaError {
    ghost use Rattle.automata.specs.declared.fault.DfaError.TheVariants.{Memory};

    ghost from_gives = { λ fault error. error ≡ Memory fault };

    fn from(fault: AllocError) -> DfaError {
        DfaError::Memory(fault)
    }
}

// So that `?` also works for a push to a `Vec` and an insert into a map.
impl<T: Drop> From<AllocFailed<T>> for DfaError {
    ghost use Rattle.automata.specs.declared.fault.DfaError.TheVariants.{Memory};

    ghost from_gives = { λ _ error. error ≡ Memory alloc_error };

    fn from(_fault: AllocFailed<T>) -> DfaError {
        DfaError::Memory(AllocError)
    }
}
