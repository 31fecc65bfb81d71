// Why a call failed, whichever library says so.
use automata::DfaError;
use bit_matrix::MatrixError;
use bit_set::bit_vec::BitsError;
use bit_set::{JsonError, RangesError, SetError};
use bit_set_run::LinesFault;
use std::alloc::AllocError;
use std::io;

/// Why a call failed.
#[derive(Clone, Copy)]
pub enum Fault {
    /// No memory was found.
    Memory,
    /// Anything else, which no call here may return.
    Other,
}

// The fault where memory is what is said to be missing, or not.
fn fault_of(is_memory: bool) -> Fault {
    if is_memory {
        Fault::Memory
    } else {
        Fault::Other
    }
}

impl From<AllocError> for Fault {
    fn from(_fault: AllocError) -> Self {
        Fault::Memory
    }
}

impl From<io::Error> for Fault {
    fn from(_fault: io::Error) -> Self {
        Fault::Other
    }
}

impl From<BitsError> for Fault {
    fn from(fault: BitsError) -> Self {
        fault_of(matches!(fault, BitsError::Memory(_)))
    }
}

impl From<SetError> for Fault {
    fn from(fault: SetError) -> Self {
        fault_of(matches!(fault, SetError::Memory(_)))
    }
}

impl From<JsonError> for Fault {
    fn from(fault: JsonError) -> Self {
        fault_of(matches!(fault, JsonError::Memory(_)))
    }
}

impl From<RangesError> for Fault {
    fn from(fault: RangesError) -> Self {
        fault_of(matches!(fault, RangesError::Memory(_)))
    }
}

impl From<LinesFault> for Fault {
    fn from(fault: LinesFault) -> Self {
        fault_of(matches!(fault, LinesFault::Memory))
    }
}

impl From<DfaError> for Fault {
    fn from(fault: DfaError) -> Self {
        fault_of(matches!(fault, DfaError::Memory(_)))
    }
}

impl From<MatrixError> for Fault {
    fn from(fault: MatrixError) -> Self {
        fault_of(matches!(fault, MatrixError::Memory(_)))
    }
}
