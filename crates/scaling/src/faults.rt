// Why some work was not done.
use bit_matrix::MatrixError;
use bit_set::SetError;
use std::alloc::{AllocError, AllocFailed};
use std::io;

/// No memory was found, or a stream failed.
#[derive(Clone, Copy)]
pub struct Fault;

impl From<AllocError> for Fault {
    fn from(_fault: AllocError) -> Self {
        Fault
    }
}

impl<T: Drop> From<AllocFailed<T>> for Fault {
    fn from(_fault: AllocFailed<T>) -> Self {
        Fault
    }
}

impl From<SetError> for Fault {
    fn from(_fault: SetError) -> Self {
        Fault
    }
}

impl From<MatrixError> for Fault {
    fn from(_fault: MatrixError) -> Self {
        Fault
    }
}

impl From<io::Error> for Fault {
    fn from(_fault: io::Error) -> Self {
        Fault
    }
}
