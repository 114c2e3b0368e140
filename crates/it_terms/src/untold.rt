//! Why something isn't told.
use it_fraction::Wide;
use std::alloc::{AllocError, AllocFailed};
use std::num::TryFromIntError;

/// `Memory`: allocation fails. `NotFound`: nothing was found, or a number is too large.
#[derive(Clone, Copy)]
pub enum Untold {
    Memory,
    NotFound,
}

impl From<AllocError> for Untold {
    fn from(_error: AllocError) -> Untold {
        Untold::Memory
    }
}

impl<T: Drop> From<AllocFailed<T>> for Untold {
    fn from(_error: AllocFailed<T>) -> Untold {
        Untold::Memory
    }
}

impl From<Wide> for Untold {
    fn from(_error: Wide) -> Untold {
        Untold::NotFound
    }
}

impl From<TryFromIntError> for Untold {
    fn from(_error: TryFromIntError) -> Untold {
        Untold::NotFound
    }
}
