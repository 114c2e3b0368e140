//! Why a run, or an operation of it, is given up.
use std::alloc::{AllocError, AllocFailed};

/// Why a run, or an operation of it, was given up. Only a number that is too large is a reason to try again with larger ones.
#[derive(Drop, Clone, Copy)]
pub enum GaveUp {
    /// Allocation failed.
    Memory,
    /// A number would be too large.
    TooLarge,
}

impl From<AllocError> for GaveUp {
    ghost use Rattle.std.specs.Prelude.{◌≡◌};
    ghost use Rattle.it_whole.specs.declared.giving_up.GaveUp.TheVariants.{Memory};

    ghost from_gives = { λ _ e. e ≡ Memory };

    fn from(_error: AllocError) -> GaveUp {
        GaveUp::Memory
    }
}

impl<T: Drop> From<AllocFailed<T>> for GaveUp {
    ghost use Rattle.std.specs.Prelude.{◌≡◌};
    ghost use Rattle.it_whole.specs.declared.giving_up.GaveUp.TheVariants.{Memory};

    ghost from_gives = { λ _ e. e ≡ Memory };

    fn from(_error: AllocFailed<T>) -> GaveUp {
        GaveUp::Memory
    }
}
