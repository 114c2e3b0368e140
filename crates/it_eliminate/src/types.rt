//! The results of elimination, and why one stops.
use it_problems::System;
use std::alloc::AllocError;

/// The result of elimination.
#[derive(Debug, Drop)]
pub enum Eliminated {
    /// The rows that are left after all rates.
    Region(System),
    /// The first rate after which there are more rows than are allowed.
    Rows { rate: u8 },
    /// The first rate at which two rows can't be cancelled within 2^127 - 1.
    Wide { rate: u8 },
}

/// Why an elimination stops before it has a region.
#[derive(Clone, Copy)]
pub enum Stop {
    Memory,
    /// After `rate` there are more rows than are allowed.
    Rows { rate: u8 },
    /// At `rate` two rows can't be cancelled within 2^127 - 1.
    Wide { rate: u8 },
}

impl From<AllocError> for Stop {
    ghost use Rattle.std.specs.Prelude.{◌≡◌};
    ghost use Rattle.it_eliminate.specs.declared.types.Stop.TheVariants.{Memory};

    ghost from_gives = { λ _ e. e ≡ Memory };

    fn from(_error: AllocError) -> Stop {
        Stop::Memory
    }
}
