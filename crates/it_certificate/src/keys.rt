//! The keys of reports, and why a line has no reading.
use std::alloc::{AllocError, AllocFailed};
use thiserror::Error;

/// The keys of a report in the order in which they are judged, with these exceptions: `parts` comes before `proofs`, and of
/// bounds so does `rows`; `answer` is judged a second time after `question`.
#[derive(Clone, Copy, Debug)]
pub enum Key {
    Answer,
    Sharing,
    Copies,
    Question,
    Factor,
    Proofs,
    Point,
    Side,
    Cause,
    At,
    Phase,
    Rows,
    Parts,
    Tried,
    Rays,
    Code,
    Origins,
}

/// Why a line isn't read: allocation fails, the line has no JSON reading, or a key, the first such one, is missing or of
/// another shape.
#[derive(Clone, Copy, Debug, Error)]
pub enum ReportFault {
    #[error("there is too little memory to read the report")]
    Memory,
    #[error("the line is no JSON")]
    NotJson,
    #[error("a key of the report is missing or of another shape")]
    Shape { key: Key },
}

/// Why a part of a report isn't read: allocation fails, or it is missing or of another shape.
#[derive(Clone, Copy)]
pub enum Refusal {
    Memory,
    Shape,
}

impl From<AllocError> for Refusal {
    ghost use Rattle.std.specs.Prelude.{◌≡◌};
    ghost use Rattle.it_certificate.specs.declared.keys.Refusal.TheVariants.{Memory};

    ghost from_gives = { λ _ e. e ≡ Memory };

    fn from(_error: AllocError) -> Refusal {
        Refusal::Memory
    }
}

impl<T: Drop> From<AllocFailed<T>> for Refusal {
    ghost use Rattle.std.specs.Prelude.{◌≡◌};
    ghost use Rattle.it_certificate.specs.declared.keys.Refusal.TheVariants.{Memory};

    ghost from_gives = { λ _ e. e ≡ Memory };

    fn from(_error: AllocFailed<T>) -> Refusal {
        Refusal::Memory
    }
}
