//! Laws of sources whose contract says their bytes, and of counts of faults that don't change.
ghost use Rattle.it_outside.specs.Laws.{EndComesLast, MoreWasThere, StayedIsNoFault};

/// A source whose contract says its bytes gave all of them, if it gave bytes up to its end.
/// So `read_all` never returns `Ok` if there were more bytes than its limit.
#[tactic(auto, using(crate::proofs::LawLemmas::end_comes_last))]
pub fn end_comes_last()
    ensures { EndComesLast }
{}

/// A source whose contract says its bytes had more than a limit, if it gave more.
/// So `read_all` returns `InFault::TooLong` only then.
#[tactic(auto, using(crate::proofs::LawLemmas::more_was_there))]
pub fn more_was_there()
    ensures { MoreWasThere }
{}

/// A count of faults that didn't change counted no further fault. So `read_all` over a `SureSource` never returns
/// `InFault::ReadFault`, and `write_all` over a `SureSink` never `OutFault::WriteFault`: their counts stay 0.
#[tactic(auto, using(crate::proofs::LawLemmas::stayed_is_no_fault))]
pub fn stayed_is_no_fault()
    ensures { StayedIsNoFault }
{}
