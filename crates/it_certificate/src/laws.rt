//! Laws of reports.
ghost use Rattle.it_certificate.specs.Laws.{OneReading, OriginsReadBack, ReadsBack};
ghost use Rattle.it_certificate.specs.Rows.{CausesReadAsSaid, ContainmentsReadAsSaid, KindsReadAsSaid, LinesWrittenAsSaid, NumbersReadAsSaid, PointsReadAsSaid, ProofsReadAsSaid, RegionsReadAsSaid, TextsReadAsSaid};

/// What is written of an answer that fits its question reads as that answer.
#[tactic(auto, using(crate::proofs::RoundLemmas::reads_back))]
pub fn answers_read_back()
    ensures { ReadsBack }
{}

/// What is written of a region with a certificate for each of its rows, which fit the question, reads as that region and these.
#[tactic(auto, using(crate::proofs::OriginRound::origins_read_back))]
pub fn origins_read_back()
    ensures { OriginsReadBack }
{}

/// A line has at most one reading.
pub fn lines_have_one_reading()
    ensures { OneReading }
{}

/// What texts read as, numbers and JSON.
pub fn texts_read_as_said()
    ensures numbers { NumbersReadAsSaid }
    ensures texts { TextsReadAsSaid }
{}

/// What reports on small questions read as, kind by kind.
pub fn reports_read_as_said()
    ensures kinds { KindsReadAsSaid }
    ensures proofs { ProofsReadAsSaid }
    ensures points { PointsReadAsSaid }
    ensures causes { CausesReadAsSaid }
    ensures regions { RegionsReadAsSaid }
    ensures containments { ContainmentsReadAsSaid }
{}

/// What answers are written as.
pub fn lines_are_written_as_said()
    ensures { LinesWrittenAsSaid }
{}
