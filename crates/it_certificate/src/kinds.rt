//! The words of reports.
ghost use Rattle.std.specs.Prelude.{◌≡◌};
ghost use Rattle.it_certificate.specs.FactorReading.{factor_cause_of, factor_kind_of};
ghost use Rattle.it_certificate.specs.Kinds.{answer_kind_of, back_of, cause_kind_of, mark_of};

use it_space::Mark;

/// Kinds of answers, by the words of the key `answer`.
#[derive(Clone, Copy)]
pub enum AnswerKind {
    Yes,
    No,
    Undecided,
    Region,
    Contained,
    Open,
}

/// The words of the key `cause`.
#[derive(Clone, Copy)]
pub enum CauseKind {
    Pivots,
    Width,
    Scale,
    Rows,
}

/// Kinds of what is found of factors, by the words `best`, `none`, `unbounded` and `undecided` of the key `answer`.
#[derive(Clone, Copy)]
pub enum FactorKind {
    Least,
    Never,
    Unbounded,
    Undecided,
}

/// The words of the key `cause` where factors are undecided.
#[derive(Clone, Copy)]
pub enum FactorCause {
    Pivots,
    Width,
    Scale,
    Size,
}

/// The kind of this word.
pub fn answer_kind_of(text: &str) -> Option<AnswerKind>
    ensures { result ≡ answer_kind_of text.now }
{
    match text {
        "yes" => Some(AnswerKind::Yes),
        "no" => Some(AnswerKind::No),
        "undecided" => Some(AnswerKind::Undecided),
        "region" => Some(AnswerKind::Region),
        "contained" => Some(AnswerKind::Contained),
        "open" => Some(AnswerKind::Open),
        _ => None,
    }
}

/// The kind of this word.
pub fn cause_kind_of(text: &str) -> Option<CauseKind>
    ensures { result ≡ cause_kind_of text.now }
{
    match text {
        "pivots" => Some(CauseKind::Pivots),
        "width" => Some(CauseKind::Width),
        "scale" => Some(CauseKind::Scale),
        "rows" => Some(CauseKind::Rows),
        _ => None,
    }
}

/// The mark of this word.
pub fn mark_of(text: &str) -> Option<Mark>
    ensures { result ≡ mark_of text.now }
{
    match text {
        "plain" => Some(Mark::Plain),
        "needed" => Some(Mark::Needed),
        "unsettled" => Some(Mark::Unsettled),
        _ => None,
    }
}

/// Whether the word names the second side; None where it names no side of the relation.
pub fn back_of(text: &str, equality: bool) -> Option<bool>
    ensures { result ≡ back_of equality text.now }
{
    match text {
        "forward" => Some(false),
        "back" => { if equality { Some(true) } else { None } }
        _ => None,
    }
}

/// The kind of this word, where it is one about factors; `undecided` is one only if `has_phase`.
pub fn factor_kind_of(text: &str, has_phase: bool) -> Option<FactorKind>
    ensures { result ≡ factor_kind_of has_phase text.now }
{
    match text {
        "best" => Some(FactorKind::Least),
        "none" => Some(FactorKind::Never),
        "unbounded" => Some(FactorKind::Unbounded),
        "undecided" => {
            if has_phase {
                Some(FactorKind::Undecided)
            } else {
                None
            }
        }
        _ => None,
    }
}

/// Why factors are undecided, by this word.
pub fn factor_cause_of(text: &str) -> Option<FactorCause>
    ensures { result ≡ factor_cause_of text.now }
{
    match text {
        "pivots" => Some(FactorCause::Pivots),
        "width" => Some(FactorCause::Width),
        "scale" => Some(FactorCause::Scale),
        "size" => Some(FactorCause::Size),
        _ => None,
    }
}
