//! The lines of verdicts.
ghost use Rattle.std.specs.Prelude.{◌≡◌, ◌<◌, ◌+◌, ◌^◌, length, true, false, IfOk};
ghost use Rattle.it_report.specs.LineVerdicts.{is_right, numbered_line, IsLineOf, NotJson, Shape, Skipped, Judged, Weighed, OtherCode, Hulled};
ghost use Rattle.it_report.specs.FactorSteps.{IsFactorVerdictOver};
ghost use Rattle.it_report.specs.Steps.{IsVerdictOver};

use crate::factors::FactorVerdict;
use crate::rows::is_valid;
use crate::words::{
    is_hull, key_name, write_factor_verdict, write_hull_verdict, write_other, write_verdict,
};
use it_certificate::Key;
use it_check::Verdict;
use it_print::write_number;
use it_spans::HullVerdict;
use it_syntax::Names;
use std::alloc::{AllocError, Global};

/// The line that is written about a line of a report, with its line feed, and whether it says `invalid`.
#[derive(Debug, Drop)]
pub struct JudgedLine {
    pub text: Vec<u8>,
    pub invalid: bool,
}

/// The line `words` about line `k`, with a line feed.
#[tactic(auto, unfolding(crate::specs::LineVerdicts::numbered_line))]
fn numbered_line(alloc: Global, k: usize, words: &[u8]) -> Result<Vec<u8>, AllocError>
    ensures { IfOk result (λ t. t.items ≡ numbered_line k words.now) }
{
    let mut out = Vec::new(alloc);
    write_number(&mut out, k)?;
    out.extend_from_slice(b" ")?;
    out.extend_from_slice(words)?;
    out.extend_from_slice(b"\n")?;
    Ok(out)
}

/// The line about a line that has no reading as JSON.
pub fn not_json_line(alloc: Global, k: usize) -> Result<JudgedLine, AllocError>
    ensures { IfOk result (λ j. IsLineOf k NotJson j.text.items j.invalid) }
{
    let text = numbered_line(alloc, k, b"invalid json")?;
    Ok(JudgedLine {
        text,
        invalid: true,
    })
}

/// The line about a line with a key that is missing or of another shape.
pub fn shape_line(alloc: Global, k: usize, key: Key) -> Result<JudgedLine, AllocError>
    ensures { IfOk result (λ j. IsLineOf k (Shape key) j.text.items j.invalid) }
{
    let mut words = Vec::new(alloc);
    words.extend_from_slice(b"invalid shape ")?;
    words.extend_from_slice(key_name(key).as_bytes())?;
    let text = numbered_line(alloc, k, words.as_slice())?;
    Ok(JudgedLine {
        text,
        invalid: true,
    })
}

/// The line about a line whose answer isn't judged.
pub fn skipped_line(alloc: Global, k: usize) -> Result<JudgedLine, AllocError>
    ensures { IfOk result (λ j. IsLineOf k Skipped j.text.items j.invalid) }
{
    let text = numbered_line(alloc, k, b"skipped")?;
    Ok(JudgedLine {
        text,
        invalid: false,
    })
}

/// The line about a line with this verdict on its answer.
pub fn verdict_line(
    alloc: Global,
    k: usize,
    names: &Names,
    verdict: &Verdict,
) -> Result<JudgedLine, AllocError>
    requires { IsVerdictOver (2 ^ length names.now.variables + length names.now.rates) verdict.now }
    ensures { IfOk result (λ j. IsLineOf k (Judged names.now verdict.now) j.text.items j.invalid) }
{
    let mut words = Vec::new(alloc);
    write_verdict(&mut words, names, verdict)?;
    let text = numbered_line(alloc, k, words.as_slice())?;
    Ok(JudgedLine {
        text,
        invalid: !is_valid(verdict),
    })
}

/// Whether nothing is wrong with what is said of factors.
fn is_right(verdict: &FactorVerdict) -> bool
    ensures { result ≡ is_right verdict.now }
{
    match verdict {
        FactorVerdict::Checked(verdict) => is_valid(verdict),
        FactorVerdict::BelowOne { .. } | FactorVerdict::NotZero { .. } => false,
    }
}

/// The line about a line with this verdict on what it says of factors.
pub fn factor_line(
    alloc: Global,
    k: usize,
    names: &Names,
    verdict: &FactorVerdict,
) -> Result<JudgedLine, AllocError>
    requires { IsFactorVerdictOver (2 ^ length names.now.variables + length names.now.rates) verdict.now }
    ensures { IfOk result (λ j. IsLineOf k (Weighed names.now verdict.now) j.text.items j.invalid) }
{
    let mut words = Vec::new(alloc);
    write_factor_verdict(&mut words, names, verdict)?;
    let text = numbered_line(alloc, k, words.as_slice())?;
    Ok(JudgedLine {
        text,
        invalid: !is_right(verdict),
    })
}

/// The line about a no with a code, by which the value of `set` is another than the point's.
pub fn other_line(
    alloc: Global,
    k: usize,
    names: &Names,
    set: u16,
) -> Result<JudgedLine, AllocError>
    requires { set < 2 ^ length names.now.variables }
    ensures { IfOk result (λ j. IsLineOf k (OtherCode names.now set) j.text.items j.invalid) }
{
    let mut words = Vec::new(alloc);
    write_other(&mut words, names, set)?;
    let text = numbered_line(alloc, k, words.as_slice())?;
    Ok(JudgedLine {
        text,
        invalid: true,
    })
}

/// The line about a line with this verdict on its rows as the hull of its rays.
pub fn hull_line(alloc: Global, k: usize, verdict: &HullVerdict) -> Result<JudgedLine, AllocError>
    ensures { IfOk result (λ j. IsLineOf k (Hulled verdict.now) j.text.items j.invalid) }
{
    let mut words = Vec::new(alloc);
    write_hull_verdict(&mut words, verdict)?;
    let text = numbered_line(alloc, k, words.as_slice())?;
    Ok(JudgedLine {
        text,
        invalid: !is_hull(verdict),
    })
}
