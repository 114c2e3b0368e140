//! Lines of JSON: the formats `json` and `derived` of mode `answer`.
ghost use Rattle.std.specs.Prelude.{◌≡◌, ◌++◌, All, IfOk, IfSome, IsAscii, Some, codes, map, option_map};
ghost use Rattle.std.specs.Bool.{OnTrue};
ghost use Rattle.std.specs.List.{AllZip};
ghost use Rattle.it_settings.specs.declared.types.Format.TheVariants.{Derived};
ghost use Rattle.it_space.specs.Answers.{answer_view, certificate_view};
ghost use Rattle.it_space.specs.Rows.{IsOver};
ghost use Rattle.it_space.specs.Spaces.{size_of};
ghost use Rattle.it_demand.specs.QuestionSpaces.{space_of};
ghost use Rattle.it_answer.specs.Truth.{region_rows};
ghost use Rattle.it_certificate.specs.AnswerShapes.{IsNumbered, IsNumberedAmount};
ghost use Rattle.it_certificate.specs.OriginReading.{IsRegion, rows_of};
ghost use Rattle.it_certificate.specs.Values.{IsWritable, answer_text};
ghost use Rattle.it_cli.specs.InnerEnds.{IsDerivedLine};
ghost use Rattle.it_cli.specs.ToldOrigins.{AreToldOrigins, IsToldOrigin, told_report};

use it_certificate::{answer_json, derived_json};
use it_origins::origin;
use it_problems::Problem;
use it_question::types::Question;
use it_rates::problem_of_lines;
use it_space::{Answer, Certificate, Mark, Row};
use std::alloc::{AllocError, Global};

/// The line of an answer in the format `json`.
pub fn json_line(alloc: Global, question: &Question, answer: &Answer) -> Result<Vec<u8>, AllocError>
    requires ascii { IsAscii question.now.text }
    requires writable { IsWritable question.now.body.names (answer_view answer.now) }
    ensures { IfOk result (λ line. line.items ≡ answer_text question.now.text question.now.body.names (answer_view answer.now) ++ codes "\n") }
{
    let text = question.text(alloc)?;
    let mut line = answer_json(alloc, text.as_slice(), question.names(), answer)?;
    line.extend_from_slice(b"\n")?;
    Ok(line)
}

/// The line of an answer in the format `derived`: as in the format `json`. The line of a region has certificates too, if one is
/// found for each row from the question's lines.
pub fn derived_line(
    alloc: Global,
    question: &Question,
    answer: &Answer,
) -> Result<Vec<u8>, AllocError>
    requires ascii { IsAscii question.now.text }
    requires writable { IsWritable question.now.body.names (answer_view answer.now) }
    requires rows { All (IsOver (size_of (space_of question.now.body.names))) (rows_of (answer_view answer.now)) }
    ensures { IfOk result (λ line. IsDerivedLine question.now (answer_view answer.now) line.items) }
{
    let origins = told_origins(alloc, question, answer)?;
    match origins {
        Some(origins) => {
            let line = region_line(alloc, question, answer, origins.as_slice())?;
            Ok(line)
        }
        None => {
            let line = json_line(alloc, question, answer)?;
            Ok(line)
        }
    }
}

/// Certificates of the rows of a region, if one is found for each; None of another answer.
fn told_origins(
    alloc: Global,
    question: &Question,
    answer: &Answer,
) -> Result<Option<Vec<Certificate>>, AllocError>
    requires rows { All (IsOver (size_of (space_of question.now.body.names))) (rows_of (answer_view answer.now)) }
    ensures { IfOk result (λ o. AreToldOrigins Derived question.now.body (answer_view answer.now) (option_map (λ v. map certificate_view v.items) o)) }
{
    match answer {
        Answer::Region(rows) => {
            let problem = problem_of_lines(alloc, question)?;
            let origins = row_origins(alloc, &problem, rows.as_slice())?;
            Ok(origins)
        }
        Answer::Yes(_) => Ok(None),
        Answer::No { .. } => Ok(None),
        Answer::Undecided(_) => Ok(None),
        Answer::Contained { .. } => Ok(None),
        Answer::Open { .. } => Ok(None),
    }
}

/// A certificate of each row from a problem's constraints alone; None where one isn't found.
fn row_origins(
    alloc: Global,
    problem: &Problem,
    rows: &[(Mark, Row)],
) -> Result<Option<Vec<Certificate>>, AllocError>
    requires rows { All (IsOver (size_of problem.now.space)) (region_rows rows.now) }
    ensures { IfOk result (λ o. IfSome o (λ v. AllZip (IsToldOrigin problem.now) (region_rows rows.now) (map certificate_view v.items))) }
{
    let mut origins = Vec::new(alloc);
    for row in rows {
        let found = told_origin(alloc, problem, &row.1)?;
        match found {
            Some(certificate) => origins.push(certificate)?,
            None => return Ok(None),
        }
    }
    Ok(Some(origins))
}

/// A certificate of a row from a problem's constraints alone, with numbers that a report can have; None where none is found.
fn told_origin(
    alloc: Global,
    problem: &Problem,
    row: &Row,
) -> Result<Option<Certificate>, AllocError>
    requires row { IsOver (size_of problem.now.space) row.now }
    ensures { IfOk result (λ o. IfSome o (λ w. IsToldOrigin problem.now row.now (certificate_view w))) }
{
    let Some(certificate) = origin(alloc, problem, row)? else {
        return Ok(None);
    };
    if !is_numbered(&certificate) {
        return Ok(None);
    }
    Ok(Some(certificate))
}

/// Whether a report can have the numbers of a certificate: none of them is the least of its type.
fn is_numbered(certificate: &Certificate) -> bool
    ensures { OnTrue result (IsNumbered (certificate_view certificate.now)) }
{
    certificate.scale != i128::MIN && are_amounts(certificate.weights.as_slice())
}

/// Whether a report can have the numbers of `weights`: none is the least of its type.
fn are_amounts(weights: &[(u32, i128)]) -> bool
    ensures { OnTrue result (All IsNumberedAmount weights.now) }
{
    weights.iter().all(is_amount)
}

/// Whether a report can have the number of `weight`.
fn is_amount(weight: &(u32, i128)) -> bool
    ensures { OnTrue result (IsNumberedAmount weight.now) }
{
    // asked for the range of its result
    let _generator = generator(weight);
    weight.1 != i128::MIN
}

/// The generator of a weight, by number.
fn generator(weight: &(u32, i128)) -> u32
    ensures { result ≡ weight.now.0 }
{
    weight.0
}

/// The line of a region with certificates of its rows.
fn region_line(
    alloc: Global,
    question: &Question,
    answer: &Answer,
    origins: &[Certificate],
) -> Result<Vec<u8>, AllocError>
    requires ascii { IsAscii question.now.text }
    requires region { IsRegion (answer_view answer.now) }
    ensures { IfOk result (λ line. line.items ≡ told_report question.now (answer_view answer.now) (Some (map certificate_view origins.now)) ++ codes "\n") }
{
    let Answer::Region(rows) = answer else {
        unreachable!()
    };
    let text = question.text(alloc)?;
    let mut line = derived_json(
        alloc,
        text.as_slice(),
        question.names(),
        rows.as_slice(),
        origins,
    )?;
    line.extend_from_slice(b"\n")?;
    Ok(line)
}
