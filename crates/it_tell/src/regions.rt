//! The lines below the first one of a region: its rows.
ghost use Rattle.std.specs.Prelude.{◌≡◌, ◌≤◌, ◌^◌, ◌++◌, length, map, codes, not, nat_lt, All, IfOk, IfSome, OnOk};
ghost use Rattle.std.specs.List.{insert};
ghost use Rattle.it_problems.specs.declared.problems.Kind.TheVariants.{Inequality};
ghost use Rattle.it_question.specs.ProblemLines.{problem_names};
ghost use Rattle.it_canon.specs.TrueLines.{variable_count};
ghost use Rattle.it_print.specs.Lines.{IsRowOver, row_text};
ghost use Rattle.it_tell.specs.SortedRows.{is_before, order_key, put_in_order, rate_coordinates, rows_by_rates};
ghost use Rattle.it_tell.specs.Steps.{AppendsEach};
ghost use Rattle.it_tell.specs.Tellings.{IsMarkedRowText, IsPlainRow, IsRowOrigin, IsRowText, IsStyledRow, indented_line, mark_comment, told_rows};
ghost use Rattle.it_space.specs.Spaces.{most_variables};

use crate::details::write_indented;
use crate::settings::{Options, Style, is_plain};
use it_canon::problem_names;
use it_print::row_text;
use it_problems::Kind;
use it_question::types::Question;
use it_space::{Mark, Row};
use it_terms::{PrintedRow, printed_row, row_comment, row_origin, told_row};
use std::alloc::{AllocError, Global};

/// A row as reports have it.
fn reported_row(alloc: Global, question: &Question, row: &Row) -> Result<Vec<u8>, AllocError>
    requires { IsRowOver (problem_names question.now.body) row.now }
    ensures { IfOk result (λ t. t.items ≡ codes "as row " ++ row_text (problem_names question.now.body) Inequality row.now) }
{
    let own = row_text(alloc, row, Kind::Inequality, problem_names(question))?;
    let mut out = Vec::new(alloc);
    out.extend_from_slice(b"as row ")?;
    out.extend_from_slice(own.as_slice())?;
    Ok(out)
}

/// A row in the question's own terms, or as reports have it.
fn plain_row(alloc: Global, question: &Question, row: &Row) -> Result<Vec<u8>, AllocError>
    requires over { IsRowOver (problem_names question.now.body) row.now }
    ensures { IfOk result (λ t. IsPlainRow question.now.body row.now t.items) }
{
    match told_row(alloc, question, row)? {
        Some(text) => Ok(text),
        None => reported_row(alloc, question, row),
    }
}

/// A row in fewer terms where the question's functions hold, with the lines that say these; None if the style is plain or there
/// is no such text.
fn styled_row(
    alloc: Global,
    question: &Question,
    style: Style,
    row: &Row,
) -> Result<Option<PrintedRow>, AllocError>
    ensures { IfOk result (λ o. IfSome o (λ t. IsStyledRow question.now.body style row.now t.lines.items t.text.items)) }
{
    if is_plain(style) {
        return Ok(None);
    }
    let Some(printed) = printed_row(alloc, question, row)? else {
        return Ok(None);
    };
    Ok(Some(printed))
}

/// A row in fewer terms where the functions of some lines hold, else without any such lines.
#[tactic(auto, unfolding(crate::specs::Tellings::IsRowText))]
fn any_row(
    alloc: Global,
    question: &Question,
    style: Style,
    row: &Row,
) -> Result<PrintedRow, AllocError>
    requires over { IsRowOver (problem_names question.now.body) row.now }
    ensures { IfOk result (λ t. IsRowText question.now.body style row.now t.lines.items t.text.items) }
{
    if let Some(printed) = styled_row(alloc, question, style, row)? {
        return Ok(printed);
    }
    let text = plain_row(alloc, question, row)?;
    let lines = Vec::new(alloc);
    Ok(PrintedRow { text, lines })
}

/// The weights of the lines from which a row comes; none if the style is plain or none are found.
fn styled_origin(
    alloc: Global,
    question: &Question,
    style: Style,
    row: &Row,
) -> Result<Vec<(u32, i128)>, AllocError>
    ensures { IfOk result (λ ws. IsRowOrigin question.now.body style row.now ws.items) }
{
    if is_plain(style) {
        return Ok(Vec::new(alloc));
    }
    let weights = row_origin(alloc, question, row)?;
    Ok(weights)
}

/// The comment that gives a row's mark.
fn mark_comment(mark: Mark) -> &'static [u8]
    ensures { result.now ≡ mark_comment mark }
{
    match mark {
        Mark::Plain => b"  # plain",
        Mark::Needed => b"",
        Mark::Unsettled => b"  # unsettled",
    }
}

/// A row of a region, with its comments.
fn marked_row(
    alloc: Global,
    question: &Question,
    style: Style,
    row: &(Mark, Row),
) -> Result<Vec<u8>, AllocError>
    requires over { IsRowOver (problem_names question.now.body) row.now.1 }
    ensures { IfOk result (λ t. IsMarkedRowText question.now.body style row.now t.items) }
{
    let PrintedRow { mut text, lines } = any_row(alloc, question, style, &row.1)?;
    let weights = styled_origin(alloc, question, style, &row.1)?;
    let comment = row_comment(alloc, question, weights.as_slice(), lines.as_slice())?;
    text.extend_from_slice(comment.as_slice())?;
    text.extend_from_slice(mark_comment(row.0))?;
    Ok(text)
}

/// Whether `coordinate` is that of a rate, where there are `variables` variables.
fn is_rate(coordinate: usize, variables: u8) -> bool
    requires { variables ≤ most_variables }
    ensures { result ≡ not (nat_lt coordinate (2 ^ variables)) }
{
    coordinate >= 1usize << variables
}

/// The coordinates of the rates of `row`, where there are `variables` variables.
fn rate_coordinates(alloc: Global, row: &Row, variables: u8) -> Result<Vec<usize>, AllocError>
    requires { variables ≤ most_variables }
    ensures { IfOk result (λ v. v.items ≡ rate_coordinates variables row.now) }
{
    row.terms()
        .iter()
        .map(|term| term.0 as usize)
        .filter(|coordinate| is_rate(*coordinate, variables))
        .collect(alloc)
}

/// The number of the rates of `row`, and then their coordinates.
fn order_key(alloc: Global, row: &Row, variables: u8) -> Result<Vec<usize>, AllocError>
    requires { variables ≤ most_variables }
    ensures { IfOk result (λ v. v.items ≡ order_key variables row.now) }
{
    let coordinates = rate_coordinates(alloc, row, variables)?;
    let mut key = Vec::new(alloc);
    key.push(coordinates.len())?;
    key.extend_from_slice(coordinates.as_slice())?;
    Ok(key)
}

/// Whether `numbers` come before `others` in lexicographic order.
fn is_before(numbers: &[usize], others: &[usize]) -> bool
    ensures { result ≡ is_before numbers.now others.now }
{
    for (i, number) in numbers.iter().enumerate() {
        if i >= others.len() {
            return false;
        }
        if *number != others[i] {
            return *number < others[i];
        }
    }
    numbers.len() < others.len()
}

/// Whether a row comes before another one, by its rates.
fn comes_before(alloc: Global, row: &Row, other: &Row, variables: u8) -> Result<bool, AllocError>
    requires { variables ≤ most_variables }
    ensures { IfOk result (λ b. b ≡ is_before (order_key variables row.now) (order_key variables other.now)) }
{
    let key = order_key(alloc, row, variables)?;
    let other_key = order_key(alloc, other, variables)?;
    Ok(is_before(key.as_slice(), other_key.as_slice()))
}

/// The index of the first row of `sorted` before which `row` comes; the length of `sorted` if there is none.
fn place_of(
    alloc: Global,
    sorted: &[&(Mark, Row)],
    row: &(Mark, Row),
    variables: u8,
) -> Result<usize, AllocError>
    requires { variables ≤ most_variables }
    ensures within { IfOk result (λ i. i ≤ length sorted.now) }
    ensures place { IfOk result (λ i. put_in_order variables row.now (map (λ r. r.now) sorted.now) ≡ insert (map (λ r. r.now) sorted.now) i row.now) }
{
    for i in 0..sorted.len() {
        let is_here = comes_before(alloc, &row.1, &sorted[i].1, variables)?;
        if is_here {
            return Ok(i);
        }
    }
    Ok(sorted.len())
}

/// Inserts `row` before the first one before which it comes, else at the end.
fn put_in_order<'a>(
    alloc: Global,
    sorted: &mut Vec<&'a (Mark, Row)>,
    row: &'a (Mark, Row),
    variables: u8,
) -> Result<(), AllocError>
    requires { variables ≤ most_variables }
    ensures { OnOk result (map (λ r. r.now) sorted.new.items ≡ put_in_order variables row.now (map (λ r. r.now) sorted.old.items)) }
{
    let place = place_of(alloc, sorted.as_slice(), row, variables)?;
    sorted.insert(place, row)?;
    Ok(())
}

/// The rows of a region in their own order.
fn rows_in_turn(alloc: Global, rows: &[(Mark, Row)]) -> Result<Vec<&(Mark, Row)>, AllocError>
    ensures { IfOk result (λ v. map (λ r. r.now) v.items ≡ rows.now) }
{
    let mut all = Vec::new(alloc);
    for row in rows {
        all.push(row)?;
    }
    Ok(all)
}

/// The rows of a region in order of `comes_before`; rows with the same rates keep their order.
fn rows_by_rates(
    alloc: Global,
    rows: &[(Mark, Row)],
    variables: u8,
) -> Result<Vec<&(Mark, Row)>, AllocError>
    requires { variables ≤ most_variables }
    ensures { IfOk result (λ v. map (λ r. r.now) v.items ≡ rows_by_rates variables rows.now) }
{
    let mut sorted = Vec::new(alloc);
    for row in rows {
        put_in_order(alloc, &mut sorted, row, variables)?;
    }
    Ok(sorted)
}

/// The rows of a region in the order in which they are told: their own if the style is plain.
fn told_rows(
    alloc: Global,
    style: Style,
    rows: &[(Mark, Row)],
    variables: u8,
) -> Result<Vec<&(Mark, Row)>, AllocError>
    requires { variables ≤ most_variables }
    ensures { IfOk result (λ v. map (λ r. r.now) v.items ≡ told_rows style variables rows.now) }
{
    if is_plain(style) {
        rows_in_turn(alloc, rows)
    } else {
        rows_by_rates(alloc, rows, variables)
    }
}

/// Appends a line for each row of a region, in their order.
pub fn write_rows(
    alloc: Global,
    out: &mut Vec<u8>,
    question: &Question,
    options: Options,
    rows: &[(Mark, Row)],
) -> Result<(), AllocError>
    requires over { All (λ row. IsRowOver (problem_names question.now.body) row.1) rows.now }
    ensures { OnOk result (AppendsEach indented_line (IsMarkedRowText question.now.body options.style) (told_rows options.style (variable_count question.now.body) rows.now) out.old.items out.new.items) }
{
    let space = problem_names(question).space();
    let told = told_rows(alloc, options.style, rows, space.variables)?;
    let in_order = told.as_slice();
    for row in in_order {
        let text = marked_row(alloc, question, options.style, *row)?;
        write_indented(out, text.as_slice())?;
    }
    Ok(())
}
