//! Rows as papers print them: in few terms that are equal to them where the question's functions hold.
ghost use Rattle.std.specs.Prelude.{◌≡◌, ◌≤◌, IfOk, IfSome, length};
ghost use Rattle.it_demand.specs.QuestionSpaces.{space_of};
ghost use Rattle.it_question.specs.ProblemLines.{problem_names};
ghost use Rattle.it_terms.specs.RowsUnder.{IsPrintedRow};
ghost use Rattle.it_terms.specs.Signs.{IsPrintedRowFrom};
ghost use Rattle.it_space.specs.Spaces.{most_variables};

use crate::closed::{ClosedTerm, Closures, closures_of};
use crate::finding::own_sum;
use crate::folding::Notation;
use crate::measures::{Measure, measures};
use crate::row_judging::{are_given_equations, is_given_equation, tells_under};
use crate::row_search::{Length, closed_sum, closed_terms, length_of};
use crate::telling::written;
use crate::under::functions_of;
use crate::untold::Untold;
use it_canon::{problem, problem_names};
use it_closure::Dependences;
use it_elemental::count;
use it_problems::{Constraint, Problem};
use it_question::types::Question;
use it_space::Row;
use it_syntax::Names;
use std::alloc::{AllocError, Global};

/// A row as papers print it, and the lines, by their numbers, that say the functions by which it is that row.
#[derive(Drop)]
pub struct PrintedRow {
    pub text: Vec<u8>,
    pub lines: Vec<u32>,
}

/// Whether a constraint is there and is an equation of a `given` line.
fn is_given_at(constraints: &[Constraint], line: u32) -> bool {
    let index = line as usize;
    index < constraints.len() && is_given_equation(&constraints[index])
}

/// All terms over closed sets, or none where they are too many.
fn few_terms(
    alloc: Global,
    closures: &Closures,
    variables: u8,
) -> Result<Vec<ClosedTerm>, AllocError>
    requires { variables ≤ most_variables }
{
    match closed_terms(alloc, closures, variables) {
        Ok(terms) => Ok(terms),
        Err(Untold::NotFound) => Ok(Vec::new(alloc)),
        Err(Untold::Memory) => Err(AllocError),
    }
}

/// The numbers of the constraints of `given` lines that say functions.
fn given_functions(alloc: Global, problem: &Problem) -> Result<Vec<u32>, AllocError> {
    let dependences = Dependences::read(alloc, problem)?;
    let elementals = count(problem.space().variables);
    let mut lines = Vec::new(alloc);
    for dependence in dependences.list() {
        if dependence.generator >= elementals {
            let line = dependence.generator - elementals;
            if is_given_at(problem.constraints(), line) {
                lines.push(line)?;
            }
        }
    }
    Ok(lines)
}

/// The length of `row` as `own_sum` writes it, None where that finds no sum.
fn own_length(
    alloc: Global,
    measures: &[Measure],
    names: &Names,
    row: &Row,
) -> Result<Option<Length>, Untold> {
    match own_sum(alloc, measures, row, names.space()) {
        Ok(found) => Ok(Some(length_of(measures, found.terms.as_slice()))),
        Err(Untold::NotFound) => Ok(None),
        Err(Untold::Memory) => Err(Untold::Memory),
    }
}

/// The text of `row` over closed sets; `NotFound` unless there is less of it to read than without them.
fn shorter_text(
    alloc: Global,
    question: &Question,
    names: &Names,
    functions: &Dependences,
    row: &Row,
) -> Result<Vec<u8>, Untold>
    requires { 1 ≤ length names.now.variables }
{
    let space = names.space();
    let measures = measures(alloc, question.source(), names)?;
    let measures = measures.as_slice();
    let closures = closures_of(alloc, functions, space.variables)?;
    let terms = few_terms(alloc, &closures, space.variables)?;
    let notation = Notation {
        closures: &closures,
        measures,
    };
    let found = closed_sum(alloc, functions, &notation, terms.as_slice(), row, space)?;
    let length = length_of(measures, found.terms.as_slice());
    if let Some(own) = own_length(alloc, measures, names, row)? {
        if !length.is_less(&own) {
            return Err(Untold::NotFound);
        }
    }
    written(alloc, measures, names, row, Ok(found))
}

/// `lines` without `line`.
fn without(alloc: Global, lines: &[u32], line: u32) -> Result<Vec<u32>, AllocError> {
    let mut others = Vec::new(alloc);
    for other in lines {
        if *other != line {
            others.push(*other)?;
        }
    }
    Ok(others)
}

/// Those of `lines` by which `text` tells `row`: each is left out in turn, and kept where the text doesn't tell the row without
/// it.
fn needed_lines(
    alloc: Global,
    names: &Names,
    problem: &Problem,
    lines: &[u32],
    row: &Row,
    text: &[u8],
) -> Result<Vec<u32>, AllocError>
    requires some { 1 ≤ length names.now.variables }
    requires space { problem.now.space ≡ record { variables = length names.now.variables; rates = length names.now.rates } }
{
    let mut needed = Vec::from_slice(alloc, lines)?;
    for line in lines {
        let others = without(alloc, needed.as_slice(), *line)?;
        if tells_under(alloc, text, names, problem, others.as_slice(), row)? {
            needed = others;
        }
    }
    Ok(needed)
}

/// `text` with those of `lines` that it needs, where it tells `row` by these.
fn printed_by(
    alloc: Global,
    names: &Names,
    problem: &Problem,
    lines: &[u32],
    row: &Row,
    text: Vec<u8>,
) -> Result<Option<PrintedRow>, AllocError>
    requires some { 1 ≤ length names.now.variables }
    requires space { problem.now.space ≡ record { variables = length names.now.variables; rates = length names.now.rates } }
    ensures { IfOk result (λ o. IfSome o (λ t. IsPrintedRowFrom names.now row.now problem.now.constraints t.lines.items t.text.items)) }
{
    let shown = text.as_slice();
    let lines = needed_lines(alloc, names, problem, lines, row, shown)?;
    let needed = lines.as_slice();
    let constraints = problem.constraints();
    if !are_given_equations(constraints, needed) {
        return Ok(None);
    }
    let tells = tells_under(alloc, shown, names, problem, needed, row)?;
    if !tells {
        return Ok(None);
    }
    Ok(Some(PrintedRow { text, lines }))
}

/// `row` in few terms by the functions that `problem` says.
fn any_printed(
    alloc: Global,
    question: &Question,
    problem: &Problem,
    row: &Row,
) -> Result<Option<PrintedRow>, Untold>
    requires space { problem.now.space ≡ space_of (problem_names question.now.body) }
    ensures { IfOk result (λ o. IfSome o (λ t. IsPrintedRowFrom (problem_names question.now.body) row.now problem.now.constraints t.lines.items t.text.items)) }
{
    let names = problem_names(question);
    let lines = given_functions(alloc, problem)?;
    let lines = lines.as_slice();
    if lines.is_empty() {
        return Ok(None);
    }
    let Some(functions) = functions_of(alloc, problem, lines)? else {
        return Ok(None);
    };
    let text = shorter_text(alloc, question, names, &functions, row)?;
    let printed = printed_by(alloc, names, problem, lines, row, text)?;
    Ok(printed)
}

/// `row` under the names of a question's problem in fewer terms, or in terms with fewer names, than `told_row` has, with the
/// `given` lines by whose functions the two are equal; rates stand on the left. None where no such text was found, so always
/// where the lines say no functions.
pub fn printed_row(
    alloc: Global,
    question: &Question,
    row: &Row,
) -> Result<Option<PrintedRow>, AllocError>
    ensures { IfOk result (λ o. IfSome o (λ t. IsPrintedRow question.now.body row.now t.lines.items t.text.items)) }
{
    let posed = problem(alloc, question)?;
    match any_printed(alloc, question, &posed, row) {
        Ok(printed) => Ok(printed),
        Err(Untold::NotFound) => Ok(None),
        Err(Untold::Memory) => Err(AllocError),
    }
}
