//! Proofs as papers print them: over closed sets, with constraints by the names of their lines.
ghost use Rattle.std.specs.Prelude.{◌≡◌, ◌≤◌, IfOk, IfSome, [], false, length};
ghost use Rattle.it_space.specs.Rows.{IsOver, value};
ghost use Rattle.it_space.specs.Spaces.{size_of};
ghost use Rattle.it_demand.specs.QuestionSpaces.{space_of};
ghost use Rattle.it_question.specs.ProblemLines.{problem_names};
ghost use Rattle.it_terms.specs.FunctionProofs.{ArePrinted};
ghost use Rattle.it_terms.specs.Proposals.{ArePrintedFrom};

use crate::closed::{Closures, closures_of};
use crate::constraints::put_side;
use crate::folding::{Notation, folded_terms, vanishes};
use crate::joining::joined_terms;
use crate::measures::measures;
use crate::names::by_comment;
use crate::proof_judging::Split;
use crate::proven::Proven;
use crate::proving::{
    Asked, Summands, goal_of, least_closed_summands, least_summands, put_weighted, sum_of_numbers,
    summed_up,
};
use crate::under::{functions_of, is_nothing_under};
use crate::under_judging::{Sides, judged_under, sides_excess};
use crate::untold::Untold;
use crate::writing::terms_text;
use it_canon::{problem, problem_names};
use it_closure::Dependences;
use it_elemental::count;
use it_fraction::signed_product;
use it_problems::Problem;
use it_question::types::Question;
use it_space::Row;
use it_syntax::types::Term;
use std::alloc::{AllocError, Global};

/// A proof as papers print it.
/// `text`: with names of constraints.
/// `whole`: with the terms of these constraints' lines instead.
/// `by`: as a comment, the lines that say the functions where it holds.
/// `lines`: these lines by their numbers.
/// `named`: the weights of the constraints that `text` names.
#[derive(Drop)]
pub struct PrintedProof {
    pub text: Vec<u8>,
    pub whole: Vec<u8>,
    pub by: Vec<u8>,
    pub lines: Vec<u32>,
    pub named: Vec<(u32, i128)>,
}

/// Adds the constraints with a weight below 0 if `negative`, else those with another weight, without constraints that are 0
/// over closed sets.
fn put_weights(
    summands: &mut Summands,
    asked: &Asked<'_>,
    closures: &Closures,
    weights: &[(u32, i128)],
    negative: bool,
) -> Result<(), Untold> {
    for weight in weights {
        let index = weight.0 as usize;
        if index >= asked.constraints.len() {
            return Err(Untold::NotFound);
        }
        let terms = asked.constraints[index].row.terms();
        if (weight.1 < 0) == negative && !vanishes(closures, terms)? {
            put_weighted(summands, asked, weight.0, weight.1)?;
        }
    }
    Ok(())
}

/// The summands over closed sets.
fn folded(
    alloc: Global,
    asked: &Asked<'_>,
    closures: &Closures,
    summands: &Summands,
) -> Result<Summands, Untold> {
    let notation = Notation {
        closures,
        measures: asked.measures,
    };
    let mut folded = Summands {
        scale: summands.scale,
        shannon: folded_terms(alloc, &notation, summands.shannon.as_slice())?,
        rest: Vec::new(alloc),
        weights: Vec::new(alloc),
    };
    put_weights(
        &mut folded,
        asked,
        closures,
        summands.weights.as_slice(),
        false,
    )?;
    put_weights(
        &mut folded,
        asked,
        closures,
        summands.weights.as_slice(),
        true,
    )?;
    Ok(folded)
}

/// The number of terms and names of a proof.
fn pieces(summands: &Summands) -> usize {
    summands
        .shannon
        .len()
        .saturating_add(summands.weights.len())
}

/// The one of `best`, a proof over closed sets, and `other`, if that was found, with fewer terms and names; `other`, over
/// closed sets, if both have as many.
fn shorter(
    alloc: Global,
    asked: &Asked<'_>,
    closures: &Closures,
    best: Summands,
    other: Result<Summands, Untold>,
) -> Result<Summands, Untold> {
    let other = match other {
        Ok(other) => folded(alloc, asked, closures, &other)?,
        Err(Untold::NotFound) => return Ok(best),
        Err(Untold::Memory) => return Err(Untold::Memory),
    };
    Ok(if pieces(&other) <= pieces(&best) {
        other
    } else {
        best
    })
}

/// The summands over closed sets, or those of a proof with the least sum of terms over sets or over closed sets, where that has
/// no more terms and names.
fn short_folded(
    alloc: Global,
    asked: &Asked<'_>,
    closures: &Closures,
    summands: &Summands,
) -> Result<Summands, Untold> {
    let plain = folded(alloc, asked, closures, summands)?;
    let joined = joined_terms(alloc, summands.shannon.as_slice())?;
    let most = sum_of_numbers(joined.as_slice());
    let least = least_summands(alloc, asked, summands.scale, most);
    let best = shorter(alloc, asked, closures, plain, least)?;
    let most = sum_of_numbers(best.shannon.as_slice());
    let least = least_closed_summands(alloc, asked, closures, best.scale, most);
    shorter(alloc, asked, closures, best, least)
}

/// The terms over sets joined without folding, where there are no functions and no constraints, and these are no more terms; else
/// `folded`.
fn unfolded(
    alloc: Global,
    dependences: &Dependences,
    summands: &Summands,
    folded: Summands,
) -> Result<Summands, Untold> {
    if !dependences.list().is_empty() || !summands.weights.is_empty() {
        return Ok(folded);
    }
    let joined = joined_terms(alloc, summands.shannon.as_slice())?;
    if joined.len() > folded.shannon.len() {
        return Ok(folded);
    }
    Ok(Summands {
        scale: summands.scale,
        shannon: joined,
        rest: Vec::new(alloc),
        weights: Vec::new(alloc),
    })
}

/// `weights` if `named`, else none.
fn names_of_weights(
    alloc: Global,
    weights: &[(u32, i128)],
    named: bool,
) -> Result<Vec<(u32, i128)>, AllocError>
    ensures { IfOk result (λ ws. named ≡ false → ws.items ≡ []) }
{
    if named {
        Vec::from_slice(alloc, weights)
    } else {
        Ok(Vec::new(alloc))
    }
}

/// The sides of a proof, with the constraints behind the terms over sets: by name if `named`, else by their own terms.
fn sides(
    alloc: Global,
    asked: &Asked<'_>,
    summands: &Summands,
    named: bool,
) -> Result<Sides, Untold>
    ensures { IfOk result (λ s. named ≡ false → s.named.items ≡ []) }
{
    let mut left = Vec::new(alloc);
    put_side(&mut left, asked.goal.terms.as_slice(), 1, summands.scale)?;
    let mut right: Vec<Term> = Vec::from_slice(alloc, summands.shannon.as_slice())?;
    let mut weights = Vec::new(alloc);
    if !named {
        right.extend_from_slice(summands.rest.as_slice())?;
        weights.extend_from_slice(summands.weights.as_slice())?;
    }
    // a side without terms is read as `0`
    let shannon = if right.is_empty() {
        1
    } else {
        summands.shannon.len()
    };
    let target = (0, signed_product(summands.scale, asked.goal.factor)?);
    let mut left_text = terms_text(alloc, asked.measures, asked.names, left.as_slice())?;
    if left_text.is_empty() {
        left_text.extend_from_slice(b"0")?;
    }
    let names = names_of_weights(alloc, summands.weights.as_slice(), named)?;
    Ok(Sides {
        left: left_text,
        right: terms_text(alloc, asked.measures, asked.names, right.as_slice())?,
        split: Split {
            shannon,
            target,
            weights,
        },
        named: names,
    })
}

/// `lines` without `line`.
fn without(alloc: Global, lines: &[u32], line: u32) -> Result<Vec<u32>, AllocError> {
    let mut others = Vec::new(alloc);
    for other in lines {
        if *other != line {
            others.push(*other)?;
        }
    }
    Ok(others)
}

/// Whether `row` is 0 where the functions hold that the constraints `lines` say.
fn is_nothing_by(alloc: Global, problem: &Problem, lines: &[u32], row: &Row) -> Result<bool, Untold>
    requires row { IsOver (size_of problem.now.space) row.now }
{
    match functions_of(alloc, problem, lines)? {
        Some(functions) => Ok(is_nothing_under(alloc, &functions, row)?),
        None => Ok(false),
    }
}

/// The numbers of the constraints that say functions.
fn function_lines(
    alloc: Global,
    dependences: &Dependences,
    elementals: u32,
) -> Result<Vec<u32>, AllocError> {
    let mut lines = Vec::new(alloc);
    for dependence in dependences.list() {
        if dependence.generator >= elementals {
            lines.push(dependence.generator - elementals)?;
        }
    }
    Ok(lines)
}

/// Those of `lines`, constraints that say functions, by which `row` is 0: each is left out in turn, and kept where the row
/// isn't 0 without it.
fn needed_lines(
    alloc: Global,
    problem: &Problem,
    lines: &[u32],
    row: &Row,
) -> Result<Vec<u32>, Untold>
    requires row { IsOver (size_of problem.now.space) row.now }
{
    let mut needed = Vec::from_slice(alloc, lines)?;
    for line in lines {
        let others = without(alloc, needed.as_slice(), *line)?;
        if is_nothing_by(alloc, problem, others.as_slice(), row)? {
            needed = others;
        }
    }
    Ok(needed)
}

/// The proof by these summands; None where their texts aren't judged to be one.
#[tactic(auto, using(crate::proofs::UnderLemmas::both_printed, crate::proofs::UnderLemmas::over_of_space))]
fn printed_by(
    alloc: Global,
    asked: &Asked<'_>,
    problem: &Problem,
    dependences: &Dependences,
    summands: &Summands,
) -> Result<Option<PrintedProof>, Untold>
    requires some { 1 ≤ length asked.now.names.now.variables }
    requires space { problem.now.space ≡ record { variables = length asked.now.names.now.variables; rates = length asked.now.names.now.rates } }
    ensures { IfOk result (λ o. IfSome o (λ t. ArePrintedFrom asked.now.names.now (value asked.now.target.now) problem.now.constraints t.lines.items t.named.items t.text.items t.whole.items t.by.items)) }
{
    let whole = sides(alloc, asked, summands, false)?;
    let named = sides(alloc, asked, summands, true)?;
    let constraints = problem.constraints();
    let row = sides_excess(alloc, asked.names, constraints, &whole)?;
    let all = function_lines(alloc, dependences, count(problem.space().variables))?;
    let lines = needed_lines(alloc, problem, all.as_slice(), &row)?;
    let by_lines = lines.as_slice();
    let Some(text) = judged_under(alloc, asked.names, problem, by_lines, asked.target, &named)?
    else {
        return Ok(None);
    };
    let Some(whole) = judged_under(alloc, asked.names, problem, by_lines, asked.target, &whole)?
    else {
        return Ok(None);
    };
    let by = by_comment(alloc, constraints, by_lines)?;
    let named = Vec::from_slice(alloc, named.named.as_slice())?;
    Ok(Some(PrintedProof {
        text,
        whole,
        by,
        lines,
        named,
    }))
}

/// The proof of a row from the constraints of `problem`, by its certificate.
fn any_printed(
    alloc: Global,
    question: &Question,
    problem: &Problem,
    proven: &Proven<'_>,
    short: bool,
) -> Result<Option<PrintedProof>, Untold>
    requires space { problem.now.space ≡ space_of (problem_names question.now.body) }
    ensures { IfOk result (λ o. IfSome o (λ t. ArePrintedFrom (problem_names question.now.body) (value proven.now.row.now) problem.now.constraints t.lines.items t.named.items t.text.items t.whole.items t.by.items)) }
{
    let names = problem_names(question);
    let measures = measures(alloc, question.source(), names)?;
    let goal = goal_of(
        alloc,
        question,
        measures.as_slice(),
        names,
        proven.row,
        proven.line,
    )?;
    let asked = Asked {
        question,
        measures: measures.as_slice(),
        names,
        target: proven.row,
        goal: &goal,
        constraints: problem.constraints(),
    };
    let summands = summed_up(alloc, &asked, proven.certificate)?;
    let dependences = Dependences::read(alloc, problem)?;
    let closures = closures_of(alloc, &dependences, names.space().variables)?;
    let folded = if short {
        short_folded(alloc, &asked, &closures, &summands)?
    } else {
        folded(alloc, &asked, &closures, &summands)?
    };
    let summands = unfolded(alloc, &dependences, &summands, folded)?;
    printed_by(alloc, &asked, problem, &dependences, &summands)
}

/// The proof of a row from the lines of a question, by its certificate, as papers print it; None where none was found. Over
/// sets that are closed under the functions that the question's `given` lines say, terms that these make 0 are left out, and
/// others are joined by the chain rules; constraints stand behind them by the names of their lines. The left side is that of
/// `told_form`. With `short`, a proof with the least sum of terms is looked for as well, which may take long.
pub fn printed_form(
    alloc: Global,
    question: &Question,
    proven: &Proven<'_>,
    short: bool,
) -> Result<Option<PrintedProof>, AllocError>
    ensures { IfOk result (λ o. IfSome o (λ t. ArePrinted question.now.body (value proven.now.row.now) t.lines.items t.named.items t.text.items t.whole.items t.by.items)) }
{
    let posed = problem(alloc, question)?;
    match any_printed(alloc, question, &posed, proven, short) {
        Ok(proof) => Ok(proof),
        Err(Untold::NotFound) => Ok(None),
        Err(Untold::Memory) => Err(AllocError),
    }
}
