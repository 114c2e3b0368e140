//! The steps of a proof, each judged before it is returned.
ghost use Rattle.std.specs.Prelude.{◌≡◌, ◌≤◌, ◌++◌, ◌∷◌, [], length, map, IfOk, IfSome};
ghost use Rattle.std.specs.Bool.{OnTrue};
ghost use Rattle.it_syntax.specs.Meaning.{relation_view};
ghost use Rattle.it_question.specs.ProblemLines.{problem_names};
ghost use Rattle.it_terms.specs.ProofSteps.{AreStepTexts, TellsSteps, AreEquationSteps};
ghost use Rattle.it_space.specs.Spaces.{most_variables};

use crate::drafts::row_terms;
use crate::equations::equation;
use crate::finding::{Found, joint_sum, own_sum};
use crate::measures::{Measure, measures};
use crate::reading::relation_text;
use crate::untold::Untold;
use crate::writing::sums_text;
use it_canon::{canon, problem_names};
use it_question::types::Question;
use it_space::{Row, Space};
use it_syntax::Names;
use it_syntax::types::{Relation, Sign, Term};
use std::alloc::{AllocError, Global};

/// The line of a step, and the sum after it.
#[derive(Drop)]
pub struct Step {
    pub text: Vec<u8>,
    pub sum: Vec<Term>,
}

/// Whether two terms are equal.
fn is_same_term(term: &Term, other: &Term) -> bool
    ensures { OnTrue result (term.now ≡ other.now) }
{
    *term == *other
}

/// Whether two sums have the same terms in the same order.
pub fn are_same_terms(terms: &[Term], others: &[Term]) -> bool
    ensures { OnTrue result (terms.now ≡ others.now) }
{
    if terms.len() != others.len() {
        return false;
    }
    for i in 0..terms.len() {
        if !is_same_term(&terms[i], &others[i]) {
            return false;
        }
    }
    true
}

/// `sum` with `term` after it.
fn with_term(alloc: Global, sum: &[Term], term: &Term) -> Result<Vec<Term>, AllocError>
    ensures { IfOk result (λ v. v.items ≡ sum.now ++ term.now ∷ []) }
{
    let mut terms = Vec::from_slice(alloc, sum)?;
    terms.push(*term)?;
    Ok(terms)
}

/// The row of a sum: that of the text which says the sum to be at least 0.
fn row_of(alloc: Global, measures: &[Measure], names: &Names, sum: &[Term]) -> Result<Row, Untold>
    requires { 1 ≤ length names.now.variables }
{
    let text = sums_text(alloc, measures, names, sum, Sign::AtLeast, &[])?;
    match relation_text(alloc, text.as_slice(), names)? {
        Some(relation) => Ok(canon(alloc, &relation, names.space())?),
        None => Err(Untold::NotFound),
    }
}

/// A sum equal to the part of `row` over sets: of the question's own measures if it is one with whole numbers, else of joint
/// entropies.
fn whole_sum(alloc: Global, measures: &[Measure], row: &Row, space: Space) -> Result<Found, Untold>
    requires { space.variables ≤ most_variables }
{
    match own_sum(alloc, measures, row, space) {
        Ok(found) => {
            if found.scale == 1 {
                Ok(found)
            } else {
                joint_sum(alloc, row, space)
            }
        }
        Err(Untold::NotFound) => joint_sum(alloc, row, space),
        Err(Untold::Memory) => Err(Untold::Memory),
    }
}

/// Terms with the same sum as `sum`, as few as were found.
fn short_sum(
    alloc: Global,
    measures: &[Measure],
    names: &Names,
    sum: &[Term],
) -> Result<Vec<Term>, Untold>
    requires { 1 ≤ length names.now.variables }
{
    let row = row_of(alloc, measures, names, sum)?;
    let space = names.space();
    let found = whole_sum(alloc, measures, &row, space)?;
    row_terms(alloc, &row, &found, space)
}

/// The text of a step with `left` on its left side; on its right side is `total`, which the last step alone has, else a short
/// form of the left side.
fn step_text(
    alloc: Global,
    measures: &[Measure],
    names: &Names,
    left: &[Term],
    total: Option<&[Term]>,
) -> Result<Vec<u8>, Untold>
    requires { 1 ≤ length names.now.variables }
{
    if let Some(total) = total {
        return Ok(sums_text(alloc, measures, names, left, Sign::Equal, total)?);
    }
    let right = short_sum(alloc, measures, names, left)?;
    Ok(sums_text(alloc, measures, names, left, Sign::Equal, right.as_slice())?)
}

/// `text` as a step, where it is an equation that is true of every map, with `sum` and `term` on its left.
fn judged(
    alloc: Global,
    names: &Names,
    text: Vec<u8>,
    sum: &[Term],
    term: &Term,
) -> Result<Option<Step>, AllocError>
    requires { 1 ≤ length names.now.variables }
    ensures { IfOk result (λ o. IfSome o (λ s. AreStepTexts names.now sum.now (term.now ∷ []) s.sum.items (s.text.items ∷ []))) }
{
    let left = with_term(alloc, sum, term)?;
    let Some(read) = equation(alloc, text.as_slice(), names)? else {
        return Ok(None);
    };
    let right = read.right.terms.as_slice();
    if are_same_terms(read.left.terms.as_slice(), left.as_slice()) {
        let after = Vec::from_slice(alloc, right)?;
        Ok(Some(Step { text, sum: after }))
    } else {
        Ok(None)
    }
}

/// The step that adds `term` to `sum`, None where it isn't found.
fn next_step(
    alloc: Global,
    measures: &[Measure],
    names: &Names,
    sum: &[Term],
    term: &Term,
    total: Option<&[Term]>,
) -> Result<Option<Step>, AllocError>
    requires { 1 ≤ length names.now.variables }
    ensures { IfOk result (λ o. IfSome o (λ s. AreStepTexts names.now sum.now (term.now ∷ []) s.sum.items (s.text.items ∷ []))) }
{
    let left = with_term(alloc, sum, term)?;
    match step_text(alloc, measures, names, left.as_slice(), total) {
        Ok(text) => judged(alloc, names, text, sum, term),
        Err(Untold::NotFound) => Ok(None),
        Err(Untold::Memory) => Err(AllocError),
    }
}

/// The lines of the steps from `first`, by `terms`, to `total`; None where one isn't found.
fn step_texts(
    alloc: Global,
    measures: &[Measure],
    names: &Names,
    first: &[Term],
    terms: &[Term],
    total: &[Term],
) -> Result<Option<Vec<Vec<u8>>>, AllocError>
    requires { 1 ≤ length names.now.variables }
    ensures { IfOk result (λ o. IfSome o (λ lines. AreStepTexts names.now first.now terms.now total.now (map (λ line. line.items) lines.items))) }
{
    let mut lines = Vec::new(alloc);
    let mut sum = Vec::from_slice(alloc, first)?;
    for (i, term) in terms.iter().enumerate() {
        let last = (i + 1 == terms.len()).then_some(total);
        match next_step(alloc, measures, names, sum.as_slice(), term, last)? {
            Some(step) => {
                lines.push(step.text)?;
                sum = step.sum;
            }
            None => return Ok(None),
        }
    }
    if are_same_terms(sum.as_slice(), total) {
        Ok(Some(lines))
    } else {
        Ok(None)
    }
}

/// The lines of the steps of an equation, from the first term on its right side to its left side.
fn equation_steps(
    alloc: Global,
    measures: &[Measure],
    names: &Names,
    equation: &Relation,
) -> Result<Option<Vec<Vec<u8>>>, AllocError>
    requires { 1 ≤ length names.now.variables }
    ensures { IfOk result (λ o. IfSome o (λ lines. AreEquationSteps names.now (relation_view equation.now) (map (λ line. line.items) lines.items))) }
{
    let right = equation.right.terms.as_slice();
    if right.is_empty() {
        return Ok(None);
    }
    let (first, terms) = right.split_at(1);
    step_texts(
        alloc,
        measures,
        names,
        first,
        terms,
        equation.left.terms.as_slice(),
    )
}

/// The steps of a proof that `told_form` told of a question, one line for each: the sum of the terms on its right side, one
/// more term in each line, up to its left side. Each line may stand after the word `prove`. None where a step isn't found.
pub fn told_steps(
    alloc: Global,
    question: &Question,
    proof: &[u8],
) -> Result<Option<Vec<Vec<u8>>>, AllocError>
    ensures { IfOk result (λ o. IfSome o (λ lines. TellsSteps (problem_names question.now.body) proof.now (map (λ line. line.items) lines.items))) }
{
    let names = problem_names(question);
    let Some(equation) = equation(alloc, proof, names)? else {
        return Ok(None);
    };
    let measures = measures(alloc, question.source(), names)?;
    equation_steps(alloc, measures.as_slice(), names, &equation)
}
