//! The line of a proof, judged before it is returned.
ghost use Rattle.std.specs.Prelude.{◌≤◌, ◌<◌, IfOk, IfSome, length};
ghost use Rattle.it_space.specs.Rows.{value};
ghost use Rattle.it_polymatroid.specs.Elementals.{elementals};
ghost use Rattle.it_terms.specs.Proposals.{MayProve};
ghost use Rattle.it_terms.specs.Proofs.{TellsForm};
ghost use Rattle.it_space.specs.Spaces.{most_variables};

use crate::closed::Closures;
use crate::constraints::{put_constraint, put_relation, put_side};
use crate::drafts::row_terms;
use crate::finding::{joint_sum, own_sum};
use crate::joining::{add_term, joined_terms};
use crate::judging::is_same;
use crate::measures::{Measure, measures};
use crate::proof_judging::{Proposal, Split, tells_proof};
use crate::proven::Proven;
use crate::reading::relation_text;
use crate::shortest::{LeastSum, Multiple, shortest, shortest_closed};
use crate::untold::Untold;
use crate::writing::sums_text;
use it_canon::{problem, problem_names, target_rows};
use it_elemental::{Elemental, count, parts};
use it_fraction::signed_product;
use it_problems::Constraint;
use it_question::types::{Question, Verb};
use it_space::{Certificate, Row, VarSet};
use it_syntax::Names;
use it_syntax::types::{Atom, Relation, Sign, Term};
use std::alloc::{AllocError, Global};

/// Terms whose sum is `factor` times a target.
pub struct Goal {
    pub terms: Vec<Term>,
    pub factor: i128,
}

impl Drop for Goal {
    fn drop(self) {
        let Goal {
            terms: _,
            factor: _,
        } = self;
    }
}

/// What a proof of `scale` times its goal sums up: terms over sets, the terms of constraints, and the weights of these.
pub struct Summands {
    pub scale: i128,
    pub shannon: Vec<Term>,
    pub rest: Vec<Term>,
    pub weights: Vec<(u32, i128)>,
}

impl Drop for Summands {
    fn drop(self) {
        let Summands {
            scale: _,
            shannon: _,
            rest: _,
            weights: _,
        } = self;
    }
}

/// What has to be proved and what may be used: a target, its terms, the constraints of the question's problem, and how these
/// are written.
#[derive(Drop)]
pub struct Asked<'a> {
    pub question: &'a Question,
    pub measures: &'a [Measure],
    pub names: &'a Names,
    pub target: &'a Row,
    pub goal: &'a Goal,
    pub constraints: &'a [Constraint],
}

/// The set of one variable.
fn variable(i: u8) -> VarSet {
    if i < 16 {
        VarSet::single(i)
    } else {
        VarSet::empty()
    }
}

/// Elemental inequality `index` of `n` variables as an atom.
fn elemental_atom(n: u8, index: u32) -> Atom
    requires some { 1 ≤ n }
    requires few { n ≤ most_variables }
    requires listed { index < length (elementals n) }
{
    match parts(n, index) {
        Elemental::Conditional { of } => {
            let of = variable(of);
            let given = VarSet::from_number(((1u32 << n) - 1) as u16).minus(of);
            Atom::Entropy { of, given }
        }
        Elemental::Mutual { left, right, given } => Atom::Mutual {
            left: variable(left),
            right: variable(right),
            given,
        },
    }
}

/// Adds `times` times the constraint with index `index`: its terms, and its weight.
pub fn put_weighted(
    summands: &mut Summands,
    asked: &Asked<'_>,
    index: u32,
    times: i128,
) -> Result<(), Untold> {
    if index as usize >= asked.constraints.len() {
        return Err(Untold::NotFound);
    }
    let origin = asked.constraints[index as usize].origin;
    put_constraint(&mut summands.rest, asked.question, origin, times)?;
    summands.weights.push((index, times))?;
    Ok(())
}

/// What a certificate sums up, times the factor of the goal.
pub fn summed_up(
    alloc: Global,
    asked: &Asked<'_>,
    certificate: &Certificate,
) -> Result<Summands, Untold>
    requires { 1 ≤ length asked.now.names.now.variables }
{
    let mut summands = Summands {
        scale: certificate.scale,
        shannon: Vec::new(alloc),
        rest: Vec::new(alloc),
        weights: Vec::new(alloc),
    };
    let n = asked.names.space().variables;
    let elementals = count(n);
    for weight in certificate.weights.as_slice() {
        let times = signed_product(weight.1, asked.goal.factor)?;
        if weight.0 < elementals {
            let number = u64::try_from(times)?;
            add_term(&mut summands.shannon, number, elemental_atom(n, weight.0))?;
        } else {
            put_weighted(&mut summands, asked, weight.0 - elementals, times)?;
        }
    }
    Ok(summands)
}

/// The text of the equation of `summands.scale` times the goal and the sum of `shannon` and the terms of constraints.
fn equation_text(
    alloc: Global,
    asked: &Asked<'_>,
    shannon: &[Term],
    summands: &Summands,
) -> Result<Vec<u8>, Untold> {
    let mut left = Vec::new(alloc);
    put_side(&mut left, asked.goal.terms.as_slice(), 1, summands.scale)?;
    let mut right = Vec::from_slice(alloc, shannon)?;
    right.extend_from_slice(summands.rest.as_slice())?;
    Ok(sums_text(
        alloc,
        asked.measures,
        asked.names,
        left.as_slice(),
        Sign::Equal,
        right.as_slice(),
    )?)
}

/// The proposal of a proof with the terms `shannon` over sets.
fn proposal(
    alloc: Global,
    asked: &Asked<'_>,
    shannon: &[Term],
    summands: &Summands,
) -> Result<Proposal, Untold> {
    let target = (0, signed_product(summands.scale, asked.goal.factor)?);
    let text = equation_text(alloc, asked, shannon, summands)?;
    let weights = Vec::from_slice(alloc, summands.weights.as_slice())?;
    // a side without terms is written and read as `0`
    let is_empty = shannon.is_empty() && summands.rest.is_empty();
    let shannon = if is_empty { 1 } else { shannon.len() };
    Ok(Proposal {
        text,
        split: Split {
            shannon,
            target,
            weights,
        },
    })
}

/// The text of the equation with the terms `shannon` over sets, where it tells a proof of the target.
fn judged(
    alloc: Global,
    asked: &Asked<'_>,
    shannon: &[Term],
    summands: &Summands,
) -> Result<Option<Vec<u8>>, Untold>
    requires { 1 ≤ length asked.now.names.now.variables }
    ensures { IfOk result (MayProve asked.now.names.now asked.now.target.now asked.now.constraints.now) }
{
    let proposal = proposal(alloc, asked, shannon, summands)?;
    if tells_proof(
        alloc,
        asked.names,
        asked.target,
        asked.constraints,
        &proposal,
    )? {
        Ok(Some(proposal.text))
    } else {
        Ok(None)
    }
}

/// The text of a proof by these summands: with the terms over sets joined, else with each by itself.
fn proof_by(
    alloc: Global,
    asked: &Asked<'_>,
    summands: &Summands,
) -> Result<Option<Vec<u8>>, Untold>
    requires { 1 ≤ length asked.now.names.now.variables }
    ensures { IfOk result (MayProve asked.now.names.now asked.now.target.now asked.now.constraints.now) }
{
    let single = summands.shannon.as_slice();
    let joined = joined_terms(alloc, single)?;
    if let Some(text) = judged(alloc, asked, joined.as_slice(), summands)? {
        return Ok(Some(text));
    }
    judged(alloc, asked, single, summands)
}

/// The sum of the numbers of terms.
pub fn sum_of_numbers(terms: &[Term]) -> i128 {
    let mut sum: i128 = 0;
    for term in terms {
        sum = sum.saturating_add(term.number as i128);
    }
    sum
}

/// `scale` copies of the goal, as a multiple of the target's row.
fn multiple_of_goal<'a>(asked: &Asked<'a>, scale: i128) -> Result<Multiple<'a>, Untold> {
    if asked.goal.factor <= 0 {
        return Err(Untold::NotFound);
    }
    Ok(Multiple {
        target: asked.target,
        scale: signed_product(scale, asked.goal.factor)?,
    })
}

/// The summands of a proof with the least sum of terms.
fn summands_of(alloc: Global, asked: &Asked<'_>, least: &LeastSum) -> Result<Summands, Untold> {
    let mut summands = Summands {
        scale: least.scale / asked.goal.factor.max(1),
        shannon: Vec::from_slice(alloc, least.terms.as_slice())?,
        rest: Vec::new(alloc),
        weights: Vec::new(alloc),
    };
    for weight in least.weights.as_slice() {
        put_weighted(&mut summands, asked, weight.0, weight.1)?;
    }
    Ok(summands)
}

/// The summands of a proof with the least sum of terms over sets. For `scale` times the goal that sum is at most `most`.
pub fn least_summands(
    alloc: Global,
    asked: &Asked<'_>,
    scale: i128,
    most: i128,
) -> Result<Summands, Untold> {
    let multiple = multiple_of_goal(asked, scale)?;
    let space = asked.names.space();
    let least = shortest(alloc, space, asked.constraints, &multiple, most)?;
    summands_of(alloc, asked, &least)
}

/// Like `least_summands`, with terms over closed sets.
pub fn least_closed_summands(
    alloc: Global,
    asked: &Asked<'_>,
    closures: &Closures,
    scale: i128,
    most: i128,
) -> Result<Summands, Untold> {
    let multiple = multiple_of_goal(asked, scale)?;
    let space = asked.names.space();
    let least = shortest_closed(alloc, closures, space, asked.constraints, &multiple, most)?;
    summands_of(alloc, asked, &least)
}

/// The text of a proof with the least sum of terms over sets, where one is found whose sum is at most that of `summands`.
fn least_proof(
    alloc: Global,
    asked: &Asked<'_>,
    summands: &Summands,
) -> Result<Option<Vec<u8>>, Untold>
    requires { 1 ≤ length asked.now.names.now.variables }
    ensures { IfOk result (MayProve asked.now.names.now asked.now.target.now asked.now.constraints.now) }
{
    let terms = joined_terms(alloc, summands.shannon.as_slice())?;
    let most = sum_of_numbers(terms.as_slice());
    let least = least_summands(alloc, asked, summands.scale, most)?;
    proof_by(alloc, asked, &least)
}

/// `row` as a goal, in measures where it is a sum of these, else in joint entropies.
fn row_goal(alloc: Global, measures: &[Measure], names: &Names, row: &Row) -> Result<Goal, Untold> {
    let space = names.space();
    let found = match own_sum(alloc, measures, row, space) {
        Ok(found) => found,
        Err(Untold::NotFound) => joint_sum(alloc, row, space)?,
        Err(Untold::Memory) => return Err(Untold::Memory),
    };
    let terms = row_terms(alloc, row, &found, space)?;
    Ok(Goal {
        terms,
        factor: found.scale,
    })
}

/// Target `target` of a relation, counted from 0, as a goal in the relation's own terms.
fn relation_goal(alloc: Global, relation: &Relation, target: usize) -> Result<Goal, Untold> {
    let mut terms = Vec::new(alloc);
    put_relation(&mut terms, relation, if target == 1 { -1 } else { 1 })?;
    Ok(Goal { terms, factor: 1 })
}

/// The index of the first of `rows` that is equal to `row`.
fn place_of(rows: &[Row], row: &Row) -> Option<usize> {
    for (i, other) in rows.iter().enumerate() {
        if is_same(other, row) {
            return Some(i);
        }
    }
    None
}

/// `row` as a goal in the terms of `line`; None where that isn't read as a relation of which it is the row of a target.
fn line_goal(alloc: Global, line: &[u8], names: &Names, row: &Row) -> Result<Option<Goal>, Untold>
    requires { 1 ≤ length names.now.variables }
{
    let Some(relation) = relation_text(alloc, line, names)? else {
        return Ok(None);
    };
    let targets = target_rows(alloc, &relation, names.space())?;
    match place_of(targets.as_slice(), row) {
        Some(place) => Ok(Some(relation_goal(alloc, &relation, place)?)),
        None => Ok(None),
    }
}

/// `row` as a goal: in the terms of the relation that the question asks for, or of `line`, where it is the row of one of their
/// targets; else in measures, or in joint entropies.
pub fn goal_of(
    alloc: Global,
    question: &Question,
    measures: &[Measure],
    names: &Names,
    row: &Row,
    line: Option<&[u8]>,
) -> Result<Goal, Untold>
    requires some { 1 ≤ length names.now.variables }
{
    if let Verb::Prove(relation) = question.verb() {
        let targets = target_rows(alloc, relation, question.space())?;
        if let Some(place) = place_of(targets.as_slice(), row) {
            return relation_goal(alloc, relation, place);
        }
    }
    if let Some(line) = line {
        if let Some(goal) = line_goal(alloc, line, names, row)? {
            return Ok(goal);
        }
    }
    row_goal(alloc, measures, names, row)
}

/// The text of a proof by a certificate; with `short` the one with the least sum is tried first.
fn any_proof(
    alloc: Global,
    question: &Question,
    names: &Names,
    constraints: &[Constraint],
    proven: &Proven<'_>,
    short: bool,
) -> Result<Option<Vec<u8>>, Untold>
    requires some { 1 ≤ length names.now.variables }
    ensures { IfOk result (MayProve names.now proven.now.row.now constraints.now) }
{
    let measures = measures(alloc, question.source(), names)?;
    let goal = goal_of(
        alloc,
        question,
        measures.as_slice(),
        names,
        proven.row,
        proven.line,
    )?;
    let asked = Asked {
        question,
        measures: measures.as_slice(),
        names,
        target: proven.row,
        goal: &goal,
        constraints,
    };
    let summands = summed_up(alloc, &asked, proven.certificate)?;
    if short {
        match least_proof(alloc, &asked, &summands) {
            Ok(None) | Err(Untold::NotFound) => {}
            told => return told,
        }
    }
    proof_by(alloc, &asked, &summands)
}

/// The text of the proof of a row from the lines of a question, by its certificate: an equation between a multiple of the
/// row and a sum of terms over sets and of multiples of the question's constraints; None where none was found. On its left
/// are the terms of the question's relation or of the row's line, where the row is that of one of their targets. With `short`, one with the least
/// sum of terms over sets is looked for first, which may take long.
pub fn told_form(
    alloc: Global,
    question: &Question,
    proven: &Proven<'_>,
    short: bool,
) -> Result<Option<Vec<u8>>, AllocError>
    ensures { IfOk result (λ o. IfSome o (λ text. TellsForm question.now.body (value proven.now.row.now) text.items)) }
{
    let names = problem_names(question);
    let posed = problem(alloc, question)?;
    let constraints = posed.constraints();
    match any_proof(alloc, question, names, constraints, proven, short) {
        Ok(text) => Ok(text),
        Err(Untold::NotFound) => Ok(None),
        Err(Untold::Memory) => Err(AllocError),
    }
}
