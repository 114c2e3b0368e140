//! The steps of a proof where functions hold, each judged before it is returned.
ghost use Rattle.std.specs.Prelude.{◌≡◌, ◌≤◌, ◌∷◌, ◌++◌, ◌==◌, [], length, map, IfOk, IfSome};
ghost use Rattle.std.specs.Bool.{OnTrue};
ghost use Rattle.it_demand.specs.QuestionSpaces.{space_of};
ghost use Rattle.it_elemental.specs.Generators.{forms_of, of_constraint};
ghost use Rattle.it_print.specs.Lines.{origins_of};
ghost use Rattle.it_question.specs.ProblemLines.{problem_names};
ghost use Rattle.it_syntax.specs.Givens.{IsRelationOf};
ghost use Rattle.it_syntax.specs.Meaning.{relation_view};
ghost use Rattle.it_terms.specs.FunctionProofs.{named_weights, sides_text};
ghost use Rattle.it_terms.specs.StepsUnder.{ArePieceSteps, IsEquationUnder, TellsPieceSteps, TellsStepsUnder, or_zero};
ghost use Rattle.it_terms.specs.Sums.{AreReadUnder};
ghost use Rattle.it_terms.specs.Tells.{IsRelationText};

use crate::closed::closures_of;
use crate::folding::Notation;
use crate::measures::measures;
use crate::names::with_names;
use crate::pieces::{Piece, first_sum, piece_weights, right_pieces, with_piece};
use crate::steps::{Step, are_same_terms};
use crate::sums::are_allowed;
use crate::tallies::Tally;
use crate::under::{excess, functions_of, is_nothing_under};
use crate::under_judging::{is_whole_equation, named_text, sides_relation, sides_text};
use crate::untold::Untold;
use crate::writing::terms_text;
use it_canon::{problem, problem_names};
use it_closure::Dependences;
use it_problems::{Constraint, Problem};
use it_question::types::Question;
use it_syntax::Names;
use it_syntax::types::{Atom, Relation, Term};
use std::alloc::{AllocError, Global};

/// The sides of an equation as texts, without names of constraints.
#[derive(Drop)]
struct StepSides {
    left: Vec<u8>,
    right: Vec<u8>,
}

/// A problem with its names, the functions that its constraints `lines` say, and how sums are written.
#[derive(Drop)]
struct Under<'a> {
    names: &'a Names,
    problem: &'a Problem,
    functions: &'a Dependences,
    lines: &'a [u32],
    notation: &'a Notation<'a>,
}

/// A side as it is read without names: `0` if it is empty.
fn or_zero(alloc: Global, side: &[u8]) -> Result<Vec<u8>, AllocError>
    ensures { IfOk result (λ t. t.items ≡ or_zero side.now) }
{
    if side.is_empty() {
        Vec::from_slice(alloc, b"0")
    } else {
        Vec::from_slice(alloc, side)
    }
}

/// Whether `relation` with the weights `named` of constraints on its left is an equation that is true where the functions hold.
fn is_equation_under(
    alloc: Global,
    under: &Under<'_>,
    relation: &Relation,
    named: &[(u32, i128)],
) -> Result<bool, AllocError>
    requires read { AreReadUnder under.now.names.now under.now.problem.now under.now.lines.now under.now.functions.now.space under.now.functions.now.list }
    requires within { IsRelationOf under.now.problem.now.space.variables under.now.problem.now.space.rates (relation_view relation.now) }
    ensures { IfOk result (λ b. OnTrue b (IsEquationUnder under.now.problem.now.space.variables under.now.lines.now (relation_view relation.now) named.now (forms_of (map of_constraint under.now.problem.now.constraints)))) }
{
    let space = under.problem.space();
    let constraints = under.problem.constraints();
    if !is_whole_equation(relation) || !are_allowed(constraints, named) {
        return Ok(false);
    }
    let Some(row) = excess(alloc, relation, false, space, constraints, named)? else {
        return Ok(false);
    };
    let is_nothing = is_nothing_under(alloc, under.functions, &row)?;
    Ok(is_nothing)
}

/// The text of a step, with the names of constraints behind its left side.
fn step_text(
    alloc: Global,
    constraints: &[Constraint],
    sides: &StepSides,
    named: &[(u32, i128)],
) -> Result<Vec<u8>, AllocError>
    ensures { IfOk result (λ t. t.items ≡ sides_text (sides.now.left.items ++ named_weights (origins_of constraints.now) (length sides.now.left.items == 0) named.now) sides.now.right.items) }
{
    let left = with_names(alloc, sides.left.as_slice(), constraints, named)?;
    sides_text(alloc, left.as_slice(), sides.right.as_slice())
}

/// The relation that the sides of a step are without names, None where they aren't read as one.
fn step_relation(
    alloc: Global,
    names: &Names,
    sides: &StepSides,
) -> Result<Option<Relation>, AllocError>
    requires { 1 ≤ length names.now.variables }
    ensures is { IfOk result (λ o. IfSome o (λ r. IsRelationText names.now (sides_text (or_zero sides.now.left.items) sides.now.right.items) (relation_view r))) }
    ensures limits { IfOk result (λ o. IfSome o (λ r. IsRelationOf (length names.now.variables) (length names.now.rates) (relation_view r))) }
{
    let left = or_zero(alloc, sides.left.as_slice())?;
    sides_relation(alloc, names, left.as_slice(), sides.right.as_slice())
}

/// The step with these sides, where they are an equation that is true where the functions hold, with `sum` and `piece` on its
/// left; else None.
#[tactic(auto, using(crate::proofs::PieceLemmas::step_of_piece, crate::proofs::PieceLemmas::relation_read_under))]
fn judged(
    alloc: Global,
    under: &Under<'_>,
    sides: &StepSides,
    sum: &[Term],
    piece: &Piece,
) -> Result<Option<Step>, AllocError>
    requires read { AreReadUnder under.now.names.now under.now.problem.now under.now.lines.now under.now.functions.now.space under.now.functions.now.list }
    ensures { IfOk result (λ o. IfSome o (λ s. ArePieceSteps under.now.names.now (origins_of under.now.problem.now.constraints) (forms_of (map of_constraint under.now.problem.now.constraints)) under.now.lines.now sum.now (piece.now ∷ []) s.sum.items (s.text.items ∷ []))) }
{
    let Some(read) = step_relation(alloc, under.names, sides)? else {
        return Ok(None);
    };
    let left = with_piece(alloc, sum, piece)?;
    if !are_same_terms(read.left.terms.as_slice(), left.as_slice()) {
        return Ok(None);
    }
    let named = piece_weights(alloc, piece)?;
    if !is_equation_under(alloc, under, &read, named.as_slice())? {
        return Ok(None);
    }
    let constraints = under.problem.constraints();
    let text = step_text(alloc, constraints, sides, named.as_slice())?;
    let sum = Vec::from_slice(alloc, read.right.terms.as_slice())?;
    Ok(Some(Step { text, sum }))
}

/// Adds a piece to a sum over closed sets.
fn add_piece(tally: &mut Tally, under: &Under<'_>, piece: &Piece) -> Result<(), Untold> {
    match piece {
        Piece::Summand(term) => tally.add_term(under.notation.closures, under.names.space(), term),
        Piece::Named((line, times)) => {
            let constraints = under.problem.constraints();
            let index = *line as usize;
            if index >= constraints.len() {
                return Err(Untold::NotFound);
            }
            tally.add_terms(
                under.notation.closures,
                constraints[index].row.terms(),
                *times,
            )
        }
    }
}

/// Whether a sum is the one that `0` is read as.
fn is_zero(sum: &[Term]) -> bool {
    match sum {
        [term] => term.atom == Atom::Nothing,
        _ => false,
    }
}

/// The left side of a step: `sum` and then the term of `piece`; empty where the sum is `0` and the piece a constraint.
fn left_text(
    alloc: Global,
    under: &Under<'_>,
    sum: &[Term],
    piece: &Piece,
) -> Result<Vec<u8>, AllocError> {
    match piece {
        Piece::Named(_) if is_zero(sum) => Ok(Vec::new(alloc)),
        _ => {
            let terms = with_piece(alloc, sum, piece)?;
            terms_text(
                alloc,
                under.notation.measures,
                under.names,
                terms.as_slice(),
            )
        }
    }
}

/// The sides of the step that adds `piece` to `sum`. On the right side is `total`, if given, as in the last step; else the sum
/// of `tally`, to which the piece is added first.
fn step_sides(
    alloc: Global,
    under: &Under<'_>,
    tally: &mut Tally,
    sum: &[Term],
    piece: &Piece,
    total: Option<&[u8]>,
) -> Result<StepSides, Untold> {
    add_piece(tally, under, piece)?;
    let left = left_text(alloc, under, sum, piece)?;
    let right = match total {
        Some(total) => Vec::from_slice(alloc, total)?,
        None => {
            let space = under.names.space();
            let terms = tally.terms(alloc, under.notation, space)?;
            let text = terms_text(
                alloc,
                under.notation.measures,
                under.names,
                terms.as_slice(),
            )?;
            or_zero(alloc, text.as_slice())?
        }
    };
    Ok(StepSides { left, right })
}

/// The step that adds `piece` to `sum`, None where it isn't found.
fn next_step(
    alloc: Global,
    under: &Under<'_>,
    tally: &mut Tally,
    sum: &[Term],
    piece: &Piece,
    total: Option<&[u8]>,
) -> Result<Option<Step>, AllocError>
    requires read { AreReadUnder under.now.names.now under.now.problem.now under.now.lines.now under.now.functions.now.space under.now.functions.now.list }
    ensures { IfOk result (λ o. IfSome o (λ s. ArePieceSteps under.now.names.now (origins_of under.now.problem.now.constraints) (forms_of (map of_constraint under.now.problem.now.constraints)) under.now.lines.now sum.now (piece.now ∷ []) s.sum.items (s.text.items ∷ []))) }
{
    match step_sides(alloc, under, tally, sum, piece, total) {
        Ok(sides) => judged(alloc, under, &sides, sum, piece),
        Err(Untold::NotFound) => Ok(None),
        Err(Untold::Memory) => Err(AllocError),
    }
}

/// The lines of the steps from `first`, by `pieces`, to `total`, whose text is `total_text`; None where one isn't found.
fn piece_steps(
    alloc: Global,
    under: &Under<'_>,
    first: &[Term],
    pieces: &[Piece],
    total: &[Term],
    total_text: &[u8],
) -> Result<Option<Vec<Vec<u8>>>, AllocError>
    requires read { AreReadUnder under.now.names.now under.now.problem.now under.now.lines.now under.now.functions.now.space under.now.functions.now.list }
    ensures { IfOk result (λ o. IfSome o (λ lines. ArePieceSteps under.now.names.now (origins_of under.now.problem.now.constraints) (forms_of (map of_constraint under.now.problem.now.constraints)) under.now.lines.now first.now pieces.now total.now (map (λ line. line.items) lines.items))) }
{
    let mut tally = Tally::nothing(alloc, under.names.space())?;
    let mut lines = Vec::new(alloc);
    let mut sum = Vec::from_slice(alloc, first)?;
    for (i, piece) in pieces.iter().enumerate() {
        let last = (i + 1 == pieces.len()).then_some(total_text);
        match next_step(alloc, under, &mut tally, sum.as_slice(), piece, last)? {
            Some(step) => {
                lines.push(step.text)?;
                sum = step.sum;
            }
            None => return Ok(None),
        }
    }
    if are_same_terms(sum.as_slice(), total) {
        Ok(Some(lines))
    } else {
        Ok(None)
    }
}

/// The index of the first ` = ` of a text, the text's length if there is none.
fn place_of_equals(text: &[u8]) -> usize {
    for at in 0..text.len() {
        if text[at..].starts_with(b" = ") {
            return at;
        }
    }
    text.len()
}

/// The sides of a proof, the right one without the names of constraints with the weights `named` at its end.
fn proof_sides(
    alloc: Global,
    constraints: &[Constraint],
    proof: &[u8],
    named: &[(u32, i128)],
) -> Result<StepSides, AllocError> {
    let at = place_of_equals(proof).min(proof.len());
    let left = Vec::from_slice(alloc, &proof[..at])?;
    let right = &proof[at.saturating_add(3).min(proof.len())..];
    let zero = with_names(alloc, b"0", constraints, named)?;
    let names = &zero.as_slice()[1..];
    let right = if right.len() > names.len() && right.ends_with(names) {
        Vec::from_slice(alloc, &right[..right.len() - names.len()])?
    } else {
        Vec::new(alloc)
    };
    Ok(StepSides { left, right })
}

/// Whether two texts are equal.
fn is_same_text(text: &[u8], other: &[u8]) -> bool
    ensures { OnTrue result (text.now ≡ other.now) }
{
    text == other
}

/// The steps of a proof that names constraints with the weights `named`.
#[tactic(auto, using(crate::proofs::PieceLemmas::steps_of_proof))]
fn told_pieces(
    alloc: Global,
    under: &Under<'_>,
    proof: &[u8],
    named: &[(u32, i128)],
) -> Result<Option<Vec<Vec<u8>>>, AllocError>
    requires read { AreReadUnder under.now.names.now under.now.problem.now under.now.lines.now under.now.functions.now.space under.now.functions.now.list }
    ensures { IfOk result (λ o. IfSome o (λ lines. TellsPieceSteps under.now.names.now (origins_of under.now.problem.now.constraints) (forms_of (map of_constraint under.now.problem.now.constraints)) under.now.lines.now named.now proof.now (map (λ line. line.items) lines.items))) }
{
    let constraints = under.problem.constraints();
    let sides = proof_sides(alloc, constraints, proof, named)?;
    let left = sides.left.as_slice();
    let right = sides.right.as_slice();
    let Some(read) = sides_relation(alloc, under.names, left, right)? else {
        return Ok(None);
    };
    let text = named_text(alloc, constraints, left, right, named)?;
    if !is_same_text(text.as_slice(), proof) {
        return Ok(None);
    }
    let terms = read.right.terms.as_slice();
    let pieces = right_pieces(alloc, right, terms, named)?;
    if pieces.len() < 2 {
        return Ok(None);
    }
    let first = first_sum(right, terms);
    let total = read.left.terms.as_slice();
    let Some(steps) = piece_steps(alloc, under, first, pieces.as_slice(), total, left)? else {
        return Ok(None);
    };
    Ok(Some(steps))
}

/// The steps of a proof from the constraints of `problem`, where the functions hold that its constraints `lines` say.
#[tactic(auto, using(crate::proofs::PieceLemmas::read_under))]
fn steps_from(
    alloc: Global,
    question: &Question,
    problem: &Problem,
    proof: &[u8],
    lines: &[u32],
    named: &[(u32, i128)],
) -> Result<Option<Vec<Vec<u8>>>, AllocError>
    requires space { problem.now.space ≡ space_of (problem_names question.now.body) }
    ensures { IfOk result (λ o. IfSome o (λ steps. TellsPieceSteps (problem_names question.now.body) (origins_of problem.now.constraints) (forms_of (map of_constraint problem.now.constraints)) lines.now named.now proof.now (map (λ step. step.items) steps.items))) }
{
    let names = problem_names(question);
    let Some(functions) = functions_of(alloc, problem, lines)? else {
        return Ok(None);
    };
    let measures = measures(alloc, question.source(), names)?;
    let closures = closures_of(alloc, &functions, names.space().variables)?;
    let notation = Notation {
        closures: &closures,
        measures: measures.as_slice(),
    };
    let under = Under {
        names,
        problem,
        functions: &functions,
        lines,
        notation: &notation,
    };
    told_pieces(alloc, &under, proof, named)
}

/// The steps of a proof that `printed_form` gave of a question, one line for each: the sum of the pieces on its right side, one
/// more piece in each line, up to its left side; a piece is a term, or a constraint by the name of its line. Each sum is told
/// in joint entropies of sets that are closed under the functions that the lines of the numbers `lines` say. None where a step
/// isn't found, or the proof has fewer than two pieces.
pub fn printed_steps(
    alloc: Global,
    question: &Question,
    proof: &[u8],
    lines: &[u32],
    named: &[(u32, i128)],
) -> Result<Option<Vec<Vec<u8>>>, AllocError>
    ensures { IfOk result (λ o. IfSome o (λ steps. TellsStepsUnder question.now.body lines.now named.now proof.now (map (λ step. step.items) steps.items))) }
{
    let posed = problem(alloc, question)?;
    let steps = steps_from(alloc, question, &posed, proof, lines, named)?;
    Ok(steps)
}
