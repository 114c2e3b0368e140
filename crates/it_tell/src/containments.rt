//! The lines below the first one of a containment: the proofs of its obligations, each under its line of the second region.
ghost use Rattle.std.specs.Prelude.{◌≡◌, ◌≤◌, ◌<◌, ◌++◌, length, map, codes, All, IfOk, OnOk, [], drop, slice_index_or, true, if◌then◌else◌, ◌==◌};
ghost use Rattle.std.specs.Bool.{OnTrue};
ghost use Rattle.it_space.specs.Answers.{certificate_view};
ghost use Rattle.it_space.specs.Rows.{IsOver, value};
ghost use Rattle.it_space.specs.Spaces.{size_of};
ghost use Rattle.it_question.specs.ProblemLines.{problem_names};
ghost use Rattle.it_canon.specs.TrueLines.{variable_count};
ghost use Rattle.it_canon.specs.QuestionDemands.{question_origins};
ghost use Rattle.it_certificate.specs.AnswerShapes.{HasQuestionShape};
ghost use Rattle.it_print.specs.Lines.{AreListed, auxiliary_names, origins_of, part_for, set_text};
ghost use Rattle.it_region.specs.Pairs.{IsContainment};
ghost use Rattle.it_tell.specs.OwnLines.{own_line_comment, relation_part, sets_with, with_text};
ghost use Rattle.it_tell.specs.Steps.{AppendsDetails, AppendsEachOwnLine, AppendsObligation, AppendsOwnLine, AppendsOwnProofs, AreObligations, AreOwnConstraints, HasObligations, IsFreeProblem, IsListed, SaysOrNothing, certificates_of, contained_by, obliged, proven_form};
ghost use Rattle.it_tell.specs.Tellings.{IsByShannon};

use crate::details::{Asked, write_indented, write_proof, write_proofs};
use crate::settings::{Options, is_plain};
use it_canon::{problem_names, region_lines};
use it_check::{Verdict, check_yes};
use it_print::{write_origin, write_set};
use it_problems::{Constraint, Kind, Origin, Problem};
use it_question::types::{Question, Verb};
use it_region::{candidate, obligations, pair};
use it_space::{Certificate, Row, VarSet};
use it_syntax::Names;
use it_terms::{Proven, told_line};
use std::alloc::{AllocError, Global};

/// A containment question, the options of its telling, the constraints of its problem, and the sets for the second region's
/// auxiliary variables.
#[derive(Clone, Copy)]
pub struct Containment<'a> {
    pub question: &'a Question,
    pub options: Options,
    pub constraints: &'a [Constraint],
    pub parts: &'a [VarSet],
}

/// The rows of obligations, and the certificates that prove them, in the same order.
#[derive(Clone, Copy)]
struct Obligations<'a> {
    rows: &'a [Row],
    proofs: &'a [Certificate],
}

/// The constraints of the second region's own lines; these alone are counted.
fn own_constraints(alloc: Global, question: &Question) -> Result<Vec<Constraint>, AllocError>
    requires contains { IsContainment question.now.body.verb }
    ensures { IfOk result (λ cs. AreOwnConstraints question.now.body cs.items) }
{
    let Verb::Contain { second, .. } = question.verb() else {
        unreachable!()
    };
    let space = second.space();
    let own = region_lines(alloc, second, 1, 1, space)?;
    Ok(own)
}

/// The rows of a containment's obligations, in order.
fn obligation_rows(
    alloc: Global,
    asked: &Containment<'_>,
    proofs: &[Certificate],
) -> Result<Vec<Row>, AllocError>
    requires fits { HasQuestionShape asked.now.question.now.body (contained_by asked.now.parts.now proofs.now) }
    ensures { IfOk result (λ rows. AreObligations asked.now.question.now.body (contained_by asked.now.parts.now proofs.now) rows.items) }
{
    // the proofs are named in the clauses alone
    let _proofs = proofs;
    let pair = pair(alloc, asked.question)?;
    let rows = obligations(alloc, &pair, &candidate(asked.parts))?;
    Ok(rows)
}

// ---- the comment of a line

/// Writes a set, `0` if it is empty.
fn write_set_or_zero(out: &mut Vec<u8>, names: &Names, set: VarSet) -> Result<(), AllocError>
    ensures { OnOk result (out.new.items ≡ out.old.items ++ (if set == 0 then codes "0" else set_text names.now.variables set)) }
{
    if set.number() == 0 {
        out.extend_from_slice(b"0")
    } else {
        write_set(out, names, set)
    }
}

/// The name of variable `variable`.
fn name_of(names: &Names, variable: u8) -> &[u8]
    requires { variable < length names.now.variables }
    ensures { result.now ≡ slice_index_or names.now.variables variable [] }
{
    names.variable_name(variable)
}

/// Writes a variable of the second region and the set that it stands for.
#[tactic(auto, unfolding(it_print::specs::Lines::part_for))]
fn write_choice(
    out: &mut Vec<u8>,
    names: &Names,
    second: &Names,
    variable: u8,
    set: VarSet,
) -> Result<(), AllocError>
    requires { variable < length second.now.variables }
    ensures { OnOk result (out.new.items ≡ out.old.items ++ part_for names.now.variables (slice_index_or second.now.variables variable []) set) }
{
    out.extend_from_slice(b" ")?;
    out.extend_from_slice(name_of(second, variable))?;
    out.extend_from_slice(b":=")?;
    write_set_or_zero(out, names, set)
}

/// What stands before an auxiliary variable: ` with` before the first one, a comma before the others.
fn before_choice(is_first: bool) -> &'static [u8]
    ensures { result.now ≡ (if is_first then codes " with" else codes ",") }
{
    if is_first { b" with" } else { b"," }
}

/// Writes the sets for the variables of the second region from `from` on, in the names of the first region.
fn write_choices(
    out: &mut Vec<u8>,
    names: &Names,
    second: &Names,
    from: u8,
    sets: &[VarSet],
) -> Result<(), AllocError>
    requires { length sets.now ≡ length (drop from second.now.variables) }
    ensures { OnOk result (out.new.items ≡ out.old.items ++ sets_with true names.now.variables (drop from second.now.variables) sets.now) }
{
    // asked for its clause on the number of variables
    let _space = second.space();
    for (i, set) in sets.iter().enumerate() {
        out.extend_from_slice(before_choice(i == 0))?;
        write_choice(out, names, second, from + i as u8, *set)?;
    }
    Ok(())
}

/// Writes the sets for the auxiliary variables of the second region.
fn write_parts(out: &mut Vec<u8>, asked: &Containment<'_>) -> Result<(), AllocError>
    requires contains { IsContainment asked.now.question.now.body.verb }
    requires counted { length asked.now.parts.now ≡ length (auxiliary_names asked.now.question.now.body.names asked.now.question.now.body.verb) }
    ensures { OnOk result (out.new.items ≡ out.old.items ++ with_text asked.now.question.now.body asked.now.parts.now) }
{
    let Verb::Contain { second, .. } = asked.question.verb() else {
        unreachable!()
    };
    let common = asked.question.space().variables;
    let names = problem_names(asked.question);
    write_choices(out, names, second.names(), common, asked.parts)
}

/// Writes a relation after a colon; nothing if there is none.
fn write_relation(out: &mut Vec<u8>, relation: &[u8]) -> Result<(), AllocError>
    ensures { OnOk result (out.new.items ≡ out.old.items ++ relation_part relation.now) }
{
    if relation.is_empty() {
        return Ok(());
    }
    out.extend_from_slice(b": ")?;
    out.extend_from_slice(relation)
}

/// What the comment of a line says where Shannon's inequalities alone prove it, nothing otherwise.
fn by_shannon_text(is_by_shannon: bool) -> &'static [u8]
    ensures { result.now ≡ (if is_by_shannon then codes ", by Shannon's inequalities" else []) }
{
    if is_by_shannon {
        b", by Shannon's inequalities"
    } else {
        b""
    }
}

/// The comment of a line of the second region: its name, the sets, the relation that it is with these, and whether it needs no
/// proof.
#[tactic(auto, unfolding(crate::specs::OwnLines::own_line_comment))]
fn own_line_comment(
    alloc: Global,
    asked: &Containment<'_>,
    origin: Origin,
    relation: &[u8],
    is_by_shannon: bool,
) -> Result<Vec<u8>, AllocError>
    requires contains { IsContainment asked.now.question.now.body.verb }
    requires counted { length asked.now.parts.now ≡ length (auxiliary_names asked.now.question.now.body.names asked.now.question.now.body.verb) }
    ensures { IfOk result (λ t. t.items ≡ own_line_comment asked.now.question.now.body asked.now.parts.now origin relation.now is_by_shannon) }
{
    let mut out = Vec::new(alloc);
    out.extend_from_slice(b"# ")?;
    write_origin(&mut out, origin)?;
    write_parts(&mut out, asked)?;
    write_relation(&mut out, relation)?;
    out.extend_from_slice(by_shannon_text(is_by_shannon))?;
    Ok(out)
}

// ---- the lines

/// The problem of a question without its constraints.
fn free_problem(alloc: Global, question: &Question) -> Problem
    ensures { IsFreeProblem question.now.body result }
{
    question.facts();
    let space = problem_names(question).space();
    let constraints = Vec::new(alloc);
    Problem { space, constraints }
}

/// Whether Shannon's inequalities alone say a row to be at least 0, by its certificate.
#[tactic(auto, using(crate::proofs::OwnLineLemmas::valid_is_by_shannon))]
fn is_by_shannon(problem: &Problem, row: &Row, proof: &Certificate) -> bool
    requires none { problem.now.constraints ≡ [] }
    requires over { IsOver (size_of problem.now.space) row.now }
    ensures { OnTrue result (IsByShannon problem.now.space.variables (value row.now)) }
{
    problem.facts();
    check_yes(problem, row, proof) == Verdict::Valid
}

/// The text of a line of the second region with the sets substituted, empty if there is none.
#[tactic(auto, unfolding(crate::specs::Steps::SaysOrNothing))]
fn line_text(
    alloc: Global,
    asked: &Containment<'_>,
    origin: Origin,
    rows: &[Row],
) -> Result<Vec<u8>, AllocError>
    ensures { IfOk result (λ t. SaysOrNothing (problem_names asked.now.question.now.body) (map value rows.now) t.items) }
{
    match told_line(alloc, asked.question, asked.parts, origin, rows)? {
        Some(text) => Ok(text),
        None => Ok(Vec::new(alloc)),
    }
}

/// Appends the lines of the proof of an obligation, unless Shannon's inequalities alone say it: then its certificate is valid
/// for `free`, the problem without constraints.
#[tactic(auto, using(crate::proofs::OwnLineLemmas::obligation_free, crate::proofs::OwnLineLemmas::obligation_proved))]
fn write_obligation(
    alloc: Global,
    out: &mut Vec<u8>,
    asked: &Containment<'_>,
    free: &Problem,
    proven: &Proven<'_>,
) -> Result<(), AllocError>
    requires origins { origins_of asked.now.constraints.now ≡ question_origins asked.now.question.now.body }
    requires there { IsListed (variable_count asked.now.question.now.body) (length asked.now.constraints.now) proven.now.certificate.now }
    requires free { IsFreeProblem asked.now.question.now.body free.now }
    requires over { IsOver (size_of free.now.space) proven.now.row.now }
    ensures { OnOk result (AppendsObligation asked.now.question.now.body asked.now.options (proven_form proven.now) out.old.items out.new.items) }
{
    if is_by_shannon(free, proven.row, proven.certificate) {
        return Ok(());
    }
    let told = Asked {
        question: asked.question,
        options: asked.options,
        constraints: asked.constraints,
    };
    write_proof(alloc, out, &told, proven)?;
    Ok(())
}

/// The lines of the proofs of the obligations of one line of the second region, without those that Shannon's inequalities alone
/// say.
fn own_proofs(
    alloc: Global,
    asked: &Containment<'_>,
    free: &Problem,
    relation: &[u8],
    owed: &Obligations<'_>,
) -> Result<Vec<u8>, AllocError>
    requires origins { origins_of asked.now.constraints.now ≡ question_origins asked.now.question.now.body }
    requires there { AreListed (variable_count asked.now.question.now.body) (length asked.now.constraints.now) owed.now.proofs.now }
    requires free { IsFreeProblem asked.now.question.now.body free.now }
    requires over { All (IsOver (size_of free.now.space)) owed.now.rows.now }
    requires as_many { length owed.now.rows.now ≡ length owed.now.proofs.now }
    ensures { IfOk result (λ v. AppendsOwnProofs asked.now.question.now.body asked.now.options owed.now.rows.now (certificates_of owed.now) [] v.items) }
{
    let mut out = Vec::new(alloc);
    let rows = owed.rows;
    let proofs = owed.proofs;
    for (i, row) in rows.iter().enumerate() {
        let proven = Proven {
            row,
            certificate: &proofs[i],
            line: Some(relation),
        };
        write_obligation(alloc, &mut out, asked, free, &proven)?;
    }
    Ok(out)
}

/// Appends a line of the second region as a comment, and below it the proofs of its obligations.
fn write_own_line(
    alloc: Global,
    out: &mut Vec<u8>,
    asked: &Containment<'_>,
    free: &Problem,
    origin: Origin,
    owed: &Obligations<'_>,
) -> Result<(), AllocError>
    requires origins { origins_of asked.now.constraints.now ≡ question_origins asked.now.question.now.body }
    requires contains { IsContainment asked.now.question.now.body.verb }
    requires counted { length asked.now.parts.now ≡ length (auxiliary_names asked.now.question.now.body.names asked.now.question.now.body.verb) }
    requires there { AreListed (variable_count asked.now.question.now.body) (length asked.now.constraints.now) owed.now.proofs.now }
    requires free { IsFreeProblem asked.now.question.now.body free.now }
    requires over { All (IsOver (size_of free.now.space)) owed.now.rows.now }
    requires as_many { length owed.now.rows.now ≡ length owed.now.proofs.now }
    ensures { OnOk result (AppendsOwnLine asked.now.question.now.body asked.now.options asked.now.parts.now origin owed.now.rows.now (certificates_of owed.now) out.old.items out.new.items) }
{
    let relation = line_text(alloc, asked, origin, owed.rows)?;
    let relation = relation.as_slice();
    let below = own_proofs(alloc, asked, free, relation, owed)?;
    let below = below.as_slice();
    let comment = own_line_comment(alloc, asked, origin, relation, below.is_empty())?;
    write_indented(out, comment.as_slice())?;
    out.extend_from_slice(below)?;
    Ok(())
}

/// The number of obligations of a constraint of this kind.
fn obliged(kind: Kind) -> usize
    ensures { result ≡ obliged kind }
{
    match kind {
        Kind::Inequality => 1,
        Kind::Equation => 2,
    }
}

/// Appends each line of the second region as `write_own_line` does, in order. `own` is the constraints of the lines,
/// `owed` has the obligations of one constraint after those of the other.
fn write_own_lines(
    alloc: Global,
    out: &mut Vec<u8>,
    asked: &Containment<'_>,
    free: &Problem,
    own: &[Constraint],
    owed: &Obligations<'_>,
) -> Result<(), AllocError>
    requires contains { IsContainment asked.now.question.now.body.verb }
    requires counted { length asked.now.parts.now ≡ length (auxiliary_names asked.now.question.now.body.names asked.now.question.now.body.verb) }
    requires origins { origins_of asked.now.constraints.now ≡ question_origins asked.now.question.now.body }
    requires there { AreListed (variable_count asked.now.question.now.body) (length asked.now.constraints.now) owed.now.proofs.now }
    requires free { IsFreeProblem asked.now.question.now.body free.now }
    requires over { All (IsOver (size_of free.now.space)) owed.now.rows.now }
    requires as_many { length owed.now.rows.now ≡ length owed.now.proofs.now }
    requires all { HasObligations own.now (length owed.now.rows.now) }
    ensures { OnOk result (AppendsEachOwnLine asked.now.question.now.body asked.now.options asked.now.parts.now own.now owed.now.rows.now (certificates_of owed.now) out.old.items out.new.items) }
{
    let mut rows_left = owed.rows;
    let mut proofs_left = owed.proofs;
    for constraint in own {
        let count = obliged(constraint.kind);
        let (own_rows, later_rows) = rows_left.split_at(count);
        let (own_proofs, later_proofs) = proofs_left.split_at(count);
        let of_line = Obligations {
            rows: own_rows,
            proofs: own_proofs,
        };
        write_own_line(alloc, out, asked, free, constraint.origin, &of_line)?;
        rows_left = later_rows;
        proofs_left = later_proofs;
    }
    Ok(())
}

/// Appends the lines of a containment: plain proofs of its obligations one after the other, or each proof under its line of the
/// second region.
#[tactic(auto, unfolding(crate::specs::Tellings::AreContainedLines))]
pub fn write_contained(
    alloc: Global,
    out: &mut Vec<u8>,
    asked: &Containment<'_>,
    proofs: &[Certificate],
) -> Result<(), AllocError>
    requires origins { origins_of asked.now.constraints.now ≡ question_origins asked.now.question.now.body }
    requires there { AreListed (variable_count asked.now.question.now.body) (length asked.now.constraints.now) proofs.now }
    requires counted { length asked.now.parts.now ≡ length (auxiliary_names asked.now.question.now.body.names asked.now.question.now.body.verb) }
    requires fits { HasQuestionShape asked.now.question.now.body (contained_by asked.now.parts.now proofs.now) }
    ensures { OnOk result (AppendsDetails asked.now.question.now.body asked.now.options (contained_by asked.now.parts.now proofs.now) out.old.items out.new.items) }
{
    let rows = obligation_rows(alloc, asked, proofs)?;
    let rows = rows.as_slice();
    if is_plain(asked.options.style) {
        let told = Asked {
            question: asked.question,
            options: asked.options,
            constraints: asked.constraints,
        };
        return write_proofs(alloc, out, &told, rows, proofs);
    }
    let free = free_problem(alloc, asked.question);
    let own = own_constraints(alloc, asked.question)?;
    let owed = Obligations { rows, proofs };
    write_own_lines(alloc, out, asked, &free, own.as_slice(), &owed)
}
