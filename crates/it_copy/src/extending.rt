//! Questions with copies of variables added.
ghost use Rattle.std.specs.Prelude.{◌≡◌, ◌≤◌, ◌<◌, ◌^◌, ◌++◌, None, [], false, IfOk, IfErr, OnOk, bit_or, length, map, nat_le, nat_lt};
ghost use Rattle.it_closure.specs.Sizes.{most_entries, table_size};
ghost use Rattle.it_syntax.specs.Givens.{given_view};
ghost use Rattle.it_syntax.specs.Meaning.{relation_view};
ghost use Rattle.it_question.specs.Bodies.{body_view};
ghost use Rattle.it_question.specs.Limits.{IsQuestion};
ghost use Rattle.it_question.specs.NewNames.{Variable, is_taken, with_name};
ghost use Rattle.it_space.specs.Spaces.{most_variables};
ghost use Rattle.it_question.specs.Questions.{Prove};
ghost use Rattle.it_question.specs.QuestionLimits.{most_lines, names_within};
ghost use Rattle.it_copy.specs.CopyLines.{AreNamed, copy_view};
ghost use Rattle.it_copy.specs.Extensions.{IsExtension, IsMisfit, equations_of, extended, first_unplaced, named_parts, placed, set_with, unless_member, with_copies, equations_at};
ghost use Rattle.it_copy.specs.ExtensionSteps.{IsLarge, IsLargeBy, IsPastLimits, IsUnplaced};

use crate::equations::add_equations;
use crate::types::{CopyFault, CopyLine};
use it_canon::problem;
use it_closure::{MOST_ENTRIES, size};
use it_problems::Problem;
use it_question::FileLimits;
use it_question::readers::{Body, MOST_LINES};
use it_question::types::{OwnLines, Question, Verb};
use it_space::VarSet;
use it_syntax::types::{Given, Relation};
use it_syntax::{Names, copies};
use std::alloc::{AllocError, Global};

/// Whether a variable or a rate is named `name`.
#[tactic(auto, unfolding(it_question::specs::NewNames::is_taken))]
fn is_taken(names: &Names, name: &[u8]) -> bool
    ensures { result ≡ is_taken names.now name.now }
{
    names.variable(name).is_some() || names.rate(name).is_some()
}

/// Whether there are as many variables as a file with these limits allows.
fn is_full(names: &Names, limits: FileLimits) -> bool
    ensures { result ≡ nat_le (names_within limits) (length names.now.variables) }
{
    limits.most_names() <= usize::from(names.space().variables)
}

/// `set` with the variable `i`.
fn with_variable(set: VarSet, i: u8) -> VarSet
    requires { i < 16 }
    ensures { result ≡ bit_or set (2 ^ i) }
{
    set.union(VarSet::single(i))
}

/// The set of the variables named in `over`; None if a name isn't that of a variable.
fn set_of(names: &Names, over: &[Vec<u8>]) -> Option<VarSet>
    ensures { result ≡ set_with names.now.variables 0 (map (λ v. v.items) over.now) }
{
    let mut set = VarSet::empty();
    for name in over {
        let i = names.variable(name.as_slice())?;
        set = with_variable(set, i);
    }
    Some(set)
}

/// `old` and `over`; None if the variable `old` is in the set `over`.
fn unless_member(old: u8, over: VarSet) -> Option<(u8, VarSet)>
    ensures { result ≡ unless_member old over }
{
    if over.has(old) {
        None
    } else {
        Some((old, over))
    }
}

/// The variable and the set that `line` names, by their numbers; None if a name isn't that of a variable, or if the variable is in
/// the set.
#[tactic(auto, unfolding(crate::specs::Extensions::named_parts))]
fn named_parts(names: &Names, line: &CopyLine) -> Option<(u8, VarSet)>
    ensures { result ≡ named_parts names.now (copy_view line.now) }
{
    let old = names.variable(line.old.as_slice())?;
    let over = set_of(names, line.over.as_slice())?;
    unless_member(old, over)
}

/// The variable and the set of `named_parts`; None where the copy can't be made.
#[tactic(auto, unfolding(crate::specs::Extensions::placed))]
fn placed(names: &Names, line: &CopyLine, limits: FileLimits) -> Option<(u8, VarSet)>
    ensures { result ≡ placed limits names.now (copy_view line.now) }
{
    if is_taken(names, line.fresh.as_slice()) || is_full(names, limits) {
        None
    } else {
        named_parts(names, line)
    }
}

/// Adds a copy named `fresh` to `names`, and its equations to `givens`. `place` is its variable and its set.
fn add_copy(
    alloc: Global,
    names: &mut Names,
    givens: &mut Vec<Given>,
    fresh: &[u8],
    place: (u8, VarSet),
) -> Result<(), AllocError>
    requires new { is_taken names.old fresh.now ≡ false }
    requires some { 1 ≤ length fresh.now }
    requires short { length fresh.now ≤ 16 }
    requires room { length names.old.variables < most_variables }
    requires old { place.0 < 16 }
    requires inside { place.1 < 2 ^ length names.old.variables }
    ensures names { OnOk result (names.new ≡ with_name Variable names.old fresh.now) }
    ensures givens { OnOk result (map given_view givens.new.items ≡ map given_view givens.old.items ++ equations_at names.old place) }
{
    let next = names.space().variables;
    add_equations(alloc, givens, next, place.0, place.1)?;
    names.add_variable(fresh)
}

/// Adds the copies of `lines` to names and constraints, in order; the error is the first copy that can't be made.
fn add_copies(
    alloc: Global,
    names: &mut Names,
    givens: &mut Vec<Given>,
    lines: &[CopyLine],
    limits: FileLimits,
) -> Result<(), CopyFault>
    requires names { AreNamed lines.now }
    requires few { length lines.now ≤ 4 }
    ensures names { OnOk result (names.new ≡ with_copies names.old (map copy_view lines.now)) }
    ensures givens { OnOk result (map given_view givens.new.items ≡ map given_view givens.old.items ++ equations_of names.old (map copy_view lines.now)) }
    ensures placed { OnOk result (first_unplaced limits 1 names.old (map copy_view lines.now) ≡ None) }
    ensures first { IfErr result (IsUnplaced limits names.old (map copy_view lines.now)) }
{
    for (i, line) in lines.iter().enumerate() {
        let Some(place) = placed(names, line, limits) else {
            return Err(CopyFault::Copy { line: i as u16 + 1 });
        };
        match add_copy(alloc, names, givens, line.fresh.as_slice(), place) {
            Ok(()) => {}
            Err(_) => return Err(CopyFault::Memory),
        }
    }
    Ok(())
}

/// Whether the table of a problem is too large.
fn is_large(alloc: Global, problem: &Problem) -> Result<bool, AllocError>
    ensures { IfOk result (λ large. large ≡ nat_lt most_entries (table_size problem.now)) }
{
    let size = size(alloc, problem)?;
    Ok(MOST_ENTRIES < size)
}

/// Whether the table of a question is too large for a file with these limits.
fn has_large_table(
    alloc: Global,
    question: &Question,
    limits: FileLimits,
) -> Result<bool, AllocError>
    ensures { IfOk result (λ large. IsLargeBy limits question.now.body large) }
{
    if limits.large_tables {
        return Ok(false);
    }
    let problem = problem(alloc, question)?;
    let large = is_large(alloc, &problem)?;
    Ok(large)
}

/// The error `Large` if the table of the question is too large for a file with these limits.
fn judge_size(alloc: Global, question: &Question, limits: FileLimits) -> Result<(), CopyFault>
    ensures small { OnOk result (IsLargeBy limits question.now.body false) }
    ensures large { IfErr result (IsLarge limits question.now.body) }
{
    let large = has_large_table(alloc, question, limits)?;
    if large { Err(CopyFault::Large) } else { Ok(()) }
}

/// The question about a relation with copies of variables added, without its text and without a test of its limits; the error is the
/// first copy that can't be made.
fn copied(
    alloc: Global,
    question: &Question,
    relation: &Relation,
    lines: &[CopyLine],
    limits: FileLimits,
) -> Result<Body, CopyFault>
    requires verb { question.now.body.verb ≡ Prove (relation_view relation.now) }
    requires names { AreNamed lines.now }
    requires few { length lines.now ≤ 4 }
    ensures body { IfOk result (λ e. body_view e ≡ extended question.now.body (map copy_view lines.now)) }
    ensures placed { IfOk result (λ e. first_unplaced limits 1 question.now.body.names (map copy_view lines.now) ≡ None) }
    ensures first { IfErr result (IsUnplaced limits question.now.body.names (map copy_view lines.now)) }
{
    let own = question.lines();
    let mut names = question.names().copy()?;
    let mut givens = copies::givens(alloc, own.givens())?;
    match add_copies(alloc, &mut names, &mut givens, lines, limits) {
        Ok(()) => {}
        Err(fault) => return Err(fault),
    }
    let rows = copies::relations(alloc, own.rows())?;
    let relation = relation.copy()?;
    Ok(Body {
        names,
        lines: OwnLines { givens, rows },
        verb: Verb::Prove(relation),
    })
}

/// The question of `body`, without a text; the error `Many` if it has too many constraints, else `Large` if its table is too large.
fn within_limits(alloc: Global, body: Body, limits: FileLimits) -> Result<Question, CopyFault>
    requires { length (body_view body).lines.givens ≤ most_lines → IsQuestion (body_view body) }
    ensures whole { IfOk result (λ q. q ≡ record { body = body_view body; text = [] }) }
    ensures few { IfOk result (λ q. length q.body.lines.givens ≤ most_lines) }
    ensures small { IfOk result (λ q. IsLargeBy limits q.body false) }
    ensures past { IfErr result (IsPastLimits limits (body_view body)) }
{
    if body.lines.givens().len() > MOST_LINES {
        return Err(CopyFault::Many);
    }
    let question = body.with_source(Vec::new(alloc));
    match judge_size(alloc, &question, limits) {
        Ok(()) => Ok(question),
        Err(fault) => Err(fault),
    }
}

/// A question about a relation with copies of variables added, each with its equations as further constraints, within the limits of
/// a file.
pub fn extend(
    alloc: Global,
    question: &Question,
    lines: &[CopyLine],
    limits: FileLimits,
) -> Result<Question, CopyFault>
    requires names { AreNamed lines.now }
    requires few { length lines.now ≤ 4 }
    ensures extension { IfOk result (λ e. IsExtension limits question.now.body (map copy_view lines.now) e.body) }
    ensures limits { IfOk result (λ e. IsQuestion e.body) }
    ensures text { IfOk result (λ e. e.text ≡ []) }
    ensures misfit { IfErr result (IsMisfit limits question.now.body (map copy_view lines.now)) }
{
    question.facts();
    match question.verb() {
        Verb::Prove(relation) => match copied(alloc, question, relation, lines, limits) {
            Ok(body) => match within_limits(alloc, body, limits) {
                Ok(extended) => Ok(extended),
                Err(fault) => Err(fault),
            },
            Err(fault) => Err(fault),
        },
        _ => Err(CopyFault::Verb),
    }
}
