//! Readers of what is asked, of a question, and of the questions of a file.
//! A reader's result is matched where `?` would do: so each case is a goal of its own, with the reading's equation at hand.
ghost use Rattle.std.specs.Bool.{OnFalse};
ghost use Rattle.std.specs.Prelude.{◌≡◌, ◌≤◌, ◌++◌, [], ◌∷◌, true, length, map, OnOk, IfErr};
ghost use Rattle.it_forms.specs.Forms.{Give, Then};
ghost use Rattle.it_forms.specs.FormReading.{read};
ghost use Rattle.it_forms.specs.Words as words;
ghost use Rattle.it_syntax.specs.declared.rest.Stop.TheVariants.{Memory};
ghost use Rattle.it_syntax.specs.RelationLines.{relation_line};
ghost use Rattle.it_syntax.specs.NamesViews.{index_of};
ghost use Rattle.it_space.specs.Spaces.{IsSpace, most_variables};
ghost use Rattle.it_demand.specs.QuestionSpaces.{space_of};
ghost use Rattle.it_question.specs.Limits.{AreLinesOver};
ghost use Rattle.it_question.specs.Bodies.{body_view};
ghost use Rattle.it_question.specs.Cursors.{Parses, ParsesBy};
ghost use Rattle.it_question.specs.QuestionForms as forms;
ghost use Rattle.it_question.specs.Questions.{verb_view, Prove, Eliminate};
ghost use Rattle.it_question.specs.QuestionForms.{region_flag};
ghost use Rattle.it_question.specs.QuestionLimits.{most_names};
ghost use Rattle.it_question.specs.ReaderSteps.{flag_if_large};

use crate::bodies::Body;
use crate::cursor::Cursor;
use crate::names::{names_line, names_to_end};
use crate::own::{MOST_LINES, own_lines};
use crate::parts::relation;
use crate::rates::rates;
use crate::regions::{MOST_NAMES, containment};
use crate::sizes::FileLimits;
use crate::sorts::NameSort;
use crate::tables::{elimination_is_beyond, proof_is_beyond};
use crate::types::{OwnLines, Verb};
use crate::words::{ELIMINATE, PROVE, RATES, REGION, VARS, after_word};
use it_syntax::Names;
use it_syntax::rest::{Piece, Stop};
use it_syntax::types::Code;
use std::alloc::Global;

/// The most questions of a file.
const MOST_QUESTIONS: usize = 1000;

/// The most rates of a question.
const MOST_RATES: usize = 16;

/// The relation to be proved, after `prove`.
#[tactic(auto, unfolding(it_forms::specs::FormReading::read))]
fn proof(alloc: Global, cursor: &mut Cursor<'_>, names: &Names) -> Result<Verb, Stop>
    ensures { ParsesBy verb_view result (Then (relation_line names.now true) (λ x. Give (Prove x))) cursor.old cursor.new }
{
    let relation = relation(alloc, cursor, names)?;
    Ok(Verb::Prove(relation))
}

/// The rates to be eliminated, after `eliminate`.
#[tactic(auto, unfolding(it_forms::specs::FormReading::read))]
fn elimination(alloc: Global, cursor: &mut Cursor<'_>, names: &Names) -> Result<Verb, Stop>
    ensures { ParsesBy verb_view result (Then (words.to_end (forms.distinct (index_of names.now.rates))) (λ x. Give (Eliminate x))) cursor.old cursor.new }
{
    let rates = rates(alloc, cursor, names)?;
    Ok(Verb::Eliminate(rates))
}

/// Whether a question with these names has too many for a containment.
#[tactic(auto, unfolding(crate::specs::QuestionForms::region_flag))]
fn is_too_wide(names: &Names) -> bool
    ensures flag { region_flag names.now ≡ flag_if_large result }
    ensures few { OnFalse result (length names.now.variables ≤ most_names) }
{
    MOST_NAMES < names.space().variables as usize
}

/// What is asked, in a question with the own lines `lines`.
#[tactic(auto, unfolding(crate::specs::QuestionForms::verb, it_forms::specs::FormReading::read))]
fn verb(
    alloc: Global,
    cursor: &mut Cursor<'_>,
    names: &Names,
    lines: &OwnLines,
    limits: FileLimits,
) -> Result<Verb, Stop>
    requires space { IsSpace (space_of names.now) }
    requires lines { AreLinesOver names.now lines.now }
    ensures { ParsesBy verb_view result (forms.verb limits lines.now names.now) cursor.old cursor.new }
{
    match cursor.front() {
        Some((Piece::Word(word), after)) => {
            if word == PROVE {
                if proof_is_beyond(alloc, names, lines, limits)? {
                    return Err(Stop::Fault(Code::Large));
                }
                *cursor = after;
                proof(alloc, cursor, names)
            } else if word == ELIMINATE {
                if elimination_is_beyond(alloc, names, lines, limits)? {
                    return Err(Stop::Fault(Code::Large));
                }
                *cursor = after;
                elimination(alloc, cursor, names)
            } else if word == REGION {
                if is_too_wide(names) {
                    return Err(Stop::Fault(Code::Large));
                }
                *cursor = after;
                containment(alloc, cursor, names, lines)
            } else {
                Err(Stop::Fault(Code::Word))
            }
        }
        _ => Err(cursor.fault()),
    }
}

/// A question, after its `vars`.
#[tactic(auto, unfolding(crate::specs::QuestionForms::question, it_forms::specs::FormReading::read))]
fn question(alloc: Global, cursor: &mut Cursor<'_>, limits: FileLimits) -> Result<Body, Stop>
    ensures { ParsesBy body_view result (forms.question limits) cursor.old cursor.new }
{
    let mut names = Names::new(alloc);
    names_to_end(cursor, &mut names, NameSort::Variable, limits.most_names())?;
    names_line(cursor, &mut names, NameSort::Rate, MOST_RATES, RATES)?;
    let lines = own_lines(alloc, cursor, &names, MOST_LINES, MOST_LINES)?;
    let verb = verb(alloc, cursor, &names, &lines, limits)?;
    Ok(Body { names, lines, verb })
}

/// Reads the end of the file, which must stand there. The fault is `Word` at another piece, or that piece's own.
#[tactic(auto, unfolding(it_forms::specs::FormReading::read))]
pub fn file_end(cursor: &mut Cursor<'_>) -> Result<(), Stop>
    ensures { Parses result words.file_end cursor.old cursor.new }
{
    match cursor.front() {
        Some((Piece::Bad(Code::Unfinished), after)) => {
            *cursor = after;
            Ok(())
        }
        _ => Err(cursor.fault()),
    }
}

/// Appends `next` to `bodies`.
fn add(bodies: &mut Vec<Body>, next: Body) -> Result<(), Stop>
    ensures added { OnOk result (map body_view bodies.new.items ≡ map body_view bodies.old.items ++ body_view next ∷ []) }
    ensures memory { IfErr result (λ e. e ≡ Memory) }
{
    bodies.push(next)?;
    Ok(())
}

/// The questions that stand there, at most `MOST_QUESTIONS`.
fn questions(alloc: Global, cursor: &mut Cursor<'_>, limits: FileLimits) -> Result<Vec<Body>, Stop>
    ensures { ParsesBy (λ x. map body_view x.items) result (forms.more_questions limits []) cursor.old cursor.new }
{
    let mut found = Vec::new(alloc);
    while let Some(after) = after_word(*cursor, VARS) {
        if MOST_QUESTIONS <= found.len() {
            return Err(Stop::Fault(Code::Many));
        }
        *cursor = after;
        match question(alloc, cursor, limits) {
            Ok(next) => add(&mut found, next)?,
            Err(stop) => return Err(stop),
        }
    }
    Ok(found)
}

/// The questions of a file with these limits, up to its end.
#[tactic(auto, unfolding(crate::specs::QuestionForms::file, it_forms::specs::FormReading::read))]
pub fn bodies(alloc: Global, cursor: &mut Cursor<'_>, limits: FileLimits) -> Result<Vec<Body>, Stop>
    ensures { ParsesBy (λ x. map body_view x.items) result (forms.file limits) cursor.old cursor.new }
{
    let found = questions(alloc, cursor, limits)?;
    file_end(cursor)?;
    Ok(found)
}
