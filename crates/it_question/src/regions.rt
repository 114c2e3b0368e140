//! Readers of regions, and of the question whether one lies in the other.
ghost use Rattle.std.specs.Prelude.{◌≡◌, ◌≤◌, ◌+◌, ◌-◌, length, codes};
ghost use Rattle.it_forms.specs.FormReading.{read};
ghost use Rattle.it_question.specs.Cursors.{Parses, ParsesBy};
ghost use Rattle.it_question.specs.Questions.{verb_view};
ghost use Rattle.it_space.specs.Spaces.{IsSpace, most_variables};
ghost use Rattle.it_demand.specs.QuestionSpaces.{space_of};
ghost use Rattle.it_question.specs.Limits.{AreLinesOver, IsRegionOf};
ghost use Rattle.it_question.specs.QuestionForms as forms;
ghost use Rattle.it_question.specs.NewNames.{Variable};
ghost use Rattle.it_question.specs.QuestionLimits.{most_lines, most_names};
ghost use Rattle.it_question.specs.ReaderSteps.{contain_line, most_of_region};
ghost use Rattle.it_question.specs.Sorts.{AreQuestionNames};

use crate::cursor::Cursor;
use crate::names::names_line;
use crate::own::{MOST_LINES, own_lines};
use crate::sorts::NameSort;
use crate::tables::containment_is_large;
use crate::tries::{Regions, tries};
use crate::types::{OwnLines, Region, Verb};
use crate::words::{AUXILIARIES, CONTAIN, REGION, after_word, line_end, word};
use it_syntax::Names;
use it_syntax::rest::Stop;
use it_syntax::types::Code;
use std::alloc::Global;

/// The most names of variables of a question where nothing else is said, and of a containment in any file, a region's auxiliaries
/// among them.
pub const MOST_NAMES: usize = 10;

/// The most auxiliaries of a region.
const MOST_AUXILIARIES: usize = 4;

/// The most variables of a region of a question with these names, its auxiliaries among them.
fn most_of_region(names: &Names) -> usize
    ensures most { result ≡ most_of_region names.now }
    ensures few { result ≤ most_variables }
{
    let variables = names.space().variables as usize;
    variables + MOST_AUXILIARIES.min(MOST_NAMES.saturating_sub(variables))
}

/// The number of variables that a region with the names `inside` adds to `names`.
fn auxiliaries(inside: &Names, names: &Names) -> u8
    ensures { result ≡ length inside.now.variables - length names.now.variables }
{
    inside
        .space()
        .variables
        .saturating_sub(names.space().variables)
}

/// Reads a region's auxiliaries, if it has any, and gives the names of the question with them.
fn region_names(cursor: &mut Cursor<'_>, names: &Names) -> Result<Names, Stop>
    ensures { Parses result (forms.names_line Variable (most_of_region names.now) (codes "aux") names.now) cursor.old cursor.new }
{
    let mut inside = names.copy()?;
    names_line(
        cursor,
        &mut inside,
        NameSort::Variable,
        most_of_region(names),
        AUXILIARIES,
    )?;
    Ok(inside)
}

/// A region of a question with these names, after `region`, with at most `givens` `given` lines and `rows` `row` lines.
#[tactic(auto, unfolding(crate::specs::QuestionForms::region, it_forms::specs::FormReading::read))]
fn region(
    alloc: Global,
    cursor: &mut Cursor<'_>,
    names: &Names,
    givens: usize,
    rows: usize,
) -> Result<Region, Stop>
    ensures { Parses result (forms.region givens rows names.now) cursor.old cursor.new }
{
    line_end(cursor)?;
    let inside = region_names(cursor, names)?;
    let lines = own_lines(alloc, cursor, &inside, givens, rows)?;
    let auxiliaries = auxiliaries(&inside, names);
    Ok(Region {
        names: inside,
        auxiliaries,
        lines,
    })
}

/// Reads the `contain` line of a question with the own lines `lines` and the first region `first`.
#[tactic(auto, unfolding(it_forms::specs::FormReading::read))]
fn contain(
    alloc: Global,
    cursor: &mut Cursor<'_>,
    names: &Names,
    lines: &OwnLines,
    first: &Region,
) -> Result<(), Stop>
    requires space { IsSpace (space_of names.now) }
    requires lines { AreLinesOver names.now lines.now }
    requires region { IsRegionOf names.now first.now }
    requires few_givens { length lines.now.givens + length first.now.lines.givens ≤ most_lines }
    requires few_rows { length lines.now.rows + length first.now.lines.rows ≤ most_lines }
    ensures { Parses result (contain_line lines.now first.now) cursor.old cursor.new }
{
    match after_word(*cursor, CONTAIN) {
        Some(after) => {
            if containment_is_large(alloc, names, lines, first)? {
                return Err(Stop::Fault(Code::Large));
            }
            *cursor = after;
            line_end(cursor)
        }
        None => Err(cursor.fault()),
    }
}

/// Two regions, `try` lines and `contain`, after the first `region`, in a question with the own lines `lines`.
#[tactic(auto, unfolding(crate::specs::QuestionForms::containment, it_forms::specs::FormReading::read))]
pub fn containment(
    alloc: Global,
    cursor: &mut Cursor<'_>,
    names: &Names,
    lines: &OwnLines,
) -> Result<Verb, Stop>
    requires names { AreQuestionNames most_names names.now }
    requires lines { AreLinesOver names.now lines.now }
    ensures { ParsesBy verb_view result (forms.containment lines.now names.now) cursor.old cursor.new }
{
    let most_givens = lines.givens_left(MOST_LINES);
    let most_rows = lines.rows_left(MOST_LINES);
    let first = region(alloc, cursor, names, most_givens, most_rows)?;
    word(cursor, REGION)?;
    let givens = first.lines().givens_left(most_givens);
    let rows = first.lines().rows_left(most_rows);
    let second = region(alloc, cursor, names, givens, rows)?;
    let regions = Regions {
        question: names,
        first: first.names(),
        second: second.names(),
    };
    let tries = tries(alloc, cursor, regions, second.auxiliaries())?;
    contain(alloc, cursor, names, lines, &first)?;
    Ok(Verb::Contain {
        first,
        second,
        tries,
    })
}
