//! Questions as they are read, and their rows.
//!
//! A question is one line: its names, its own lines and its verb. Sets of variables and rates stand by number, a term as its sign, its
//! number, `/` and its denominator where that isn't 1, and `H`, `I` or `R`. A row is its terms, each a coordinate, `:` and a
//! coefficient.

use crate::Task;
use crate::output::Output;
use it_canon::{problem, system, target_rows};
use it_problems::{Constraint, Kind, Origin};
use it_question::types::{OwnLines, Question, Region, Verb};
use it_space::{Row, VarSet};
use it_syntax::Names;
use it_syntax::types::{Atom, Given, Relation, Sign, Term};
use std::alloc::{AllocError, Global};
use std::str;

/// Writes a set by number after a text.
fn write_set(out: &mut Output, front: &str, set: VarSet) {
    out.put(front);
    out.put(set.number());
}

/// Writes the atom of a term.
fn write_atom(out: &mut Output, atom: Atom) {
    match atom {
        Atom::Nothing => {}
        Atom::Entropy { of, given } => {
            write_set(out, "H", of);
            write_set(out, "|", given);
        }
        Atom::Mutual { left, right, given } => {
            write_set(out, "I", left);
            write_set(out, ";", right);
            write_set(out, "|", given);
        }
        Atom::Rate(rate) => {
            out.put('R');
            out.put(rate);
        }
    }
}

/// Writes terms one after the other.
fn write_terms(out: &mut Output, terms: &[Term]) {
    for term in terms {
        out.put(if term.negative { '-' } else { '+' });
        out.put(term.number);
        if term.denominator != 1 {
            out.put('/');
            out.put(term.denominator);
        }
        write_atom(out, term.atom);
    }
}

/// Writes a relation after a text.
fn write_relation(out: &mut Output, front: &str, relation: &Relation) {
    out.put(front);
    write_terms(out, relation.left.terms.as_slice());
    out.put(match relation.sign {
        Sign::AtLeast => ">=",
        Sign::AtMost => "<=",
        Sign::Equal => "=",
    });
    write_terms(out, relation.right.terms.as_slice());
}

/// Writes sets by number after a text.
fn write_sets(out: &mut Output, front: &str, sets: &[VarSet]) {
    out.put(front);
    for set in sets {
        write_set(out, " ", *set);
    }
}

/// Writes the constraint of a `given` line.
fn write_given(out: &mut Output, given: &Given) {
    match given {
        Given::Relation(relation) => write_relation(out, " given ", relation),
        Given::Markov(members) => write_sets(out, " markov", members.as_slice()),
        Given::Independent { members, given } => {
            write_sets(out, " indep", members.as_slice());
            write_set(out, "|", *given);
        }
        Given::Function { value, argument } => {
            write_set(out, " func ", *value);
            write_set(out, " of ", *argument);
        }
    }
}

/// Writes the `given` and `row` lines.
fn write_lines(out: &mut Output, lines: &OwnLines) {
    for given in lines.givens() {
        write_given(out, given);
    }
    for row in lines.rows() {
        write_relation(out, " row ", row);
    }
}

/// Writes a name after a comma, unless it is the first.
fn write_name(out: &mut Output, is_first: bool, name: &[u8]) {
    if !is_first {
        out.put(',');
    }
    out.put(str::from_utf8(name).unwrap_or("?"));
}

/// Writes names: variables, `;` and rates.
fn write_names(out: &mut Output, names: &Names) {
    for i in 0..names.space().variables {
        write_name(out, i == 0, names.variable_name(i));
    }
    out.put(';');
    for i in 0..names.space().rates {
        write_name(out, i == 0, names.rate_name(i));
    }
}

/// Writes a region: its names, how many of them are its own, and its lines.
fn write_region(out: &mut Output, region: &Region) {
    out.put(" (");
    write_names(out, region.names());
    out.put(' ');
    out.put(region.auxiliaries());
    write_lines(out, region.lines());
    out.put(')');
}

/// Writes the rates of an elimination by number.
fn write_elimination(out: &mut Output, rates: &[u8]) {
    out.put(" eliminate");
    for rate in rates {
        out.put(' ');
        out.put(*rate);
    }
}

/// Writes a containment with the sets of its `try` lines.
fn write_containment(out: &mut Output, first: &Region, second: &Region, tries: &[[VarSet; 4]]) {
    out.put(" contain");
    write_region(out, first);
    write_region(out, second);
    for sets in tries {
        write_sets(out, " try", sets.as_slice());
    }
}

/// Writes a verb with its parts.
fn write_verb(out: &mut Output, verb: &Verb) {
    match verb {
        Verb::Prove(relation) => write_relation(out, " prove ", relation),
        Verb::Eliminate(rates) => write_elimination(out, rates.as_slice()),
        Verb::Contain {
            first,
            second,
            tries,
        } => write_containment(out, first, second, tries.as_slice()),
    }
}

/// Writes a question as it is read.
fn write_question(out: &mut Output, question: &Question) {
    write_names(out, question.names());
    write_lines(out, question.lines());
    write_verb(out, question.verb());
    out.put('\n');
}

/// Writes the terms of a row.
fn write_row(out: &mut Output, row: &Row) {
    for (coordinate, coefficient) in row.terms() {
        out.put(' ');
        out.put(*coordinate);
        out.put(':');
        out.put(*coefficient);
    }
    out.put('\n');
}

/// Writes the origin of a constraint.
fn write_origin(out: &mut Output, origin: Origin) {
    match origin {
        Origin::Given { line, part, parts } => {
            out.put("given ");
            out.put(line);
            out.put(' ');
            out.put(part);
            out.put('/');
            out.put(parts);
        }
        Origin::Rate { line } => {
            out.put("row ");
            out.put(line);
        }
    }
}

/// Writes constraints: of each its origin, whether it is an equation, and its row.
fn write_constraints(out: &mut Output, constraints: &[Constraint]) {
    for constraint in constraints {
        write_origin(out, constraint.origin);
        out.put(match constraint.kind {
            Kind::Equation => " =",
            Kind::Inequality => " >=",
        });
        write_row(out, &constraint.row);
    }
}

/// Writes rows, each after a word.
fn write_rows(out: &mut Output, word: &str, rows: &[Row]) {
    for row in rows {
        out.put(word);
        write_row(out, row);
    }
}

/// Writes the rows of a question's targets, or of the system that it has rates eliminated from.
fn write_asked(alloc: Global, out: &mut Output, question: &Question) -> Result<(), AllocError> {
    match question.verb() {
        Verb::Prove(relation) => {
            let rows = target_rows(alloc, relation, question.space())?;
            write_rows(out, "target", rows.as_slice());
        }
        Verb::Eliminate(_) => write_rows(out, "system", system(alloc, question)?.rows.as_slice()),
        Verb::Contain { .. } => {}
    }
    Ok(())
}

/// Writes the constraints of a question, and the rows that it asks about.
fn write_problem(alloc: Global, out: &mut Output, question: &Question) -> Result<(), AllocError> {
    write_constraints(out, problem(alloc, question)?.constraints());
    write_asked(alloc, out, question)
}

/// Writes a question in the task's way: as it is read, its text, or its rows.
pub fn write(
    alloc: Global,
    out: &mut Output,
    question: &Question,
    task: &Task<'_>,
) -> Result<(), AllocError> {
    match task.way {
        "read" => write_question(out, question),
        "text" => {
            let text = question.text(alloc)?;
            out.put(str::from_utf8(text.as_slice()).unwrap_or("?"));
        }
        _ => return write_problem(alloc, out, question),
    }
    Ok(())
}
