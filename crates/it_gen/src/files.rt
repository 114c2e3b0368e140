//! The file of drawn questions.
ghost use Rattle.std.specs.Prelude.{◌≡◌, ◌<◌, ◌≤◌, ◌++◌, ◌^◌, [], IfOk, OnOk};
ghost use Rattle.it_gen.specs.Draws.{state_after};
ghost use Rattle.it_gen.specs.GeneratedFiles.{bound_text, four_names, generated_file, question_text, generated_term_text};

use crate::draws::Draws;
use it_print::{write_elemental, write_number, write_set};
use it_space::VarSet;
use it_syntax::Names;
use std::alloc::{AllocError, Global};

/// The number of elemental inequalities of four variables.
const INEQUALITIES: u32 = 28;

/// The number of nonempty sets of four variables.
const NONEMPTY_SETS: u32 = 15;

/// `count` questions about the variables A, B, C and D, two lines each, by draws from the state `seed`. The same seed always
/// gives the same bytes.
pub fn questions_of(alloc: Global, seed: u32, count: u32) -> Result<Vec<u8>, AllocError>
    requires seed { seed < 2 ^ 31 }
    requires some { 1 ≤ count }
    requires few { count ≤ 1000 }
    ensures { IfOk result (λ v. v.items ≡ generated_file seed count) }
{
    let names = four_names(alloc)?;
    let mut out = Vec::new(alloc);
    write_questions(&mut out, &names, seed, count)?;
    Ok(out)
}

/// Appends `count` questions, by draws from the state `seed`.
fn write_questions(
    out: &mut Vec<u8>,
    names: &Names,
    seed: u32,
    count: u32,
) -> Result<(), AllocError>
    requires { names.now.variables ≡ four_names }
    ensures { OnOk result (out.new.items ≡ out.old.items ++ generated_file seed count) }
{
    let mut draws = Draws { state: seed };
    for _ in 0..count {
        write_question(out, names, &mut draws)?;
    }
    Ok(())
}

/// The names of the variables.
fn four_names(alloc: Global) -> Result<Names, AllocError>
    ensures { IfOk result (λ n. n ≡ record { variables = four_names; rates = [] }) }
{
    let mut names = Names::new(alloc);
    names.add_variable(b"A")?;
    names.add_variable(b"B")?;
    names.add_variable(b"C")?;
    names.add_variable(b"D")?;
    Ok(names)
}

/// Appends a question, by eight draws.
#[tactic(auto, unfolding(crate::specs::GeneratedFiles::question_text))]
fn write_question(out: &mut Vec<u8>, names: &Names, draws: &mut Draws) -> Result<(), AllocError>
    requires { names.now.variables ≡ four_names }
    ensures text { OnOk result (out.new.items ≡ out.old.items ++ question_text draws.old.state) }
    ensures state { OnOk result (draws.new.state ≡ state_after 8 draws.old.state) }
{
    out.extend_from_slice(b"vars A, B, C, D\nprove ")?;
    write_term(out, names, draws)?;
    out.extend_from_slice(b" + ")?;
    write_term(out, names, draws)?;
    out.extend_from_slice(b" + ")?;
    write_term(out, names, draws)?;
    out.extend_from_slice(b" >= ")?;
    write_bound(out, names, draws)?;
    out.extend_from_slice(b"\n")
}

/// Appends a drawn elemental inequality with a drawn coefficient.
#[tactic(auto, unfolding(crate::specs::GeneratedFiles::generated_term_text))]
fn write_term(out: &mut Vec<u8>, names: &Names, draws: &mut Draws) -> Result<(), AllocError>
    requires { names.now.variables ≡ four_names }
    ensures text { OnOk result (out.new.items ≡ out.old.items ++ generated_term_text draws.old.state) }
    ensures state { OnOk result (draws.new.state ≡ state_after 2 draws.old.state) }
{
    let coefficient = 1 + draws.draw(4);
    let inequality = draws.draw(INEQUALITIES);
    write_number(out, coefficient as usize)?;
    out.extend_from_slice(b" ")?;
    write_elemental(out, names, inequality)
}

/// Appends a drawn multiple of a drawn entropy.
#[tactic(auto, unfolding(crate::specs::GeneratedFiles::bound_text))]
fn write_bound(out: &mut Vec<u8>, names: &Names, draws: &mut Draws) -> Result<(), AllocError>
    requires { names.now.variables ≡ four_names }
    ensures text { OnOk result (out.new.items ≡ out.old.items ++ bound_text draws.old.state) }
    ensures state { OnOk result (draws.new.state ≡ state_after 2 draws.old.state) }
{
    let factor = draws.draw(3);
    let set = VarSet::from_number(1 + draws.draw(NONEMPTY_SETS) as u16);
    write_number(out, factor as usize)?;
    out.extend_from_slice(b" H(")?;
    write_set(out, names, set)?;
    out.extend_from_slice(b")")
}
