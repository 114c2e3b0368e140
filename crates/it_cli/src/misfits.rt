//! The lines of questions that can't have the copies that are asked for.
ghost use Rattle.std.specs.Prelude.{◌≡◌, ◌++◌, IfOk, OnOk, codes};
ghost use Rattle.it_certificate.specs.Values.{misfit_members, report_text, source_texts};
ghost use Rattle.it_copy.specs.declared.types.CopyFault.TheVariants.{Memory};
ghost use Rattle.it_cli.specs.Misfits.{misfit_line, misfit_words};

use it_certificate::{SourceText, misfit_json};
use it_copy::types::CopyFault;
use it_print::write_number;
use std::alloc::{AllocError, Global};

/// Appends why a question can't have the copies; fails for `Memory`, which is no such reason.
fn write_misfit(out: &mut Vec<u8>, fault: CopyFault) -> Result<(), AllocError>
    ensures told { OnOk result (out.new.items ≡ out.old.items ++ misfit_words fault) }
    ensures some { OnOk result (fault ≡ Memory → ⊥) }
{
    match fault {
        CopyFault::Memory => Err(AllocError),
        CopyFault::Verb => out.extend_from_slice(b"verb"),
        CopyFault::Copy { line } => {
            out.extend_from_slice(b"copy ")?;
            write_number(out, line as usize)
        }
        CopyFault::Many => out.extend_from_slice(b"many"),
        CopyFault::Large => out.extend_from_slice(b"large"),
    }
}

/// The line of a report on a question that can't have the copies for which `source` asks.
pub fn misfit_report(
    alloc: Global,
    source: SourceText<'_>,
    fault: CopyFault,
) -> Result<Vec<u8>, AllocError>
    ensures told { IfOk result (λ text. text.items ≡ report_text (source_texts source.entry) (misfit_members (misfit_words fault)) ++ codes "\n") }
    ensures some { IfOk result (λ text. fault ≡ Memory → ⊥) }
{
    let mut words = Vec::new(alloc);
    write_misfit(&mut words, fault)?;
    let mut line = misfit_json(alloc, source, words.as_slice())?;
    line.extend_from_slice(b"\n")?;
    Ok(line)
}

/// The line of question `k`, which can't have the copies.
#[tactic(auto, unfolding(crate::specs::Misfits::misfit_line))]
pub fn misfit_line(alloc: Global, k: usize, fault: CopyFault) -> Result<Vec<u8>, AllocError>
    ensures told { IfOk result (λ text. text.items ≡ misfit_line k fault) }
    ensures some { IfOk result (λ text. fault ≡ Memory → ⊥) }
{
    let mut out = Vec::new(alloc);
    write_number(&mut out, k)?;
    out.extend_from_slice(b" misfit ")?;
    write_misfit(&mut out, fault)?;
    out.extend_from_slice(b"\n")?;
    Ok(out)
}
