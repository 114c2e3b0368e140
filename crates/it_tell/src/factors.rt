//! What is told of factors.
ghost use Rattle.std.specs.Prelude.{◌≡◌, ◌++◌, IfOk, OnOk};
ghost use Rattle.it_ratio.specs.BestViews.{best_view};
ghost use Rattle.it_report.specs.LineVerdicts.{numbered_line};
ghost use Rattle.it_tell.specs.Tellings.{best_words, factor_words};

use crate::heads::numbered_line;
use it_print::write_signed;
use it_ratio::types::Best;
use std::alloc::{AllocError, Global};

/// Appends a word and a factor.
fn write_factor(out: &mut Vec<u8>, word: &[u8], num: &i128, den: &i128) -> Result<(), AllocError>
    ensures { OnOk result (out.new.items ≡ out.old.items ++ factor_words word.now num.now den.now) }
{
    out.extend_from_slice(word)?;
    out.extend_from_slice(b" ")?;
    write_signed(out, *num)?;
    out.extend_from_slice(b"/")?;
    write_signed(out, *den)
}

/// Appends the words about what is found of factors.
fn write_best(out: &mut Vec<u8>, best: &Best) -> Result<(), AllocError>
    ensures { OnOk result (out.new.items ≡ out.old.items ++ best_words (best_view best.now)) }
{
    match best {
        Best::Least {
            num,
            den,
            proof: _,
            point: _,
        } => write_factor(out, b"best", num, den),
        Best::Never(_) => out.extend_from_slice(b"none"),
        Best::Unbounded {
            num,
            den,
            proof: _,
            below: _,
        } => write_factor(out, b"unbounded", num, den),
        Best::Undecided(_) => out.extend_from_slice(b"undecided"),
    }
}

/// The line about what is found of the factors that line k asks for: the word of its answer and the factor.
pub fn best_line(alloc: Global, k: usize, best: &Best) -> Result<Vec<u8>, AllocError>
    ensures { IfOk result (λ t. t.items ≡ numbered_line k (best_words (best_view best.now))) }
{
    let mut words = Vec::new(alloc);
    write_best(&mut words, best)?;
    numbered_line(alloc, k, words.as_slice())
}
