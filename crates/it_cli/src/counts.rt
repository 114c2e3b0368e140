//! The number of answers of each kind.
ghost use Rattle.std.specs.Prelude.{◌≡◌, ◌<◌, ◌^◌, ◌++◌, IfOk, OnOk, codes, decimal};
ghost use Rattle.it_space.specs.Answers.{answer_view};
ghost use Rattle.it_cli.specs.Counts.{bench_line, no_counts, with_answer};
ghost use Rattle.it_cli.specs.CountSteps.{total, outcomes_text, regions_text};

use it_print::write_number;
use it_space::Answer;
use std::alloc::{AllocError, Global};

/// The number of answers of each kind.
#[derive(Clone, Copy)]
pub struct Counts {
    pub yes: usize,
    pub no: usize,
    pub undecided: usize,
    pub regions: usize,
    pub contained: usize,
    pub left_open: usize,
}

impl Counts {
    /// Counts of no answers.
    pub fn new() -> Counts
        ensures { result ≡ no_counts }
    {
        Counts {
            yes: 0,
            no: 0,
            undecided: 0,
            regions: 0,
            contained: 0,
            left_open: 0,
        }
    }

    /// The counts with one more answer.
    pub fn with_answer(self, answer: &Answer) -> Counts
        requires few { total self < 2 ^ 63 }
        ensures { result ≡ with_answer self (answer_view answer.now) }
    {
        match answer {
            Answer::Yes(_) => Counts {
                yes: self.yes + 1,
                ..self
            },
            Answer::No { .. } => Counts {
                no: self.no + 1,
                ..self
            },
            Answer::Undecided(_) => Counts {
                undecided: self.undecided + 1,
                ..self
            },
            Answer::Region(_) => Counts {
                regions: self.regions + 1,
                ..self
            },
            Answer::Contained { .. } => Counts {
                contained: self.contained + 1,
                ..self
            },
            Answer::Open { .. } => Counts {
                left_open: self.left_open + 1,
                ..self
            },
        }
    }
}

/// Appends a word, and a number after it.
fn write_count(out: &mut Vec<u8>, word: &[u8], count: usize) -> Result<(), AllocError>
    ensures { OnOk result (out.new.items ≡ out.old.items ++ word.now ++ decimal count) }
{
    out.extend_from_slice(word)?;
    write_number(out, count)
}

/// Appends the seed and the count of questions that were asked for.
fn write_asked(out: &mut Vec<u8>, seed: u32, count: u32) -> Result<(), AllocError>
    ensures { OnOk result (out.new.items ≡ out.old.items ++ codes "bench seed " ++ decimal seed ++ codes " count " ++ decimal count) }
{
    write_count(out, b"bench seed ", seed as usize)?;
    write_count(out, b" count ", count as usize)
}

/// Appends the numbers of answers that are a yes, a no, or undecided.
fn write_outcomes(out: &mut Vec<u8>, counts: Counts) -> Result<(), AllocError>
    ensures { OnOk result (out.new.items ≡ out.old.items ++ outcomes_text counts) }
{
    write_count(out, b" yes ", counts.yes)?;
    write_count(out, b" no ", counts.no)?;
    write_count(out, b" undecided ", counts.undecided)
}

/// Appends the numbers of answers about regions: of regions, of substitutions that were found, and of searches that found none.
fn write_regions(out: &mut Vec<u8>, counts: Counts) -> Result<(), AllocError>
    ensures { OnOk result (out.new.items ≡ out.old.items ++ regions_text counts) }
{
    write_count(out, b" region ", counts.regions)?;
    write_count(out, b" contained ", counts.contained)?;
    write_count(out, b" open ", counts.left_open)
}

/// The line of mode `bench` for a seed and a count of questions.
#[tactic(auto, unfolding(crate::specs::Counts::bench_line))]
pub fn bench_line(
    alloc: Global,
    seed: u32,
    count: u32,
    counts: Counts,
) -> Result<Vec<u8>, AllocError>
    ensures { IfOk result (λ line. line.items ≡ bench_line seed count counts) }
{
    let mut line = Vec::new(alloc);
    write_asked(&mut line, seed, count)?;
    write_outcomes(&mut line, counts)?;
    write_regions(&mut line, counts)?;
    line.extend_from_slice(b"\n")?;
    Ok(line)
}
