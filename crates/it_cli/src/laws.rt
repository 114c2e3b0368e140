//! Theorems on how a call ends and on what it writes, each as the contract of a function.
ghost use Rattle.it_answer.specs.RightAnswers.{AYesAscends, FileIsInReach, NoStepIsZero, OneRightAnswer};
ghost use Rattle.it_cli.specs.Accepted.{OutputIsAccepted, ReportsAreAccepted};
ghost use Rattle.it_cli.specs.Laws.{BenchReadsNothing, CopiesAreInReach, CountsAddUp, CountsArePrefix, CountsAreWritten, FaultIsDue, Headline, IsComplete, LongIsDue, ModesAreDetermined, ModesHaveOneReading, NoLineIsOutOfSteps, OneOutput, SharingIsInReach, SureEnds, UsageIsDue, VerdictsArePrefix, VerdictsAreWritten};
ghost use Rattle.it_cli.specs.Written.{AnswersAreTrue, AnswersShow, BoundsAreTrue, CopiesAreTrue, FactorsAreTrue, SharingIsTrue};

use it_answer::{answers_are_determined, files_are_in_reach, shown_answers_are_true};
use it_bounds::shown_bounds_are_true;
use it_certificate::{answers_read_back, origins_read_back};
use it_copy::{copied_questions_are_within, copies_are_determined, heads_are_one, yes_by_copies};
use it_factor::{replies_are_determined, shown_factors_are_true};
use it_gen::generated_is_file;
use it_question::file_is_one;
use it_report::{each_line_is_judged, verdict_is_one};
use it_sharing::{made_question_is_of_perfect_sharing, sharing_is_one, sharing_is_within};

/// What a call that is done has written: in each mode with an input the whole output for all that the source gave; in mode `check` this
/// is the verdict on each line. In mode `bench`: the counts of right answers to a generated file.
pub fn headline()
    ensures output { Headline }
    ensures verdicts { VerdictsAreWritten }
    ensures counts { CountsAreWritten }
{}

/// Where the words have a reading, the input (if the mode has one) is given whole and has a reading, and no fault is counted,
/// the whole output is written, or allocation failed.
pub fn is_complete()
    ensures { IsComplete }
{
    modes_have_one_reading();
}

/// Over a source and a sink that never count a fault, as `SureSource` and `SureSink` of it_outside, the status is neither
/// `ReadFault` nor `WriteFault`.
pub fn no_fault_without_cause()
    ensures { SureEnds }
{}

/// The usage line and the refusals come where the words or the input call for them, unless a read, a write or an allocation
/// fails. Mode `bench` refuses nothing and leaves the source as it was.
pub fn are_due()
    ensures usage { UsageIsDue }
    ensures long { LongIsDue }
    ensures fault { FaultIsDue }
    ensures bench { BenchReadsNothing }
{
    modes_have_one_reading();
}

/// In each mode the bytes of an input ask for one list of items, or have one first fault, and not both.
pub fn modes_have_one_reading()
    ensures { ModesHaveOneReading }
{
    file_is_one();
    heads_are_one();
    copies_are_determined();
    sharing_is_one();
}

/// The defined run about each question that a mode answers without `--names` is in reach: one of a file, with copies or without, and one
/// that is made of a sharing file.
pub fn questions_are_in_reach()
    ensures file { FileIsInReach }
    ensures copies { CopiesAreInReach }
    ensures sharing { SharingIsInReach }
{
    files_are_in_reach();
}

/// Where targets of usual files are decided by the defined run alone, each item that an input asks for has one right reply.
pub fn modes_are_determined()
    ensures { ModesAreDetermined }
{
    modes_have_one_reading();
    answers_are_determined();
    file_is_one();
    verdict_is_one();
    heads_are_one();
    copies_are_determined();
    replies_are_determined();
    it_bounds::replies_are_determined();
    questions_are_in_reach();
}

/// What modes `check` and `bench` have written of an output in part is a prefix of a whole output.
pub fn parts_are_prefixes()
    ensures verdicts { VerdictsArePrefix }
    ensures counts { CountsArePrefix }
{
    each_line_is_judged();
}

/// Each answer whose lines are written after `Done` in mode `answer` shows what it says.
pub fn answers_show()
    ensures { AnswersShow }
{}

/// Each answer whose lines are written after `Done` in mode `answer` is true of its question. A yes: the relation holds at every
/// polymatroid and rates that make the lines true. A no: its values are ones at which it doesn't. A region: its rows hold exactly at
/// the points that extend to the eliminated rates, and no row that is marked as needed follows from the others. A containment: the
/// first region lies in the second.
pub fn answers_are_true()
    ensures { AnswersAreTrue }
{
    shown_answers_are_true();
}

/// Each reply whose lines are written after `Done` in mode `copy` is true of its question. A yes: the question's relation holds at
/// every polymatroid and rates that have such copies. Another answer is true of the question with the copies, and a misfit is why the
/// question can't have them.
pub fn copies_are_true()
    ensures { CopiesAreTrue }
{
    shown_answers_are_true();
    yes_by_copies();
    copied_questions_are_within();
}

/// Each reply whose lines are written after `Done` in mode `best` is true of its question. A least factor holds wherever the question's
/// lines are true, and no smaller one does; where none is told, none holds; where no least one is, the one that is told and all smaller
/// ones hold. With copies this is said of the factors that hold for the question's relation wherever there are such copies, and a misfit
/// is why the question can't have them.
pub fn factors_are_true()
    ensures { FactorsAreTrue }
{
    shown_factors_are_true();
    copied_questions_are_within();
}

/// Each reply whose lines are written after `Done` in mode `outer` is true of its question. Its rows hold exactly at the rates
/// of which some whole multiple is that of a polymatroid at which all lines are true, with some values of the eliminated rates;
/// its rays are such, and span all that the rows allow; and no row that is marked as needed follows from the others.
pub fn bounds_are_true()
    ensures { BoundsAreTrue }
{
    shown_bounds_are_true();
}

/// The reply whose lines are written after `Done` in mode `sharing` is true of the file. A yes: the relation holds wherever a
/// polymatroid shares the secret perfectly. A no: its values are such a polymatroid at which it doesn't. What is said of factors is true
/// of those that hold at all such polymatroids.
pub fn sharing_is_true()
    ensures { SharingIsTrue }
{
    shown_answers_are_true();
    shown_factors_are_true();
    made_question_is_of_perfect_sharing();
    sharing_is_within();
}

/// Where targets are decided by the defined run alone, a question about which it is in reach has one right answer for given budgets and
/// boxes, and so an input with the usual limits has one output. However they are decided, certificates list their generators in ascending order.
pub fn output_is_determined()
    ensures answer { OneRightAnswer }
    ensures ascends { AYesAscends }
    ensures output { OneOutput }
{
    answers_are_determined();
    modes_are_determined();
}

/// The counts of mode `bench` are of yes, no and undecided alone, and sum to the count of questions.
pub fn counts_add_up()
    ensures { CountsAddUp }
{
    generated_is_file();
    file_is_one();
}

/// With `--pivots none` no answer to a question about which the defined run is in reach is `undecided pivots`.
pub fn never_out_of_steps()
    ensures { NoLineIsOutOfSteps }
{
    it_prove::never_out_of_steps();
}

/// `undecided width 0` is never written: a step that is too wide counts from 1.
pub fn no_step_is_zero()
    ensures { NoStepIsZero }
{
    it_answer::no_step_is_zero();
}

/// The line of a right answer in the formats `json` and `derived`, where it is checked, is valid or skipped.
pub fn reports_are_accepted()
    ensures { ReportsAreAccepted }
{
    answers_read_back();
    origins_read_back();
}

/// Where the output of mode `answer` in the format `json` or `derived` is checked as a report, the status is `Done`.
pub fn output_is_accepted()
    ensures { OutputIsAccepted }
{
    answers_read_back();
    origins_read_back();
}
