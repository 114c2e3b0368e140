//! Readings of command lines, each table as the contract of a function.
ghost use Rattle.it_settings.specs.Rows.{ModesAreRead, FormsAreRead, NumbersAreRead, BenchIsRead, RunsAreRead, CopyIsRead, BestIsRead, SharingIsRead, OuterIsRead, OtherModesAreRead, ReportsAreRead, NamesAreRead};

/// The word for the mode, alone and with others.
#[tactic(auto, using(crate::proofs::RowLemmas::modes_are_read))]
pub fn modes_are_read()
    ensures { ModesAreRead }
{}

/// The spellings of an option.
#[tactic(auto, using(crate::proofs::RowLemmas::forms_are_read))]
pub fn forms_are_read()
    ensures { FormsAreRead }
{}

/// The numbers that an option takes.
#[tactic(auto, using(crate::proofs::RowLemmas::numbers_are_read))]
pub fn numbers_are_read()
    ensures { NumbersAreRead }
{}

/// The options of mode `bench`.
#[tactic(auto, using(crate::proofs::RowLemmas::bench_is_read))]
pub fn bench_is_read()
    ensures { BenchIsRead }
{}

/// The option `--run`, in the modes that answer files.
#[tactic(auto, using(crate::proofs::RowLemmas::runs_are_read))]
pub fn runs_are_read()
    ensures { RunsAreRead }
{}

/// The modes with the options `--run`, `--pivots` and no other but `--names` and `--report`.
#[tactic(auto, using(crate::proofs::RowLemmas::copy_is_read, crate::proofs::RowLemmas::best_is_read, crate::proofs::RowLemmas::sharing_is_read))]
pub fn modes_with_runs_are_read()
    ensures copy { CopyIsRead }
    ensures best { BestIsRead }
    ensures sharing { SharingIsRead }
{}

/// The options of mode `outer`.
#[tactic(auto, using(crate::proofs::RowLemmas::outer_is_read))]
pub fn outer_is_read()
    ensures { OuterIsRead }
{}

/// Options of another mode are refused.
#[tactic(auto, using(crate::proofs::RowLemmas::other_modes_are_read))]
pub fn other_modes_are_read()
    ensures { OtherModesAreRead }
{}

/// The modes that write reports.
#[tactic(auto, using(crate::proofs::RowLemmas::reports_are_read))]
pub fn reports_are_read()
    ensures { ReportsAreRead }
{}

/// The option `--names`, in the modes that read questions.
#[tactic(auto, using(crate::proofs::RowLemmas::names_are_read))]
pub fn names_are_read()
    ensures { NamesAreRead }
{}
