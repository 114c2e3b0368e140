//! What is asked of a file.

use it_answer::Budgets;
use it_prove::Effort;
use it_question::FileLimits;
use it_settings::types::Format;

/// The limits of a file, whether its replies are lines of a report, and the effort for each target.
#[derive(Clone, Copy)]
pub struct Request {
    pub limits: FileLimits,
    pub report: bool,
    pub effort: Effort,
}

/// The limits of a question file, the format of its answers, and the budgets of each.
#[derive(Clone, Copy)]
pub struct AnswerRequest {
    pub limits: FileLimits,
    pub format: Format,
    pub budgets: Budgets,
}
