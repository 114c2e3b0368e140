//! Theorems on copies, each as the contract of a function.
ghost use Rattle.it_copy.specs.Files.{CopiedQuestionsAreWithin, CopyFaultIsOne, CopyFileHasOne, CopyFileIsOne, CopyFileOrFault};
ghost use Rattle.it_copy.specs.Points.{ExtensionOrMisfit, OneExtension, OneMisfit, YesByCopies};

/// What holds at every polymatroid that meets a question with copies holds wherever the question's own entropies have such copies.
pub fn yes_by_copies()
    ensures { YesByCopies }
{}

/// A question has one extension by some copies, or one reason against them, and not both.
pub fn copies_are_determined()
    ensures extension { OneExtension }
    ensures misfit { OneMisfit }
    ensures either { ExtensionOrMisfit }
{}

/// A file with a head has at most one reading, or has at most one first fault, and not both.
pub fn heads_are_one()
    ensures one { CopyFileIsOne }
    ensures fault { CopyFaultIsOne }
    ensures either { CopyFileOrFault }
{}

/// A file with a head has a reading or a first fault.
pub fn heads_have_one()
    ensures { CopyFileHasOne }
{}

/// The questions of a file with a head are within the limits, so what holds of all such questions with copies holds of these.
pub fn copied_questions_are_within()
    ensures { CopiedQuestionsAreWithin }
{}
