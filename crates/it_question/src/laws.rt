//! Laws of the definitions that the contracts cite.
ghost use Rattle.it_question.specs.Files.{FileIsOne, FileFaultIsOne, FileOrFault, FileHasOne, TextReadsBack, QuestionStandsAlone};
ghost use Rattle.it_question.specs.AsciiTexts.{TextsAreAscii};

/// A file has at most one reading, or has at most one first fault, and not both.
pub fn file_is_one()
    ensures one { FileIsOne }
    ensures fault { FileFaultIsOne }
    ensures either { FileOrFault }
{}

/// A file has a reading or a first fault.
pub fn file_has_one()
    ensures { FileHasOne }
{}

/// The text of a question reads as that question alone, with the same text.
#[tactic(auto, using(crate::proofs::TextLaws::text_reads_back))]
pub fn text_reads_back()
    ensures { TextReadsBack }
{}

/// What says a question in a file says that question alone, as a file of its own.
pub fn questions_stand_alone()
    ensures { QuestionStandsAlone }
{}

/// The text of a question and the names that it declares are ASCII, also where the file's comments are not.
pub fn texts_are_ascii()
    ensures { TextsAreAscii }
{}
