//! The theorem on drawn questions, as the contract of a function.
ghost use Rattle.it_gen.specs.GeneratedFiles.{GeneratedIsFile};

/// What `questions_of` gives is read as a file of `count` questions, each with the verb `prove`.
pub fn generated_is_file()
    ensures { GeneratedIsFile }
{}
