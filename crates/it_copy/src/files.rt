//! The reader of files with a head.
ghost use Rattle.std.specs.Prelude.{◌≡◌, ◌≤◌, All, IfOk, IfErr, drop, length, map};
ghost use Rattle.it_forms.specs.FormReading.{read};
ghost use Rattle.it_question.specs.Bodies.{body_view};
ghost use Rattle.it_question.specs.Cursors.{ParsesBy};
ghost use Rattle.it_question.specs.Limits.{IsQuestion};
ghost use Rattle.it_copy.specs.CopyForms as forms;
ghost use Rattle.it_copy.specs.CopyLines.{AreNamed, copy_view};
ghost use Rattle.it_copy.specs.Files.{IsCopyFile, IsFirstCopyFault};
ghost use Rattle.it_copy.specs.FileSteps.{file_view};
ghost use Rattle.it_syntax.specs.Lines.{most_text_bytes};

use crate::copy_lines::copies;
use crate::types::{CopyFile, CopyLine};
use it_question::FileLimits;
use it_question::readers::{Body, Cursor, Line, bodies, file_lines, stop_fault, with_texts};
use it_question::types::FileFault;
use it_syntax::rest::Stop;
use std::alloc::{AllocError, Global};

/// A file with a head as it is read: its copies, and its questions without their texts.
#[derive(Drop)]
struct Reading {
    copies: Vec<CopyLine>,
    bodies: Vec<Body>,
}

/// What a file with a head asks, up to its end.
#[tactic(auto, unfolding(crate::specs::CopyForms::copy_file, it_forms::specs::FormReading::read))]
fn whole(alloc: Global, cursor: &mut Cursor<'_>, limits: FileLimits) -> Result<Reading, Stop>
    ensures gives { ParsesBy (λ x. file_view x.copies.items x.bodies.items) result (forms.copy_file limits) cursor.old cursor.new }
    ensures names { IfOk result (λ x. AreNamed x.copies.items) }
    ensures few { IfOk result (λ x. length x.copies.items ≤ 4) }
    ensures limits { IfOk result (λ x. All (λ b. IsQuestion (body_view b)) x.bodies.items) }
{
    let copies = copies(alloc, cursor)?;
    let bodies = bodies(alloc, cursor, limits)?;
    Ok(Reading { copies, bodies })
}

/// `lines` without the first `n`.
#[tactic(auto, using(std::proofs::lemmas::List::drop_min))]
fn without_first(lines: Vec<Line>, n: usize) -> Result<Vec<Line>, AllocError>
    ensures { IfOk result (λ after. after.items ≡ drop n lines.items) }
{
    let mut lines = lines;
    let after = lines.split_off(n.min(lines.len()))?;
    Ok(after)
}

/// What a file with a head asks: up to four copies, each in a line `copy`, a name, `of`, a name, `over`, and one to four names
/// with commas between them or 0; and the questions of the question file after these lines, with these limits.
///
/// The fault is the first one at which no rule of the language goes on, with the codes and the places of question files: in the
/// head `Word` also at `H` and `I` in the place of a name, `Many` at the word `copy` of a fifth copy and at a fifth name.
pub fn copy_file(alloc: Global, bytes: &[u8], limits: FileLimits) -> Result<CopyFile, FileFault>
    requires { length bytes.now ≤ most_text_bytes }
    ensures read { IfOk result (λ f. IsCopyFile limits bytes.now (map copy_view f.copies.items) f.questions.items) }
    ensures limits { IfOk result (λ f. All (λ q. IsQuestion q.body) f.questions.items) }
    ensures names { IfOk result (λ f. AreNamed f.copies.items) }
    ensures few { IfOk result (λ f. length f.copies.items ≤ 4) }
    ensures fault { IfErr result (IsFirstCopyFault limits bytes.now) }
{
    let lines = file_lines(alloc, bytes)?;
    let mut cursor = Cursor::at(lines.as_slice());
    match whole(alloc, &mut cursor, limits) {
        Ok(read) => {
            let after = without_first(lines, read.copies.len())?;
            let questions = with_texts(alloc, after, read.bodies)?;
            Ok(CopyFile {
                copies: read.copies,
                questions,
            })
        }
        Err(stop) => Err(stop_fault(lines.as_slice(), cursor, stop)),
    }
}
