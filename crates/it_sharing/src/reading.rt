//! The reader of sharing files.
ghost use Rattle.std.specs.Prelude.{◌≡◌, ◌+◌, ◌≤◌, length, OnOk, IfOk, IfErr};
ghost use Rattle.it_question.specs.Cursors.{Parses, ParsesBy};
ghost use Rattle.it_question.specs.NewNames.{no_names};
ghost use Rattle.it_forms.specs.FormReading.{read};
ghost use Rattle.it_sharing.specs.Sharings.{IsBoundWhereBest};
ghost use Rattle.it_sharing.specs.SharingFiles.{IsSharingFile, IsFirstSharingFault};
ghost use Rattle.it_sharing.specs.SharingForms as forms;
ghost use Rattle.it_question.specs.QuestionLimits.{most_file_bytes};
ghost use Rattle.it_space.specs.Spaces.{most_variables};
ghost use Rattle.it_sharing.specs.Parties.{parties_within};

use crate::aims::aim;
use crate::lists::{QUALIFIED, list, more_lists};
use crate::types::Sharing;
use it_question::FileLimits;
use it_question::readers::{
    Cursor, NameSort, file_end, file_lines, line_end, names_to_end, new_name, stop_fault, word,
};
use it_question::types::FileFault;
use it_syntax::Names;
use it_syntax::rest::Stop;
use std::alloc::Global;

/// Before the name of the secret.
const SECRET: &[u8] = b"secret";

/// Before the names of the parties.
const PARTIES: &[u8] = b"parties";

/// The most parties where nothing else is said: with the secret they are nine variables, with which no table is too large.
const MOST_PARTIES: usize = 8;

/// The most parties of a file with these limits.
fn most_parties(limits: FileLimits) -> usize
    ensures most { result ≡ parties_within limits }
    ensures few { 1 + result ≤ most_variables }
{
    if limits.large_tables {
        limits.most_names().saturating_sub(1)
    } else {
        MOST_PARTIES
    }
}

/// The name of the secret, up to the line's end.
#[tactic(auto, unfolding(it_forms::specs::FormReading::read))]
fn secret(cursor: &mut Cursor<'_>, names: &mut Names) -> Result<(), Stop>
    requires { names.old ≡ no_names }
    ensures gives { ParsesBy (λ x. names.new) result forms.secret_name cursor.old cursor.new }
    ensures one { OnOk result (length names.new.variables ≡ 1) }
{
    new_name(cursor, names, NameSort::Variable, 1)?;
    line_end(cursor)
}

/// The names of the parties, up to the line's end.
fn parties(cursor: &mut Cursor<'_>, names: &mut Names, limits: FileLimits) -> Result<(), Stop>
    requires { length names.old.variables ≡ 1 }
    ensures { ParsesBy (λ x. names.new) result (forms.party_names limits names.old) cursor.old cursor.new }
{
    names_to_end(cursor, names, NameSort::Variable, 1 + most_parties(limits))
}

/// What a file says, up to its end.
#[tactic(auto, unfolding(crate::specs::SharingForms::sharing, it_forms::specs::FormReading::read))]
fn whole(alloc: Global, cursor: &mut Cursor<'_>, limits: FileLimits) -> Result<Sharing, Stop>
    ensures { Parses result (forms.sharing limits) cursor.old cursor.new }
{
    let mut names = Names::new(alloc);
    word(cursor, SECRET)?;
    secret(cursor, &mut names)?;
    word(cursor, PARTIES)?;
    parties(cursor, &mut names, limits)?;
    word(cursor, QUALIFIED)?;
    let first = list(cursor, &names)?;
    let qualified = more_lists(alloc, first, cursor, &names)?;
    let (best, relation) = aim(alloc, cursor, &names)?;
    file_end(cursor)?;
    Ok(Sharing {
        names,
        qualified,
        best,
        relation,
    })
}

/// What a sharing file says, within these limits. Its lines are `secret` and a name, `parties` and 1 to 8 names, or more where tables
/// may have any size, 1 to 64 times `qualified` and a list of parties, and `prove` and a relation, or `best` and a relation with `>=`.
///
/// The fault is the first one at which no rule of the language goes on, with the codes and the places of question files:
/// `Name` also at the secret in a list of parties, `Many` at a party past the limit and at the 65th `qualified`, `Word` at another
/// sign after `best` and at what stands after the last line, `Unfinished` at the file's end before it.
pub fn sharing(alloc: Global, bytes: &[u8], limits: FileLimits) -> Result<Sharing, FileFault>
    requires { length bytes.now ≤ most_file_bytes }
    ensures read { IfOk result (IsSharingFile limits bytes.now) }
    ensures bound { IfOk result IsBoundWhereBest }
    ensures fault { IfErr result (IsFirstSharingFault limits bytes.now) }
{
    let lines = file_lines(alloc, bytes)?;
    let mut cursor = Cursor::at(lines.as_slice());
    match whole(alloc, &mut cursor, limits) {
        Ok(sharing) => Ok(sharing),
        Err(stop) => Err(stop_fault(lines.as_slice(), cursor, stop)),
    }
}
