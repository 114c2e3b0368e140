//! The lines with which an input is refused.
ghost use Rattle.std.specs.Prelude.{◌≡◌, ◌++◌, IfOk, OnOk, codes, decimal};
ghost use Rattle.it_cli.specs.Refusals.{code_word, fault_line};

use it_print::write_number;
use it_syntax::types::Code;
use std::alloc::{AllocError, Global};

/// The line of an input of too many bytes.
pub const LONG: &[u8] = b"refused long\n";

/// The word of a code in the line of a fault.
#[tactic(auto, unfolding(crate::specs::Refusals::code_word))]
fn word(code: Code) -> &'static [u8]
    ensures { result.now ≡ code_word code }
{
    match code {
        Code::Byte => b"byte",
        Code::Word => b"word",
        Code::Name => b"name",
        Code::Twice => b"twice",
        Code::Number => b"number",
        Code::Many => b"many",
        Code::Unfinished => b"unfinished",
        Code::Large => b"large",
    }
}

/// Appends a line and a column.
fn write_place(out: &mut Vec<u8>, line: u32, column: u32) -> Result<(), AllocError>
    ensures { OnOk result (out.new.items ≡ out.old.items ++ decimal line ++ codes ":" ++ decimal column) }
{
    write_number(out, line as usize)?;
    out.extend_from_slice(b":")?;
    write_number(out, column as usize)
}

/// The line of a file's first fault.
#[tactic(auto, unfolding(crate::specs::Refusals::fault_line))]
pub fn fault_line(alloc: Global, line: u32, column: u32, code: Code) -> Result<Vec<u8>, AllocError>
    ensures { IfOk result (λ text. text.items ≡ fault_line line column code) }
{
    let mut out = Vec::new(alloc);
    out.extend_from_slice(b"refused ")?;
    write_place(&mut out, line, column)?;
    out.extend_from_slice(b" ")?;
    out.extend_from_slice(word(code))?;
    out.extend_from_slice(b"\n")?;
    Ok(out)
}
