//! Numbers, and texts with a separator between them.
ghost use Rattle.std.specs.Prelude.{◌≡◌, [], ◌∷◌, ◌++◌, ◌||◌, OnOk, IfOk, decimal, if◌then◌else◌};
ghost use Rattle.std.specs.Fmt.{signed_decimal};
ghost use Rattle.it_print.specs.Lines.{joined_texts};

use itoa::Buffer;
use std::alloc::AllocError;

/// Appends `number` in decimal digits.
pub fn write_number(out: &mut Vec<u8>, number: usize) -> Result<(), AllocError>
    ensures { OnOk result (out.new.items ≡ out.old.items ++ decimal number) }
{
    let mut buffer = Buffer::new();
    out.extend_from_slice(buffer.format(number).as_bytes())
}

/// Appends `number` in decimal digits, after `-` if it is below 0.
pub fn write_signed(out: &mut Vec<u8>, number: i128) -> Result<(), AllocError>
    ensures { OnOk result (out.new.items ≡ out.old.items ++ signed_decimal number) }
{
    let mut buffer = Buffer::new();
    out.extend_from_slice(buffer.format(number).as_bytes())
}

/// Appends the separator, if `some`: a text stands before.
pub fn write_between(out: &mut Vec<u8>, some: bool, separator: &[u8]) -> Result<(), AllocError>
    ensures { OnOk result (out.new.items ≡ out.old.items ++ (if some then separator.now else [])) }
{
    if some {
        out.extend_from_slice(separator)?;
    }
    Ok(())
}

/// Appends `text` if it is wanted, after the separator if `some`: a text stands before. Gives whether a text stands there now.
pub fn write_if(
    out: &mut Vec<u8>,
    some: bool,
    separator: &[u8],
    wanted: bool,
    text: &[u8],
) -> Result<bool, AllocError>
    ensures written { OnOk result (out.new.items ≡ out.old.items ++ joined_texts separator.now some (if wanted then text.now ∷ [] else [])) }
    ensures now { IfOk result (λ b. b ≡ (some || wanted)) }
{
    if !wanted {
        return Ok(some);
    }
    write_between(out, some, separator)?;
    out.extend_from_slice(text)?;
    Ok(true)
}
