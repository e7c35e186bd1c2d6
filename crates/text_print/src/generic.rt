//! Data in the form that is one for all types (RFC 3597 section 5), printed behind text, with a space before each word.

ghost use Rattle.std.specs.Prelude.{◌≡◌, ◌++◌, ◌^◌, ◌<◌, ℕ, length, string_bytes, OnOk};
ghost use Rattle.text_print.specs.PrintedData.{ArePrintedData, PutsWords};

use std::alloc::{AllocError, Global};

/// Puts bytes: `\#`, how many there are, and two hexadecimal digits for each.
pub(crate) fn put_generic(alloc: Global, data: &[u8], out: &mut String) -> Result<(), AllocError>
    requires { length «data».now < 2 ^ 16 }
    ensures { OnOk result ((number : ℕ) →
        PutsWords (λ printed. ArePrintedData number printed «data».now) (string_bytes out.old) (string_bytes out.new)) }
{
    let len = data.len();
    write!(out, " \\# {len}")?;
    if data.is_empty() {
        return Ok(());
    }
    let digits = hex::encode_upper(alloc, data)?;
    write!(out, " {digits}")
}
