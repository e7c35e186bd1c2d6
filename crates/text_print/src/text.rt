//! Single words behind text, each behind a space.

ghost use Rattle.std.specs.Prelude.{◌≡◌, true, false, ◌∷◌, ◌++◌, [], decimal, string_bytes, OnOk};
ghost use Rattle.wire_names.specs.text.TextForm.{bytes_text};
ghost use Rattle.text_print.specs.PrintedData.{PutsClass, PutsType};

use hickory_wire::DNSClass;
use record_text::row_of;
use std::alloc::AllocError;
use wire_names::rr::domain::name_display::TextBytes;

/// Puts a number.
pub(crate) fn put_number(number: u32, out: &mut String) -> Result<(), AllocError>
    ensures { OnOk result (string_bytes out.new ≡ string_bytes out.old ++ 32 ∷ decimal number) }
{
    write!(out, " {number}")
}

/// Puts a string in quotes.
pub(crate) fn put_quoted(bytes: &[u8], out: &mut String) -> Result<(), AllocError>
    ensures { OnOk result (string_bytes out.new ≡ string_bytes out.old ++ 32 ∷ 34 ∷
        (bytes_text true bytes.now ++ 34 ∷ [])) }
{
    let text = TextBytes {
        bytes,
        quoted: true,
    };
    write!(out, " \"{text}\"")
}

/// Puts a string in no quotes, which must be such that it stands as it is.
pub(crate) fn put_bare(bytes: &[u8], out: &mut String) -> Result<(), AllocError>
    ensures { OnOk result (string_bytes out.new ≡ string_bytes out.old ++ 32 ∷ bytes_text true bytes.now) }
{
    let text = TextBytes {
        bytes,
        quoted: true,
    };
    write!(out, " {text}")
}

/// Puts a label, and a dot behind it.
pub(crate) fn put_label(bytes: &[u8], out: &mut String) -> Result<(), AllocError>
    ensures { OnOk result (string_bytes out.new ≡ string_bytes out.old ++ (bytes_text false bytes.now ++ 46 ∷ [])) }
{
    let text = TextBytes {
        bytes,
        quoted: false,
    };
    write!(out, "{text}.")
}

/// Puts a type: its mnemonic, or `TYPE` and its number (RFC 3597 section 5).
pub(crate) fn put_type(number: u16, out: &mut String) -> Result<(), AllocError>
    ensures { OnOk result (PutsType number (string_bytes out.old) (string_bytes out.new)) }
{
    match row_of(number) {
        Some(row) => write!(out, " {}", row.mnemonic),
        None => write!(out, " TYPE{number}"),
    }
}

/// Puts a class: `IN`, or `CLASS` and its number (RFC 3597 section 5).
pub(crate) fn put_class(class: DNSClass, out: &mut String) -> Result<(), AllocError>
    ensures { OnOk result (PutsClass class (string_bytes out.old) (string_bytes out.new)) }
{
    if class == DNSClass::IN {
        return out.push_str(" IN");
    }
    let number = class.value();
    write!(out, " CLASS{number}")
}
