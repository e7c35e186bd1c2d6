//! Names and strings as text (RFC 1035 section 5.1).

ghost use Rattle.std.specs.Prelude.{◌≡◌, Some};
ghost use Rattle.std.specs.Fmt.{WritesOnOk};
ghost use Rattle.std.specs.Str.{IsAscii};
ghost use Rattle.wire_names.specs.text.TextForm.{is_special, is_plain, byte_text, bytes_text, spelled_name};

use crate::rr::domain::lower_name::LowerName;
use crate::rr::domain::name::Name;
use std::{fmt, str};

/// A byte of a text, escaped where it would not stand for itself.
#[derive(Clone, Copy)]
pub(crate) struct TextByte {
    /// The byte.
    pub(crate) byte: u8,
    /// Whether it stands within quotes, where only `"` and `\` have a meaning.
    pub(crate) quoted: bool,
}

impl TextByte {
    /// Whether it has a meaning of its own, so that a backslash stands before it.
    fn is_special(self) -> bool
        ensures { result ≡ is_special self.quoted self.byte }
    {
        match self.byte {
            b'"' | b'\\' => true,
            b'$' | b'(' | b')' | b'.' | b';' | b'@' => !self.quoted,
            _ => false,
        }
    }

    /// Whether it is printed as it is, behind a backslash or not.
    fn is_plain(self) -> bool
        ensures { result ≡ is_plain self.quoted self.byte }
    {
        match self.byte {
            b' ' => self.quoted,
            byte => b' ' < byte && byte < 0x7f,
        }
    }
}

impl fmt::Display for TextByte {
    ghost output = { λ t. Some (byte_text t.quoted t.byte) };

    fn fmt<W: fmt::Write>(&self, f: &mut fmt::Formatter<W>) -> fmt::Result {
        let byte = self.byte;
        if self.is_special() {
            return write_ascii(f, &[b'\\', byte]);
        }
        if self.is_plain() {
            return write_ascii(f, &[byte]);
        }
        let digits = [
            b'\\',
            b'0' + byte / 100,
            b'0' + byte / 10 % 10,
            b'0' + byte % 10,
        ];
        write_ascii(f, &digits)
    }
}

/// Writes ASCII text.
fn write_ascii<W: fmt::Write>(f: &mut fmt::Formatter<W>, text: &[u8]) -> fmt::Result
    ensures { WritesOnOk W.Write.write_str_gives f.old result text.now f.new }
{
    f.write_str(str::from_utf8(text).map_err(|_| fmt::Error)?)
}

/// Bytes as text, with what would not stand for itself escaped.
#[derive(Clone, Copy)]
pub struct TextBytes<'a> {
    /// The bytes.
    pub bytes: &'a [u8],
    /// Whether they stand within quotes, where only `"` and `\` have a meaning.
    pub quoted: bool,
}

impl fmt::Display for TextBytes<'_> {
    ghost output = { λ t. Some (bytes_text t.quoted t.bytes.now) };

    fn fmt<W: fmt::Write>(&self, f: &mut fmt::Formatter<W>) -> fmt::Result {
        for byte in self.bytes {
            f.write(TextByte {
                byte: *byte,
                quoted: self.quoted,
            })?;
        }
        Ok(())
    }
}

/// The labels with dots between them, and a final dot where the name is fully qualified; the root is `.`
/// (RFC 1035 section 5.1). A name without labels that is not fully qualified is `@`.
///
/// The letter case is kept. In a label `"`, `$`, `(`, `)`, `.`, `;`, `@` and `\` stand behind a backslash, and each
/// byte that is no printable ASCII character, or a space, is a backslash and three decimal digits.
impl fmt::Display for Name {
    ghost output = { λ name. Some (spelled_name name) };

    fn fmt<W: fmt::Write>(&self, f: &mut fmt::Formatter<W>) -> fmt::Result {
        let wire = self.as_wire();
        if wire.is_empty() {
            return f.write_str(if self.is_fqdn() { "." } else { "@" });
        }
        let mut count = 0usize;
        let mut place = 0;
        while place < wire.len() {
            let end = place + 1 + usize::from(wire[place]);
            let dot = if count == 0 { "" } else { "." };
            let label = TextBytes {
                bytes: &wire[place + 1..end],
                quoted: false,
            };
            write!(f, "{dot}{label}")?;
            count += 1;
            place = end;
        }
        f.write_str(if self.is_fqdn() { "." } else { "" })
    }
}

/// The text of the name that it holds.
impl fmt::Display for LowerName {
    ghost output = { λ lower. Some (spelled_name lower) };

    fn fmt<W: fmt::Write>(&self, f: &mut fmt::Formatter<W>) -> fmt::Result {
        self.as_name().fmt(f)
    }
}
