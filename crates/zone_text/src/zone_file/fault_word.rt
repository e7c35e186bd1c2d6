//! The field of a zone file that is wrong.

ghost use Rattle.std.specs.Prelude.{◌≡◌, ◌↔◌, ◌≤◌, length, min, take, IsTrue};

use std::fmt;

/// How many bytes of a field are kept to be shown.
const MOST_SHOWN: usize = 40;

/// The front of a field that is wrong, to be shown: at most 40 bytes of it.
#[derive(Clone, Copy, Debug, PartialEq, Eq)]
pub struct FaultWord {
    bytes: [u8; MOST_SHOWN],
    len: usize,
    is_whole: bool,
    ghost within: { len ≤ 40 },
}

impl FaultWord {
    /// The front of a field.
    pub(crate) fn new(field: &[u8]) -> FaultWord
        ensures len { result.len ≡ min 40 (length field.now) }
        ensures shown { take result.len result.bytes ≡ take result.len field.now }
        ensures whole { IsTrue result.is_whole ↔ (length field.now ≤ 40) }
    {
        let len = MOST_SHOWN.min(field.len());
        let mut bytes = [0; MOST_SHOWN];
        bytes[..len].copy_from_slice(&field[..len]);
        FaultWord {
            bytes,
            len,
            is_whole: field.len() <= MOST_SHOWN,
        }
    }

    /// The bytes that are shown: all of the field, or its first 40.
    pub fn as_bytes(&self) -> &[u8]
        ensures { result.now ≡ take self.now.len self.now.bytes }
    {
        &self.bytes[..self.len]
    }

    /// Whether they are all of the field.
    pub fn is_whole(&self) -> bool
        ensures { result ≡ self.now.is_whole }
    {
        self.is_whole
    }
}

/// A colon and the field in quotes, with `..` behind where it is cut; bytes that are no visible ASCII are a backslash
/// and three decimal digits. Nothing, where there is no field.
impl fmt::Display for FaultWord {
    fn fmt<W: fmt::Write>(&self, f: &mut fmt::Formatter<W>) -> fmt::Result {
        if self.len == 0 {
            return Ok(());
        }
        f.write_str(": \"")?;
        for byte in self.as_bytes() {
            match *byte {
                b' '..=b'~' => write!(f, "{}", char::from(*byte))?,
                other => write!(f, "\\{other:03}")?,
            }
        }
        f.write_str(if self.is_whole { "\"" } else { "..\"" })
    }
}
