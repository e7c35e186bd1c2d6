//! How a file ends behind its entries.

ghost use Rattle.std.specs.Prelude.{◌≡◌};
ghost use Rattle.journal.specs.Endings.{ending_of};

/// How a file ends behind its entries. Whatever stands there counts for nothing, and `recover` takes the file.
#[derive(Clone, Copy, Debug, PartialEq, Eq)]
pub enum Ending {
    /// With the gate, which is closed; or the file is empty.
    Whole,
    /// So many bytes stand behind the closed gate: of entries that were taken out, or whose gate was not opened.
    Behind(usize),
    /// The gate is open, and the bytes behind it, so many, are no whole entry. No crash leaves this where the disk
    /// tells no lie.
    Open(usize),
    /// No gate stands behind the entries. No crash leaves this where the disk tells no lie.
    Missing,
}

/// How a file ends whose entries end at a place, as `read_entries` finds it.
pub fn ending_at(bytes: &[u8], end: usize) -> Ending
    ensures { result ≡ ending_of end bytes.now }
{
    if bytes.len() <= end {
        return if end == 0 {
            Ending::Whole
        } else {
            Ending::Missing
        };
    }
    let behind = bytes.len() - end - 1;
    if bytes[end] == 1 {
        Ending::Open(behind)
    } else if behind == 0 {
        Ending::Whole
    } else {
        Ending::Behind(behind)
    }
}
