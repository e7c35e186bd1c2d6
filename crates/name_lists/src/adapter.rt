//! Lists as people have them, as lists of plain lines.

ghost use Rattle.std.specs.Prelude.{◌≡◌, ◌+◌, ◌^◌, ◌<◌, IfOk, OnOk, IsUtf8, string_bytes};
ghost use Rattle.name_lists.specs.Counts.{AddsLine, IsAdapted, TakesLeft, lines_in};

use crate::gives::read_line;
use crate::report::ListReport;
use crate::words::{split_line, without_mark};
use std::alloc::{AllocError, Global};
use std::marker::Model;

/// The plain lines of a list, one name each, to be read as a list of blocked names.
///
/// A contract sees what is left to be read.
#[derive(Drop)]
pub struct PlainLines {
    text: String,
    // How many bytes of the text were read.
    read: usize,
}

impl Model for PlainLines {
    ghost use Rattle.std.specs.Prelude.{◌≤◌, ℕ, List, drop, string_bytes, string_len};

    ghost Value = { List ℕ };

    ghost view = { λ lines. drop lines.read (string_bytes lines.text) };

    ghost invariant = { λ lines. lines.read ≤ string_len lines.text };
}

/// Adds what a line gives to the plain lines and to the counts.
fn add_line(
    alloc: Global,
    line: &[u8],
    text: &mut String,
    report: &mut ListReport,
) -> Result<(), AllocError>
    requires { lines_in report.old + 1 < 2 ^ 64 }
    ensures { OnOk result (AddsLine line.now (string_bytes text.old) report.old (string_bytes text.new) report.new) }
{
    let Some(names) = read_line(alloc, line)? else {
        report.count_skipped();
        return Ok(());
    };
    if names.as_str().is_empty() {
        report.count_without_names();
        return Ok(());
    }
    text.push_str(names.as_str())?;
    report.count_taken();
    Ok(())
}

/// The plain lines of the names that the lines of a list give, one each, and what became of those lines.
pub fn adapt(alloc: Global, list: &[u8]) -> Result<(PlainLines, ListReport), AllocError>
    ensures adapted { IfOk result (λ r. IsAdapted list.now r.0 r.1) }
    ensures utf8 { IfOk result (λ r. IsUtf8 r.0) }
{
    let mut text = String::new(alloc);
    let mut report = ListReport::new();
    let mut rest = without_mark(list);
    while let Some((line, behind)) = split_line(rest) {
        add_line(alloc, line, &mut text, &mut report)?;
        rest = behind;
    }
    Ok((PlainLines { text, read: 0 }, report))
}

impl PlainLines {
    /// Puts what is left to be read into the front of a slice, as much as has room, and answers how many bytes.
    pub(crate) fn take(&mut self, buffer: &mut [u8]) -> usize
        ensures { TakesLeft self.old self.new result buffer.old buffer.new }
    {
        let left = &self.text.as_bytes()[self.read..];
        let len = left.len().min(buffer.len());
        buffer[..len].copy_from_slice(&left[..len]);
        self.read += len;
        len
    }
}
