//! What the lines of a list come to.

ghost use Rattle.std.specs.Prelude.{◌∷◌, ◌++◌, [], List, IfOk, OnOk};
ghost use Rattle.hickory_store.specs.blocklist.ListReports.{IsReport, ReportsText};
ghost use Rattle.hickory_store.specs.declared.blocklist.lines.ListLine.{ListLine as Line};
ghost use Rattle.hickory_store.specs.declared.blocklist.lines.ListLine.TheVariants as list_line;

use crate::blocklist::lines::{ListLine, list_line};
use std::alloc::{AllocError, Global};
use std::fmt;

/// What the lines of a list come to. Each number stops at 2^64 - 1.
#[derive(Drop)]
pub struct ListReport {
    /// How many lines there are.
    pub lines: u64,
    /// How many of them list a name.
    pub taken: u64,
    /// How many are skipped.
    pub skipped: u64,
    /// Which are skipped first, three at most, by their numbers; the first line is 1.
    pub first_skipped: Vec<u64>,
}

/// How many of the lines that are skipped are told by their numbers.
const TOLD: usize = 3;

impl ListReport {
    /// Of no lines. It takes no memory.
    fn new(alloc: Global) -> ListReport
        ensures { IsReport [] result }
    {
        ListReport {
            lines: 0,
            taken: 0,
            skipped: 0,
            first_skipped: Vec::new(alloc),
        }
    }

    /// Counts a line that lists a name.
    fn take(&mut self)
        ensures { (lines : List Line) → IsReport lines self.old → IsReport (lines ++ list_line.Name ∷ []) self.new }
    {
        self.lines = self.lines.saturating_add(1);
        self.taken = self.taken.saturating_add(1);
    }

    /// Counts a line that says nothing.
    fn pass(&mut self)
        ensures { (lines : List Line) → IsReport lines self.old → IsReport (lines ++ list_line.Nothing ∷ []) self.new }
    {
        self.lines = self.lines.saturating_add(1);
    }

    /// Counts a line that is skipped.
    fn skip(&mut self) -> Result<(), AllocError>
        ensures { OnOk result ((lines : List Line) → IsReport lines self.old →
            IsReport (lines ++ list_line.Skipped ∷ []) self.new) }
    {
        self.lines = self.lines.saturating_add(1);
        self.skipped = self.skipped.saturating_add(1);
        if self.first_skipped.len() < TOLD {
            self.first_skipped.push(self.lines)?;
        }
        Ok(())
    }

    /// Counts the next line.
    fn count(&mut self, line: ListLine) -> Result<(), AllocError>
        ensures { OnOk result ((lines : List Line) → IsReport lines self.old → IsReport (lines ++ line ∷ []) self.new) }
    {
        match line {
            ListLine::Name => self.take(),
            ListLine::Nothing => self.pass(),
            ListLine::Skipped => self.skip()?,
        }
        Ok(())
    }

    /// The report of the lines of a text. Each line is read as [`add`](crate::blocklist::BlocklistZoneHandler::add)
    /// reads it, and nothing is added to any list. An error says that memory was refused.
    pub fn of_text(alloc: Global, text: &str) -> Result<ListReport, AllocError>
        ensures { IfOk result (ReportsText text.now) }
    {
        let mut report = ListReport::new(alloc);
        for line in text.lines() {
            report.count(list_line(alloc, line)?)?;
        }
        Ok(report)
    }
}

/// In words: `lines taken 5, skipped 4: 2, 3, 7 ..`.
impl fmt::Display for ListReport {
    fn fmt<W: fmt::Write>(&self, f: &mut fmt::Formatter<W>) -> fmt::Result {
        write!(f, "lines taken {}, skipped {}", self.taken, self.skipped)?;
        let mut mark = ": ";
        for number in &self.first_skipped {
            write!(f, "{mark}{number}")?;
            mark = ", ";
        }
        if self.skipped > TOLD as u64 {
            f.write_str(" ..")?;
        }
        Ok(())
    }
}
