//! How many lines of a list gave names.

ghost use Rattle.std.specs.Prelude.{◌≡◌, ◌+◌, ◌^◌, ◌<◌, [], None};
ghost use Rattle.name_lists.specs.Counts.{counts_of, counted, lines_in};

use std::marker::Model;

/// How many lines of a list gave names, how many gave none, and how many were skipped.
///
/// Lines are counted from 1. The counts of a text add up to its lines.
#[derive(Debug, Drop)]
pub struct ListReport {
    taken: usize,
    without_names: usize,
    skipped: usize,
    // The numbers of the first lines that were skipped, and behind them zeros.
    first_skipped: [usize; 3],
}

impl Model for ListReport {
    ghost use Rattle.std.specs.Prelude.{take};
    ghost use Rattle.name_lists.specs.Counts.{Counts};

    ghost Value = { Counts };

    ghost view = { λ r. record {
      taken = r.taken;
      without_names = r.without_names;
      skipped = r.skipped;
      first_skipped =
          take r.skipped r.first_skipped;
    } };
}

impl ListReport {
    /// No lines.
    pub(crate) fn new() -> ListReport
        ensures { result ≡ counts_of [] }
    {
        ListReport {
            taken: 0,
            without_names: 0,
            skipped: 0,
            first_skipped: [0; 3],
        }
    }

    /// How many lines gave names.
    pub fn taken(&self) -> usize
        ensures { result ≡ self.now.taken }
    {
        self.taken
    }

    /// How many lines gave no name and were to give none: empty ones, comments, and lines of a hosts file for the
    /// machine itself.
    pub fn without_names(&self) -> usize
        ensures { result ≡ self.now.without_names }
    {
        self.without_names
    }

    /// How many lines were skipped, since they are written in no known way.
    pub fn skipped(&self) -> usize
        ensures { result ≡ self.now.skipped }
    {
        self.skipped
    }

    /// The numbers of the first three lines that were skipped, or of all if there are fewer, in their order.
    pub fn first_skipped(&self) -> &[usize]
        ensures { result.now ≡ self.now.first_skipped }
    {
        &self.first_skipped[..self.skipped.min(3)]
    }

    /// Counts a line that gives names.
    pub(crate) fn count_taken(&mut self)
        requires { self.old.taken + 1 < 2 ^ 64 }
        ensures { self.new ≡ record self.old { taken = self.old.taken + 1 } }
    {
        self.taken += 1;
    }

    /// Counts a line that gives no name.
    pub(crate) fn count_without_names(&mut self)
        requires { self.old.without_names + 1 < 2 ^ 64 }
        ensures { self.new ≡ record self.old { without_names = self.old.without_names + 1 } }
    {
        self.without_names += 1;
    }

    /// Counts a line that is skipped, the next of all that were counted.
    pub(crate) fn count_skipped(&mut self)
        requires { lines_in self.old + 1 < 2 ^ 64 }
        ensures { self.new ≡ counted self.old None }
    {
        if self.skipped < self.first_skipped.len() {
            self.first_skipped[self.skipped] = self.taken + self.without_names + self.skipped + 1;
        }
        self.skipped += 1;
    }
}
