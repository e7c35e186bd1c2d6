//! What follows from the definitions alone: each law is what a function ensures that does nothing.

ghost use Rattle.server_reports.specs.QueryLines.{WordsAreVisible};

/// No message adds a word to a line, nor a line to a log: what a line says of it has neither a blank nor a line feed,
/// nor another control.
pub fn words_are_visible()
    ensures { WordsAreVisible }
{}
