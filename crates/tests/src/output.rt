//! What a line prints.

use std::alloc::{AllocError, Global};
use std::fmt::{Debug, Display, Write};

/// What a line prints. It notes that memory was refused for a piece of it; then the text is given to nobody.
#[derive(Drop)]
pub struct Output {
    alloc: Global,
    text: String,
    /// Whether memory was refused for a piece of it.
    pub is_refused: bool,
}

impl Output {
    /// Nothing printed.
    pub fn new(alloc: Global) -> Output {
        Output {
            alloc,
            text: String::new(alloc),
            is_refused: false,
        }
    }

    /// Adds a text.
    pub fn put(&mut self, text: &str) {
        if self.text.push_str(text).is_err() {
            self.is_refused = true;
        }
    }

    /// Adds a value as it is displayed.
    pub fn put_value<T: Display>(&mut self, value: &T) {
        if write!(self.text, "{value}").is_err() {
            self.is_refused = true;
        }
    }

    /// Adds the line of a fault: its name and its text.
    pub fn put_fault<T: Debug + Display>(&mut self, fault: &T) {
        if writeln!(self.text, "fault {fault:?}: {fault}").is_err() {
            self.is_refused = true;
        }
    }

    /// Adds a line of hex digits.
    pub fn put_hex(&mut self, bytes: &[u8]) {
        match hex::encode(self.alloc, bytes) {
            Ok(digits) => self.put(digits.as_str()),
            Err(_) => self.is_refused = true,
        }
        self.put("\n");
    }

    /// The text, unless memory was refused for a piece of it.
    pub fn into_text(self) -> Result<String, AllocError> {
        if self.is_refused {
            Err(AllocError)
        } else {
            Ok(self.text)
        }
    }
}
