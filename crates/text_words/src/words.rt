//! The fields of a line, and of an entry of a zone file.

ghost use Rattle.std.specs.Prelude.{◌≡◌, ◌≢◌, ◌↔◌, ℕ, false, ◌+◌, ◌≤◌, ◌<◌, ◌-◌, ◌^◌, get_or, length, min, IfErr, IfNone, IfOk, IfSome, IsFalse, IsTrue, OnErr, OnOk};
ghost use Rattle.text_words.specs.declared.error.TextError.TheVariants.{Memory};
ghost use Rattle.text_words.specs.declared.words.Word.{Word as WordOf};
ghost use Rattle.text_words.specs.Spelling.{IsNoNumber, IsNoNumberWord, IsNumber};
ghost use Rattle.text_words.specs.declared.words.TextKind.TheVariants.{Line, ZoneFile};
ghost use Rattle.std.specs.Str.{IsUtf8};
ghost use Rattle.std.specs.Str.Parse.{AllDigits};
ghost use Rattle.text_words.specs.Words.{HasNoEnd, HasNoNext, HasNoWord, HasNoWords, IsGapEnd};
ghost use Rattle.text_words.specs.Words.{AreWordsTo, CrossesLines, IsByteAt, IsComment, IsEndFrom, IsGap, IsNext, IsPiece};
ghost use Rattle.text_words.specs.Words.{IsPlainWord, IsQuotedWord, IsRestOfLine, IsRunTo, IsWordFrom, ends_quoted, ends_word, is_blank};

use crate::error::{TextError, TextFault};
use std::alloc::Global;
use std::marker::Model;
use std::str;

/// A field.
#[derive(Clone, Copy)]
pub struct Word<'a> {
    /// Its bytes, escapes and all, without the quotes.
    pub bytes: &'a [u8],
    /// How many bytes of the text stand before it.
    pub start: usize,
    /// Whether it stood in quotes.
    pub quoted: bool,
}

/// A fault at a place, before which so many bytes stand.
pub fn fault_at(place: usize, fault: TextFault) -> TextError {
    TextError::At {
        column: place.saturating_add(1),
        fault,
    }
}

impl<'a> Word<'a> {
    /// A fault of the whole field.
    pub fn fault(&self, fault: TextFault) -> TextError {
        fault_at(self.start, fault)
    }

    /// A fault within the field, so many bytes behind its start.
    pub fn fault_within(&self, place: usize, fault: TextFault) -> TextError {
        fault_at(self.start.saturating_add(place), fault)
    }

    /// The field as text, where it stood in no quotes.
    pub fn plain_text(&self) -> Option<&'a str>
        ensures text { IfSome result (λ text. (self.now.quoted ≡ false) × (text.now ≡ self.now.bytes.now)) }
        ensures none { IfNone result (self.now.quoted ≡ false → ¬ (IsUtf8 self.now.bytes.now)) }
    {
        if self.quoted {
            return None;
        }
        str::from_utf8(self.bytes).ok()
    }

    /// The decimal number that the field is, without a sign.
    pub fn number(&self) -> Result<u32, TextError>
        ensures number { IfOk result (λ n. (self.now.quoted ≡ false) × IsNumber self.now.bytes.now n × (n < 2 ^ 32)) }
        ensures refused { OnErr result (IsNoNumberWord self.now) }
    {
        if self.quoted || self.bytes.is_empty() || !are_digits(self.bytes) {
            return Err(self.fault(TextFault::BadNumber));
        }
        number_of_digits(self.bytes).ok_or(self.fault(TextFault::NumberOutOfRange))
    }
}

/// Whether all bytes are decimal digits.
pub(crate) fn are_digits(bytes: &[u8]) -> bool
    ensures { IsTrue result ↔ AllDigits 10 bytes.now }
{
    for byte in bytes {
        if !byte.is_ascii_digit() {
            return false;
        }
    }
    true
}

/// The number of 32 bits that decimal digits are, at least one.
pub fn number_of_digits(bytes: &[u8]) -> Option<u32>
    ensures number { IfSome result (λ n. IsNumber bytes.now n × (n < 2 ^ 32)) }
    ensures none { IfNone result (IsNoNumber bytes.now) }
{
    if bytes.is_empty() {
        return None;
    }
    let mut number = 0u32;
    for byte in bytes {
        if !byte.is_ascii_digit() {
            return None;
        }
        number = number
            .checked_mul(10)?
            .checked_add(u32::from(*byte - b'0'))?;
    }
    Some(number)
}

/// What a text is taken for.
#[derive(Clone, Copy, PartialEq, Eq)]
pub enum TextKind {
    /// One line: a line feed is a blank, a comment goes to the end of the text, and parentheses are bytes like others.
    Line,
    /// A zone file: an entry ends with its line, parentheses join lines, and a comment goes to the end of its line.
    ZoneFile,
}

/// A text that is read from its front, field by field.
#[derive(Drop)]
pub struct Words<'a> {
    text: &'a [u8],
    place: usize,
    kind: TextKind,
    // How many parentheses are open here, and where the outermost of them stands.
    depth: usize,
    opened: usize,
}

impl<'a> Model for Words<'a> {
    ghost use Rattle.std.specs.Prelude.{◌≤◌, length};
    ghost use Rattle.text_words.specs.Words.{WordsLeft};

    ghost Value = { WordsLeft };

    ghost view = { λ w. record { text = w.text.now; place = w.place; kind = w.kind; depth = w.depth } };

    ghost invariant = { λ w. (w.place ≤ length w.text.now) × (w.depth ≤ w.place) };
}

fn is_blank(byte: u8) -> bool
    ensures { result ≡ is_blank byte }
{
    matches!(byte, b' ' | b'\t' | b'\r' | b'\n')
}

/// Whether a field in no quotes ends before this byte.
fn ends_field(kind: TextKind, byte: u8) -> bool
    ensures { result ≡ ends_word kind byte }
{
    match kind {
        TextKind::Line => is_blank(byte) || matches!(byte, b';' | b'"'),
        TextKind::ZoneFile => is_blank(byte) || matches!(byte, b';' | b'"' | b'(' | b')'),
    }
}

/// Where a line ends: its line feed from this place on, or the end of the text.
fn line_end(text: &[u8], start: usize) -> usize
    requires { start ≤ length text.now }
    ensures { IsRestOfLine text.now start result }
{
    let mut place = start;
    'bytes: while place < text.len() && text[place] != b'\n' {
        place += 1;
    }
    place
}

/// The place behind a backslash at this place and the byte that it escapes, if one stands behind it.
fn behind_escape(text: &[u8], place: usize) -> usize
    requires { place < length text.now }
    ensures { result ≡ min (place + 2) (length text.now) }
{
    if text.len() - place < 2 {
        text.len()
    } else {
        place + 2
    }
}

/// Where a field in no quotes ends that begins here: before a byte that ends it and stands behind no backslash.
fn plain_end(kind: TextKind, text: &[u8], start: usize) -> usize
    requires within { start < length text.now }
    requires begins { ends_word kind (get_or text.now start 0) ≡ false }
    ensures some { start < result }
    ensures within { result ≤ length text.now }
    ensures run { IsRunTo (ends_word kind) text.now start result }
{
    let mut place = start;
    'bytes: while place < text.len() && !ends_field(kind, text[place]) {
        place = if text[place] == b'\\' {
            behind_escape(text, place)
        } else {
            place + 1
        };
    }
    place
}

/// Where the quote stands that ends a field in quotes that begins here, one not behind a backslash.
fn quote_place(text: &[u8], start: usize) -> Option<usize>
    requires { start ≤ length text.now }
    ensures on { IfSome result (λ place. start ≤ place) }
    ensures quote { IfSome result (λ place. IsByteAt text.now place 34) }
    ensures run { IfSome result (λ place. IsRunTo ends_quoted text.now start place) }
    ensures none { IfNone result (IsRunTo ends_quoted text.now start (length text.now)) }
{
    let mut place = start;
    'bytes: while place < text.len() && text[place] != b'"' {
        place = if text[place] == b'\\' {
            behind_escape(text, place)
        } else {
            place + 1
        };
    }
    if place < text.len() {
        Some(place)
    } else {
        None
    }
}

/// Where a comment ends whose first byte stands here, behind the `;`.
fn comment_end(kind: TextKind, text: &[u8], start: usize) -> usize
    requires { start ≤ length text.now }
    ensures on { start ≤ result }
    ensures within { result ≤ length text.now }
    ensures comment { IsComment kind text.now start result }
{
    match kind {
        TextKind::Line => text.len(),
        TextKind::ZoneFile => line_end(text, start),
    }
}

/// Whether parentheses join lines, and a line feed outside of them ends the entry.
fn is_zone_file(kind: TextKind) -> bool
    ensures file { IsTrue result → kind ≡ ZoneFile }
    ensures line { IsFalse result → kind ≡ Line }
{
    match kind {
        TextKind::Line => false,
        TextKind::ZoneFile => true,
    }
}

/// Whether a line feed within so many parentheses ends the entry.
fn ends_entry(kind: TextKind, depth: usize) -> bool
    ensures ends { IsTrue result → (kind ≡ ZoneFile) × (depth ≡ 0) }
    ensures crosses { IsFalse result → CrossesLines kind depth }
{
    match kind {
        TextKind::Line => false,
        TextKind::ZoneFile => depth == 0,
    }
}

/// A piece of what stands between fields: the place behind it, and how many parentheses are open there, where so many
/// are before it.
fn piece(kind: TextKind, text: &[u8], place: usize, depth: usize) -> Option<(usize, usize)>
    requires within { place < length text.now }
    requires counted { depth ≤ place }
    ensures on { IfSome result (λ ends. place < ends.0) }
    ensures within { IfSome result (λ ends. ends.0 ≤ length text.now) }
    ensures counted { IfSome result (λ ends. ends.1 ≤ ends.0) }
    ensures piece { IfSome result (λ ends. IsPiece kind text.now place depth ends.0 ends.1) }
    ensures none { IfNone result (IsGapEnd kind text.now place depth) }
{
    let byte = text[place];
    if byte == b';' {
        return Some((comment_end(kind, text, place + 1), depth));
    }
    if byte == b'\n' {
        if ends_entry(kind, depth) {
            return None;
        }
        return Some((place + 1, depth));
    }
    if is_blank(byte) {
        return Some((place + 1, depth));
    }
    if !is_zone_file(kind) {
        return None;
    }
    if byte == b'(' {
        return Some((place + 1, depth + 1));
    }
    if byte == b')' && depth > 0 {
        return Some((place + 1, depth - 1));
    }
    None
}

/// Where a gap between fields ends.
#[derive(Clone, Copy)]
struct GapEnd {
    place: usize,
    // How many parentheses are open there, and where the outermost of them stands.
    depth: usize,
    opened: usize,
}

/// Where the gap ends that begins here, within so many parentheses, the outermost of which stands at `opened`.
fn gap_end(kind: TextKind, text: &[u8], start: usize, depth: usize, opened: usize) -> GapEnd
    requires within { start ≤ length text.now }
    requires counted { depth ≤ start }
    ensures on { start ≤ result.place }
    ensures within { result.place ≤ length text.now }
    ensures counted { result.depth ≤ result.place }
    ensures gap { IsGap kind text.now start depth result.place result.depth }
    ensures whole { IsGapEnd kind text.now result.place result.depth }
{
    let mut end = GapEnd {
        place: start,
        depth,
        opened,
    };
    'pieces: while end.place < text.len() {
        let Some((place, depth)) = piece(kind, text, end.place, end.depth) else {
            return end;
        };
        if end.depth == 0 {
            end.opened = end.place;
        }
        end.place = place;
        end.depth = depth;
    }
    end
}

/// The field in no quotes that begins here, and the place behind it.
fn plain_word<'a>(kind: TextKind, text: &'a [u8], start: usize) -> (Word<'a>, usize)
    requires within { start < length text.now }
    requires begins { ends_word kind (get_or text.now start 0) ≡ false }
    ensures on { start < result.1 }
    ensures within { result.1 ≤ length text.now }
    ensures word { IsPlainWord kind text.now start result.0 result.1 }
{
    let end = plain_end(kind, text, start);
    let word = Word {
        bytes: &text[start..end],
        start,
        quoted: false,
    };
    (word, end)
}

/// The field in quotes the first of which stands here, and the place behind it.
fn quoted_word<'a>(text: &'a [u8], start: usize) -> Result<(Word<'a>, usize), TextError>
    requires { IsByteAt text.now start 34 }
    ensures on { IfOk result (λ found. start < found.1) }
    ensures within { IfOk result (λ found. found.1 ≤ length text.now) }
    ensures word { IfOk result (λ found. IsQuotedWord text.now start found.0 found.1) }
    ensures none { OnErr result ((word : WordOf) (next : ℕ) → IsQuotedWord text.now start word next → ⊥) }
{
    let Some(end) = quote_place(text, start + 1) else {
        return Err(fault_at(start, TextFault::UnclosedQuote));
    };
    let word = Word {
        bytes: &text[start + 1..end],
        start: start + 1,
        quoted: true,
    };
    Ok((word, end + 1))
}

/// Whether a quote is open at the end of this front of a zone file. Only the quotes of the last line count.
fn is_in_quotes(front: &[u8]) -> bool {
    let mut is_open = false;
    let mut is_escaped = false;
    for byte in front {
        let is_quote = *byte == b'"' && !is_escaped;
        is_open = *byte != b'\n' && is_open != is_quote;
        is_escaped = *byte == b'\\' && !is_escaped;
    }
    is_open
}

/// The end of the field that has the byte at this place of a zone file. A parenthesis is a field of one byte. A quoted
/// string ends at its second quote, and if that is not on this line, at a blank. At a blank or the end of the text there
/// is no field.
pub fn field_end(text: &[u8], place: usize) -> usize
    requires { place ≤ length text.now }
    ensures on { place ≤ result }
    ensures within { result ≤ length text.now }
{
    if place == text.len() || is_blank(text[place]) {
        return place;
    }
    if is_in_quotes(&text[..place]) {
        let end_of_line = line_end(text, place);
        if let Some(end) = quote_place(&text[..end_of_line], place) {
            return end;
        }
    }
    let first = if text[place] == b'"' {
        place + 1
    } else {
        place
    };
    if first == text.len() || ends_field(TextKind::ZoneFile, text[first]) {
        return place + 1;
    }
    plain_end(TextKind::ZoneFile, text, first)
}

impl<'a> Words<'a> {
    /// The front of a line.
    pub fn new(line: &'a str) -> Words<'a>
        ensures text { result.text ≡ line.now }
        ensures place { result.place ≡ 0 }
        ensures kind { result.kind ≡ Line }
        ensures depth { result.depth ≡ 0 }
    {
        Words {
            text: line.as_bytes(),
            place: 0,
            kind: TextKind::Line,
            depth: 0,
            opened: 0,
        }
    }

    /// The front of an entry of a zone file, before which so many bytes stand.
    pub fn entry(text: &'a [u8], place: usize) -> Words<'a>
        requires { place ≤ length text.now }
        ensures text { result.text ≡ text.now }
        ensures place { result.place ≡ place }
        ensures kind { result.kind ≡ ZoneFile }
        ensures depth { result.depth ≡ 0 }
    {
        Words {
            text,
            place,
            kind: TextKind::ZoneFile,
            depth: 0,
            opened: 0,
        }
    }

    /// Whether a blank stands next.
    pub fn begins_blank(&self) -> bool
        ensures { result ≡ is_blank (get_or self.now.text self.now.place 0) }
    {
        self.place < self.text.len() && is_blank(self.text[self.place])
    }

    /// Goes on to the next field, or to where none is left: over blanks, comments and, in a zone file, parentheses.
    fn skip(&mut self)
        ensures text { self.new.text ≡ self.old.text }
        ensures kind { self.new.kind ≡ self.old.kind }
        ensures on { self.old.place ≤ self.new.place }
        ensures gap { IsGap self.old.kind self.old.text self.old.place self.old.depth self.new.place self.new.depth }
        ensures whole { IsGapEnd self.new.kind self.new.text self.new.place self.new.depth }
    {
        let end = gap_end(self.kind, self.text, self.place, self.depth, self.opened);
        self.place = end.place;
        self.depth = end.depth;
        self.opened = end.opened;
    }

    /// The next field, if there is one.
    pub fn next(&mut self) -> Result<Option<Word<'a>>, TextError>
        ensures text { self.new.text ≡ self.old.text }
        ensures kind { self.new.kind ≡ self.old.kind }
        ensures on { self.old.place ≤ self.new.place }
        ensures next { IfOk result (λ found. IsNext self.old found self.new.place self.new.depth) }
        ensures nearer { IfOk result (λ found.
            IfSome found (λ _. length self.new.text - self.new.place < length self.old.text - self.old.place)) }
        ensures none { OnErr result (HasNoNext self.old) }
    {
        self.skip();
        let start = self.place;
        if start == self.text.len() {
            if self.depth > 0 {
                return Err(fault_at(self.opened, TextFault::OpenParenthesis));
            }
            return Ok(None);
        }
        let byte = self.text[start];
        if byte == b'"' {
            let (word, place) = quoted_word(self.text, start)?;
            self.place = place;
            return Ok(Some(word));
        }
        if !ends_field(self.kind, byte) {
            let (word, place) = plain_word(self.kind, self.text, start);
            self.place = place;
            return Ok(Some(word));
        }
        if byte == b'\n' && ends_entry(self.kind, self.depth) {
            return Ok(None);
        }
        Err(fault_at(start, TextFault::StrayParenthesis))
    }

    /// The fields that are left, to the end of the line or the entry.
    pub fn rest(&mut self, alloc: Global) -> Result<Vec<Word<'a>>, TextError>
        ensures text { self.new.text ≡ self.old.text }
        ensures kind { self.new.kind ≡ self.old.kind }
        ensures on { self.old.place ≤ self.new.place }
        ensures words { IfOk result (λ words.
            AreWordsTo self.old.kind self.old.text self.old.place self.old.depth words.items self.new.place) }
        ensures none { IfErr result (λ e. e ≢ Memory →
            HasNoWords self.old.kind self.old.text self.old.place self.old.depth) }
    {
        let mut fields = Vec::new(alloc);
        'fields: while let Some(word) = self.next()? {
            fields.push(word)?;
        }
        Ok(fields)
    }

    /// How many bytes of the text stand before what is next.
    pub fn place(&self) -> usize
        ensures place { result ≡ self.now.place }
        ensures within { result ≤ length self.now.text }
    {
        self.place
    }

    /// The next field.
    pub fn field(&mut self) -> Result<Word<'a>, TextError>
        ensures text { self.new.text ≡ self.old.text }
        ensures kind { self.new.kind ≡ self.old.kind }
        ensures word { IfOk result (λ word. IsWordFrom self.old word self.new.place self.new.depth) }
        ensures none { OnErr result (HasNoWord self.old) }
    {
        match self.next()? {
            Some(word) => Ok(word),
            None => Err(fault_at(self.place, TextFault::MissingField)),
        }
    }

    /// Whether nothing is left.
    pub fn end(&mut self) -> Result<(), TextError>
        ensures end { OnOk result (IsEndFrom self.old.kind self.old.text self.old.place self.old.depth self.new.place) }
        ensures none { OnErr result (HasNoEnd self.old.kind self.old.text self.old.place self.old.depth) }
    {
        match self.next()? {
            Some(word) => Err(word.fault(TextFault::TooMuchText)),
            None => Ok(()),
        }
    }
}
