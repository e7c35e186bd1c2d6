//! Files of keys: as BIND and Knot have them, and lines as `dig -y` takes them.

ghost use Rattle.std.specs.Prelude.{◌≡◌, ◌==◌, MatchOption, None, OnOk, IfOk, Some, [], map};
ghost use Rattle.std.specs.List.{slice_split};
ghost use Rattle.tsig.specs.KeyFiles as spec;
ghost use Rattle.tsig.specs.KeyFiles.{Adds, Announces, AreKeysOfText, Begins, Ends, Makes, PutsPart, TakesLine, TakesLines, TakesPart, TakesWord};
ghost use Rattle.tsig.specs.KeyTexts.{IsUsable};
ghost use Rattle.tsig.specs.declared.key_file.Field.{Field as FieldOf};

use crate::algorithm::Algorithm;
use crate::key_text::{
    KeyFault, KeyTextError, key_at, made_key, read_algorithm, read_name, read_secret,
};
use crate::keys::{Key, Keys, Secret};
use std::alloc::{AllocError, Global};
use std::str;
use wire_names::rr::domain::name::Name;

/// Which part of a key the next word is.
#[derive(Clone, Copy)]
enum Field {
    Name,
    Algorithm,
    Secret,
}

/// A key that is being read.
#[derive(Drop)]
struct Draft {
    /// Where it begins.
    line: usize,
    name: Option<Name>,
    algorithm: Option<Algorithm>,
    secret: Option<Secret>,
}

/// A fault of a line.
fn fault(line: usize, fault: KeyFault) -> KeyTextError {
    KeyTextError::At { line, fault }
}

/// The key of a draft, once all its parts were read.
fn key_of(draft: Draft) -> Result<Key, KeyTextError>
    ensures made { IfOk result (Makes draft) }
    ensures usable { IfOk result IsUsable }
{
    let Draft {
        line,
        name,
        algorithm,
        secret,
    } = draft;
    let Some(name) = name else {
        return Err(fault(line, KeyFault::MissingField));
    };
    let Some(algorithm) = algorithm else {
        return Err(fault(line, KeyFault::MissingField));
    };
    let Some(secret) = secret else {
        return Err(fault(line, KeyFault::MissingField));
    };
    made_key(name, algorithm, secret, line)
}

/// Adds a key of a line, unless there is one of its name.
fn add_key(keys: &mut Keys, key: Key, line: usize) -> Result<(), KeyTextError>
    requires { IsUsable key }
    ensures { OnOk result (Adds key keys.old keys.new) }
{
    if keys.find(&key.name).is_some() {
        return Err(fault(line, KeyFault::Twice));
    }
    keys.add(key)?;
    Ok(())
}

/// Adds the key of a draft, if one was begun.
fn add_draft(keys: &mut Keys, draft: Option<Draft>) -> Result<(), KeyTextError>
    ensures { OnOk result (Ends draft keys.old keys.new) }
{
    let Some(draft) = draft else {
        return Ok(());
    };
    let line = draft.line;
    let key = key_of(draft)?;
    add_key(keys, key, line)
}

/// Puts a word into its part of a key; the last one of a part counts.
fn put_field(
    alloc: Global,
    draft: &mut Draft,
    field: Field,
    word: &str,
    line: usize,
) -> Result<(), KeyTextError>
    ensures { OnOk result (PutsPart field word.now draft.old draft.new) }
{
    match field {
        Field::Name => draft.name = Some(read_name(alloc, word, line)?),
        Field::Algorithm => draft.algorithm = Some(read_algorithm(word, line)?),
        Field::Secret => draft.secret = Some(read_secret(alloc, word, line)?),
    }
    Ok(())
}

/// The part of a key that a word announces.
fn field_of(word: &str) -> Option<Field>
    ensures { MatchOption result ((field : FieldOf) → ¬ (Announces word.now field)) (Announces word.now) }
{
    if word == "id:" {
        Some(Field::Name)
    } else if word == "algorithm" || word == "algorithm:" {
        Some(Field::Algorithm)
    } else if word == "secret" || word == "secret:" {
        Some(Field::Secret)
    } else {
        None
    }
}

/// Whether a byte only separates words.
fn is_separator(byte: u8) -> bool
    ensures { result ≡ spec.is_separator byte }
{
    byte.is_ascii_whitespace()
        || byte == b'{'
        || byte == b'}'
        || byte == b';'
        || byte == b'"'
        || byte == b'\''
}

/// What stands between the separators of a line. Some of the parts are empty.
fn parts_of<'t>(alloc: Global, line: &'t [u8]) -> Result<Vec<&'t [u8]>, AllocError>
    ensures { IfOk result (λ parts. map (λ part. part.now) parts.items ≡ slice_split spec.is_separator line.now) }
{
    line.split(|byte| is_separator(*byte)).collect(alloc)
}

/// The lines of a text, without their line feeds.
fn lines_of<'t>(alloc: Global, text: &'t [u8]) -> Result<Vec<&'t [u8]>, AllocError>
    ensures { IfOk result (λ lines. map (λ line. line.now) lines.items ≡ slice_split (λ b. b == 10) text.now) }
{
    text.split(|byte| *byte == b'\n').collect(alloc)
}

/// A word as text. It is UTF-8, since it stands between separators of a text.
fn text_of<'t>(word: &'t [u8], line: usize) -> Result<&'t str, KeyTextError>
    ensures { IfOk result (λ text. text.now ≡ word.now) }
{
    match str::from_utf8(word) {
        Ok(text) => Ok(text),
        Err(_) => Err(fault(line, KeyFault::Form)),
    }
}

/// The keys of a text that is being read.
#[derive(Drop)]
struct Reader {
    keys: Keys,
    draft: Option<Draft>,
    awaited: Option<Field>,
}

impl Reader {
    /// Takes a word that is a part of the key that was begun.
    fn take_field(
        &mut self,
        alloc: Global,
        field: Field,
        word: &str,
        line: usize,
    ) -> Result<(), KeyTextError>
        ensures { OnOk result (TakesPart field word.now self.old self.new) }
    {
        let Some(draft) = &mut self.draft else {
            return Err(fault(line, KeyFault::Form));
        };
        put_field(alloc, draft, field, word, line)?;
        self.awaited = None;
        Ok(())
    }

    /// Ends the key that was begun, and begins one. The next word may be a part of it.
    fn begin(&mut self, next: Option<Field>, line: usize) -> Result<(), KeyTextError>
        ensures { OnOk result (Begins next self.old self.new) }
    {
        let draft = Draft {
            line,
            name: None,
            algorithm: None,
            secret: None,
        };
        let before = self.draft.replace(draft);
        add_draft(&mut self.keys, before)?;
        self.awaited = next;
        Ok(())
    }

    /// Takes a word that begins no key: it announces a part of one, or is a key.
    fn take_other(&mut self, alloc: Global, word: &str, line: usize) -> Result<(), KeyTextError>
        requires { self.old.awaited ≡ None }
        ensures { OnOk result (TakesWord self.old word.now self.new) }
    {
        if let Some(field) = field_of(word) {
            self.awaited = Some(field);
            return Ok(());
        }
        let key = key_at(alloc, word, line)?;
        add_key(&mut self.keys, key, line)
    }

    /// Takes a word where no part of a key is awaited.
    fn take_word(&mut self, alloc: Global, word: &str, line: usize) -> Result<(), KeyTextError>
        requires { self.old.awaited ≡ None }
        ensures { OnOk result (TakesWord self.old word.now self.new) }
    {
        match word {
            "key" => self.begin(Some(Field::Name), line),
            "-" => self.begin(None, line),
            "key:" => Ok(()),
            _ => self.take_other(alloc, word, line),
        }
    }

    /// Takes what stands between two separators.
    fn take(&mut self, alloc: Global, word: &[u8], line: usize) -> Result<(), KeyTextError>
        ensures { OnOk result (TakesWord self.old word.now self.new) }
    {
        if word.is_empty() {
            return Ok(());
        }
        let word = text_of(word, line)?;
        match self.awaited {
            Some(field) => self.take_field(alloc, field, word, line),
            None => self.take_word(alloc, word, line),
        }
    }

    /// Whether a word begins a comment, which ends the line.
    fn is_comment(&self, word: &[u8]) -> bool
        ensures { result ≡ spec.is_comment self.now word.now }
    {
        self.awaited.is_none() && (word.starts_with(b"#") || word.starts_with(b"//"))
    }

    /// Takes what stands between the separators of a line, up to a comment.
    fn take_parts(
        &mut self,
        alloc: Global,
        parts: &[&[u8]],
        line: usize,
    ) -> Result<(), KeyTextError>
        ensures { OnOk result (TakesLine self.old (map (λ part. part.now) parts.now) self.new) }
    {
        let mut rest = parts;
        while let [word, others @ ..] = rest {
            if self.is_comment(word) {
                return Ok(());
            }
            self.take(alloc, word, line)?;
            rest = others;
        }
        Ok(())
    }

    /// Takes the words of a line.
    fn take_line(&mut self, alloc: Global, text: &[u8], line: usize) -> Result<(), KeyTextError>
        ensures { OnOk result (TakesLine self.old (slice_split spec.is_separator text.now) self.new) }
    {
        let parts = parts_of(alloc, text)?;
        self.take_parts(alloc, parts.as_slice(), line)
    }

    /// Takes the words of lines.
    fn take_lines(&mut self, alloc: Global, lines: &[&[u8]]) -> Result<(), KeyTextError>
        ensures { OnOk result (TakesLines self.old (map (λ line. line.now) lines.now) self.new) }
    {
        let mut line = 0usize;
        let mut rest = lines;
        while let [text, others @ ..] = rest {
            line = line.saturating_add(1);
            self.take_line(alloc, text, line)?;
            rest = others;
        }
        Ok(())
    }
}

/// The words of a text, taken one after the other.
fn reader_of(alloc: Global, text: &str) -> Result<Reader, KeyTextError>
    ensures { IfOk result (TakesLines (record { keys = []; draft = None; awaited = None })
        (slice_split (λ b. b == 10) text.now)) }
{
    let mut reader = Reader {
        keys: Keys::new(alloc),
        draft: None,
        awaited: None,
    };
    let lines = lines_of(alloc, text.as_bytes())?;
    reader.take_lines(alloc, lines.as_slice())?;
    Ok(reader)
}

/// The keys of a text, each of them in one of these forms:
///
/// - a word `ALGORITHM:NAME:SECRET`, as `dig -y` takes it;
/// - a statement of BIND's configuration, `key "NAME" { algorithm ALGORITHM; secret "SECRET"; };`
/// - an entry of Knot's configuration, `- id: NAME`, `algorithm: ALGORITHM` and `secret: SECRET` below `key:`.
///
/// Algorithms are in lower case and secrets in base64. Braces, semicolons and quotes only separate words, as blanks do.
/// A word that begins with `#` or `//`, where no name, algorithm or secret is awaited, begins a comment, which lasts to
/// the end of the line.
///
/// The keys have names that differ, letter case aside, and take each MAC that RFC 8945 allows.
///
/// # Errors
///
/// An error is the first fault, with its line, and no part of the text; or an allocation failed.
pub fn read_keys(alloc: Global, text: &str) -> Result<Keys, KeyTextError>
    ensures { IfOk result (AreKeysOfText text.now) }
{
    let Reader {
        mut keys,
        draft,
        awaited,
    } = reader_of(alloc, text)?;
    if awaited.is_some() {
        return Err(fault(text.lines().count(), KeyFault::MissingField));
    }
    add_draft(&mut keys, draft)?;
    Ok(keys)
}
