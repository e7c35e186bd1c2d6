//! The names of words, as plain lines.

ghost use Rattle.std.specs.Prelude.{◌==◌, ◌≡◌, ◌++◌, ◌∷◌, [], IfOk, OnOk, IsTrue, ◌↔◌, ◌≤◌, ℕ, List, Some, MatchOption, string_bytes, option_map, true, false, drop, if◌then◌else◌};
ghost use Rattle.std.specs.Char.{is_ascii};
ghost use Rattle.std.specs.Cow.{cow_str_bytes};
ghost use Rattle.std.specs.List.{list_all, list_any};
ghost use Rattle.wire_names.specs.rr.domain.DomainName.{DomainName, name_len};
ghost use Rattle.wire_names.specs.rr.domain.NameText.{IsNameText, name_text};
ghost use Rattle.name_lists.specs.Names as spec;
ghost use Rattle.name_lists.specs.Pushes.{Pushes};

use idna::{AsciiDenyList, Errors, domain_to_ascii_cow};
use std::alloc::{AllocError, Global};
use std::borrow::CowStr;
use std::str;
use wire_names::error::NameError;
use wire_names::rr::domain::name::Name;

/// How long a name may be in wire form, its end byte left out, so that there are names below it.
const MAX_WIRE_LEN: usize = 252;

fn is_ascii(word: &[u8]) -> bool
    ensures { result ≡ list_all is_ascii word.now }
{
    word.iter().all(|b| b.is_ascii())
}

/// What a word is in ASCII, if it is anything.
fn ascii_text<'w>(alloc: Global, word: &'w [u8]) -> Result<Option<CowStr<'w, Global>>, AllocError>
    ensures { IfOk result (λ text. option_map cow_str_bytes text ≡ spec.ascii_text word.now) }
{
    if is_ascii(word) {
        return match str::from_utf8(word) {
            Ok(text) => Ok(Some(CowStr::Borrowed(text))),
            Err(_) => Ok(None),
        };
    }
    match domain_to_ascii_cow(alloc, word, AsciiDenyList::EMPTY) {
        Ok(text) => Ok(Some(text)),
        Err(Errors::Invalid) => Ok(None),
        Err(Errors::OutOfMemory) => Err(AllocError),
    }
}

pub(crate) fn has_byte(text: &[u8], byte: u8) -> bool
    ensures { result ≡ list_any (λ b. b == byte) text.now }
{
    text.iter().any(|b| *b == byte)
}

/// Whether all bytes of a text are digits and dots.
pub(crate) fn is_dotted(text: &[u8]) -> bool
    ensures { result ≡ list_all spec.is_address_byte text.now }
{
    text.iter().all(|b| b.is_ascii_digit() || *b == b'.')
}

/// Whether the bytes of a text are such as a blocked name has: `*` at the front alone, and not those of an address.
fn may_be_blocked(text: &[u8]) -> bool
    ensures { IsTrue result ↔ ((list_any spec.is_asterisk (drop 1 text.now) ≡ false) ×
        (list_all spec.is_address_byte text.now ≡ false)) }
{
    match text {
        [] => false,
        [_, behind @ ..] => !has_byte(behind, b'*') && !is_dotted(text),
    }
}

/// The name that a text spells, fully qualified or not, if a list may block it.
fn read_name(alloc: Global, text: &str) -> Result<Option<Name>, AllocError>
    ensures { IfOk result (λ name. spec.ReadsName text.now name) }
{
    let name = match Name::from_ascii(alloc, text) {
        Ok(name) => name,
        Err(NameError::Text) => return Ok(None),
        Err(NameError::Memory) => return Err(AllocError),
    };
    if may_be_blocked(text.as_bytes()) && name.num_labels() >= 2 {
        Ok(Some(name))
    } else {
        Ok(None)
    }
}

/// The name of a word and its text, if a list may block it.
fn read_word<'w>(
    alloc: Global,
    word: &'w [u8],
) -> Result<Option<(CowStr<'w, Global>, Name)>, AllocError>
    ensures { IfOk result (λ read.
        MatchOption read ((text : List ℕ) (name : DomainName) → spec.ascii_text word.now ≡ Some text →
        ¬ (spec.Spells text name)) (λ r. (spec.ascii_text word.now ≡ Some (cow_str_bytes r.0)) ×
        spec.ReadsName (cow_str_bytes r.0) (Some r.1))) }
{
    let Some(text) = ascii_text(alloc, word)? else {
        return Ok(None);
    };
    match read_name(alloc, text.as_str())? {
        Some(name) => Ok(Some((text, name))),
        None => Ok(None),
    }
}

/// What ends the line of a name: its last dot, where its text has none, and a line feed.
fn line_end(is_fqdn: bool) -> &'static str
    ensures { result.now ≡ (if is_fqdn then 10 ∷ [] else 46 ∷ 10 ∷ []) }
{
    if is_fqdn { "\n" } else { ".\n" }
}

/// Writes the plain line of the name that a text spells.
fn push_line(names: &mut String, text: &str, name: &Name) -> Result<(), AllocError>
    requires { IsNameText text.now name.now }
    ensures { OnOk result (string_bytes names.new ≡ string_bytes names.old ++ spec.plain_line
        (spec.qualified name.now)) }
{
    names.push_str(text)?;
    names.push_str(line_end(name.is_fqdn()))
}

/// Writes the plain line of the name of a word, if it is one.
pub(crate) fn push_name(alloc: Global, word: &[u8], names: &mut String) -> Result<bool, AllocError>
    ensures { IfOk result (λ is_name. Pushes (spec.GivesName word.now) is_name (string_bytes names.old)
        (string_bytes names.new)) }
{
    let Some((text, name)) = read_word(alloc, word)? else {
        return Ok(false);
    };
    push_line(names, text.as_str(), &name)?;
    Ok(true)
}

/// Whether a name is no wildcard, and has names below it.
fn is_covered(text: &str, name: &Name) -> bool
    ensures { IsTrue result ↔ ((list_any spec.is_asterisk text.now ≡ false) × (name_len name.now.labels ≤ 253)) }
{
    !has_byte(text.as_bytes(), b'*') && name.as_wire().len() <= MAX_WIRE_LEN
}

/// Writes the plain lines of the name of a word and of the wildcard over it, if it is a name that has names below it.
pub(crate) fn push_covered(
    alloc: Global,
    word: &[u8],
    names: &mut String,
) -> Result<bool, AllocError>
    ensures { IfOk result (λ is_name. Pushes (spec.GivesBelow word.now) is_name (string_bytes names.old)
        (string_bytes names.new)) }
{
    let Some((text, name)) = read_word(alloc, word)? else {
        return Ok(false);
    };
    if !is_covered(text.as_str(), &name) {
        return Ok(false);
    }
    push_line(names, text.as_str(), &name)?;
    names.push_str("*.")?;
    push_line(names, text.as_str(), &name)?;
    Ok(true)
}
