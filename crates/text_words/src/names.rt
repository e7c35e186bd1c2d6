//! Names in text.

ghost use Rattle.std.specs.Prelude.{◌≡◌, ◌≢◌, ◌≤◌, ◌<◌, [], ◌++◌, false, true, get_or, length, take, IfErr, IfOk, OnErr, OnOk};
ghost use Rattle.std.specs.Option.{option_copied};
ghost use Rattle.wire_names.specs.rr.domain.DomainName.{name_len};
ghost use Rattle.text_words.specs.declared.error.TextError.TheVariants.{Memory};
ghost use Rattle.text_words.specs.Spelling.{AreLabelsWithDot, AreNameLabels, Spells, SpellsName, bare_in_label};
ghost use Rattle.text_words.specs.Spelling.{HasNoLabel, HasNoLabels, HasNoNameLabels, IsNoName};

use crate::error::{TextError, TextFault};
use crate::escapes::first_byte;
use crate::words::{Word, Words};
use std::alloc::Global;
use wire_names::rr::domain::labels::Labels;
use wire_names::rr::domain::name::Name;

/// The most bytes that a label has (RFC 1035 section 2.3.4).
const MAX_LABEL_LEN: usize = 63;

/// The most bytes that the labels of a name have in wire form, without its end byte (RFC 1035 section 2.3.4).
const MAX_LABELS_LEN: usize = 254;

/// Spells out the label that a text begins with, up to a dot or the end, and tells its length and how many bytes of the
/// text spell it. Before the text stand so many bytes of the word.
fn read_label(
    word: &Word<'_>,
    before: usize,
    text: &[u8],
    label: &mut [u8; MAX_LABEL_LEN],
) -> Result<(usize, usize), TextError>
    ensures within { IfOk result (λ ends. (ends.0 ≤ 63) × (ends.1 ≤ length text.now)) }
    ensures spelled { IfOk result (λ ends. Spells bare_in_label (take ends.1 text.now) (take ends.0 label.new)) }
    ensures sized { IfOk result (λ ends. length (take ends.0 label.new) ≡ ends.0) }
    ensures dot { IfOk result (λ ends. ends.1 < length text.now → get_or text.now ends.1 0 ≡ 46) }
    ensures refused { OnErr result (HasNoLabel text.now) }
{
    let mut place = 0;
    let mut len = 0;
    'bytes: while place < text.len() {
        let fault_place = before.saturating_add(place);
        let Some(spelled) = first_byte(&text[place..]) else {
            return Err(word.fault_within(fault_place, TextFault::BadEscape));
        };
        if spelled.is_bare && spelled.byte == b'.' {
            break 'bytes;
        }
        if spelled.is_bare && !is_bare_in_label(spelled.byte) {
            return Err(word.fault_within(fault_place, TextFault::BadName));
        }
        if len == MAX_LABEL_LEN {
            return Err(word.fault_within(before, TextFault::LabelTooLong));
        }
        label[len] = spelled.byte;
        len += 1;
        place += spelled.len;
    }
    Ok((len, place))
}

/// Whether a byte may stand in a label without a backslash.
fn is_bare_in_label(byte: u8) -> bool
    ensures { result ≡ bare_in_label byte }
{
    !matches!(byte, b'.' | b'"' | b'(' | b')' | b';')
}

/// Reads labels with dots between them, and whether a dot stands last.
fn read_labels(word: &Word<'_>, labels: &mut Labels) -> Result<bool, TextError>
    requires { labels.old ≡ [] }
    ensures labels { IfOk result (λ dot. AreLabelsWithDot dot word.now.bytes.now labels.new) }
    ensures refused { OnErr result (HasNoLabels word.now.bytes.now) }
{
    let text = word.bytes;
    let mut place = 0;
    'labels: loop {
        let mut label = [0; MAX_LABEL_LEN];
        let (len, used) = read_label(word, place, &text[place..], &mut label)?;
        if len == 0 {
            return Err(word.fault_within(place, TextFault::BadName));
        }
        if labels.wire_len() + 1 + len > MAX_LABELS_LEN {
            return Err(word.fault_within(place, TextFault::NameTooLong));
        }
        labels.push(&label[..len]);
        let end = place + used;
        if end == text.len() {
            return Ok(false);
        }
        place = end + 1;
        if place == text.len() {
            return Ok(true);
        }
    }
}

/// Reads the labels of a name, and whether it is fully qualified: `.` and `@` have none, and the first of them is.
fn spelled_labels(word: &Word<'_>, labels: &mut Labels) -> Result<bool, TextError>
    requires { labels.old ≡ [] }
    ensures plain { OnOk result (word.now.quoted ≡ false) }
    ensures spelled { IfOk result (λ is_fqdn. AreNameLabels is_fqdn word.now.bytes.now labels.new) }
    ensures refused { OnErr result (HasNoNameLabels word.now) }
{
    if word.quoted {
        return Err(word.fault(TextFault::BadName));
    }
    if word.bytes == b".".as_slice() {
        return Ok(true);
    }
    if word.bytes == b"@".as_slice() {
        return Ok(false);
    }
    read_labels(word, labels)
}

/// Puts the labels of a name behind others. With them a name has at most 255 bytes.
fn append_labels(word: &Word<'_>, labels: &mut Labels, name: &Name) -> Result<(), TextError>
    ensures behind { IfOk result (λ _. labels.new ≡ labels.old ++ name.now.labels) }
    ensures refused { OnErr result (255 < name_len (labels.old ++ name.now.labels)) }
{
    let wire = name.as_wire();
    if labels.wire_len() + wire.len() > MAX_LABELS_LEN {
        return Err(word.fault(TextFault::NameTooLong));
    }
    let mut place = 0;
    let mut count = 0usize;
    'labels: while place < wire.len() {
        let end = place + 1 + usize::from(wire[place]);
        labels.push(&wire[place + 1..end]);
        place = end;
        count += 1;
    }
    Ok(())
}

/// The name that a field stands for, fully qualified: one without a dot at its end is relative to the origin (RFC 1035
/// section 5.1), and without an origin a fault.
pub fn absolute_name(
    alloc: Global,
    word: &Word<'_>,
    origin: Option<&Name>,
) -> Result<Name, TextError>
    ensures qualified { IfOk result (λ name. name.is_fqdn ≡ true) }
    ensures plain { OnOk result (word.now.quoted ≡ false) }
    ensures spelled { IfOk result (λ name. SpellsName (option_copied origin.entry) word.now.bytes.now name.labels) }
    ensures short { IfOk result (λ name. name_len name.labels ≤ 255) }
    ensures refused { IfErr result (λ e. e ≢ Memory → IsNoName (option_copied origin.entry) word.now) }
{
    let mut labels = Labels::new();
    let is_fqdn = spelled_labels(word, &mut labels)?;
    if !is_fqdn {
        let Some(origin) = origin else {
            return Err(word.fault(TextFault::NotFullyQualified));
        };
        append_labels(word, &mut labels, origin)?;
    }
    let _len = labels.wire_len();
    Ok(labels.to_name(alloc, true)?)
}

/// The name of the next field, as `absolute_name` tells it.
pub fn next_name(
    alloc: Global,
    words: &mut Words<'_>,
    origin: Option<&Name>,
) -> Result<Name, TextError>
    ensures { IfOk result (λ name. name.is_fqdn ≡ true) }
{
    let word = words.field()?;
    absolute_name(alloc, &word, origin)
}

/// Reads a name (RFC 1035 section 5.1): labels with dots between them, fully qualified where a dot stands last, as
/// `www.example.com.`; `.` is the root, and `@` the name of no labels that is not fully qualified.
///
/// A label is any bytes but blanks, `.`, `"`, `(`, `)`, `;` and `\`. A backslash and three decimal digits are the byte
/// of that number, and a backslash and any other byte are that byte. Blanks may stand around the name, and a comment
/// behind it.
pub fn read_name(alloc: Global, text: &str) -> Result<Name, TextError> {
    let mut words = Words::new(text);
    let word = words.field()?;
    let mut labels = Labels::new();
    let is_fqdn = spelled_labels(&word, &mut labels)?;
    let name = labels.to_name(alloc, is_fqdn)?;
    words.end()?;
    Ok(name)
}
