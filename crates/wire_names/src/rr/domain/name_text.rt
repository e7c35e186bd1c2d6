//! Names as text.

ghost use Rattle.std.specs.Prelude.{◌≡◌, ◌↔◌, ◌⊎◌, [], length, ◌==◌, IfOk, IsTrue, MatchOption, Ok, Err, List, ℕ, Bool};
ghost use Rattle.std.specs.List.{position, position_or_len};
ghost use Rattle.wire_names.specs.rr.domain.DomainName.{DomainName};
ghost use Rattle.wire_names.specs.rr.domain.NameText.{IsNameByte, IsTextLabel, IsNameText};
ghost use Rattle.wire_names.specs.declared.error.NameError.TheVariants.{Text, Memory};

use crate::error::NameError;
use crate::rr::domain::labels::{Labels, MAX_NAME_LEN};
use crate::rr::domain::name::Name;
use std::alloc::Global;

/// Whether a byte may stand in a label of a text.
fn is_name_byte(byte: u8) -> bool
    ensures { IsTrue result ↔ IsNameByte byte }
{
    byte.is_ascii_alphanumeric() || byte == b'-' || byte == b'_'
}

/// Whether these bytes may stand in a text as a label.
fn is_text_label(label: &[u8]) -> bool
    ensures { IsTrue result ↔ IsTextLabel label.now }
{
    match label {
        [] => false,
        [b'*'] => true,
        _ => label.len() < 64 && label.iter().all(|byte| is_name_byte(*byte)),
    }
}

fn first_dot(text: &[u8]) -> Option<usize>
    ensures { result ≡ position (λ b. b == 46) text.now }
{
    text.iter().position(|byte| *byte == b'.')
}

/// How many bytes stand before the first dot, or before the end.
fn label_len(text: &[u8]) -> usize
    ensures { result ≡ position_or_len (λ b. b == 46) text.now }
{
    first_dot(text).unwrap_or(text.len())
}

/// Reads the labels of a text, and whether it ends in a dot. `None` where it is not the text of a name.
fn read_text(text: &[u8], labels: &mut Labels) -> Option<bool>
    requires { labels.old ≡ [] }
    ensures { MatchOption result
        ((n : DomainName) → IsNameText text.now n → ⊥)
        (λ is_fqdn. (n : DomainName) → IsNameText text.now n ↔
        (n ≡ record { labels = labels.new; is_fqdn = is_fqdn })) }
{
    let mut rest = text;
    'labels: loop {
        let (label, behind) = rest.split_at(label_len(rest));
        if !is_text_label(label) || labels.wire_len() + 1 + label.len() >= MAX_NAME_LEN {
            return None;
        }
        labels.push(label);
        match behind {
            [] => return Some(false),
            [_] => return Some(true),
            [_, more @ ..] => rest = more,
        }
    }
}

impl Name {
    /// The name of a text: one or more labels joined by dots, with or without a final dot. It is fully qualified
    /// exactly where the text ends in a dot.
    ///
    /// A label is `*` alone, or 1 to 63 ASCII letters, digits, `-` and `_`; their case is kept. The name has at most
    /// 255 bytes in wire form (RFC 1035, section 2.3.4). Any other text, the empty one and `.` among them, is `Text`.
    pub fn from_ascii(alloc: Global, text: &str) -> Result<Name, NameError>
        ensures ok { IfOk result (λ n. IsNameText text.now n) }
        ensures only { (n : DomainName) → IsNameText text.now n → (result ≡ Ok n) ⊎ (result ≡ Err Memory) }
        ensures text { (result ≡ Err Text) ↔ ((n : DomainName) → IsNameText text.now n → ⊥) }
    {
        let mut labels = Labels::new();
        let Some(is_fqdn) = read_text(text.as_bytes(), &mut labels) else {
            return Err(NameError::Text);
        };
        Ok(labels.to_name(alloc, is_fqdn)?)
    }
}
