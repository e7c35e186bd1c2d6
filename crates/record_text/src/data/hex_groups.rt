//! Groups of hexadecimal digits with a byte between them: addresses of 48 and 64 bits (RFC 7043), and identifiers of
//! nodes (RFC 6742).

ghost use Rattle.std.specs.Prelude.{◌≡◌, ◌≢◌, ◌≤◌, ◌<◌, ◌^◌, ℕ, Option, get_or, length, IfErr, IfNone, IfSome, OnOk};
ghost use Rattle.std.specs.Char.{digit_value};
ghost use Rattle.wire_names.specs.rr.domain.DomainName.{DomainName};
ghost use Rattle.record_text.specs.declared.data.field.Field.TheVariants as field;
ghost use Rattle.record_text.specs.declared.data.hex_groups.Group.TheVariants as group;
ghost use Rattle.text_words.specs.declared.error.TextError.TheVariants.{Memory};
ghost use Rattle.text_words.specs.Spelling.{Puts};
ghost use Rattle.record_text.specs.RecordText.{HasNone, IsField};
ghost use Rattle.record_text.specs.Groups.{IsGroup, IsHex, SpellsHexGroups};

use text_words::{TextError, TextFault, Word};

/// What each group of digits stands for.
#[derive(Clone, Copy, Debug)]
pub(crate) enum Group {
    /// 8 bits, in two digits.
    Octet,
    /// 16 bits, in one to four digits.
    Bits16,
}

/// The value of a hexadecimal digit.
fn digit_of(digit: u8) -> Option<u8>
    ensures value { IfSome result (λ value. (digit_value digit ≡ value) × (value < 16)) }
    ensures none { IfNone result (16 ≤ digit_value digit) }
{
    match digit {
        b'0'..=b'9' => Some(digit - b'0'),
        b'A'..=b'F' => Some(digit - b'A' + 10),
        b'a'..=b'f' => Some(digit - b'a' + 10),
        _ => None,
    }
}

/// The number of 16 bits that hexadecimal digits are.
fn number_of_hex(digits: &[u8]) -> Option<u16>
    ensures value { IfSome result (IsHex digits.now) }
    ensures none { IfNone result (HasNone (λ n. IsHex digits.now n × (n < 2 ^ 16))) }
{
    let mut number = 0u16;
    for digit in digits {
        let value = digit_of(*digit)?;
        number = number.checked_mul(16)?.checked_add(u16::from(value))?;
    }
    Some(number)
}

/// Where the part of a text ends that begins at a place: before the next byte between parts, or with the text.
fn part_end(text: &[u8], place: usize, between: u8) -> usize
    requires { place ≤ length text.now }
    ensures on { place ≤ result }
    ensures within { result ≤ length text.now }
    ensures apart { (i : ℕ) → place ≤ i → i < result → get_or text.now i 0 ≢ between }
    ensures last { result < length text.now → get_or text.now result 0 ≡ between }
{
    for end in place..text.len() {
        if text[end] == between {
            return end;
        }
    }
    text.len()
}

/// Puts the octet behind others that two digits are.
fn put_octet(word: &Word<'_>, digits: &[u8], data: &mut Vec<u8>) -> Result<(), TextError>
    ensures put { OnOk result (Puts (IsGroup group.Octet digits.now) «data».old.items «data».new.items) }
    ensures refused { IfErr result (λ e. e ≢ Memory → HasNone (IsGroup group.Octet digits.now)) }
{
    let bad = word.fault(TextFault::BadAddress);
    if digits.len() != 2 {
        return Err(bad);
    }
    let Some(number) = number_of_hex(digits) else {
        return Err(bad);
    };
    let Ok(octet) = u8::try_from(number) else {
        return Err(bad);
    };
    data.push(octet)?;
    Ok(())
}

/// Puts the two octets behind others that one to four digits are.
fn put_bits16(word: &Word<'_>, digits: &[u8], data: &mut Vec<u8>) -> Result<(), TextError>
    ensures put { OnOk result (Puts (IsGroup group.Bits16 digits.now) «data».old.items «data».new.items) }
    ensures refused { IfErr result (λ e. e ≢ Memory → HasNone (IsGroup group.Bits16 digits.now)) }
{
    let bad = word.fault(TextFault::BadAddress);
    let len = digits.len();
    if len == 0 || len > 4 {
        return Err(bad);
    }
    let Some(number) = number_of_hex(digits) else {
        return Err(bad);
    };
    data.extend_from_slice(&number.to_be_bytes())?;
    Ok(())
}

/// Puts the octets of a group of digits behind others.
fn put_group(
    kind: Group,
    word: &Word<'_>,
    digits: &[u8],
    data: &mut Vec<u8>,
) -> Result<(), TextError>
    ensures put { OnOk result (Puts (IsGroup kind digits.now) «data».old.items «data».new.items) }
    ensures refused { IfErr result (λ e. e ≢ Memory → HasNone (IsGroup kind digits.now)) }
{
    match kind {
        Group::Octet => put_octet(word, digits, data),
        Group::Bits16 => put_bits16(word, digits, data),
    }
}

/// Puts the bytes of so many groups behind others, between which this byte stands.
fn put_groups(
    kind: Group,
    between: u8,
    count: usize,
    word: &Word<'_>,
    data: &mut Vec<u8>,
) -> Result<(), TextError>
    requires no_digit { 16 ≤ digit_value between }
    requires some { 0 < count }
    ensures put { OnOk result (Puts (SpellsHexGroups between kind count word.now.bytes.now) «data».old.items
        «data».new.items) }
    ensures refused { IfErr result (λ e. e ≢ Memory → HasNone (SpellsHexGroups between kind count word.now.bytes.now)) }
{
    let bad = word.fault(TextFault::BadAddress);
    let text = word.bytes;
    let mut place = 0;
    let mut groups = 0;
    'groups: loop {
        let end = part_end(text, place, between);
        put_group(kind, word, &text[place..end], data)?;
        groups += 1;
        if end == text.len() {
            return if groups == count { Ok(()) } else { Err(bad) };
        }
        if groups == count {
            return Err(bad);
        }
        place = end + 1;
    }
}

/// Puts an address of 48 bits behind other bytes: six octets with hyphens between them (RFC 7043 section 3.2).
pub(crate) fn put_eui48(word: &Word<'_>, data: &mut Vec<u8>) -> Result<(), TextError>
    ensures put { OnOk result ((origin : Option DomainName) →
        Puts (IsField origin field.Eui48 word.now) «data».old.items «data».new.items) }
    ensures refused { IfErr result (λ e. e ≢ Memory → (origin : Option DomainName) →
        HasNone (IsField origin field.Eui48 word.now)) }
{
    if word.quoted {
        return Err(word.fault(TextFault::BadAddress));
    }
    put_groups(Group::Octet, b'-', 6, word, data)
}

/// Puts an address of 64 bits behind other bytes: eight octets with hyphens between them (RFC 7043 section 4.2).
pub(crate) fn put_eui64(word: &Word<'_>, data: &mut Vec<u8>) -> Result<(), TextError>
    ensures put { OnOk result ((origin : Option DomainName) →
        Puts (IsField origin field.Eui64 word.now) «data».old.items «data».new.items) }
    ensures refused { IfErr result (λ e. e ≢ Memory → (origin : Option DomainName) →
        HasNone (IsField origin field.Eui64 word.now)) }
{
    if word.quoted {
        return Err(word.fault(TextFault::BadAddress));
    }
    put_groups(Group::Octet, b'-', 8, word, data)
}

/// Puts the identifier of a node, or a locator, of 64 bits behind other bytes: four groups with colons between them
/// (RFC 6742 section 2.1.2).
pub(crate) fn put_locator64(word: &Word<'_>, data: &mut Vec<u8>) -> Result<(), TextError>
    ensures put { OnOk result ((origin : Option DomainName) →
        Puts (IsField origin field.Locator64 word.now) «data».old.items «data».new.items) }
    ensures refused { IfErr result (λ e. e ≢ Memory → (origin : Option DomainName) →
        HasNone (IsField origin field.Locator64 word.now)) }
{
    if word.quoted {
        return Err(word.fault(TextFault::BadAddress));
    }
    put_groups(Group::Bits16, b':', 4, word, data)
}
