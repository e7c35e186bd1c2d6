//! Reading a name from the bytes of a message.

ghost use Rattle.std.specs.Prelude.{◌≡◌, ◌≢◌, ◌≤◌, ◌++◌, List, length, map, MatchResult, IfOk, IfSome, slice_get, slice_range, ◌<◌, ◌+◌, true, Some, ℕ};
ghost use Rattle.wire_reading.specs.representation.KnownNames.{IsRest};
ghost use Rattle.wire_names.specs.declared.error.DecodeError.TheVariants.{Memory, NameTooLong};
ghost use Rattle.wire_messages.specs.serialize.reading.NameReading.{labels_from, target};
ghost use Rattle.wire_messages.specs.serialize.layout.NameLayout.{LabelsFault};
ghost use Rattle.wire_names.specs.rr.domain.DomainName.{AreLabels, IsWire, cut, wire_form};
ghost use Rattle.wire_messages.specs.serialize.reading.Reading.{Fails};

use crate::serialize::reading::known_names::KnownNames;
use std::alloc::Global;
use wire_names::error::DecodeError;
use wire_names::rr::domain::labels::{Labels, MAX_NAME_LEN};
use wire_names::rr::domain::name::Name;

/// The first length byte of no label.
pub(crate) const LABEL_LIMIT: usize = 64;

/// The first byte of a pointer has these two bits set (RFC 1035, section 4.1.4).
pub(crate) const POINTER_BITS: usize = 192;

fn byte_at(bytes: &[u8], place: usize) -> Option<u8>
    ensures value { result ≡ slice_get bytes.now place }
    ensures in_range { IfSome result (λ _. place < length bytes.now) }
{
    bytes.get(place).copied()
}

/// The place behind the label of `count` bytes whose length byte stands at `place`, in a name of `size` bytes so far.
fn label_end(bytes: &[u8], place: usize, size: usize, count: usize) -> Result<usize, DecodeError>
    requires count { slice_get bytes.now place ≡ Some count }
    requires label { (0 < count) × (count < 64) }
    requires size { size ≤ 255 }
    ensures { MatchResult result
        (λ end. (end ≡ place + 1 + count) × (end ≤ length bytes.now) × (size + 1 + count ≤ 255))
        (λ e. (start : ℕ) → LabelsFault bytes.now start place size e) }
{
    let end = place + 1 + count;
    if bytes.len() < end {
        return Err(DecodeError::InsufficientBytes);
    }
    if size + 1 + count > MAX_NAME_LEN {
        return Err(DecodeError::NameTooLong);
    }
    Ok(end)
}

/// Where the pointer whose first byte `high` stands at `place` leads: before `start`, where its run of labels began.
fn pointer_target(
    bytes: &[u8],
    start: usize,
    place: usize,
    high: usize,
) -> Result<usize, DecodeError>
    requires high { slice_get bytes.now place ≡ Some high }
    requires pointer { (192 ≤ high) × (high < 256) }
    ensures { MatchResult result
        (λ goal. (goal < start) × (place + 2 ≤ length bytes.now) ×
        ((low : ℕ) × (slice_get bytes.now (place + 1) ≡ Some low) × (goal ≡ target high low)))
        (λ e. (size : ℕ) → LabelsFault bytes.now start place size e) }
{
    let Some(low) = byte_at(bytes, place + 1) else {
        return Err(DecodeError::InsufficientBytes);
    };
    let target = (high - POINTER_BITS) * 256 + usize::from(low);
    if target >= start {
        return Err(DecodeError::PointerNotPriorToLabel);
    }
    Ok(target)
}

/// What is known of the name that goes on at a place, and the place behind the name: nothing before the first pointer.
fn known_rest<'a>(
    known: &'a Option<KnownNames<'_>>,
    after: Option<usize>,
    start: usize,
    place: usize,
) -> Option<(&'a [u8], usize)>
    ensures behind { IfSome result (λ x. after ≡ Some x.1) }
    ensures rest { (bytes : List ℕ) → IfSome known.now (λ names. names ≡ bytes) →
        IfSome result (λ x. IsRest bytes start place x.0.now) }
{
    let names = known.as_ref()?;
    let after = after?;
    let rest = names.rest(start, place)?;
    Some((rest, after))
}

/// The name of labels that were read, and of a rest in wire form.
fn name_with_rest(alloc: Global, labels: &mut Labels, rest: &[u8]) -> Result<Name, DecodeError>
    requires { IsWire rest.now }
    ensures { MatchResult result
        (λ name. (name ≡ record { labels = labels.old ++ cut rest.now; is_fqdn = true }) ×
        (length (wire_form labels.old) + length rest.now < 255))
        (λ e. e ≢ Memory → (e ≡ NameTooLong) × (255 ≤ length (wire_form labels.old) + length rest.now)) }
{
    if labels.wire_len() + rest.len() >= MAX_NAME_LEN {
        return Err(DecodeError::NameTooLong);
    }
    labels.append(rest);
    Ok(labels.to_name(alloc, true)?)
}

/// Where the byte 0 stands that ends the name at a place, if the name stands there in full: labels one behind the other
/// up to that byte, without a pointer, and with at most 255 bytes in all. It looks at the length bytes alone.
pub(crate) fn plain_end(bytes: &[u8], from: usize) -> Option<usize>
    ensures within { IfSome result (λ end. (from ≤ end) × (end < length bytes.now)) }
    ensures wire { IfSome result (λ end. IsWire (slice_range bytes.now from end)) }
    ensures reads { IfSome result (λ end. labels_from bytes.now from from 1 ≡ Ok
        (cut (slice_range bytes.now from end), end + 1)) }
{
    let mut place = from;
    while place - from < MAX_NAME_LEN {
        let high = usize::from(byte_at(bytes, place)?);
        if high == 0 {
            return Some(place);
        }
        if high >= LABEL_LIMIT {
            return None;
        }
        place += 1 + high;
    }
    None
}

/// The name at a place as `read_name_at` gives it, read label by label and from pointer to pointer.
fn read_by_labels(
    alloc: Global,
    bytes: &[u8],
    from: usize,
    known: &Option<KnownNames<'_>>,
) -> Result<(Name, usize, usize), DecodeError>
    requires { IfSome known.now (λ names. names ≡ bytes.now) }
    ensures gives { MatchResult result
        (λ x. labels_from bytes.now from from 1 ≡ Ok (x.0.labels, x.1))
        (λ e. Fails e (labels_from bytes.now from from 1)) }
    ensures qualified { IfOk result (λ x. x.0.is_fqdn ≡ true) }
    ensures in_range { IfOk result (λ x. x.1 ≤ length bytes.now) }
{
    let mut labels = Labels::new();
    let mut start = from;
    let mut place = from;
    let mut size = 1;
    let mut after = None;
    let mut steps = 0usize;
    'labels: loop {
        if let Some((rest, next)) = known_rest(known, after, start, place) {
            return Ok((name_with_rest(alloc, &mut labels, rest)?, next, steps));
        }
        let Some(high) = byte_at(bytes, place) else {
            return Err(DecodeError::InsufficientBytes);
        };
        let high = usize::from(high);
        if high == 0 {
            let name = labels.to_name(alloc, true)?;
            return Ok((name, after.unwrap_or(place + 1), steps));
        }
        steps = steps.saturating_add(usize::from(after.is_some()));
        if high < LABEL_LIMIT {
            let end = label_end(bytes, place, size, high)?;
            labels.push(&bytes[place + 1..end]);
            size += 1 + high;
            place = end;
        } else if high < POINTER_BITS {
            return Err(DecodeError::UnrecognizedLabelCode);
        } else {
            start = pointer_target(bytes, start, place, high)?;
            after = Some(after.unwrap_or(place + 2));
            place = start;
        }
    }
}

/// The name at a place, fully qualified, the place behind it, and how many steps were taken behind its first pointer: a
/// step for each label and each pointer. What is known of the message is not walked again.
pub(crate) fn read_name_at(
    alloc: Global,
    bytes: &[u8],
    from: usize,
    known: &Option<KnownNames<'_>>,
) -> Result<(Name, usize, usize), DecodeError>
    requires { IfSome known.now (λ names. names ≡ bytes.now) }
    ensures gives { MatchResult result
        (λ x. labels_from bytes.now from from 1 ≡ Ok (x.0.labels, x.1))
        (λ e. Fails e (labels_from bytes.now from from 1)) }
    ensures qualified { IfOk result (λ x. x.0.is_fqdn ≡ true) }
    ensures in_range { IfOk result (λ x. x.1 ≤ length bytes.now) }
{
    match plain_end(bytes, from) {
        // It has no pointer, so no step was taken behind one.
        Some(end) => {
            let name = Name::from_wire(alloc, &bytes[from..end], true)?;
            Ok((name, end + 1, 0))
        }
        None => read_by_labels(alloc, bytes, from, known),
    }
}
