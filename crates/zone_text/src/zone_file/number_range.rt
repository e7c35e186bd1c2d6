//! The range of a `$GENERATE` directive.

ghost use Rattle.std.specs.Prelude.{◌≡◌, ◌<◌, ◌^◌, ◌==◌, Some, None, length, IfNone, IfSome, MatchOption};
ghost use Rattle.std.specs.List.{position};
ghost use Rattle.record_text.specs.RecordText.{HasNone};
ghost use Rattle.zone_text.specs.Numbered.{IsRange, number_below, part_before, part_behind, step_of};

use text_words::number_of_digits;

/// The numbers from a first to a last one, step by step.
#[derive(Clone, Copy)]
pub(crate) struct NumberRange {
    /// The first number, of 31 bits.
    pub(crate) first: u32,
    /// What no number is greater than, of 31 bits.
    pub(crate) last: u32,
    /// What each number is greater by than the one before, of 31 bits, and not 0.
    pub(crate) step: u32,
}

/// One more than the greatest number of 31 bits.
pub(crate) const NUMBER_BOUND: u32 = 1 << 31;

/// The most numbers that a range reaches.
const MOST_NUMBERS: u64 = 65_536;

fn first_at(text: &[u8], byte: u8) -> Option<usize>
    ensures { result ≡ position (λ b. b == byte) text.now }
{
    text.iter().position(|b| *b == byte)
}

/// What stands before the first such byte, or all, and what stands behind it, if it is there.
pub(crate) fn parts(text: &[u8], byte: u8) -> (&[u8], Option<&[u8]>)
    ensures before { result.0.now ≡ part_before byte text.now }
    ensures behind { MatchOption result.1 (part_behind byte text.now ≡ None)
        (λ behind. part_behind byte text.now ≡ Some behind.now) }
    ensures shorter { IfSome result.1 (λ behind. length behind.now < length text.now) }
{
    match first_at(text, byte) {
        Some(len) => (&text[..len], Some(&text[len + 1..])),
        None => (text, None),
    }
}

/// The number below a bound that decimal digits are, at least one.
pub(crate) fn number_below(bound: u32, text: &[u8]) -> Option<u32>
    ensures number { result ≡ number_below bound text.now }
    ensures small { IfSome result (λ number. number < bound) }
{
    let number = number_of_digits(text)?;
    if number < bound { Some(number) } else { None }
}

/// The step that stands in a range, or 1.
fn step_of(text: Option<&[u8]>) -> Option<u32>
    ensures step { MatchOption text.entry (result ≡ step_of None) (λ text. result ≡ step_of (Some text.now)) }
    ensures small { IfSome result (λ step. step < 2 ^ 31) }
{
    match text {
        Some(text) => number_below(NUMBER_BOUND, text),
        None => Some(1),
    }
}

/// The range that a text is.
pub(crate) fn range_of(text: &[u8]) -> Option<NumberRange>
    ensures range { IfSome result (IsRange text.now) }
    ensures small { IfSome result (λ range. (range.last < 2 ^ 31) × (range.step < 2 ^ 31)) }
    ensures none { IfNone result (HasNone (IsRange text.now)) }
{
    let (first, behind) = parts(text, b'-');
    let (last, step) = parts(behind?, b'/');
    let range = NumberRange {
        first: number_below(NUMBER_BOUND, first)?,
        last: number_below(NUMBER_BOUND, last)?,
        step: step_of(step)?,
    };
    let reach = u64::from(range.first) + MOST_NUMBERS * u64::from(range.step);
    if range.first <= range.last && range.step > 0 && u64::from(range.last) < reach {
        Some(range)
    } else {
        None
    }
}
