//! Latitude, longitude, altitude and sizes.

ghost use Rattle.std.specs.Prelude.{◌≡◌, ◌≢◌, ◌++◌, ◌∷◌, ◌≤◌, ◌<◌, ◌*◌, ◌^◌, IfErr, IfOk, OnErr, OnOk};
ghost use Rattle.std.specs.Int.{w32, to_be_bytes};
ghost use Rattle.text_words.specs.declared.error.TextError.TheVariants.{Memory};
ghost use Rattle.text_words.specs.Spelling.{Puts};
ghost use Rattle.text_data.specs.LocationText.{HasNone, IsCoordinate, IsLocation, before_letter, behind_letter, letter_in, letter_of, location_octets};

use crate::altitudes::altitude;
use crate::angles::angle;
use crate::sizes::sizes;
use std::alloc::AllocError;
use text_words::{TextError, TextFault, Word, fault_at};

/// A direction of an angle: the letters that add it and take it away, and the most degrees that it has.
#[derive(Clone, Copy)]
struct Axis {
    plus: u8,
    minus: u8,
    most: u32,
    ghost small: { most ≤ 180 },
}

/// Latitudes.
fn north_and_south() -> Axis
    ensures plus { result.plus ≡ 78 }
    ensures minus { result.minus ≡ 83 }
    ensures most { result.most ≡ 90 }
{
    Axis {
        plus: b'N',
        minus: b'S',
        most: 90,
    }
}

/// Longitudes.
fn east_and_west() -> Axis
    ensures plus { result.plus ≡ 69 }
    ensures minus { result.minus ≡ 87 }
    ensures most { result.most ≡ 180 }
{
    Axis {
        plus: b'E',
        minus: b'W',
        most: 180,
    }
}

/// Which of two letters a word is, or 0.
fn letter_in(word: &Word<'_>, plus: u8, minus: u8) -> u8
    ensures { result ≡ letter_in plus minus word.now }
{
    if word.quoted {
        return 0;
    }
    if word.bytes == [plus].as_slice() {
        return plus;
    }
    if word.bytes == [minus].as_slice() {
        return minus;
    }
    0
}

/// Words, cut at the first that is one of two letters.
#[derive(Clone, Copy)]
struct Cut<'a, 'w> {
    before: &'w [Word<'a>],
    /// The letter, or 0, where none is one.
    letter: u8,
    behind: &'w [Word<'a>],
}

/// Cuts words at the first that is one of two letters.
fn cut_at_letter<'a, 'w>(words: &'w [Word<'a>], plus: u8, minus: u8) -> Cut<'a, 'w>
    ensures before { result.before.now ≡ before_letter plus minus words.now }
    ensures letter { result.letter ≡ letter_of plus minus words.now }
    ensures behind { result.behind.now ≡ behind_letter plus minus words.now }
{
    for place in 0..words.len() {
        let letter = letter_in(&words[place], plus, minus);
        if letter != 0 {
            return Cut {
                before: &words[..place],
                letter,
                behind: &words[place + 1..],
            };
        }
    }
    Cut {
        before: words,
        letter: 0,
        behind: &words[words.len()..],
    }
}

/// A latitude or longitude, and the words behind it. `end` is the place where a word is missing.
fn coordinate<'a, 'w>(
    words: &'w [Word<'a>],
    axis: Axis,
    end: usize,
) -> Result<(u32, &'w [Word<'a>]), TextError>
    ensures spelled { IfOk result (λ found. IsCoordinate axis.plus axis.minus axis.most words.now found.0) }
    ensures behind { IfOk result (λ found. found.1.now ≡ behind_letter axis.plus axis.minus words.now) }
    ensures refused { OnErr result (HasNone (IsCoordinate axis.plus axis.minus axis.most words.now)) }
{
    let cut = cut_at_letter(words, axis.plus, axis.minus);
    if cut.letter == 0 {
        return Err(fault_at(end, TextFault::MissingField));
    }
    let angle = angle(cut.before, end)?;
    if angle > 3_600_000 * u64::from(axis.most) {
        let place = words.first().map_or(end, |word| word.start);
        return Err(fault_at(place, TextFault::NumberOutOfRange));
    }
    let value = if cut.letter == axis.plus {
        0x8000_0000 + angle as u32
    } else {
        0x8000_0000 - angle as u32
    };
    Ok((value, cut.behind))
}

/// Puts a location behind other bytes in wire form.
fn put_wire(
    sizes: &[u8],
    latitude: u32,
    longitude: u32,
    height: u32,
    data: &mut Vec<u8>,
) -> Result<(), AllocError>
    ensures { OnOk result («data».new.items ≡ «data».old.items ++ location_octets sizes.now latitude longitude height) }
{
    data.push(0)?;
    data.extend_from_slice(sizes)?;
    data.extend_from_slice(&latitude.to_be_bytes())?;
    data.extend_from_slice(&longitude.to_be_bytes())?;
    data.extend_from_slice(&height.to_be_bytes())
}

/// Puts the location behind other bytes that words are (RFC 1876 sections 2 and 3): degrees, minutes and seconds north
/// or south, the same east or west, an altitude, and a size with a horizontal and a vertical precision. `end` is the
/// place where a word is missing. What is refused, but for want of memory, is no location.
pub fn put_location(words: &[Word<'_>], end: usize, data: &mut Vec<u8>) -> Result<(), TextError>
    ensures put { OnOk result (Puts (IsLocation words.now) «data».old.items «data».new.items) }
    ensures refused { IfErr result (λ e. e ≢ Memory → HasNone (IsLocation words.now)) }
{
    let (latitude, behind) = coordinate(words, north_and_south(), end)?;
    let (longitude, behind) = coordinate(behind, east_and_west(), end)?;
    let [first, others @ ..] = behind else {
        return Err(fault_at(end, TextFault::MissingField));
    };
    let height = altitude(first)?;
    let sizes = sizes(others)?;
    put_wire(&sizes, latitude, longitude, height, data)?;
    Ok(())
}
