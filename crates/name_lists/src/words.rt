//! The lines of a text, and the words of a line.

ghost use Rattle.std.specs.Prelude.{◌≡◌, ◌<◌, ◌≤◌, ◌==◌, [], ◌∷◌, length, not, MatchOption, position};
ghost use Rattle.std.specs.List.{before_first, position_or_len, slice_split};
ghost use Rattle.name_lists.specs.Gives.{is_among};
ghost use Rattle.name_lists.specs.Words as spec;

/// A space, a tab or a carriage return.
fn is_blank(byte: u8) -> bool
    ensures { result ≡ spec.is_blank byte }
{
    byte == b' ' || byte == b'\t' || byte == b'\r'
}

fn first_at(text: &[u8], byte: u8) -> Option<usize>
    ensures { result ≡ position (λ b. b == byte) text.now }
{
    text.iter().position(|b| *b == byte)
}

fn first_blank(text: &[u8]) -> Option<usize>
    ensures { result ≡ position spec.is_blank text.now }
{
    text.iter().position(|b| is_blank(*b))
}

fn first_word(text: &[u8]) -> Option<usize>
    ensures { result ≡ position (λ b. not (spec.is_blank b)) text.now }
{
    text.iter().position(|b| !is_blank(*b))
}

/// What stands before the first such byte, or all where there is none.
pub(crate) fn before(text: &[u8], byte: u8) -> &[u8]
    ensures { result.now ≡ before_first (λ b. b == byte) text.now }
{
    match first_at(text, byte) {
        Some(len) => &text[..len],
        None => text,
    }
}

/// What stands before and behind the first such byte.
pub(crate) fn split_at_byte(text: &[u8], byte: u8) -> Option<(&[u8], &[u8])>
    ensures { MatchOption result (slice_split (λ b. b == byte) text.now ≡ text.now ∷ [])
        (λ p. (slice_split (λ b. b == byte) text.now ≡ p.0.now ∷ slice_split (λ b. b == byte) p.1.now) ×
        (length p.1.now < length text.now)) }
{
    let Some(len) = first_at(text, byte) else {
        return None;
    };
    let (front, behind) = text.split_at(len);
    Some((front, &behind[1..]))
}

/// The text without the byte order mark at its front.
pub(crate) fn without_mark(text: &[u8]) -> &[u8]
    ensures { result.now ≡ spec.without_mark text.now }
{
    if text.starts_with(b"\xEF\xBB\xBF") {
        &text[3..]
    } else {
        text
    }
}

/// The first line of a text, and what stands behind it.
pub(crate) fn split_line(text: &[u8]) -> Option<(&[u8], &[u8])>
    ensures { MatchOption result (text.now ≡ []) (λ p. (spec.lines_of text.now ≡ p.0.now ∷ spec.lines_of p.1.now) ×
        (length p.1.now < length text.now)) }
{
    if text.is_empty() {
        return None;
    }
    let Some((line, behind)) = split_at_byte(text, b'\n') else {
        return Some((text, &[]));
    };
    Some((line, behind))
}

/// How many bytes stand before the first blank, or before the end.
fn word_len(text: &[u8]) -> usize
    ensures len { result ≡ position_or_len spec.is_blank text.now }
    ensures within { result ≤ length text.now }
{
    first_blank(text).unwrap_or(text.len())
}

/// The word at the front of a text, and what stands behind it.
fn split_word(text: &[u8]) -> Option<(&[u8], &[u8])>
    ensures { MatchOption result (spec.words text.now ≡ []) (λ p. (spec.words text.now ≡ p.0.now ∷ spec.words p.1.now) ×
        (length p.1.now < length text.now)) }
{
    let Some(start) = first_word(text) else {
        return None;
    };
    let (_, front) = text.split_at(start);
    let (word, behind) = front.split_at(word_len(front));
    Some((word, behind))
}

/// Whether a word begins a comment.
fn begins_comment(word: &[u8]) -> bool
    ensures { result ≡ spec.begins_comment word.now }
{
    match word {
        [first, ..] => *first == b'#' || *first == b'!',
        [] => false,
    }
}

/// The word at the front of a text, unless it begins a comment, and what stands behind it.
pub(crate) fn next_word(text: &[u8]) -> Option<(&[u8], &[u8])>
    ensures { MatchOption result (spec.words_before_comment text.now ≡ [])
        (λ p. (spec.words_before_comment text.now ≡ p.0.now ∷ spec.words_before_comment p.1.now) ×
        (length p.1.now < length text.now)) }
{
    let Some((word, behind)) = split_word(text) else {
        return None;
    };
    if begins_comment(word) {
        return None;
    }
    Some((word, behind))
}

/// Whether a word is one of the words of a text.
pub(crate) fn is_among(word: &[u8], entries: &[u8]) -> bool
    ensures { result ≡ is_among word.now (spec.words entries.now) }
{
    let mut rest = entries;
    while let Some((entry, behind)) = split_word(rest) {
        if entry == word {
            return true;
        }
        rest = behind;
    }
    false
}
