//! The texts of parameters, each in one word or with its value in quotes behind it (RFC 9460 section 2.1 and appendix
//! A).

ghost use Rattle.std.specs.Prelude.{◌≡◌, ◌≤◌, ◌<◌, ◌∷◌, length, drop};
ghost use Rattle.text_data.specs.ServiceText.{before_sign, behind_sign, is_value, parameter_texts, text_view};

use text_words::Word;

/// The text of a parameter: the word that it begins with, its key, and its value.
#[derive(Clone, Copy)]
pub(crate) struct Text<'a> {
    pub(crate) word: Word<'a>,
    pub(crate) key: &'a [u8],
    pub(crate) value: &'a [u8],
}

/// What stands before the first `=` of a text, and what behind it.
fn cut_at_sign(text: &[u8]) -> (&[u8], &[u8])
    ensures before { result.0.now ≡ before_sign text.now }
    ensures behind { result.1.now ≡ behind_sign text.now }
{
    for place in 0..text.len() {
        if text[place] == b'=' {
            return (&text[..place], &text[place + 1..]);
        }
    }
    (text, &text[text.len()..])
}

/// Whether a word is the value, in quotes, of the key before it.
fn is_value(word: &Word<'_>, next: &Word<'_>) -> bool
    ensures { result ≡ is_value word.now next.now }
{
    let (key, _) = cut_at_sign(word.bytes);
    let len = word.bytes.len();
    next.quoted && key.len() + 1 == len && next.start.saturating_sub(word.start) == len + 1
}

/// The text of the parameter that begins with the word at this place, and the place behind its words.
pub(crate) fn text_at<'a>(words: &[Word<'a>], place: usize) -> (Text<'a>, usize)
    requires { place < length words.now }
    ensures on { place < result.1 }
    ensures within { result.1 ≤ length words.now }
    ensures text { parameter_texts (drop place words.now) ≡ text_view result.0 ∷ parameter_texts
        (drop result.1 words.now) }
{
    let word = words[place];
    let (key, value) = cut_at_sign(word.bytes);
    let next = place + 1;
    if next < words.len() && is_value(&word, &words[next]) {
        let value = words[next].bytes;
        return (Text { word, key, value }, next + 1);
    }
    (Text { word, key, value }, next)
}
