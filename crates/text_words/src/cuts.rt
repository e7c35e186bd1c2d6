//! Texts, cut at a byte.

ghost use Rattle.std.specs.Prelude.{◌≡◌};
ghost use Rattle.text_words.specs.Cuts.{before_byte, behind_byte};

/// What stands in a text before the first such byte, and behind it; all of it and nothing, where it has none.
pub fn cut_at(text: &[u8], byte: u8) -> (&[u8], &[u8])
    ensures before { result.0.now ≡ before_byte byte text.now }
    ensures behind { result.1.now ≡ behind_byte byte text.now }
{
    for place in 0..text.len() {
        if text[place] == byte {
            return (&text[..place], &text[place + 1..]);
        }
    }
    (text, &text[text.len()..])
}
