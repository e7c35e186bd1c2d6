//! Laws of words, each the contract of a function with nothing to do.

ghost use Rattle.text_words.specs.Spelling.{BytesSpelledOnce, NamesSpelledOnce, StringsSpelledOnce, TimesSpelledOnce};
ghost use Rattle.text_words.specs.Words.{StandOnce};

/// From a place of a text on, the words to the end of the line or the entry stand in one way: no others stand there,
/// nor to another end.
pub fn words_stand_once()
    ensures { StandOnce }
{}

/// A text spells bytes in one way; a word spells one character string at most, one name with an origin, and one time.
pub fn words_spell_once()
    ensures bytes { BytesSpelledOnce }
    ensures strings { StringsSpelledOnce }
    ensures names { NamesSpelledOnce }
    ensures times { TimesSpelledOnce }
{}
