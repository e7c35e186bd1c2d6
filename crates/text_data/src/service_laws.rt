//! Laws of service parameters, each the contract of a function with nothing to do.

ghost use Rattle.text_words.specs.Spelling.{BytesSpelledOnce};
ghost use Rattle.text_data.specs.ServiceText.{ParametersOfWords, ParametersOnce};

use text_words::word_laws::words_spell_once;

/// Words are service parameters in one way, and the same words are the same ones.
pub fn parameters_once()
    ensures once { ParametersOnce }
    ensures same { ParametersOfWords }
{
    words_spell_once();
}
