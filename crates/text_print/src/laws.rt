//! Laws of printed records, each the contract of a function with nothing to do.

ghost use Rattle.std.specs.Prelude.{◌≡◌, ◌+◌, ℕ, List, ◌++◌, length, All, None};
ghost use Rattle.wire_messages.specs.rr.RecordData.{type_of};
ghost use Rattle.wire_messages.specs.declared.rr.rdata.RData.{RData};
ghost use Rattle.wire_messages.specs.serialize.writing.FullForm.{data_octets};
ghost use Rattle.text_words.specs.declared.words.TextKind.{TextKind};
ghost use Rattle.text_words.specs.declared.words.TextKind.TheVariants.{Line};
ghost use Rattle.text_words.specs.declared.words.Word.{Word};
ghost use Rattle.text_words.specs.Words.{AreWordsTo, words_left};
ghost use Rattle.record_text.specs.RecordText.{HasData, HasNone};
ghost use Rattle.text_print.specs.PrintedData.{IsTextOf};
ghost use Rattle.text_print.specs.Printed.{ArePrinted, EndsHere, IsSound, Printed, line_of};

/// Words that are printed stand in the text.
pub fn printed_words_stand()
    ensures { (kind : TextKind) (before behind : List ℕ) (printed : List Printed) → EndsHere kind behind →
        All IsSound printed
        → (words : List Word) × ArePrinted printed words ×
        AreWordsTo kind (before ++ line_of printed ++ behind) (length before) 0 words
        (length before + length (line_of printed)) }
{}

/// What is printed of data is read: it is not refused as data of their type, and what is read of it has the same
/// octets.
pub fn printed_data_are_read()
    ensures taken { (rdata : RData) (text : List ℕ) → IsTextOf rdata text →
        HasNone (HasData None (type_of rdata) (words_left Line text 0 0)) → ⊥ }
    ensures same { (rdata other : RData) (text : List ℕ) → IsTextOf rdata text →
        HasData None (type_of rdata) (words_left Line text 0 0) other
        → data_octets other ≡ data_octets rdata }
{}
