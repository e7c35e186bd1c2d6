//! Laws of faults, each the contract of a function with nothing to do: the first fault of a question, a record or a
//! message is the one that reading meets.

ghost use Rattle.std.specs.Prelude.{◌≡◌, ◌↔◌, ◌⊎◌, ℕ, List, [], Err};
ghost use Rattle.wire_names.specs.serialize.layout.Bytes.{AreBytes};
ghost use Rattle.wire_reading.specs.serialize.reading.MessageFaults.{AdditionalsFault, MessageFault, QuestionsFault, RecordsFault};
ghost use Rattle.wire_messages.specs.serialize.layout.MessageLayout.{QuestionRead};
ghost use Rattle.wire_reading.specs.serialize.reading.MessageReading.{Fault, Reads};
ghost use Rattle.wire_reading.specs.serialize.reading.RecordFaults.{QuestionFault, RecordFault};
ghost use Rattle.wire_messages.specs.serialize.layout.RecordLayout.{RecordAt};
ghost use Rattle.wire_messages.specs.serialize.reading.RecordReading.{question, resource};
ghost use Rattle.wire_messages.specs.serialize.reading.SectionReading.{additionals_after, items, no_additionals, section_record};
ghost use Rattle.wire_names.specs.declared.error.DecodeError.{DecodeError};
ghost use Rattle.wire_reading.specs.declared.op.message.Message.{Message};
ghost use Rattle.wire_messages.specs.declared.op.query.Query.{Query};
ghost use Rattle.wire_messages.specs.declared.rr.rdata.RData.{RData};
ghost use Rattle.wire_messages.specs.declared.rr.record.Record.{Record};

/// The fault of a question is the one that reading meets. At each place there is a question or a fault, and one fault
/// at most.
pub fn question_faults()
    ensures met { (bytes : List ℕ) (place : ℕ) (e : DecodeError) → QuestionFault bytes place e ↔
        (question (record { bytes = bytes; place = place }) ≡ Err e) }
    ensures either { (bytes : List ℕ) (place : ℕ) → AreBytes bytes →
        ((q : Query) × (next : ℕ) × QuestionRead bytes place q next) ⊎
        ((e : DecodeError) × QuestionFault bytes place e) }
    ensures never_both { (bytes : List ℕ) (place next : ℕ) (q : Query) (e : DecodeError) →
        QuestionRead bytes place q next → QuestionFault bytes place e → ⊥ }
    ensures one { (bytes : List ℕ) (place : ℕ) (d e : DecodeError) → QuestionFault bytes place d →
        QuestionFault bytes place e → d ≡ e }
{}

/// The fault of a record is the one that reading meets. At each place there is a record or a fault, and one fault at
/// most.
pub fn record_faults()
    ensures met { (bytes : List ℕ) (place : ℕ) (e : DecodeError) → AreBytes bytes → RecordFault bytes place e ↔
        (resource (record { bytes = bytes; place = place }) ≡ Err e) }
    ensures either { (bytes : List ℕ) (place : ℕ) → AreBytes bytes →
        ((r : Record RData) × (next : ℕ) × RecordAt bytes place r next) ⊎
        ((e : DecodeError) × RecordFault bytes place e) }
    ensures never_both { (bytes : List ℕ) (place next : ℕ) (r : Record RData) (e : DecodeError) → AreBytes bytes →
        RecordAt bytes place r next → RecordFault bytes place e → ⊥ }
    ensures one { (bytes : List ℕ) (place : ℕ) (d e : DecodeError) → RecordFault bytes place d →
        RecordFault bytes place e → d ≡ e }
{}

/// The first fault of so many questions, one behind the other, is the one that reading meets; so is that of so many
/// records of an answer or authority section, and of an additional one.
pub fn section_faults()
    ensures questions { (bytes : List ℕ) (place n : ℕ) (e : DecodeError) → AreBytes bytes →
        QuestionsFault bytes place n e ↔ (items question n [] (record { bytes = bytes; place = place }) ≡ Err e) }
    ensures records { (bytes : List ℕ) (place n : ℕ) (e : DecodeError) → AreBytes bytes →
        RecordsFault bytes place n e ↔ (items section_record n [] (record { bytes = bytes; place = place }) ≡ Err e) }
    ensures additionals { (bytes : List ℕ) (place n : ℕ) (e : DecodeError) → AreBytes bytes →
        AdditionalsFault bytes place n e ↔
        (additionals_after n no_additionals (record { bytes = bytes; place = place }) ≡ Err e) }
{}

/// The fault of bytes is the one that reading meets. Bytes begin with a message or have a fault, never both, and one
/// fault at most.
pub fn message_faults()
    ensures met { (bytes : List ℕ) (e : DecodeError) → AreBytes bytes → MessageFault bytes e ↔ Fault bytes e }
    ensures either { (bytes : List ℕ) → AreBytes bytes → ((m : Message) × Reads bytes m) ⊎
        ((e : DecodeError) × MessageFault bytes e) }
    ensures never_both { (bytes : List ℕ) (m : Message) (e : DecodeError) → AreBytes bytes → Reads bytes m →
        MessageFault bytes e → ⊥ }
    ensures one { (bytes : List ℕ) (d e : DecodeError) → AreBytes bytes → MessageFault bytes d → MessageFault bytes e →
        d ≡ e }
{}
