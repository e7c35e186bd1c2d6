//! Laws of headers and whole messages, each the contract of a function with nothing to do: how they stand in bytes is
//! how they are read.

ghost use Rattle.std.specs.Prelude.{◌≡◌, ◌↔◌, ◌<◌, ◌%◌, ◌^◌, ℕ, ◌++◌, ◌∷◌, List, [], length, Ok, None, Some, true, false};
ghost use Rattle.std.specs.List.{AllByRecursion};
ghost use Rattle.wire_names.specs.serialize.layout.Bytes.{AreBytes, BytesAt};
ghost use Rattle.wire_messages.specs.serialize.layout.HeaderLayout.{AreCounts, HeaderAt, first_flags, header_octets, metadata_of, second_flags};
ghost use Rattle.wire_messages.specs.serialize.layout.MessageLayout.{AdditionalSection, IsPlainRecord, ItemsAt, QuestionRead};
ghost use Rattle.wire_reading.specs.serialize.layout.WholeMessage.{MessageAt};
ghost use Rattle.wire_reading.specs.serialize.reading.MessageReading.{Fault, Reads, front_of, message};
ghost use Rattle.wire_messages.specs.op.Metadata.{bare_metadata};
ghost use Rattle.wire_messages.specs.serialize.layout.RecordLayout.{RecordAt};
ghost use Rattle.wire_messages.specs.serialize.reading.RecordReading.{question};
ghost use Rattle.wire_messages.specs.serialize.reading.SectionReading.{Additionals, additionals_after, header, items, no_additionals, section_record};
ghost use Rattle.wire_names.specs.declared.error.DecodeError.{DecodeError};
ghost use Rattle.wire_names.specs.declared.error.DecodeError.TheVariants.{DuplicateEdns, EdnsNameNotRoot, InsufficientBytes, RecordAfterSignature, RecordNotInAdditionals};
ghost use Rattle.wire_messages.specs.declared.op.header.Header.{Header};
ghost use Rattle.wire_messages.specs.declared.op.header.Metadata.{Metadata};
ghost use Rattle.wire_messages.specs.declared.op.header.MessageType.TheVariants as message_type;
ghost use Rattle.wire_reading.specs.declared.op.message.Message.{Message};
ghost use Rattle.wire_messages.specs.declared.op.query.Query.{Query};
ghost use Rattle.wire_messages.specs.declared.rr.rdata.RData.{RData};
ghost use Rattle.wire_messages.specs.declared.rr.record.Proof.TheVariants.{Indeterminate};
ghost use Rattle.wire_messages.specs.declared.rr.record.Record.{Record};

/// A header that stands at the front of bytes is the one that is read there (RFC 1035 section 4.1.1), and the place
/// behind it is 12.
pub fn header_readings()
    ensures { (bytes : List ℕ) (h : Header) → AreBytes bytes → HeaderAt bytes h ↔
        (header (front_of bytes) ≡ Ok (h, record { bytes = bytes; place = 12 })) }
{}

/// A header that was written is the one that is read: each bit survives, but of the response code only the low four.
pub fn header_written_is_read()
    ensures bits { (m : Metadata) → m.op_code < 16 →
        metadata_of m.id (first_flags m) (second_flags m) ≡ record m { response_code = m.response_code % 16 } }
    ensures stands { (bytes : List ℕ) (h : Header) → h.metadata.id < 2 ^ 16 → h.metadata.op_code < 16 →
        AreCounts h.counts → BytesAt bytes 0 (header_octets h) →
        HeaderAt bytes (record h { metadata = record h.metadata { response_code = h.metadata.response_code % 16 } }) }
{}

/// So many questions, or records of an answer or authority section, are read one behind the other exactly where so many
/// stand so.
pub fn items_readings()
    ensures questions { (bytes : List ℕ) (place n : ℕ) (queries : List Query) (next : ℕ) → AreBytes bytes →
        (ItemsAt (QuestionRead bytes) place queries next × (length queries ≡ n)) ↔
        (items question n [] (record { bytes = bytes; place = place }) ≡ Ok
        (queries, record { bytes = bytes; place = next })) }
    ensures records { (bytes : List ℕ) (place n : ℕ) (records : List (Record RData)) (next : ℕ) → AreBytes bytes →
        (ItemsAt (RecordAt bytes) place records next × AllByRecursion IsPlainRecord records × (length records ≡ n)) ↔
        (items section_record n [] (record { bytes = bytes; place = place }) ≡ Ok
        (records, record { bytes = bytes; place = next })) }
{}

/// The records of an additional section are read one behind the other exactly where they stand so and make an
/// additional section (RFC 6891 section 6.1.1, RFC 8945 section 5.2).
pub fn additional_readings()
    ensures { (bytes : List ℕ) (place n : ℕ) (x : Additionals) (next : ℕ) → AreBytes bytes →
        ((all : List (Record RData)) × ItemsAt (RecordAt bytes) place all next × (length all ≡ n) ×
        AdditionalSection all x.records x.edns x.signature) ↔
        (additionals_after n no_additionals (record { bytes = bytes; place = place }) ≡ Ok
        (x, record { bytes = bytes; place = next })) }
{}

/// A message is read exactly where it stands at the front of the bytes, and as far as it stands there (RFC 1035 section
/// 4.1).
pub fn message_readings()
    ensures reads { (bytes : List ℕ) (m : Message) → AreBytes bytes → Reads bytes m ↔ MessageAt bytes m }
    ensures stops { (bytes : List ℕ) (m : Message) → AreBytes bytes → (at : MessageAt bytes m) →
        message (front_of bytes) ≡ Ok (m, record { bytes = bytes; place = at.stop }) }
{}

/// Bytes begin with one message at most, and where they begin with one there is no fault.
pub fn one_message()
    ensures same { (bytes : List ℕ) (m n : Message) → Reads bytes m → Reads bytes n → m ≡ n }
    ensures no_fault { (bytes : List ℕ) (m : Message) (e : DecodeError) → Reads bytes m → Fault bytes e → ⊥ }
    ensures stands { (bytes : List ℕ) (m n : Message) → AreBytes bytes → MessageAt bytes m → MessageAt bytes n → m ≡ n }
    ensures one_fault { (bytes : List ℕ) (d e : DecodeError) → Fault bytes d → Fault bytes e → d ≡ e }
{}

/// Bytes that are put behind a message are not read: the message stays the same.
pub fn reads_ignores_tail()
    ensures { (bytes more : List ℕ) (m : Message) → AreBytes bytes → AreBytes more → Reads bytes m →
        Reads (bytes ++ more) m }
{}
