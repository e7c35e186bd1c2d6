//! Laws of records and questions, each the contract of a function with nothing to do: how they stand in bytes is how
//! they are read.

ghost use Rattle.std.specs.Prelude.{◌≡◌, ◌≤◌, ◌+◌, ◌⊎◌, ◌↔◌, ◌++◌, ℕ, List, [], length, replicate, slice_range, take, None, Ok};
ghost use Rattle.std.specs.List.{AllByRecursion, flat_map};
ghost use Rattle.wire_names.specs.serialize.layout.Bytes.{AreBytes, BytesAt, KeepsFrom};
ghost use Rattle.wire_messages.specs.serialize.reading.Cursor.{Cursor};
ghost use Rattle.wire_names.specs.rr.domain.DomainName.{AreLabels, name_len};
ghost use Rattle.wire_messages.specs.serialize.writing.FullForm.{HasNames, record_octets};
ghost use Rattle.wire_messages.specs.serialize.layout.FieldRanges.{IsReadAsItsType, IsRecordInRange};
ghost use Rattle.wire_messages.specs.serialize.layout.MessageLayout.{ItemsAt};
ghost use Rattle.wire_messages.specs.serialize.layout.NameLayout.{IsFullyQualified};
ghost use Rattle.wire_messages.specs.serialize.writing.QuestionForm.{question_octets};
ghost use Rattle.wire_messages.specs.serialize.layout.QuestionLayout.{QuestionAt, IsFormedQuestion};
ghost use Rattle.hickory_wire.specs.serialize.writing.ReadingBack.{ReadsBack};
ghost use Rattle.wire_messages.specs.rr.RecordData.{OptionsOf};
ghost use Rattle.wire_messages.specs.serialize.layout.RecordLayout.{FormAt, IsFormedRecord, RecordAt};
ghost use Rattle.wire_messages.specs.serialize.reading.RecordReading.{options_of, question, resource};
ghost use Rattle.wire_messages.specs.serialize.writing.RecordSize.{unwritable_reason, full_size};
ghost use Rattle.wire_messages.specs.declared.op.edns.EdnsOption.{EdnsOption};
ghost use Rattle.wire_messages.specs.declared.op.query.Query.{Query};
ghost use Rattle.wire_messages.specs.declared.rr.rdata.RData.{RData};
ghost use Rattle.wire_messages.specs.declared.rr.rdata.RData.TheVariants.{OPT};
ghost use Rattle.wire_messages.specs.declared.rr.record.Proof.TheVariants.{Indeterminate};
ghost use Rattle.wire_messages.specs.declared.rr.record.Record.{Record};

/// A record and a question stay where they are when bytes are put behind them or bytes below their floor change.
pub fn form_keeps()
    ensures record { (old new : List ℕ) (floor lower place next : ℕ) (r : Record RData) → KeepsFrom floor old new →
        lower ≤ floor → FormAt floor old place r next → FormAt lower new place r next }
    ensures question { (old new : List ℕ) (floor lower place next : ℕ) (q : Query) → KeepsFrom floor old new →
        lower ≤ floor → QuestionAt floor old place q next → QuestionAt lower new place q next }
{}

/// A record that stands in its form is the one that is read.
pub fn form_is_read()
    ensures { (bytes : List ℕ) (floor place next : ℕ) (r : Record RData) → IsFormedRecord r →
        FormAt floor bytes place r next →
        resource (record { bytes = bytes; place = place }) ≡ Ok (r, record { bytes = bytes; place = next }) }
{}

/// A record that is read is the one that stands there, and reading leaves the bytes.
pub fn read_is_record_at()
    ensures at { (c : Cursor) (r : Record RData) (next : ℕ) → AreBytes c.bytes → RecordAt c.bytes c.place r next ↔
        (resource c ≡ Ok (r, record c { place = next })) }
    ensures kept { (c next : Cursor) (r : Record RData) → AreBytes c.bytes → resource c ≡ Ok (r, next) →
        next.bytes ≡ c.bytes }
{}

/// A record that is read stands in its form, unless it is an OPT record whose octets are not made of options; and a
/// record in its form is one that is read.
pub fn record_at_has_form()
    ensures form { (bytes : List ℕ) (place next : ℕ) (r : Record RData) → RecordAt bytes place r next →
        (FormAt 0 bytes place r next × IsFormedRecord r) ⊎ (r.rdata ≡ OPT []) }
    ensures back { (bytes : List ℕ) (floor place next : ℕ) (r : Record RData) → IsFormedRecord r →
        FormAt floor bytes place r next → RecordAt bytes place r next }
{}

/// The options that are read of octets are those that the octets hold.
pub fn options_are_held()
    ensures { (octets : List ℕ) (options : List EdnsOption) → AreBytes octets → (options_of octets ≡ options) ↔
        OptionsOf octets options }
{}

/// At a place there is one record and one question at most.
pub fn one_record()
    ensures read { (bytes : List ℕ) (place p q : ℕ) (r s : Record RData) → AreBytes bytes → RecordAt bytes place r p →
        RecordAt bytes place s q → (r ≡ s) × (p ≡ q) }
    ensures formed { (bytes : List ℕ) (floor other place p q : ℕ) (r s : Record RData) → IsFormedRecord r →
        IsFormedRecord s → FormAt floor bytes place r p → FormAt other bytes place s q → (r ≡ s) × (p ≡ q) }
    ensures question { (bytes : List ℕ) (floor other place p q : ℕ) (m n : Query) → IsFormedQuestion m →
        IsFormedQuestion n → QuestionAt floor bytes place m p → QuestionAt other bytes place n q → (m ≡ n) × (p ≡ q) }
{}

/// A question that is read is the one that stands there, and reading leaves the bytes.
pub fn read_is_question_at()
    ensures stands { (bytes : List ℕ) (floor place next : ℕ) (q : Query) → IsFormedQuestion q →
        QuestionAt floor bytes place q next →
        question (record { bytes = bytes; place = place }) ≡ Ok (q, record { bytes = bytes; place = next }) }
    ensures at { (c : Cursor) (q : Query) (next : ℕ) → AreBytes c.bytes →
        (QuestionAt 0 c.bytes c.place q next × IsFormedQuestion q) ↔ (question c ≡ Ok (q, record c { place = next })) }
    ensures kept { (c next : Cursor) (q : Query) → AreBytes c.bytes → question c ≡ Ok (q, next) → next.bytes ≡ c.bytes }
{}

/// A record in full has its full size, and where its names are names and its data have a form, it stands where its
/// octets stand (RFC 1035 section 4.1.3).
pub fn full_forms()
    ensures size { (r : Record RData) → length (record_octets r) ≡ full_size r }
    ensures stands { (bytes : List ℕ) (floor place : ℕ) (r : Record RData) → AreLabels r.name.labels →
        HasNames r.rdata → unwritable_reason r.rdata ≡ None → floor ≤ place →
        BytesAt bytes place (record_octets r) → FormAt floor bytes place r (place + full_size r) }
{}

/// A question in full stands where its octets stand (RFC 1035 section 4.1.2).
pub fn question_forms()
    ensures size { (q : Query) → length (question_octets q) ≡ name_len q.name.labels + 4 }
    ensures stands { (bytes : List ℕ) (floor place : ℕ) (q : Query) → AreLabels q.name.labels → floor ≤ place →
        BytesAt bytes place (question_octets q) →
        QuestionAt floor bytes place q (place + length (question_octets q)) }
{}

/// Which records read back as themselves: those whose parts are such as are read, whose names are names, and whose
/// octets have a form in bytes, their lengths told in the fields that are there for them. Parts are such as are read
/// where the fields hold their numbers, which is so of every record that was written; names are fully qualified; and
/// octets are read as data of their type.
pub fn reading_back()
    ensures parts { (r : Record RData) → IsFormedRecord r ↔
        (IsRecordInRange r × IsFullyQualified r.name × IsReadAsItsType r.rdata × (r.proof ≡ Indeterminate)) }
    ensures records { (r : Record RData) → ReadsBack r ↔
        (IsFormedRecord r × AreLabels r.name.labels × HasNames r.rdata × (unwritable_reason r.rdata ≡ None)) }
{}

/// A question that was read behind the header of a request, with no byte of its name in the header, stands at that
/// place in a reply that repeats the bytes of the question; so do several questions, also where their names lead to one
/// another by compression pointers, as long as none of their names leads into the header or runs on behind the last
/// question; and so do questions that a reply has in full (RFC 1035 sections 4.1.1, 4.1.2 and 4.1.4).
pub fn questions_of_replies()
    ensures repeated { (bytes : List ℕ) (q : Query) (stop : ℕ) → QuestionAt 12 bytes 12 q stop →
        QuestionAt 12 (replicate 12 0 ++ slice_range bytes 12 stop) 12 q stop }
    ensures several { (bytes : List ℕ) (queries : List Query) (stop : ℕ) → stop ≤ length bytes →
        ItemsAt (QuestionAt 12 (take stop bytes)) 12 queries stop →
        ItemsAt (QuestionAt 12 (replicate 12 0 ++ slice_range bytes 12 stop)) 12 queries stop ×
        (length (replicate 12 0 ++ slice_range bytes 12 stop) ≡ stop) }
    ensures in_full { (bytes : List ℕ) (floor place : ℕ) (queries : List Query) →
        AllByRecursion (λ q. AreLabels q.name.labels) queries → floor ≤ place →
        BytesAt bytes place (flat_map question_octets queries) →
        ItemsAt (QuestionAt floor bytes) place queries (place + length (flat_map question_octets queries)) }
{}
