//! Laws of replies that are written, each the contract of a function with nothing to do.

ghost use Rattle.std.specs.Prelude.{◌≡◌, ◌+◌, ℕ, List, ◌≤◌, length, max};
ghost use Rattle.wire_names.specs.serialize.layout.Bytes.{AreBytes};
ghost use Rattle.hickory_wire.specs.serialize.writing.Decoding.{IsDecodable, decoded_message};
ghost use Rattle.wire_reading.specs.serialize.layout.WholeMessage.{MessageAt};
ghost use Rattle.wire_reading.specs.serialize.reading.MessageReading.{Reads};
ghost use Rattle.hickory_wire.specs.serialize.writing.OneRun.{middles_of_lists, middles_of_owners};
ghost use Rattle.hickory_wire.specs.serialize.writing.ReadingBack.{ReplyReadsBack};
ghost use Rattle.wire_messages.specs.serialize.writing.Reply.{Reply};
ghost use Rattle.wire_writing.specs.serialize.writing.WholeReply.{FitsWhole, IsWhole};
ghost use Rattle.wire_writing.specs.serialize.writing.Writing.{Encoded, Fronts, GetsStuck, Written, written_header};
ghost use Rattle.wire_names.specs.declared.error.ProtoError.{ProtoError};
ghost use Rattle.wire_messages.specs.declared.op.header.Header.{Header};
ghost use Rattle.wire_messages.specs.declared.op.query.Query.{Query};

/// A reply has at most as many bytes as the limit, and what stands in its place has twelve.
pub fn what_is_written_keeps_the_limit()
    ensures written { (limit : ℕ) (reply : Reply) (bytes : List ℕ) (fronts : Fronts) →
        Written limit reply bytes fronts → length bytes ≤ limit }
    ensures encoded { (limit : ℕ) (reply : Reply) (bytes : List ℕ) (header : Header) →
        Encoded limit reply bytes header → length bytes ≤ max limit 12 }
{}

/// A reply that in full fits the limit, and whose records all have a form in bytes, is written whole, and TC is its
/// own.
pub fn what_fits_is_whole()
    ensures whole { (limit : ℕ) (reply : Reply) (bytes : List ℕ) (fronts : Fronts) →
        FitsWhole limit reply → Written limit reply bytes fronts → IsWhole reply fronts }
    ensures unstuck { (limit : ℕ) (reply : Reply) (e : ProtoError) → FitsWhole limit reply → GetsStuck limit reply e →
        ⊥ }
{}

/// What is told of a reply's lists and what is told of its owner names is told of one run: behind each record that was
/// put the bytes are the same by both, also where the writing met a record without a form.
pub fn one_run()
    ensures written { (limit : ℕ) (reply : Reply) (bytes : List ℕ) (fronts : Fronts)
        (w : Written limit reply bytes fronts) →
        middles_of_lists w.lists ≡ middles_of_owners w.owners }
    ensures stuck { (limit : ℕ) (reply : Reply) (e : ProtoError) (s : GetsStuck limit reply e) →
        middles_of_lists s.lists ≡ middles_of_owners s.owners }
{}

/// The bytes of a reply are a message: its header, its questions, and what was written of its lists.
///
/// The premises: the questions stand in the bytes that are repeated, and the records read back as themselves.
pub fn what_is_written_is_read()
    ensures stands { (limit : ℕ) (reply : Reply) (bytes : List ℕ) (fronts : Fronts) (queries : List Query) →
        Written limit reply bytes fronts → IsDecodable reply queries →
        MessageAt bytes (decoded_message reply queries fronts) }
    ensures reads { (limit : ℕ) (reply : Reply) (bytes : List ℕ) (fronts : Fronts) (queries : List Query) →
        AreBytes bytes →
        Written limit reply bytes fronts → IsDecodable reply queries →
        Reads bytes (decoded_message reply queries fronts) }
{}

/// A reply that reads back, and whose header and questions fit the limit, is encoded as what was written of it: no
/// ServFail header stands in its place. Its bytes are a message of its header, its questions and the fronts of its
/// lists.
pub fn what_reads_back_is_written()
    ensures { (limit : ℕ) (reply : Reply) (bytes : List ℕ) (header : Header) (queries : List Query) →
        ReplyReadsBack reply queries →
        12 + length reply.question ≤ limit → Encoded limit reply bytes header →
        (fronts : Fronts) × Written limit reply bytes fronts × (header ≡ written_header reply fronts) ×
        MessageAt bytes (decoded_message reply queries fronts) }
{}
