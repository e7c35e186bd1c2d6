//! Reading sections and whole messages (RFC 1035 section 4.1).

ghost use Rattle.std.specs.Prelude.{◌≡◌, ◌≢◌, ◌<◌, [], Ok, IfOk, IfErr, MatchResult};
ghost use Rattle.wire_reading.specs.serialize.reading.MessageFaults.{MessageFault};
ghost use Rattle.wire_messages.specs.serialize.layout.MessageLayout.{high_code, with_high_code, is_for_additionals_alone};
ghost use Rattle.wire_reading.specs.serialize.layout.WholeMessage.{MessageAt};
ghost use Rattle.wire_reading.specs.serialize.reading.MessageReading.{message, Reads, Fault};
ghost use Rattle.wire_messages.specs.serialize.reading.Reading.{Gives, Fails};
ghost use Rattle.wire_messages.specs.serialize.reading.RecordReading.{question};
ghost use Rattle.wire_messages.specs.serialize.reading.SectionReading.{items, section_record, additionals_after, no_additionals};
ghost use Rattle.wire_names.specs.declared.error.DecodeError.TheVariants.{Memory};
ghost use Rattle.wire_reading.specs.declared.op.message.Message.{Message};

use crate::op::message::Message;
use crate::serialize::reading::additionals::Additionals;
use crate::serialize::reading::decoder::BinDecoder;
use std::alloc::Global;
use wire_messages::op::edns::Edns;
use wire_messages::op::header::Metadata;
use wire_messages::op::query::Query;
use wire_messages::op::response_code::ResponseCode;
use wire_messages::rr::record::Record;
use wire_messages::rr::record_type::RecordType;
use wire_names::error::DecodeError;
use wire_names::values::items::Items;

fn is_for_additionals_alone(kind: RecordType) -> bool
    ensures { result ≡ is_for_additionals_alone kind }
{
    kind == RecordType::OPT || kind == RecordType::TSIG || kind == RecordType::SIG
}

/// The metadata of a header, with the high bits of the response code from the OPT record.
fn with_high_code(mut metadata: Metadata, edns: &Option<Edns>) -> Metadata
    requires { metadata.response_code < 16 }
    ensures { result ≡ with_high_code metadata (high_code edns.now) }
{
    if let Some(edns) = edns {
        let low = metadata.response_code.low();
        metadata.response_code = ResponseCode::from_parts(edns.rcode_high(), low);
    }
    metadata
}

impl<'a> BinDecoder<'a> {
    /// So many questions, one behind the other.
    ///
    /// Memory is taken as questions are read: a count that is higher than the questions that are there costs nothing.
    /// Then the place is the one behind the last. An error is the first fault of the first question that has one, or
    /// `Memory` where memory was refused. After an error the place is left open.
    pub fn read_queries(&mut self, alloc: Global, count: u16) -> Result<Items<Query>, DecodeError>
        ensures { Gives result self.old self.new (items question count []) }
    {
        let mut queries = Items::new(alloc);
        'queries: for _ in 0..count {
            let query = self.read_query(alloc)?;
            queries.push(query)?;
        }
        Ok(queries)
    }

    #[tactic(auto, unfolding(wire_messages::specs::serialize::reading::SectionReading::section_record))]
    fn read_section_record(&mut self, alloc: Global) -> Result<Record, DecodeError>
        ensures { Gives result self.old self.new section_record }
    {
        let next = self.read_record(alloc)?;
        if is_for_additionals_alone(next.rdata.record_type()) {
            return Err(DecodeError::RecordNotInAdditionals);
        }
        Ok(next)
    }

    /// So many records of an answer or authority section, one behind the other.
    ///
    /// Memory is taken as records are read. Then the place is the one behind the last. An error is the first fault:
    /// those of a record, or `RecordNotInAdditionals` where an OPT, TSIG or SIG record stands here; or it is `Memory`
    /// where memory was refused. After an error the place is left open.
    pub fn read_section(&mut self, alloc: Global, count: u16) -> Result<Items<Record>, DecodeError>
        ensures { Gives result self.old self.new (items section_record count []) }
    {
        let mut records = Items::new(alloc);
        'records: for _ in 0..count {
            let next = self.read_section_record(alloc)?;
            records.push(next)?;
        }
        Ok(records)
    }

    /// The next record of an additional section, put where its data belong. After an error nothing is promised of what
    /// was read before.
    ///
    /// An OPT record with the root in full as its owner name, as nearly all have it, is read without a record being
    /// made.
    fn read_additional(
        &mut self,
        alloc: Global,
        additionals: &mut Additionals,
    ) -> Result<(), DecodeError>
        ensures exact { MatchResult result
            (λ _. additionals_after 1 additionals.old self.old ≡ Ok (additionals.new, self.new))
            (λ e. Fails e (additionals_after 1 additionals.old self.old)) }
        ensures kept { self.new.bytes ≡ self.old.bytes }
    {
        if self.skip_opt_front() {
            let edns = self.read_opt_fields(alloc)?;
            return additionals.add_edns(edns);
        }
        let next = self.read_record(alloc)?;
        additionals.add(alloc, next)
    }

    /// So many records of an additional section, with its OPT and its TSIG apart.
    ///
    /// Memory is taken as records are read. Then the place is the one behind the last. An error is the first fault:
    /// those of a record, and then, in this order, `RecordAfterSignature` behind a TSIG record (RFC 8945 section 5.2),
    /// `EdnsNameNotRoot` and `DuplicateEdns` (RFC 6891 sections 6.1.1 and 6.1.2); or it is `Memory` where memory was
    /// refused. After an error the place is left open.
    pub fn read_additionals(
        &mut self,
        alloc: Global,
        count: u16,
    ) -> Result<Additionals, DecodeError>
        ensures { Gives result self.old self.new (additionals_after count no_additionals) }
    {
        let mut additionals = Additionals::new(alloc);
        'additionals: for _ in 0..count {
            self.read_additional(alloc, &mut additionals)?;
        }
        Ok(additionals)
    }

    /// The message at this place, as `Message::read` has it, with pointers counted from the front of the bytes.
    ///
    /// Then the place is the one behind it. After an error the place is left open.
    #[tactic(auto, unfolding(crate::specs::serialize::reading::MessageReading::message))]
    pub fn read_message(&mut self, alloc: Global) -> Result<Message, DecodeError>
        ensures exact { Gives result self.old self.new message }
    {
        let header = self.read_header()?;
        let queries = self.read_queries(alloc, header.counts.queries)?;
        let answers = self.read_section(alloc, header.counts.answers)?;
        let authorities = self.read_section(alloc, header.counts.authorities)?;
        let additionals = self.read_additionals(alloc, header.counts.additionals)?;
        let metadata = with_high_code(header.metadata, &additionals.edns);
        let Additionals {
            records,
            edns,
            signature,
        } = additionals;
        Ok(Message {
            metadata,
            queries,
            answers,
            authorities,
            additionals: records,
            edns,
            signature,
        })
    }
}

impl Message {
    /// The message that bytes begin with (RFC 1035 section 4.1); what stands behind it is not looked at.
    ///
    /// The OPT record and the TSIG record are taken out of the additional section, and the response code is joined of
    /// header and OPT record.
    ///
    /// An error is the first fault from left to right: those of the header, of each question and of each record, and
    /// for a record that could be read, `RecordNotInAdditionals` where an OPT, TSIG or SIG record stands among answers
    /// or authorities, and in the additional section, in this order, `RecordAfterSignature` behind a TSIG record,
    /// `EdnsNameNotRoot` and `DuplicateEdns`. `Memory` comes only where memory was refused.
    ///
    /// Memory is taken as records are read, so the counts of a short message cost nothing. Where names take many steps
    /// behind compression pointers, more than one for four bytes of the message, what they lead to is kept by place, so
    /// that only names of at most two steps are walked again; this takes memory as well.
    pub fn read(alloc: Global, bytes: &[u8]) -> Result<Message, DecodeError>
        // What is read stands there.
        ensures found { IfOk result (λ m. Reads bytes.now m) }
        // What stands there is read, unless memory is refused.
        ensures only { (m : Message) → Reads bytes.now m → MatchResult result (λ n. n ≡ m) (λ e. e ≡ Memory) }
        // An error is the first fault.
        ensures fault { IfErr result (λ e. e ≢ Memory → Fault bytes.now e) }
        // By the places at which the parts of a message stand, and at which its first fault lies.
        ensures stands { IfOk result (λ m. MessageAt bytes.now m) }
        ensures standing { (m : Message) → MessageAt bytes.now m → MatchResult result (λ n. n ≡ m) (λ e. e ≡ Memory) }
        ensures faulty { IfErr result (λ e. e ≢ Memory → MessageFault bytes.now e) }
    {
        BinDecoder::new(bytes).read_message(alloc)
    }
}
