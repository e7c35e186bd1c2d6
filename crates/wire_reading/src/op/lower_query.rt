//! Questions with their names in lower case.

ghost use Rattle.std.specs.Prelude.{◌≡◌, ◌++◌, [], true, IfOk, OnErr, OnOk};
ghost use Rattle.wire_names.specs.rr.domain.NameOrder.{lower_name};
ghost use Rattle.wire_messages.specs.serialize.reading.Reading.{GivesSeenBy};
ghost use Rattle.wire_messages.specs.serialize.reading.RecordReading.{question};
ghost use Rattle.wire_messages.specs.serialize.writing.QuestionForm.{lower_question, question_octets};

use crate::serialize::reading::decoder::BinDecoder;
use std::alloc::{AllocError, Global};
use std::marker::Model;
use wire_messages::op::query::Query;
use wire_messages::rr::dns_class::DNSClass;
use wire_messages::rr::record_type::RecordType;
use wire_messages::rr::rr_key::RrKey;
use wire_messages::serialize::writing::full_form::{write_name, write_u16};
use wire_names::error::DecodeError;
use wire_names::rr::domain::lower_name::LowerName;
use wire_names::rr::domain::name::Name;

/// The question at a decoder's place, and its name in lower case, in the place of others.
#[inline(always)]
fn read_parts(
    alloc: Global,
    decoder: &mut BinDecoder<'_>,
    query: &mut Query,
    name: &mut LowerName,
) -> Result<(), DecodeError>
    ensures read { GivesSeenBy (λ _. query.new) result decoder.old decoder.new question }
    ensures lowered { OnOk result (name.new ≡ lower_name query.new.name) }
{
    decoder.read_query_into(alloc, query)?;
    name.set(alloc, &query.name)?;
    Ok(())
}

/// A question with its name in lower case beside the name as it was sent.
///
/// The lower-case name lies in a key, so that records of it are found without a key made for that. A contract sees the
/// question as it was sent.
#[derive(Debug, Drop)]
pub struct LowerQuery {
    original: Query,
    // Of type 0, than which no type is lower.
    first_key: RrKey,
}

impl Model for LowerQuery {
    ghost use Rattle.std.specs.Prelude.{◌≡◌};
    ghost use Rattle.wire_names.specs.rr.domain.NameOrder.{lower_name};
    ghost use Rattle.wire_messages.specs.declared.op.query.Query.{Query};

    ghost Value = { Query };

    ghost view = { λ q. q.original };

    ghost invariant = { λ q. q.first_key ≡ record { name = lower_name q.original.name; record_type = 0 } };
}

impl LowerQuery {
    /// The question, whose name is lowered once for all.
    pub fn new(alloc: Global, original: Query) -> Result<LowerQuery, AllocError>
        ensures { IfOk result (λ q. q ≡ original) }
    {
        let name = LowerName::new(alloc, &original.name)?;
        Ok(LowerQuery {
            original,
            first_key: RrKey::new(name, RecordType::new(0)),
        })
    }

    /// The root, of no type and no class: to be read into.
    pub fn of_root() -> LowerQuery
        ensures { result ≡ record { name = record { labels = []; is_fqdn = true }; query_type = 0; query_class = 0 } }
    {
        LowerQuery {
            original: Query {
                name: Name::root(),
                query_type: RecordType::new(0),
                query_class: DNSClass::new(0),
            },
            first_key: RrKey::new(LowerName::root(), RecordType::new(0)),
        }
    }

    /// The question at a decoder's place, as `BinDecoder::read_query` has it, in the place of another.
    ///
    /// After an error it is the root, of no type and no class.
    #[inline(never)]
    pub fn read_in_place(
        &mut self,
        alloc: Global,
        decoder: &mut BinDecoder<'_>,
    ) -> Result<(), DecodeError>
        ensures exact { GivesSeenBy (λ _. self.new) result decoder.old decoder.new question }
        ensures err { OnErr result (self.new ≡ record
            { name = record { labels = []; is_fqdn = true }; query_type = 0; query_class = 0 }) }
    {
        match read_parts(alloc, decoder, &mut self.original, &mut self.first_key.name) {
            Ok(()) => Ok(()),
            Err(e) => {
                *self = LowerQuery::of_root();
                Err(e)
            }
        }
    }

    /// The question as it was sent.
    pub fn original(&self) -> &Query
        ensures { result.now ≡ self.now }
    {
        &self.original
    }

    /// The name in lower case.
    pub fn name(&self) -> &LowerName
        ensures { result.now ≡ lower_name self.now.name }
    {
        &self.first_key.name
    }

    /// The key before which none of the name in lower case is: no type is below 0.
    pub fn first_key(&self) -> &RrKey
        ensures { result.now ≡ record { name = lower_name self.now.name; record_type = 0 } }
    {
        &self.first_key
    }

    /// The type asked for.
    pub fn query_type(&self) -> RecordType
        ensures { result ≡ self.now.query_type }
    {
        self.original.query_type
    }

    /// The class asked for.
    pub fn query_class(&self) -> DNSClass
        ensures { result ≡ self.now.query_class }
    {
        self.original.query_class
    }

    /// Puts the question behind the bytes, its name in lower case and in full (RFC 1035 section 4.1.2).
    ///
    /// Where memory is refused, the bytes may end in a part of it.
    pub fn emit(&self, bytes: &mut Vec<u8>) -> Result<(), AllocError>
        ensures { OnOk result (bytes.new.items ≡ bytes.old.items ++ question_octets (lower_question self.now)) }
    {
        write_name(bytes, self.first_key.name.as_name())?;
        write_u16(bytes, self.original.query_type.value())?;
        write_u16(bytes, self.original.query_class.value())
    }
}
