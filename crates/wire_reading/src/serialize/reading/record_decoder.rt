//! Reading records and questions (RFC 1035 sections 4.1.2 and 4.1.3).

ghost use Rattle.std.specs.Prelude.{◌≡◌, ◌≢◌, ◌+◌, ◌^◌, ◌<◌, ℕ, Ok, Err, IfOk, IfErr};
ghost use Rattle.std.specs.Int.{w16};
ghost use Rattle.wire_messages.specs.serialize.reading.Reading.{Gives, GivesSeenBy, octets};
ghost use Rattle.wire_messages.specs.serialize.reading.RecordReading.{string, strings_until, counted_octets, soa, mx, tsig, form, record_data, resource, question};
ghost use Rattle.wire_reading.specs.serialize.reading.OptReading.{opt_fields};
ghost use Rattle.wire_messages.specs.serialize.layout.MessageLayout.{QuestionRead};
ghost use Rattle.wire_reading.specs.serialize.reading.RecordFaults.{QuestionFault, RecordFault};
ghost use Rattle.wire_messages.specs.serialize.layout.RecordLayout.{RecordAt};
ghost use Rattle.wire_names.specs.declared.error.DecodeError.TheVariants.{InsufficientBytes, Memory};
ghost use Rattle.wire_messages.specs.declared.op.query.Query.{Query as Question};
ghost use Rattle.wire_messages.specs.declared.rr.rdata.RData.{RData as Data};
ghost use Rattle.wire_messages.specs.declared.rr.record.Record.{Record as ResourceRecord};

use crate::serialize::reading::decoder::BinDecoder;
use crate::serialize::reading::edns_options::options_of;
use std::alloc::Global;
use std::net::{Ipv4Addr, Ipv6Addr};
use wire_messages::op::edns::Edns;
use wire_messages::op::query::Query;
use wire_messages::rr::dns_class::DNSClass;
use wire_messages::rr::rdata::{MX, RData, SOA};
use wire_messages::rr::record::{Proof, Record};
use wire_messages::rr::record_type::RecordType;
use wire_messages::rr::tsig::TSIG;
use wire_names::error::DecodeError;
use wire_names::rr::domain::name::Name;
use wire_names::values::boxed::Boxed;
use wire_names::values::items::Items;
use wire_names::values::octets::Octets;

impl<'a> BinDecoder<'a> {
    /// The next `N` bytes.
    fn read_array<const N: usize>(&mut self) -> Result<[u8; N], DecodeError>
        ensures exact { Gives result self.old self.new (octets N) }
        ensures fault { IfErr result (λ e. e ≡ InsufficientBytes) }
    {
        let mut array = [0; N];
        array.copy_from_slice(self.read_slice(N)?);
        Ok(array)
    }

    /// A character string (RFC 1035 section 3.3).
    #[tactic(auto, unfolding(wire_messages::specs::serialize::reading::RecordReading::string))]
    fn read_string(&mut self) -> Result<&'a [u8], DecodeError>
        ensures exact { GivesSeenBy (λ s. s.now) result self.old self.new string }
        ensures fault { IfErr result (λ e. e ≡ InsufficientBytes) }
    {
        let len = self.read_u8()?;
        self.read_slice(usize::from(len))
    }

    /// Character strings, until a place is reached or passed.
    fn read_strings(&mut self, alloc: Global, stop: usize) -> Result<Items<Octets>, DecodeError>
        ensures { Gives result self.old self.new (strings_until stop) }
    {
        let mut strings = Items::new(alloc);
        'strings: while self.index() < stop {
            let string = self.read_string()?;
            strings.push(Octets::from_slice(alloc, string)?)?;
        }
        Ok(strings)
    }

    /// Bytes behind their length in two bytes.
    #[tactic(auto, unfolding(wire_messages::specs::serialize::reading::RecordReading::counted_octets))]
    fn read_counted_octets(&mut self, alloc: Global) -> Result<Octets, DecodeError>
        ensures { Gives result self.old self.new counted_octets }
    {
        let len = self.read_u16()?;
        self.read_octets(alloc, len)
    }

    /// So many bytes.
    fn read_octets(&mut self, alloc: Global, len: u16) -> Result<Octets, DecodeError>
        ensures { Gives result self.old self.new (octets len) }
    {
        let bytes = self.read_slice(usize::from(len))?;
        Ok(Octets::from_slice(alloc, bytes)?)
    }

    #[tactic(auto, unfolding(wire_messages::specs::serialize::reading::RecordReading::soa))]
    fn read_soa(&mut self, alloc: Global) -> Result<RData, DecodeError>
        ensures { Gives result self.old self.new soa }
    {
        let mname = self.read_name(alloc)?;
        let rname = self.read_name(alloc)?;
        let serial = self.read_u32()?;
        let refresh = self.read_u32()?;
        let retry = self.read_u32()?;
        let expire = self.read_u32()?;
        let minimum = self.read_u32()?;
        let soa = SOA {
            mname,
            rname,
            serial,
            refresh,
            retry,
            expire,
            minimum,
        };
        Ok(RData::SOA(Boxed::new(alloc, soa)?))
    }

    #[tactic(auto, unfolding(wire_messages::specs::serialize::reading::RecordReading::mx))]
    fn read_mx(&mut self, alloc: Global) -> Result<RData, DecodeError>
        ensures { Gives result self.old self.new mx }
    {
        let preference = self.read_u16()?;
        let exchange = self.read_name(alloc)?;
        Ok(RData::MX(MX {
            preference,
            exchange,
        }))
    }

    #[tactic(auto, unfolding(wire_messages::specs::serialize::reading::RecordReading::tsig))]
    fn read_tsig(&mut self, alloc: Global) -> Result<RData, DecodeError>
        ensures { Gives result self.old self.new tsig }
    {
        let algorithm = self.read_name(alloc)?;
        let high = self.read_u16()?;
        let low = self.read_u32()?;
        let fudge = self.read_u16()?;
        let mac = self.read_counted_octets(alloc)?;
        let oid = self.read_u16()?;
        let error = self.read_u16()?;
        let other = self.read_counted_octets(alloc)?;
        let signature = TSIG {
            algorithm,
            time: (u64::from(high) << 32) + u64::from(low),
            fudge,
            mac,
            oid,
            error,
            other,
        };
        Ok(RData::TSIG(Boxed::new(alloc, signature)?))
    }

    /// Data in the form of their type. The length counts only where the form does not tell it: for character strings,
    /// options, and types with no form here.
    #[tactic(auto, unfolding(wire_messages::specs::serialize::reading::RecordReading::form))]
    fn read_form(&mut self, alloc: Global, kind: RecordType, len: u16) -> Result<RData, DecodeError>
        requires { self.old.place + len < 2 ^ 64 }
        ensures { Gives result self.old self.new (form kind len) }
    {
        match kind {
            RecordType::A => Ok(RData::A(Ipv4Addr::from_octets(self.read_array()?))),
            RecordType::AAAA => Ok(RData::AAAA(Ipv6Addr::from_octets(self.read_array()?))),
            RecordType::NS => Ok(RData::NS(self.read_name(alloc)?)),
            RecordType::CNAME => Ok(RData::CNAME(self.read_name(alloc)?)),
            RecordType::PTR => Ok(RData::PTR(self.read_name(alloc)?)),
            RecordType::MX => self.read_mx(alloc),
            RecordType::SOA => self.read_soa(alloc),
            RecordType::TXT => {
                let stop = self.index() + usize::from(len);
                Ok(RData::TXT(self.read_strings(alloc, stop)?))
            }
            RecordType::OPT => {
                let bytes = self.read_slice(usize::from(len))?;
                Ok(RData::OPT(options_of(alloc, bytes)?))
            }
            RecordType::TSIG => self.read_tsig(alloc),
            RecordType::NULL => Ok(RData::NULL(self.read_octets(alloc, len)?)),
            code => Ok(RData::Unknown {
                code,
                bytes: self.read_octets(alloc, len)?,
            }),
        }
    }

    /// Data of a type, of so many bytes.
    #[tactic(auto, unfolding(wire_messages::specs::serialize::reading::RecordReading::record_data))]
    fn read_record_data(
        &mut self,
        alloc: Global,
        kind: RecordType,
        len: u16,
    ) -> Result<RData, DecodeError>
        ensures { Gives result self.old self.new (record_data kind len) }
    {
        if self.remaining() < usize::from(len) {
            return Err(DecodeError::InsufficientBytes);
        }
        if len == 0 && kind != RecordType::OPT && kind != RecordType::TSIG {
            return Ok(RData::Update0(kind));
        }
        if len == 0 && kind == RecordType::TSIG {
            return Err(DecodeError::IncorrectDataLength);
        }
        let stop = self.index() + usize::from(len);
        let rdata = self.read_form(alloc, kind, len)?;
        if self.index() != stop {
            return Err(DecodeError::IncorrectDataLength);
        }
        Ok(rdata)
    }

    #[tactic(auto, unfolding(wire_messages::specs::serialize::reading::RecordReading::resource))]
    fn next_record(&mut self, alloc: Global) -> Result<Record, DecodeError>
        ensures { Gives result self.old self.new resource }
    {
        let name = self.read_name(alloc)?;
        let kind = self.read_u16()?;
        let class = self.read_u16()?;
        let ttl = self.read_u32()?;
        let len = self.read_u16()?;
        let rdata = self.read_record_data(alloc, RecordType::new(kind), len)?;
        Ok(Record {
            name,
            dns_class: DNSClass::new(class),
            ttl,
            rdata,
            proof: Proof::Indeterminate,
        })
    }

    /// What an OPT record says, from the place behind its type on (RFC 6891 section 6.1.2).
    #[tactic(auto, unfolding(crate::specs::serialize::reading::OptReading::opt_fields))]
    pub(crate) fn read_opt_fields(&mut self, alloc: Global) -> Result<Edns, DecodeError>
        ensures { Gives result self.old self.new opt_fields }
    {
        let class = self.read_u16()?;
        let ttl = self.read_u32()?;
        let len = self.read_u16()?;
        let bytes = self.read_slice(usize::from(len))?;
        let options = options_of(alloc, bytes)?;
        Ok(Edns::from_opt(DNSClass::new(class), ttl, options))
    }

    /// The record at this place (RFC 1035 section 4.1.3): its owner name, type, class and TTL, and its data in the form
    /// of their type. Nothing is known of its proof.
    ///
    /// Data of no bytes are those of a dynamic update, of whatever type (RFC 2136 section 2.4), but for an OPT record,
    /// which then has no options. Data of a type with no form here are kept as bytes (RFC 3597). Options that are
    /// malformed are left out, all of them, and are no fault.
    ///
    /// Then the place is the one behind the record. An error is the first fault from left to right: those of a name;
    /// `InsufficientBytes` where a field, or as many bytes as the length says, are not there; those of the data;
    /// `IncorrectDataLength` where the data end elsewhere than their length says, or a TSIG record has none. `Memory`
    /// comes only where memory was refused. After an error the place is left open.
    #[inline(never)]
    pub fn read_record(&mut self, alloc: Global) -> Result<Record, DecodeError>
        ensures exact { Gives result self.old self.new resource }
        ensures found { IfOk result (λ r. RecordAt self.old.bytes self.old.place r self.new.place) }
        ensures only { (r : ResourceRecord Data) (next : ℕ) → RecordAt self.old.bytes self.old.place r next →
            result ≢ Err Memory → (result ≡ Ok r) × (self.new.place ≡ next) }
        ensures fault { IfErr result (λ e. e ≢ Memory → RecordFault self.old.bytes self.old.place e) }
    {
        // That the message is made of bytes is known once it is looked at.
        let _message = self.message();
        self.next_record(alloc)
    }

    #[inline(always)]
    #[tactic(auto, unfolding(wire_messages::specs::serialize::reading::RecordReading::question))]
    fn next_query(&mut self, alloc: Global) -> Result<Query, DecodeError>
        ensures { Gives result self.old self.new question }
    {
        let mut query = Query {
            name: Name::root(),
            query_type: RecordType::new(0),
            query_class: DNSClass::new(0),
        };
        self.read_query_into(alloc, &mut query)?;
        Ok(query)
    }

    /// Reads a question in the place of another one.
    #[inline(always)]
    #[tactic(auto, unfolding(wire_messages::specs::serialize::reading::RecordReading::question))]
    pub(crate) fn read_query_into(
        &mut self,
        alloc: Global,
        query: &mut Query,
    ) -> Result<(), DecodeError>
        ensures { GivesSeenBy (λ _. query.new) result self.old self.new question }
    {
        self.read_name_into(alloc, &mut query.name)?;
        query.query_type = RecordType::new(self.read_u16()?);
        query.query_class = DNSClass::new(self.read_u16()?);
        Ok(())
    }

    /// The question at this place (RFC 1035 section 4.1.2): a name, a type and a class.
    ///
    /// Then the place is the one behind it. An error is the first fault from left to right, those of a name or
    /// `InsufficientBytes`, or it is `Memory` where memory was refused. After an error the place is left open.
    #[inline(always)]
    pub fn read_query(&mut self, alloc: Global) -> Result<Query, DecodeError>
        ensures exact { Gives result self.old self.new question }
        ensures found { IfOk result (λ q. QuestionRead self.old.bytes self.old.place q self.new.place) }
        ensures only { (q : Question) (next : ℕ) → QuestionRead self.old.bytes self.old.place q next →
            result ≢ Err Memory → (result ≡ Ok q) × (self.new.place ≡ next) }
        ensures fault { IfErr result (λ e. e ≢ Memory → QuestionFault self.old.bytes self.old.place e) }
    {
        // That the message is made of bytes is known once it is looked at.
        let _message = self.message();
        self.next_query(alloc)
    }
}
