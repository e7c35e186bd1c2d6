//! What an additional section holds (RFC 1035 section 4.1, RFC 6891 section 6.1.1, RFC 8945 section 5.2).

ghost use Rattle.std.specs.Prelude.{◌≡◌, length, MatchResult, ◌==◌, Ok, IsTrue, is_some, true, false};
ghost use Rattle.wire_messages.specs.serialize.reading.Reading.{Fails};
ghost use Rattle.wire_messages.specs.serialize.reading.SectionReading.{add_record, no_additionals};
ghost use Rattle.wire_reading.specs.serialize.reading.OptReading.{add_edns};
ghost use Rattle.wire_names.specs.declared.error.DecodeError.TheVariants.{RecordAfterSignature};

use std::alloc::Global;
use std::marker::Model;
use wire_messages::op::edns::Edns;
use wire_messages::rr::rdata::RData;
use wire_messages::rr::record::Record;
use wire_messages::rr::tsig::TSIG;
use wire_names::error::DecodeError;
use wire_names::rr::domain::name::Name;
use wire_names::values::boxed::Boxed;
use wire_names::values::items::Items;

/// The records that were read of an additional section, with its OPT and its TSIG apart.
#[derive(Drop)]
pub struct Additionals {
    pub(crate) records: Items<Record>,
    pub(crate) edns: Option<Edns>,
    pub(crate) signature: Option<Boxed<Record<TSIG>>>,
}

impl Model for Additionals {
    ghost use Rattle.wire_messages.specs.serialize.reading.SectionReading.{Additionals};

    ghost Value = { Additionals };

    ghost view = { λ a. record { records = a.records; edns = a.edns; signature = a.signature } };
}

fn has_no_label(name: &Name) -> bool
    ensures { result ≡ (length name.now.labels == 0) }
{
    name.as_wire().is_empty()
}

impl Additionals {
    /// No records.
    pub(crate) fn new(alloc: Global) -> Additionals
        ensures { result ≡ no_additionals }
    {
        Additionals {
            records: Items::new(alloc),
            edns: None,
            signature: None,
        }
    }

    /// The records but for OPT and TSIG, what the OPT says, and the TSIG. It needs no memory.
    pub fn into_parts(self) -> (Items<Record>, Option<Edns>, Option<Boxed<Record<TSIG>>>)
        ensures records { result.0 ≡ self.records }
        ensures edns { result.1 ≡ self.edns }
        ensures signature { result.2 ≡ self.signature }
    {
        let Additionals {
            records,
            edns,
            signature,
        } = self;
        (records, edns, signature)
    }

    /// Behind a TSIG record no other may stand (RFC 8945, section 5.2).
    fn refuse_behind_signature(&self) -> Result<(), DecodeError>
        ensures { MatchResult result (λ _. is_some self.now.signature ≡ false)
            (λ e. (is_some self.now.signature ≡ true) × (e ≡ RecordAfterSignature)) }
    {
        if self.signature.is_some() {
            return Err(DecodeError::RecordAfterSignature);
        }
        Ok(())
    }

    /// Puts what the next record says, an OPT record at the root. On an error nothing is promised of what was read
    /// before.
    #[inline(always)]
    #[tactic(auto, unfolding(crate::specs::serialize::reading::OptReading::add_edns))]
    pub(crate) fn add_edns(&mut self, edns: Edns) -> Result<(), DecodeError>
        ensures { MatchResult result (λ _. add_edns self.old edns ≡ Ok self.new)
            (λ e. Fails e (add_edns self.old edns)) }
    {
        self.refuse_behind_signature()?;
        if self.edns.is_some() {
            return Err(DecodeError::DuplicateEdns);
        }
        self.edns = Some(edns);
        Ok(())
    }

    /// Puts the next record where its data belong. On an error nothing is promised of what was read before.
    #[tactic(auto, unfolding(wire_messages::specs::serialize::reading::SectionReading::add_record))]
    pub(crate) fn add(&mut self, alloc: Global, next: Record) -> Result<(), DecodeError>
        ensures { MatchResult result (λ _. add_record self.old next ≡ Ok self.new)
            (λ e. Fails e (add_record self.old next)) }
    {
        self.refuse_behind_signature()?;
        let Record {
            name,
            dns_class,
            ttl,
            rdata,
            proof,
        } = next;
        match rdata {
            RData::OPT(options) => {
                if !has_no_label(&name) {
                    return Err(DecodeError::EdnsNameNotRoot);
                }
                self.add_edns(Edns::from_opt(dns_class, ttl, options))
            }
            RData::TSIG(signature) => {
                let signature = Record {
                    name,
                    dns_class,
                    ttl,
                    rdata: signature.into_inner(),
                    proof,
                };
                self.signature = Some(Boxed::new(alloc, signature)?);
                Ok(())
            }
            rdata => {
                self.records.push(Record {
                    name,
                    dns_class,
                    ttl,
                    rdata,
                    proof,
                })?;
                Ok(())
            }
        }
    }
}
