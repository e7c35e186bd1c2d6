//! The SOA record of a zone as it stands in denials.

ghost use Rattle.std.specs.Prelude.{◌≡◌, IfOk, IfSome};
ghost use Rattle.std.specs.Option.{option_copied};
ghost use Rattle.hickory_base.specs.zone_store.ZoneSets.{sets_of};
ghost use Rattle.zone_replies.specs.Replies.{denial_soa, denial_ttl, for_denial, as_zone};

use hickory_base::zone_store::{InMemoryZoneHandler, RecordList, RecordSet, ZoneHandler};
use hickory_wire::{Items, LowerName, RData, Record, RecordType, RrKey};
use std::alloc::{AllocError, Global};
use std::collections::BTreeMap;
use std::rc::Rc;
use zone_answers::find::set_under;

/// How long a denial may be kept, where the SOA record has this TTL and these data.
fn denial_ttl(ttl: u32, rdata: &RData) -> u32
    ensures { result ≡ denial_ttl ttl rdata.now }
{
    match rdata {
        RData::SOA(soa) => ttl.min(soa.get().minimum),
        _ => ttl,
    }
}

/// A copy of the SOA record with that TTL.
fn for_denial(soa: &Record) -> Result<Record, AllocError>
    ensures { IfOk result (λ copy. copy ≡ for_denial soa.now) }
{
    Ok(Record {
        name: soa.name.clone()?,
        dns_class: soa.dns_class,
        ttl: denial_ttl(soa.ttl, &soa.rdata),
        rdata: soa.rdata.clone()?,
        proof: soa.proof,
    })
}

/// The SOA record of the zone of this origin as it stands in denials, if the zone has one.
fn made(
    alloc: Global,
    origin: &LowerName,
    sets: &BTreeMap<RrKey, Rc<RecordSet>>,
) -> Result<Vec<Record>, AllocError>
    ensures { IfOk result (λ soa. soa.items ≡ denial_soa (record { origin = origin.now; sets = sets_of sets.now })) }
{
    let mut all = Vec::new(alloc);
    let key = RrKey::new(origin.clone()?, RecordType::SOA);
    if let Some(records) = set_under(sets, &key) {
        if let Some(soa) = records.first() {
            all.push(for_denial(soa)?)?;
        }
    }
    Ok(all)
}

/// The zone's SOA record as it stands in denials, if the zone has one.
pub fn denial_soa(alloc: Global, zone: &InMemoryZoneHandler) -> Result<Vec<Record>, AllocError>
    ensures { IfOk result (λ soa. soa.items ≡ denial_soa (as_zone zone.now)) }
{
    made(alloc, zone.origin(), zone.records())
}

/// The SOA record of denials as it is given: where it lies, if it was made before, or else made for this.
pub(crate) fn soa_of<'z>(
    alloc: Global,
    origin: &LowerName,
    sets: &BTreeMap<RrKey, Rc<RecordSet>>,
    soa: Option<&'z [Record]>,
) -> Result<RecordList<'z>, AllocError>
    requires { IfSome (option_copied soa)
        (λ rs. rs ≡ denial_soa (record { origin = origin.now; sets = sets_of sets.now })) }
    ensures { IfOk result (λ rs. rs ≡ denial_soa (record { origin = origin.now; sets = sets_of sets.now })) }
{
    match soa {
        Some(records) => Ok(RecordList::lent(records)),
        None => Ok(RecordList::owned(Items::from_vec(made(alloc, origin, sets)?))),
    }
}
