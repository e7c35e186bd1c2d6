//! The records of a zone that is held in memory: by name and type, and as a whole.

ghost use Rattle.std.specs.Prelude.{◌≡◌, ◌++◌, ◌∷◌, [], OnOk, IfOk, MatchResult, None, Some, Ok, cond, drop, filter};
ghost use Rattle.std.specs.List.{flat_map, list_any};
ghost use Rattle.std.specs.Option.{option_copied};
ghost use Rattle.wire_messages.specs.Numbers.{code_serv_fail};
ghost use Rattle.hickory_base.specs.zone_store.ZoneAnswers.{OrMemory, soa_alone, whole_zone, zone_soa};
ghost use Rattle.hickory_base.specs.zone_store.ZoneRecords.{existing, is_at, rrset};
ghost use Rattle.hickory_base.specs.zone_store.ZoneSets.{is_key, keys_at, sets_of, zone_records};

use crate::errors::LookupError;
use crate::zone_store::copies::append_copies;
use crate::zone_store::find::{copies_of_name, is_in_use, keys_of_name, set_under};
use crate::zone_store::in_memory::InMemoryZoneHandler;
use crate::zone_store::lookup::ZoneTransfer;
use crate::zone_store::record_set::RecordSet;
use hickory_wire::{Items, LowerName, Record, RecordType, ResponseCode, RrKey};
use std::alloc::{AllocError, Global};
use std::collections::BTreeMap;
use std::rc::Rc;

/// Puts copies of all records last but for the first under a key. Where memory is refused, those of a front of them may
/// have been put.
fn append_others(
    all: &mut Vec<Record>,
    sets: &BTreeMap<RrKey, Rc<RecordSet>>,
    apex: &RrKey,
) -> Result<(), AllocError>
    ensures { OnOk result (all.new.items ≡ all.old.items ++ flat_map
        (λ e. cond (is_key apex.now.name apex.now.record_type e.0) (drop 1 e.1) e.1) (sets_of sets.now)) }
{
    for (key, set) in sets {
        let records = set.records();
        let others = if apex == key { &records[1..] } else { records };
        append_copies(all, others)?;
    }
    Ok(())
}

/// A copy of one record as all that is sent.
fn one_record(alloc: Global, record: &Record) -> Result<ZoneTransfer, AllocError>
    ensures { IfOk result (λ transfer. transfer.records ≡ «record».now ∷ []) }
{
    let mut records = Items::new(alloc);
    records.push(record.clone()?)?;
    Ok(ZoneTransfer { records })
}

impl InMemoryZoneHandler {
    /// The records of a name and type (RFC 2181 section 5), if there are any. It needs no memory, and time by the depth
    /// of the zone's map.
    pub fn record_set(&self, key: &RrKey) -> Option<&[Record]>
        ensures { option_copied result ≡ existing
            (rrset (zone_records self.now.sets) key.now.name key.now.record_type) }
    {
        set_under(&self.records, key)
    }

    /// Whether there are records of this name, of whatever type. It needs no memory, and time by the depth of the
    /// zone's map.
    pub fn is_in_use(&self, name: LowerName) -> bool
        ensures { result ≡ list_any (is_at name) (zone_records self.now.sets) }
    {
        let first = RrKey::new(name, RecordType::new(0));
        is_in_use(&self.records, &first)
    }

    /// Copies of the records of a name, whatever their type, in the order of the sets. It takes time by what it copies
    /// and the depth of the zone's map.
    pub fn records_of_name(&self, alloc: Global, name: LowerName) -> Result<Vec<Record>, AllocError>
        ensures { IfOk result (λ all. all.items ≡ filter (is_at name) (zone_records self.now.sets)) }
    {
        let first = RrKey::new(name, RecordType::new(0));
        copies_of_name(alloc, &self.records, &first)
    }

    /// Copies of the keys of a name's sets, in their order. It takes time by what it copies and the depth of the zone's
    /// map.
    pub fn keys_of_name(&self, alloc: Global, name: LowerName) -> Result<Vec<RrKey>, AllocError>
        ensures { IfOk result (λ keys. keys.items ≡ keys_at name self.now.sets) }
    {
        let first = RrKey::new(name, RecordType::new(0));
        keys_of_name(alloc, &self.records, &first)
    }

    /// The SOA record, all other records in the order of the sets, and the SOA record again.
    fn all_records(&self, alloc: Global, soa: &Record) -> Result<ZoneTransfer, AllocError>
        ensures { IfOk result (λ transfer. whole_zone self.now (Some soa.now) ≡ Ok transfer) }
    {
        let mut records = Vec::new(alloc);
        records.push(soa.clone()?)?;
        append_others(&mut records, &self.records, &self.apex)?;
        records.push(soa.clone()?)?;
        Ok(ZoneTransfer {
            records: Items::from_vec(records),
        })
    }

    /// The SOA record at the origin; without one it is ServFail.
    fn soa_or_failure(&self) -> Result<&Record, LookupError>
        ensures { MatchResult result (λ soa. zone_soa self.now ≡ Some soa.now) (λ e. (zone_soa self.now ≡ None) ×
            (e ≡ LookupError.ResponseCode code_serv_fail)) }
    {
        match self.soa() {
            None => Err(LookupError::ResponseCode(ResponseCode::SERV_FAIL)),
            Some(soa) => Ok(soa),
        }
    }

    /// The whole zone as a transfer, whoever may have it: the SOA record at the origin, all other records in the order
    /// of the sets, and that SOA record again (RFC 5936 section 2.2). Without an SOA it is ServFail.
    pub fn whole_zone(&self, alloc: Global) -> Result<ZoneTransfer, LookupError>
        ensures { OrMemory (whole_zone self.now (zone_soa self.now)) result }
    {
        let soa = self.soa_or_failure()?;
        Ok(self.all_records(alloc, soa)?)
    }

    /// The SOA record at the origin alone, as the whole answer to a query for what changed in the zone (RFC 1995
    /// section 2), whoever may have it. Without an SOA it is ServFail.
    pub fn soa_alone(&self, alloc: Global) -> Result<ZoneTransfer, LookupError>
        ensures { OrMemory (soa_alone (whole_zone self.now (zone_soa self.now))) result }
    {
        let soa = self.soa_or_failure()?;
        Ok(one_record(alloc, soa)?)
    }
}
