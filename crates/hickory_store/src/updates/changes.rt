//! What one record of an update section does to the records of a zone, or of its name.

ghost use Rattle.std.specs.Prelude.{◌≡◌, ◌==◌, ◌∷◌, [], ◌++◌, ◌&&◌, IfOk, OnOk, cond, filter, not};
ghost use Rattle.std.specs.List.{list_any};
ghost use Rattle.hickory_base.specs.zone_store.ZoneRecords.{is_at};
ghost use Rattle.hickory_store.specs.updates.Changes.{adds_nothing_new, after_counted, after_record, changes, counted_changes, has_other_ttl, has_ttl, in_class, in_rrset, is_added, is_deleted_when, is_ignored, is_in_deleted_rrsets, is_newer, is_spared, is_type, one_ttl, replaces_rrset};
ghost use Rattle.hickory_store.specs.updates.Identity.{same_record, ttl_at};

use crate::updates::laws::identities;
use hickory_base::zone_store::serials::is_greater;
use hickory_wire::{DNSClass, Name, RData, Record, RecordType};
use std::alloc::AllocError;

/// Whether a record is of a type.
pub(crate) fn is_type(record_type: RecordType, q: &Record) -> bool
    ensures { result ≡ is_type record_type q.now }
{
    q.rdata.record_type() == record_type
}

/// Whether a record is of the RRset of another.
fn in_rrset(r: &Record, q: &Record) -> bool
    ensures { result ≡ in_rrset r.now q.now }
{
    r.name == q.name && is_type(r.rdata.record_type(), q)
}

/// Whether two records are the same but for their TTLs.
fn is_same(r: &Record, q: &Record) -> bool
    ensures { result ≡ same_record r.now q.now }
{
    r == q
}

/// Whether the data are those of an SOA that is newer than the other.
fn is_newer(a: &RData, b: &RData) -> bool
    ensures { result ≡ is_newer a.now b.now }
{
    match (a, b) {
        (RData::SOA(soa), RData::SOA(other)) => is_greater(soa.get().serial, other.get().serial),
        _ => false,
    }
}

/// Whether the record's name has one of another type than CNAME.
fn has_other_than_cname(records: &[Record], r: &Record) -> bool
    ensures { result ≡ list_any (λ q. is_at r.now.name q && not (is_type 5 q)) records.now }
{
    records
        .iter()
        .any(|q| r.name == q.name && !is_type(RecordType::CNAME, q))
}

/// Whether the record's name has a CNAME.
fn has_cname(records: &[Record], r: &Record) -> bool
    ensures { result ≡ list_any (λ q. is_at r.now.name q && is_type 5 q) records.now }
{
    records
        .iter()
        .any(|q| r.name == q.name && is_type(RecordType::CNAME, q))
}

/// Whether the record's RRset has records.
fn has_rrset(records: &[Record], r: &Record) -> bool
    ensures { result ≡ list_any (in_rrset r.now) records.now }
{
    records.iter().any(|q| in_rrset(r, q))
}

/// Whether the record's RRset has an SOA that it is not newer than.
fn has_soa_as_new(records: &[Record], r: &Record) -> bool
    ensures { result ≡ list_any (λ q. in_rrset r.now q && not (is_newer r.now.rdata q.rdata)) records.now }
{
    records
        .iter()
        .any(|q| in_rrset(r, q) && !is_newer(&r.rdata, &q.rdata))
}

/// Whether a record that would be added is ignored.
fn is_ignored(records: &[Record], r: &Record) -> bool
    ensures { result ≡ is_ignored records.now r.now }
{
    if is_type(RecordType::CNAME, r) {
        return has_other_than_cname(records, r);
    }
    has_cname(records, r)
        || (is_type(RecordType::SOA, r) && (!has_rrset(records, r) || has_soa_as_new(records, r)))
}

/// Whether a record that is added replaces its whole RRset.
fn replaces_rrset(r: &Record) -> bool
    ensures { result ≡ replaces_rrset r.now }
{
    is_type(RecordType::CNAME, r) || is_type(RecordType::SOA, r)
}

/// Whether the record is there with this TTL.
fn has_with_ttl(records: &[Record], r: &Record, ttl: u32) -> bool
    ensures { result ≡ has_ttl ttl (ttl_at records.now r.now) }
{
    for q in records {
        if is_same(r, q) {
            return q.ttl == ttl;
        }
    }
    false
}

/// Whether the record's RRset has another record.
fn has_other(records: &[Record], r: &Record) -> bool
    ensures { result ≡ list_any (λ q. in_rrset r.now q && not (same_record r.now q)) records.now }
{
    records.iter().any(|q| in_rrset(r, q) && !is_same(r, q))
}

/// Whether the record's RRset has a record with another TTL, which is that of the first record that is the same. In a
/// zone that is the record itself, so the second search is made only once.
fn finds_other_ttl(records: &[Record], r: &Record) -> bool
    ensures { result ≡ list_any (λ q. in_rrset r.now q &&
        (not (q.ttl == r.now.ttl) && not (has_ttl r.now.ttl (ttl_at records.now q)))) records.now }
{
    records.iter().any(|q| in_rrset(r, q) && (q.ttl != r.ttl && !has_with_ttl(records, q, r.ttl)))
}

/// Whether the record's RRset has a record with another TTL.
fn has_other_ttl(records: &[Record], r: &Record) -> bool
    ensures { result ≡ has_other_ttl records.now r.now }
{
    identities();
    finds_other_ttl(records, r)
}

/// Whether a record, were it added, would leave the zone as it is.
fn adds_nothing_new(by_rfc: bool, records: &[Record], r: &Record) -> bool
    ensures { result ≡ adds_nothing_new by_rfc records.now r.now }
{
    has_with_ttl(records, r, r.ttl)
        && (!(replaces_rrset(r) && has_other(records, r)) && !(by_rfc && has_other_ttl(records, r)))
}

/// Whether a record is added to the zone.
fn is_added(by_rfc: bool, records: &[Record], r: &Record) -> bool
    ensures { result ≡ is_added by_rfc records.now r.now }
{
    r.dns_class == DNSClass::IN
        && (!is_ignored(records, r) && !adds_nothing_new(by_rfc, records, r))
}

/// Whether a record of the zone is the one that a record of class NONE is to delete.
fn is_meant(r: &Record, q: &Record) -> bool
    ensures { result ≡ same_record (in_class r.now) q.now }
{
    r.name == q.name && (DNSClass::IN == q.dns_class && r.rdata == q.rdata)
}

/// Whether the record's RRset has another record than the one it is to delete.
fn has_other_than_meant(records: &[Record], r: &Record) -> bool
    ensures { result ≡ list_any (λ q. in_rrset r.now q && not (same_record (in_class r.now) q)) records.now }
{
    records.iter().any(|q| in_rrset(r, q) && !is_meant(r, q))
}

/// Whether a record of class NONE is ignored.
fn is_spared(by_rfc: bool, origin: &Name, records: &[Record], r: &Record) -> bool
    ensures { result ≡ is_spared by_rfc origin.now records.now r.now }
{
    (!by_rfc || *origin == r.name)
        && (is_type(RecordType::SOA, r)
            || (is_type(RecordType::NS, r) && !has_other_than_meant(records, r)))
}

/// Whether a record of class ANY deletes a record of the zone.
fn is_in_deleted_rrsets(origin: &Name, r: &Record, q: &Record) -> bool
    ensures { result ≡ is_in_deleted_rrsets origin.now r.now q.now }
{
    r.name == q.name
        && ((is_type(RecordType::ANY, r) || is_type(r.rdata.record_type(), q))
            && !(*origin == q.name && (is_type(RecordType::SOA, q) || is_type(RecordType::NS, q))))
}

/// Whether a record of an update section deletes a record of the zone, where it is settled whether it is added and
/// whether it is ignored in class NONE.
fn is_deleted(origin: &Name, r: &Record, is_coming: bool, is_kept: bool, q: &Record) -> bool
    ensures { result ≡ is_deleted_when origin.now r.now is_coming is_kept q.now }
{
    if r.dns_class == DNSClass::IN {
        is_coming
            && if replaces_rrset(r) {
                in_rrset(r, q)
            } else {
                is_same(r, q)
            }
    } else if r.dns_class == DNSClass::ANY {
        is_in_deleted_rrsets(origin, r, q)
    } else {
        !is_kept && is_meant(r, q)
    }
}

/// Whether it deletes any.
fn has_going(origin: &Name, r: &Record, is_coming: bool, is_kept: bool, records: &[Record]) -> bool
    ensures { result ≡ list_any (is_deleted_when origin.now r.now is_coming is_kept) records.now }
{
    records
        .iter()
        .any(|q| is_deleted(origin, r, is_coming, is_kept, q))
}

/// Deletes them.
fn take_out(origin: &Name, r: &Record, is_coming: bool, is_kept: bool, records: &mut Vec<Record>)
    ensures { records.new.items ≡ filter (λ q. not (is_deleted_when origin.now r.now is_coming is_kept q))
        records.old.items }
{
    records.retain(|q| !is_deleted(origin, r, is_coming, is_kept, q));
}

/// Gives a record the TTL of another, if it is of the RRset of that.
fn give_ttl(r: &Record, q: &mut Record)
    ensures { q.new ≡ cond (in_rrset r.now q.old) (record q.old { ttl = r.now.ttl }) q.old }
{
    if in_rrset(r, q) {
        q.ttl = r.ttl;
    }
}

/// Gives the records of the record's RRset its TTL.
fn give_one_ttl(r: &Record, records: &mut [Record])
    ensures { records.new ≡ one_ttl r.now records.old }
{
    for q in records.iter_mut() {
        give_ttl(r, q);
    }
}

/// Adds a record.
fn put_in(by_rfc: bool, records: &mut Vec<Record>, r: &Record) -> Result<(), AllocError>
    ensures { OnOk result (records.new.items ≡ cond by_rfc (one_ttl r.now (records.old.items ++ r.now ∷ []))
        (records.old.items ++ r.now ∷ [])) }
{
    let copy = r.clone()?;
    records.push(copy)?;
    if by_rfc {
        give_one_ttl(r, records);
    }
    Ok(())
}

/// Does what one record of an update section says whose TTL counts, and reports whether the zone changed. If memory is
/// refused, records may have been deleted.
fn take_counted(
    by_rfc: bool,
    origin: &Name,
    records: &mut Vec<Record>,
    r: &Record,
) -> Result<bool, AllocError>
    ensures zone { OnOk result (records.new.items ≡ after_counted by_rfc origin.now records.old.items r.now) }
    ensures changed { IfOk result (λ changed.
        changed ≡ counted_changes by_rfc origin.now records.old.items r.now) }
{
    let is_coming = is_added(by_rfc, records, r);
    let is_kept = is_spared(by_rfc, origin, records, r);
    let is_going = has_going(origin, r, is_coming, is_kept, records);
    take_out(origin, r, is_coming, is_kept, records);
    if is_coming {
        put_in(by_rfc, records, r)?;
        Ok(true)
    } else {
        Ok(is_going)
    }
}

/// Does what one record of an update section says, and reports whether the zone changed. If memory is refused, records
/// may have been deleted.
pub(crate) fn take_turn(
    by_rfc: bool,
    origin: &Name,
    records: &mut Vec<Record>,
    r: &Record,
) -> Result<bool, AllocError>
    ensures zone { OnOk result (records.new.items ≡ after_record by_rfc origin.now records.old.items r.now) }
    ensures changed { IfOk result (λ changed. changed ≡ changes by_rfc origin.now records.old.items r.now) }
{
    if by_rfc && r.ttl >= 0x8000_0000 {
        let mut counted = r.clone()?;
        counted.ttl = 0;
        return take_counted(by_rfc, origin, records, &counted);
    }
    take_counted(by_rfc, origin, records, r)
}
