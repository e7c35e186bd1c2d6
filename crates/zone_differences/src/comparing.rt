//! Records of one name, before an update and after it.

ghost use Rattle.std.specs.Prelude.{◌++◌, ◌≡◌, OnOk, filter};
ghost use Rattle.hickory_store.specs.updates.Identity.{ttl_at};
ghost use Rattle.hickory_store.specs.updates.UpdateAnswers.{is_apex_soa};
ghost use Rattle.zone_differences.specs.Differences.{is_changed, same_ttl};

use hickory_store::updates::laws::identities;
use hickory_wire::{Name, Record, RecordType};
use std::alloc::AllocError;

/// Whether a record is an SOA of the apex.
fn is_apex_soa(origin: &Name, r: &Record) -> bool
    ensures { result ≡ is_apex_soa origin.now r.now }
{
    *origin == r.name && r.rdata.record_type() == RecordType::SOA
}

/// The TTL of the record of an identity, if it is among these.
fn ttl_of(records: &[Record], r: &Record) -> Option<u32>
    ensures { result ≡ ttl_at records.now r.now }
{
    let mut rest = records;
    while let [q, others @ ..] = rest {
        if r == q {
            return Some(q.ttl);
        }
        rest = others;
    }
    None
}

/// Whether two TTLs are the same.
fn is_same_ttl(ttl: Option<u32>, other: Option<u32>) -> bool
    ensures { result ≡ same_ttl ttl other }
{
    match (ttl, other) {
        (None, None) => true,
        (Some(ttl), Some(other)) => ttl == other,
        _ => false,
    }
}

/// Whether the record of an identity is in one of two versions alone, or has another TTL in the other. The SOA of the
/// apex is none of these.
fn is_changed(origin: &Name, old: &[Record], new: &[Record], r: &Record) -> bool
    ensures { result ≡ is_changed origin.now old.now new.now r.now }
{
    !is_apex_soa(origin, r) && !is_same_ttl(ttl_of(old, r), ttl_of(new, r))
}

/// Puts copies of the records last that have changed. Where memory is refused, those of a front of them may have been
/// put.
pub(crate) fn push_changed(
    origin: &Name,
    old: &[Record],
    new: &[Record],
    records: &[Record],
    all: &mut Vec<Record>,
) -> Result<(), AllocError>
    ensures { OnOk result (all.new.items ≡ all.old.items ++ filter (is_changed origin.now old.now new.now)
        records.now) }
{
    for r in records {
        if is_changed(origin, old, new, r) {
            all.push(r.clone()?)?;
        }
    }
    Ok(())
}
