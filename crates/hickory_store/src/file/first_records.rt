//! Records of which each counts once (RFC 2181 section 5).

ghost use Rattle.std.specs.Prelude.{◌≡◌, IfOk, List, OnOk, not};
ghost use Rattle.std.specs.List.{list_any};
ghost use Rattle.wire_messages.specs.declared.rr.rdata.RData.{RData as Data};
ghost use Rattle.wire_messages.specs.declared.rr.record.Record.{Record as ResourceRecord};
ghost use Rattle.hickory_store.specs.updates.Identity.{same_record};
ghost use Rattle.hickory_store.specs.file.FirstRecords.{Knows, digested, first_records, keep_first};

use crate::file::digests::{Digested, digest};
use crate::updates::laws::identities;
use hickory_wire::Record;
use hickory_wire::name_laws::name_comparisons;
use std::alloc::{AllocError, Global};
use std::collections::HashSet;

/// Records that were met, by their identities.
type Met = HashSet<Digested<Record>>;

/// A copy of a record beside its number.
fn digested(q: &Record) -> Result<Digested<Record>, AllocError>
    ensures { IfOk result (λ key. key ≡ digested q.now) }
{
    let value = q.clone()?;
    Ok(Digested {
        digest: digest(q),
        value,
    })
}

/// Whether a record was not met before; from then on it was.
fn is_first(met: &mut Met, q: &Record) -> Result<bool, AllocError>
    ensures { IfOk result (λ first. (kept : List (ResourceRecord Data)) → Knows kept met.old
        → (first ≡ not (list_any (same_record q.now) kept)) × Knows (keep_first kept q.now) met.new) }
{
    identities();
    name_comparisons();
    let key = digested(q)?;
    Ok(met.insert(key)?)
}

/// Puts a record last, unless the same was met.
fn keep(met: &mut Met, kept: &mut Vec<Record>, q: Record) -> Result<(), AllocError>
    ensures { OnOk result (Knows kept.old.items met.old → (kept.new.items ≡ keep_first kept.old.items q) ×
        Knows kept.new.items met.new) }
{
    if is_first(met, &q)? {
        kept.push(q)?;
    } else {
        // One call, and not a walk through the forms of its data.
        drop(q);
    }
    Ok(())
}

/// The records without those of which the same stands before. It takes about as long as sorting them.
pub(crate) fn first_records(alloc: Global, records: Vec<Record>) -> Result<Vec<Record>, AllocError>
    ensures { IfOk result (λ kept. kept.items ≡ first_records records.items) }
{
    let mut met = HashSet::new(alloc);
    let mut kept = Vec::new(alloc);
    for q in records {
        keep(&mut met, &mut kept, q)?;
    }
    Ok(kept)
}
