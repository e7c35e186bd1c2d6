//! Laws of the definitions, each the contract of a function with nothing to do.

ghost use Rattle.zone_differences.specs.Differences.{AppliedLeads, AppliedRespects};
ghost use Rattle.zone_differences.specs.Versions.{RecordedLead};

use hickory_store::updates::laws::identities;

/// Who applies the difference between two versions of a zone to the one has the other (RFC 1995 section 4), whatever
/// the order of its records; and who applies it to lists that stand for one zone has lists that stand for one zone.
pub fn differences_lead()
    ensures leads { AppliedLeads }
    ensures respects { AppliedRespects }
{
    identities();
}

/// Where the differences that are kept lead from versions of a zone to the zone as it is, and what becomes of it is
/// recorded, they lead to what it has become: who has one of the versions, and applies to that the differences since
/// then (RFC 1995 section 4), has the zone.
pub fn recorded_lead()
    ensures { RecordedLead }
{
    differences_lead();
}
