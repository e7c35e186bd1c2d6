//! Laws of zones that take updates by rules, each the contract of a function with nothing to do.

ghost use Rattle.zones.specs.Laws.{AcknowledgedAreMade, ChangesAreGranted, OwnedZonesAreLookedUp, OwnedZonesReply, RefusalsOfMemory, RulesStay, UpdatesOfMemory};
ghost use Rattle.zones.specs.Owners.{OwnersOfRecords, OwnersStay, OwnersStayByRules};
ghost use Rattle.zones.specs.Versions.{DifferencesLead};

use hickory_store::updates::Verifier;
use hickory_store::updates::laws::identities;
use zone_differences::laws::recorded_lead;

/// If an update changes anything, the rules grant each record of its update section to the key that signed it. No
/// update changes the rules.
pub fn changes_are_granted<V: Verifier>()
    ensures granted { ChangesAreGranted V.Verifier }
    ensures rules { RulesStay V.Verifier }
{}

/// An update that is acknowledged the rules grant, and a zone that is only in memory makes it so (RFC 2136 section 3).
/// Each update that they grant is answered as such a zone answers it, if there is no journal, or if its signature is not
/// good, a prerequisite does not hold or a record does not pass the prescan (sections 3.2, 3.3 and 3.4.1).
pub fn updates_are_those_of_memory<V: Verifier>()
    ensures acknowledged { AcknowledgedAreMade V.Verifier }
    ensures without_journal { UpdatesOfMemory V.Verifier }
    ensures refused { RefusalsOfMemory V.Verifier }
{}

/// If each owner name of a zone is fully qualified, and the zone's apex or below it, this stays so. No request that was
/// read of bytes changes it, whatever it asks and whatever the answer is: an update with another name is refused whole
/// (RFC 2136 section 3.4.1.3). So a [`Zone`](crate::Zone) that answers queries goes on to answer them.
pub fn owners_stay<V: Verifier>()
    ensures sets { OwnersOfRecords }
    ensures requests { OwnersStay V.Verifier }
    ensures by_rules { OwnersStayByRules V.Verifier }
{
    identities();
}

/// If each owner name of a zone is so, queries are answered in it as in a zone that takes no updates (RFC 1034 section
/// 4.3.2).
pub fn owned_zones_reply()
    ensures searches { OwnedZonesReply }
    ensures lookups { OwnedZonesAreLookedUp }
{}

/// Whatever a zone has answered since it was loaded, or since its journal was opened, which tells of earlier versions:
/// a client that has a version of it, and applies to that the differences which the zone keeps since then (RFC 1995
/// section 4), has the zone as it is.
pub fn clients_follow<V: Verifier>()
    ensures { DifferencesLead V.Verifier }
{
    recorded_lead();
}
