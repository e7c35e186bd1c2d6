//! Laws of the definitions, each the contract of a function with nothing to do.

ghost use Rattle.std.specs.Prelude.{◌≡◌, ◌↔◌, IsTrue};
ghost use Rattle.wire_names.specs.rr.domain.DomainName.{DomainName};
ghost use Rattle.wire_names.specs.rr.domain.NameOrder.{Encloses};
ghost use Rattle.wire_messages.specs.rr.RecordSameness.{SameRecord};
ghost use Rattle.wire_messages.specs.declared.rr.rdata.RData.{RData as Data};
ghost use Rattle.wire_messages.specs.declared.rr.record.Record.{Record as ResourceRecord};
ghost use Rattle.hickory_store.specs.updates.Identity.{is_in_zone, same_record};
ghost use Rattle.hickory_store.specs.updates.NameUpdates.{UpdatesNameByName};
ghost use Rattle.hickory_store.specs.updates.Replays.{Replays};
ghost use Rattle.hickory_store.specs.updates.StandsAfter.{RecordsStandAfter};
ghost use Rattle.hickory_store.specs.updates.UpdateLaws.{CnameStaysAlone, CnamesAlone, UpdatesRespectSameness, HasNs, HasOneSoa, Keeps, NsStays, SerialSteps, SoaStays};

use crate::updates::verifier::Verifier;
use hickory_wire::record_comparisons;

/// Records of one identity are those that are the same, and a name lies in a zone where the zone's origin equals or
/// encloses it.
pub fn identities()
    ensures records { (a b : ResourceRecord Data) → IsTrue (same_record a b) ↔ SameRecord a b }
    ensures zones { (origin name : DomainName) → IsTrue (is_in_zone origin name) ↔ Encloses origin.labels name.labels }
{
    record_comparisons();
}

/// After one record of an update section the zone has that record, if it is added, and the records that it had before
/// and that this one does not delete, by the cases of RFC 2136 sections 3.4.2.2 to 3.4.2.4 and by the rules of the Rust
/// crate hickory-server.
pub fn records_stand_after()
    ensures { RecordsStandAfter }
{
    identities();
}

/// Whatever an update says, a zone with one SOA at its apex keeps one, and a zone with an NS at its apex keeps one
/// (RFC 2136 section 3.4.2).
pub fn apex_stays()
    ensures soa { SoaStays }
    ensures ns { NsStays }
{
    record_comparisons();
}

/// Whatever an update says, a CNAME that is alone at its name stays alone (RFC 2136 section 3.4.2.2).
pub fn cname_stays_alone()
    ensures { CnameStaysAlone }
{}

/// Where the apex has one SOA, its serial after an update is the one that the records left, and one more modulo 2^32
/// exactly where one of them changed the zone (RFC 2136 section 3.6, RFC 1982 section 3.1).
pub fn serial_steps()
    ensures { SerialSteps }
{
    record_comparisons();
}

/// An update does the same to lists of records that stand for one zone.
pub fn updates_respect_sameness()
    ensures { UpdatesRespectSameness }
{
    identities();
}

/// Of the zone that `update` and `update_all` leave: whatever the requests and the answers, the apex keeps one SOA
/// and an NS, and CNAMEs that are alone stay alone.
pub fn updates_keep<V: Verifier>()
    ensures soa { Keeps V.Verifier HasOneSoa }
    ensures ns { Keeps V.Verifier HasNs }
    ensures cname { Keeps V.Verifier CnamesAlone }
{
    identities();
    record_comparisons();
}

/// Replay: where the apex of a zone of class IN has one SOA and no CNAME, the zone that requests leave is the one
/// before with these records done to it in their order: the updates of each request that was answered `Ok`, each list
/// that was answered true followed by the SOA that it left. So it is rebuilt by `update_records` without the increment.
pub fn updates_replay<V: Verifier>()
    ensures { Replays V.Verifier }
{
    identities();
    record_comparisons();
}

/// Whatever an update says, what it leaves of a name is what its records of this name make of the name's records
/// (RFC 2136 section 3.4.2).
pub fn names_apart()
    ensures { UpdatesNameByName }
{}
