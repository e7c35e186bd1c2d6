//! Laws of zones that take updates, each the contract of a function with nothing to do.

ghost use Rattle.hickory_store.specs.updates.UpdateLaws.{CnamesAlone, HasNs, HasOneSoa};
ghost use Rattle.hickory_server.specs.zone_handler.KeptZones.{AreKept};

use hickory_base::zone_store::ZoneHandler;
use hickory_catalog::signer::ReplySigner;
use hickory_store::updates::laws::{identities, updates_keep};
use hickory_store::updates::{UpdatableZoneHandler, Verifier};
use hickory_wire::record_comparisons;

/// Whatever is asked of zones that take updates, each keeps one SOA and an NS at its apex, and CNAMEs that are alone
/// (RFC 2136 section 3.4.2): after `update_records`, with the increment or without, after an update of the catalog,
/// also one whose reply wants memory, and after a run of messages.
///
/// Of the records that `update_records` is given nothing more is asked than there: the prescan would take them.
pub fn zones_keep<S: ReplySigner, V: Verifier>()
    ensures soa { AreKept ⟦<UpdatableZoneHandler<V> as ZoneHandler>⟧ S.signature_for HasOneSoa }
    ensures ns { AreKept ⟦<UpdatableZoneHandler<V> as ZoneHandler>⟧ S.signature_for HasNs }
    ensures cname { AreKept ⟦<UpdatableZoneHandler<V> as ZoneHandler>⟧ S.signature_for CnamesAlone }
{
    identities();
    record_comparisons();
    updates_keep::<V>();
}
