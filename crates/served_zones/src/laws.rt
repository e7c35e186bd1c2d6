//! Laws of what a server replies, each the contract of a function with nothing to do.

ghost use Rattle.served_zones.specs.ServedQueries.{PlainQueriesAreRead, QueriesAreAnswered, ZonesAreUpdated};
ghost use Rattle.served_zones.specs.ZoneReplies.{TheReplyIsMade};

use crate::handler::Handler;
use hickory_base::zone_store::ZoneHandler;
use hickory_catalog::signer::ReplySigner;
use hickory_store::updates::Verifier;
use hickory_wire::message_laws::one_message;
use signed_server::LeftToServer;
use sqlite_disk::Disk;
use tsig::TsigVerifier;
use zones::Zone;
use zones::laws::owned_zones_reply;

/// A server that holds the zone says what the zone replies to the question (RFC 1034 section 4.3.2), whatever the zone
/// gave for it: the whole reply, records of it, or a denial that the catalog adds the SOA record to. Each owner name of
/// the zone is its apex or below it, as in each zone that is loaded from a file.
pub fn replies_are_the_zones<D: Disk + Drop>()
    ensures { TheReplyIsMade ⟦<Zone<TsigVerifier, D> as ZoneHandler>⟧ }
{
    owned_zones_reply();
}

/// A server answers a query by the zone that is nearest to its name (RFC 1034 section 4.3.2). A message changes zones
/// only by an update that a zone answers `Ok` (RFC 2136).
pub fn served_queries<D: Disk + Drop>()
    ensures answered { QueriesAreAnswered ⟦<Handler<D> as ZoneHandler>⟧ ⟦<LeftToServer as ReplySigner>⟧.signature_for }
    ensures updated { ZonesAreUpdated ⟦<Handler<D> as ZoneHandler>⟧ ⟦<LeftToServer as ReplySigner>⟧.signature_for
        ⟦<TsigVerifier as Verifier>⟧ }
    ensures read { PlainQueriesAreRead }
{
    owned_zones_reply();
    one_message();
}
