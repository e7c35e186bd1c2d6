//! The law of whole servers, the contract of a function with nothing to do.

ghost use Rattle.server.specs.Run.{RepliesAreOfTheFiles, UnchangedAreOfFiles};

use crate::service::Handler;
use hickory_server::zone_handler::{ReplySigner, ZoneHandler};
use hickory_store::updates::Verifier;
use journal::host_file::HostFile;
use served_zones::laws::served_queries;
use signed_server::LeftToServer;
use tsig::TsigVerifier;
use zones::laws::owners_stay;

/// From the bytes of zone files, journals and messages to the bytes that leave: whatever settings a server took and
/// whatever messages it answered, an unsigned query that may use it has one reply. It says what the zone of the nearest
/// file replies to the question (RFC 1034 section 4.3.2), as its journal and the updates that came left that zone (RFC
/// 2136). It says REFUSED if no file is of a zone for the name, and SERVFAIL if that file was not taken.
///
/// The premises: no list of the server blocks the name. The query has one question, of class IN or ANY, and is for no
/// transfer. For the DS records of an apex the zone above it is asked (RFC 4035 section 3.1.4.1).
pub fn replies_are_of_the_files()
    ensures replies { RepliesAreOfTheFiles ⟦<Handler as ZoneHandler>⟧ ⟦<LeftToServer as ReplySigner>⟧.signature_for
        ⟦<TsigVerifier as Verifier>⟧ }
    ensures files { UnchangedAreOfFiles ⟦<TsigVerifier as Verifier>⟧ }
{
    served_queries::<HostFile>();
    owners_stay::<TsigVerifier>();
}
