//! Laws of servers by their rules, each the contract of a function with nothing to do.

ghost use Rattle.hickory_server.specs.server.ServedLaws.{LetThroughSteps, NoReplyToResponses, OptHasRoom, OtherZonesStay, ServedAloneBy, WithinBothLimits};

use hickory_base::zone_store::ZoneHandler;
use hickory_catalog::laws::zones_apart;
use hickory_catalog::signer::ReplySigner;
use hickory_wire::encoder_laws::{what_fits_is_whole, what_is_written_keeps_the_limit};
use hickory_wire::message_laws::one_message;

/// What becomes of a message by the rules of a server. A message that they let through is answered as `serve` answers
/// it, so that what holds of that holds here too; a response, and what is shorter than a header, has no reply; over UDP
/// a reply is within both limits; and each zone is served as if it were the only one.
pub fn messages_by_rules<S: ReplySigner, H: ZoneHandler>()
    ensures steps { LetThroughSteps H.ZoneHandler S.signature_for }
    ensures responses { NoReplyToResponses H.ZoneHandler S.signature_for }
    ensures within { WithinBothLimits H.ZoneHandler S.signature_for }
    ensures alone { ServedAloneBy H.ZoneHandler S.signature_for }
    ensures others { OtherZonesStay H.ZoneHandler S.signature_for }
{
    one_message();
    zones_apart::<S, H>();
    what_is_written_keeps_the_limit();
}

/// A reply with TC, which has no other records, has its OPT record (RFC 6891 section 7).
///
/// The premise: the limit has room for header, questions and 11 bytes. 512 bytes have it for one question.
pub fn opt_has_room()
    ensures { OptHasRoom }
{
    what_fits_is_whole();
}
