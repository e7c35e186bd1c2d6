//! Laws of the definitions, each the contract of a function with nothing to do.

ghost use Rattle.std.specs.Prelude.{◌≡◌, List};
ghost use Rattle.wire_messages.specs.serialize.writing.Reply.{Reply};
ghost use Rattle.wire_messages.specs.declared.op.header.Header.{Header};
ghost use Rattle.wire_messages.specs.declared.op.header.Metadata.{Metadata};
ghost use Rattle.hickory_catalog.specs.requests.Alone.{ApexesStay, ChainServedAlone, OfZoneIsDecided, OneChain, OthersStay, ServedAlone};
ghost use Rattle.hickory_catalog.specs.queries.AuthoritativeLaws.{AuthoritativeCodes, AuthoritativeHeaders, NegativeReplies, ReferralsAreNoAnswers};
ghost use Rattle.hickory_catalog.specs.replies.DecodedReplies.{CatalogReplyDecodes, ChainRepliesFit, ErrorRepliesFit, QueryRepliesFit, ReplyEdnsFits, RequestRepliesFit, SignedRepliesFit, TransferRepliesFit, UpdateRepliesFit};
ghost use Rattle.hickory_catalog.specs.queries.ForwardedLaws.{AuthenticWhereProved, DnssecRecordsOnDemand, ForwardedCodes, ForwardedHeaders, NothingBogusPassedOn, RefusedWithoutRecursion, SoaOfNegativeAnswer};
ghost use Rattle.hickory_catalog.specs.requests.OneReply.{OneReply};
ghost use Rattle.hickory_catalog.specs.replies.Sending.{AreTaken, SendsInOrder};
ghost use Rattle.hickory_catalog.specs.transfers.TransferLaws.{AnswersAreTheTransfer, NoAnswerIsCut, OneWayToRun};
ghost use Rattle.hickory_catalog.specs.transfers.WholeTransfers.{TransferredAlone};
ghost use Rattle.hickory_catalog.specs.zones.Find.{OneNearest};

use crate::signer::ReplySigner;
use hickory_base::server::ResponseHandler;
use hickory_base::zone_store::ZoneHandler;
use hickory_wire::encoder_laws::what_reads_back_is_written;
use hickory_wire::record_laws::{questions_of_replies, reading_back};

/// What a reply of a server that asked elsewhere may say: AA never, RA always, AD only where all is proved and it was
/// asked for, no record with a wrong proof but to a client that checks for itself, no DNSSEC record that was not asked
/// for, with a negative answer the SOA that came with it and no other, and nothing without RD (RFC 4035 section 3.2,
/// RFC 2308 section 2, RFC 1034 section 4.3.2).
pub fn forwarded_replies()
    ensures header { ForwardedHeaders }
    ensures codes { ForwardedCodes }
    ensures refused { RefusedWithoutRecursion }
    ensures authentic { AuthenticWhereProved }
    ensures bogus { NothingBogusPassedOn }
    ensures dnssec { DnssecRecordsOnDemand }
    ensures soa { SoaOfNegativeAnswer }
{}

/// What a reply of a server that holds the zone may say: AA always, RA and AD never, RD as asked, one of four codes, no
/// answers in a referral, and with nothing found the SOA of the zone alone (RFC 1034 section 4.3.2, RFC 2308 section
/// 3).
pub fn authoritative_replies<H: ZoneHandler>()
    ensures header { AuthoritativeHeaders H.ZoneHandler }
    ensures codes { AuthoritativeCodes H.ZoneHandler }
    ensures referrals { ReferralsAreNoAnswers H.ZoneHandler }
    ensures negative { NegativeReplies H.ZoneHandler }
{}

/// What the replies of a catalog, to a query, to one that a given chain answers or a transfer, to an update, with an error, or to
/// whatever the request is, have of their requests: id, opcode, questions, and EDNS with the high bits of their code.
/// None has TC of its own (RFC 1035 section 4.1.1, RFC 6891 section 6.1.3).
pub fn replies_of_requests<S: ReplySigner, H: ZoneHandler>()
    ensures queries { QueryRepliesFit H.ZoneHandler S.signature_for }
    ensures chains { ChainRepliesFit H.ZoneHandler S.signature_for }
    ensures updates { UpdateRepliesFit H.ZoneHandler S.signature_for }
    ensures requests { RequestRepliesFit H.ZoneHandler S.signature_for }
    ensures transfers { TransferRepliesFit H.ZoneHandler S.signature_for }
    ensures errors { ErrorRepliesFit }
    ensures signed { SignedRepliesFit }
    ensures edns { ReplyEdnsFits }
{
    forwarded_replies();
    authoritative_replies::<H>();
}

/// A reply of a catalog is encoded as what is written of it, never as a ServFail in its place, and is read from its
/// bytes as its header, its questions and the fronts of its sections (RFC 1035 section 4.1).
///
/// The premises: the limit has room for header and questions, no name of the questions leads into the header or runs on
/// behind the last, and each record reads back as itself.
pub fn replies_decode()
    ensures { CatalogReplyDecodes }
{
    what_reads_back_is_written();
    questions_of_replies();
    reading_back();
}

/// What the replies of a transfer that is sent in as many as it takes have of it: their answers, one after the other,
/// are its records; there is one way to take these in runs; and none is cut that has more than one answer (RFC 5936
/// section 2.2).
pub fn transfers_in_several_replies()
    ensures joined { AnswersAreTheTransfer }
    ensures once { OneWayToRun }
    ensures uncut { NoAnswerIsCut }
{}

/// Each zone is served as if it were the only one: a request to it has the replies that it would have there, and leaves
/// it as it would there; any other request leaves it as it was; no request makes or removes a zone; and of each request
/// it is decided whether it is to a zone. A request that is answered by the whole zone has the replies that it would
/// have there, and so has a query that the zone's chain is given, if the zone may answer for its name. One zone at most
/// is the nearest to a name.
pub fn zones_apart<S: ReplySigner, H: ZoneHandler>()
    ensures alone { ServedAlone H.ZoneHandler S.signature_for }
    ensures others { OthersStay H.ZoneHandler S.signature_for }
    ensures apexes { ApexesStay H.ZoneHandler S.signature_for }
    ensures one_chain { OneChain H }
    ensures decided { OfZoneIsDecided H }
    ensures transfers { TransferredAlone H.ZoneHandler S.signature_for }
    ensures chains { ChainServedAlone H.ZoneHandler S.signature_for }
    ensures nearest { OneNearest (List H) }
{}

/// A sink that counted no failure took all replies that were handed over, in their order, one entry for each.
pub fn replies_taken<R: ResponseHandler>()
    ensures { (request : Metadata) (old new : R) (replies : List Reply) (told : Header) →
        SendsInOrder R.ResponseHandler request old new replies told
        → R.failures new ≡ R.failures old → AreTaken R.ResponseHandler old new replies }
{}

/// Where each call of a handler has one answer, want of memory aside, and the signer one for each reply, a query has
/// one list of replies.
pub fn one_reply<S: ReplySigner, H: ZoneHandler>()
    ensures { OneReply H.ZoneHandler S.signature_for }
{}
