//! Laws of the replies of a server with keys, each the contract of a function with nothing to do.

ghost use Rattle.signed_server.specs.SignedLaws.{BadRepliesAreBare, EveryMessageLeaves, GoodRepliesVerify, KeylessServesAll, StreamsAreUncut};

use hickory_base::zone_store::ZoneHandler;
use hickory_catalog::signer::ReplySigner;
use tsig::replies_verify;

/// Every reply to a request that was judged good carries a MAC that verifies under the request's key, over the bytes
/// that leave, the first for the MAC of the request and each further one behind the MAC before it (RFC 8945 sections
/// 5.3 and 5.3.1). One leaves for every message that is to be signed. A reply for a wrong key or MAC, and one for a
/// TSIG record without its form, carries no MAC. No message that is to be signed over a stream has TC, unless it says
/// ServFail.
///
/// The premise: what is signed are whole messages, none of whose names leads into its header.
pub fn signed_replies()
    ensures good { GoodRepliesVerify }
    ensures every { EveryMessageLeaves }
    ensures bad { BadRepliesAreBare }
    ensures streams { StreamsAreUncut }
{
    replies_verify();
}

/// A server with keys that has none serves every message, signed or not, exactly as the server in it does.
pub fn served_without_keys<S: ReplySigner, H: ZoneHandler>()
    ensures { KeylessServesAll H.ZoneHandler S.signature_for }
{}
