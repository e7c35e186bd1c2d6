//! Queries that the zone above answers: for the DS records of an apex (RFC 4035 section 3.1.4.1).

ghost use Rattle.std.specs.Prelude.{◌≡◌, [], List, IfOk, MatchOption, None, OnOk, option_map};
ghost use Rattle.std.specs.List.{AllZip};
ghost use Rattle.wire_names.specs.rr.domain.DomainName.{DomainName};
ghost use Rattle.wire_messages.specs.serialize.writing.Reply.{Reply};
ghost use Rattle.hickory_catalog.specs.queries.Queries.{ChainReplies};
ghost use Rattle.hickory_catalog.specs.replies.ReplyEdns.{reply_edns};
ghost use Rattle.hickory_catalog.specs.requests.Server.{server_of};
ghost use Rattle.hickory_server.specs.server.Above.{AsksForDs, FindsAbove, IsAskedAbove};
ghost use Rattle.hickory_server.specs.server.Sending.{IsSentAs};

use crate::server::rules::question_of;
use crate::server::sending::{Sending, SentSink};
use hickory_base::message_request::MessageRequest;
use hickory_base::server::Request;
use hickory_base::zone_store::ZoneHandler;
use hickory_catalog::catalog::Catalog;
use hickory_catalog::laws::replies_taken;
use hickory_catalog::signer::ReplySigner;
use hickory_wire::{Items, LowerName, Octets};
use std::alloc::{AllocError, Global};

/// The type of the records that a zone above has of a zone below (RFC 4034 section 5).
const DS: u16 = 43;

/// The name whose DS records a message asks for, but for the root, above which there is no zone.
// speed: served, an address
#[inline(always)]
pub(crate) fn ds_name(message: &MessageRequest) -> Option<&LowerName>
    ensures { MatchOption result ((name : DomainName) → ¬ (AsksForDs message.now name))
        (λ name. AsksForDs message.now name.now) }
{
    let query = question_of(message)?;
    if query.query_type().value() != DS {
        return None;
    }
    let name = query.name();
    if !name.as_name().is_fqdn() || name.as_name().is_root() {
        return None;
    }
    Some(name)
}

/// The chain of the zone above that a request asks, if it asks one.
fn chain_above<'c, S: ReplySigner, H: ZoneHandler>(
    catalog: &'c Catalog<S, H>,
    request: &Request,
) -> Result<Option<&'c Vec<H>>, AllocError>
    ensures { IfOk result (λ chain.
        FindsAbove catalog.now.zones request.now.message (option_map (λ it. it.now.items) chain)) }
{
    let Some(name) = ds_name(request.message()) else {
        return Ok(None);
    };
    if !catalog.contains(name) {
        return Ok(None);
    }
    let mut above = name.clone()?;
    above.remove_first_label();
    catalog.find(&above)
}

/// Hands the replies of a chain to a request to a sink that has none.
fn hand_over_by<S: ReplySigner, H: ZoneHandler>(
    alloc: Global,
    catalog: &Catalog<S, H>,
    chain: &[H],
    request: &Request,
    now: u64,
    sink: &mut SentSink,
) -> Result<(), AllocError>
    requires { sink.old ≡ record { sending = sink.old.sending; replies = []; failures = 0 } }
    ensures { OnOk result ((replies : List Reply) ×
        ChainReplies (server_of H.ZoneHandler S.signature_for catalog.now) chain.now request.now
        (reply_edns catalog.now.nsid request.now.message.edns) now replies ×
        AllZip (IsSentAs sink.old.sending) replies sink.new.replies) }
{
    match catalog.lookup_by(chain, alloc, request, now, sink) {
        Ok(_) => {}
        Err(_) => return Err(AllocError),
    }
    // The sink fails only where it is refused the memory for a reply.
    if sink.failures() > 0 {
        return Err(AllocError);
    }
    replies_taken::<SentSink>();
    Ok(())
}

/// What is sent of the replies of a chain to a request, in their order.
fn replies_by<S: ReplySigner, H: ZoneHandler>(
    alloc: Global,
    catalog: &Catalog<S, H>,
    chain: &[H],
    request: &Request,
    now: u64,
    sending: Sending,
) -> Result<Items<Octets>, AllocError>
    ensures { IfOk result (λ sent. (replies : List Reply) ×
        ChainReplies (server_of H.ZoneHandler S.signature_for catalog.now) chain.now request.now
        (reply_edns catalog.now.nsid request.now.message.edns) now replies ×
        AllZip (IsSentAs sending) replies sent) }
{
    let mut sink = SentSink::reusing(alloc, sending, Items::new(alloc));
    hand_over_by(alloc, catalog, chain, request, now, &mut sink)?;
    Ok(sink.into_replies())
}

/// What is sent of the replies of the zone above, if a request asks one. It changes nothing, so want of memory leaves
/// nothing handled.
pub(crate) fn replies_from_above<S: ReplySigner, H: ZoneHandler>(
    alloc: Global,
    catalog: &Catalog<S, H>,
    request: &Request,
    now: u64,
    sending: Sending,
) -> Result<Option<Items<Octets>>, AllocError>
    ensures { IfOk result (λ answer. MatchOption answer
        (FindsAbove catalog.now.zones request.now.message None)
        (λ sent. (zone : DomainName × List H) × (replies : List Reply) ×
        IsAskedAbove catalog.now.zones request.now.message zone ×
        ChainReplies (server_of H.ZoneHandler S.signature_for catalog.now) zone.1 request.now
        (reply_edns catalog.now.nsid request.now.message.edns) now replies ×
        AllZip (IsSentAs sending) replies sent)) }
{
    let Some(chain) = chain_above(catalog, request)? else {
        return Ok(None);
    };
    let sent = replies_by(alloc, catalog, chain.as_slice(), request, now, sending)?;
    Ok(Some(sent))
}
