//! What the OPT record of a reply says.

ghost use Rattle.std.specs.Prelude.{◌≡◌, ◌==◌, ◌&&◌, IfOk, Some};
ghost use Rattle.std.specs.Option.{option_copied};
ghost use Rattle.hickory_catalog.specs.replies.ReplyEdns.{asks_for_nsid, reply_edns, with_high_code};

use hickory_wire::{Edns, EdnsOption, NSIDPayload, Octets, ResponseCode};
use std::alloc::{AllocError, Global};

/// Whether a client asks for the server's identifier in version 0.
fn is_nsid_wanted(asked: &Edns) -> bool
    ensures { result ≡ (asked.now.version == 0 && asks_for_nsid asked.now) }
{
    asked.version() == 0 && asked.option(EdnsOption::NSID).is_some()
}

/// What the OPT record of a reply says to one of this content, for what identifies the server.
#[inline(never)]
fn edns_for(alloc: Global, nsid: Option<&NSIDPayload>, asked: &Edns) -> Result<Edns, AllocError>
    ensures { IfOk result (λ edns. Some edns ≡ reply_edns (option_copied nsid.entry) (Some asked.now)) }
{
    let mut edns = Edns::new(alloc);
    edns.set_max_payload(asked.max_payload());
    edns.set_dnssec_ok(asked.dnssec_ok());
    if let Some(identifier) = nsid
        && is_nsid_wanted(asked)
    {
        edns.push_option(EdnsOption {
            code: EdnsOption::NSID,
            bytes: Octets::from_slice(alloc, identifier.as_slice())?,
        })?;
    }
    Ok(edns)
}

/// What the OPT record of a reply says, where the request has one, for what identifies the server.
#[inline(always)]
pub(crate) fn reply_edns(
    alloc: Global,
    nsid: Option<&NSIDPayload>,
    asked: Option<&Edns>,
) -> Result<Option<Edns>, AllocError>
    ensures { IfOk result (λ edns. edns ≡ reply_edns (option_copied nsid.entry) (option_copied asked.entry)) }
{
    match asked {
        None => Ok(None),
        Some(asked) => Ok(Some(edns_for(alloc, nsid, asked)?)),
    }
}

/// A copy of what an OPT record says, where there is one.
pub(crate) fn cloned(edns: Option<&Edns>) -> Result<Option<Edns>, AllocError>
    ensures { IfOk result (λ copy. copy ≡ option_copied edns.entry) }
{
    match edns {
        None => Ok(None),
        Some(edns) => Ok(Some(edns.clone()?)),
    }
}

/// Sets the high eight bits of this response code in what the OPT record says, where there is one.
pub(crate) fn set_high_code(code: ResponseCode, edns: &mut Option<Edns>)
    ensures { edns.new ≡ with_high_code code edns.old }
{
    if let Some(edns) = edns {
        edns.set_rcode_high(code.high());
    }
}
