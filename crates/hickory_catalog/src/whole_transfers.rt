//! Queries that are answered by the whole zone (RFC 1995 section 4).

ghost use Rattle.std.specs.Prelude.{◌≡◌, List, IfOk, IfErr};
ghost use Rattle.wire_messages.specs.serialize.writing.Reply.{Reply};
ghost use Rattle.hickory_base.specs.responses.Responses.{header_of};
ghost use Rattle.hickory_catalog.specs.replies.Sending.{IsUntouched, SendsInOrder};
ghost use Rattle.hickory_catalog.specs.requests.Server.{server_of};
ghost use Rattle.hickory_catalog.specs.transfers.WholeTransfers.{TransferReplies};

use crate::catalog::Catalog;
use crate::queries::{ZoneQuery, give_transfer};
use crate::sending::send_error;
use crate::signer::ReplySigner;
use hickory_base::errors::CatalogError;
use hickory_base::server::{Request, ResponseHandler, ResponseInfo};
use hickory_base::zone_store::ZoneHandler;
use hickory_wire::{Edns, ResponseCode};
use std::alloc::Global;

/// Answers a query by the whole zone of its name, whatever type it asks for, and hands the replies over, with this
/// EDNS.
pub(crate) fn answer_by_transfer<S: ReplySigner, H: ZoneHandler, R: ResponseHandler>(
    catalog: &Catalog<S, H>,
    alloc: Global,
    request: &Request,
    edns: &mut Option<Edns>,
    now: u64,
    sink: &mut R,
) -> Result<ResponseInfo, CatalogError>
    ensures replied { IfOk result (λ info. (replies : List Reply) ×
        TransferReplies (server_of H.ZoneHandler S.signature_for catalog.now) request.now edns.old now replies ×
        SendsInOrder R.ResponseHandler request.now.message.metadata sink.old sink.new replies (header_of info)) }
    ensures refused { IfErr result (λ e. (e ≡ CatalogError.Memory) × IsUntouched R.ResponseHandler sink.old sink.new) }
{
    let message = request.message();
    let info = match request.request_info() {
        Ok(info) => info,
        Err(_) => return Ok(send_error(sink, alloc, message, edns, ResponseCode::FORM_ERR)),
    };
    match catalog.find(info.query.name())? {
        None => Ok(send_error(sink, alloc, message, edns, ResponseCode::REFUSED)),
        Some(chain) => {
            let asked = ZoneQuery {
                catalog,
                chain: chain.as_slice(),
                alloc,
                request,
                query: info.query,
                moment: now,
            };
            give_transfer(&asked, edns, sink)
        }
    }
}
