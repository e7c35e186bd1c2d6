//! Serving one message.

ghost use Rattle.std.specs.Prelude.{◌≡◌, ◌↔◌, IfNone, IfOk, IfSome, IsNone, IsTrue};
ghost use Rattle.hickory_catalog.specs.requests.Server.{server_of};
ghost use Rattle.hickory_server.specs.server.Serving.{Step};
ghost use Rattle.calling.specs.Serving.{IsResponse};

use crate::fault::Fault;
use hickory_server::access::AccessControl;
use hickory_server::proto::LowerName;
use hickory_server::server::serve::{Incoming, Outcome, ServeError, serve};
use hickory_server::zone_handler::{Catalog, ReplySigner, ZoneHandler};
use std::alloc::{AllocError, Global};

/// What becomes of a message at a server of one zone, by the zone's handlers, which everybody may ask.
pub fn serve_chain<S: ReplySigner, H: ZoneHandler>(
    alloc: Global,
    signer: S,
    apex: LowerName,
    chain: Vec<H>,
    message: Incoming,
) -> Result<Outcome, Fault> {
    let mut catalog = Catalog::new(alloc, signer);
    if catalog.upsert(apex, chain).is_err() {
        return Err(Fault::Memory(AllocError));
    }
    Ok(serve(alloc, &AccessControl::new(alloc), &mut catalog, message)?)
}

/// Whether these bytes are a response (RFC 1035 section 4.1.1).
fn is_response(bytes: &[u8]) -> bool
    ensures { IsTrue result ↔ IsResponse bytes.now }
{
    match bytes.get(2) {
        Some(flags) => *flags >= 0x80,
        None => false,
    }
}

/// What becomes of a datagram, or nothing where it is a response: two servers that answer responses would answer each
/// other for ever.
pub fn serve_datagram<S: ReplySigner, H: ZoneHandler>(
    alloc: Global,
    access: &AccessControl,
    catalog: &mut Catalog<S, H>,
    message: Incoming,
) -> Result<Option<Outcome>, ServeError>
    ensures served { IfOk result (λ told. IfSome told (λ outcome.
        Step access.now (server_of H.ZoneHandler S.signature_for catalog.old) message outcome catalog.new.zones)) }
    ensures dropped { IfOk result (λ told. IsResponse message.bytes.items → IsNone told) }
    ensures untouched { IfOk result
        (λ told. IfNone told (IsResponse message.bytes.items × (catalog.new ≡ catalog.old))) }
{
    if is_response(&message.bytes) {
        return Ok(None);
    }
    match serve(alloc, access, catalog, message) {
        Ok(outcome) => Ok(Some(outcome)),
        Err(e) => Err(e),
    }
}
