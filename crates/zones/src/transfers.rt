//! Transfers of a zone of which earlier versions are known.

ghost use Rattle.std.specs.Prelude.{◌≡◌, ◌++◌, Some};
ghost use Rattle.hickory_store.specs.updates.Permission.{transfer_permission};
ghost use Rattle.zones.specs.ZoneTransfers.{IsIncremental, TransferGiven, since_version};

use hickory_base::errors::LookupError;
use hickory_base::server::Request;
use hickory_base::zone_store::{LookupOptions, ZoneHandler, ZoneTransfer};
use hickory_store::updates::{UpdatableZoneHandler, Verifier};
use hickory_wire::{LowerQuery, RecordType, ResponseCode, TSigResponseContext};
use std::alloc::Global;
use zone_differences::{History, Steps};
use zone_replies::handled::{held_serial, is_by_soa, names_zone};

/// What is answered to a request for a transfer, and what the signer of the reply has to know.
type TransferAnswer = (
    Result<ZoneTransfer, LookupError>,
    Option<TSigResponseContext>,
);

/// The differences that a question asks for: those since the version that the client of an IXFR has, if it is known.
fn since_version<'h>(history: &'h History, request: &Request, query: &LowerQuery) -> Steps<'h>
    ensures { result.older.now ++ result.newer.now ≡ since_version history.now request.now query.now }
{
    if query.query_type().value() != RecordType::IXFR.value() {
        return Steps::none();
    }
    match held_serial(request.message().authorities.as_slice()) {
        Some(serial) => history.since(serial),
        None => Steps::none(),
    }
}

/// Gives the differences (RFC 1995 section 4) to a client that may have a transfer.
fn incremental<V: Verifier>(
    zone: &UpdatableZoneHandler<V>,
    alloc: Global,
    request: &Request,
    now: u64,
    differences: Steps<'_>,
) -> TransferAnswer
    ensures { IsIncremental zone.now.zone (differences.entry.older.now ++ differences.entry.newer.now)
        (transfer_permission V.Verifier zone.now.verifier zone.now.axfr_policy request.now now) (Some result) }
{
    let (alone, context) = zone.soa_transfer(alloc, request, now);
    match alone {
        Ok(soa) => match differences.transfer(alloc, &soa) {
            Ok(transfer) => (Ok(transfer), context),
            Err(_) => (Err(LookupError::Memory), None),
        },
        Err(e) => (Err(e), context),
    }
}

/// Transfers the zone, if the request names it: only its SOA record, if that is enough; else what changed since the
/// version of the client, if it asks for that and the history has it; else the whole zone. `now` is in seconds since
/// 1970.
pub(crate) fn transfer<V: Verifier>(
    zone: &UpdatableZoneHandler<V>,
    history: &History,
    alloc: Global,
    request: &Request,
    options: LookupOptions,
    now: u64,
) -> Option<TransferAnswer>
    ensures { TransferGiven V.Verifier zone.now history.now request.now now result }
{
    let query = match request.request_info() {
        Ok(info) => info.query,
        Err(e) => return Some((Err(e), None)),
    };
    if !names_zone(zone.in_memory().origin(), query) {
        return Some((Err(LookupError::ResponseCode(ResponseCode::NOT_AUTH)), None));
    }
    if is_by_soa(zone.in_memory(), request, query) {
        return Some(zone.soa_transfer(alloc, request, now));
    }
    let differences = since_version(history, request, query);
    if differences.is_empty() {
        return zone.zone_transfer(alloc, request, options, now);
    }
    Some(incremental(zone, alloc, request, now, differences))
}
