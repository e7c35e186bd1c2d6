//! Doing a journal's entries again.

ghost use Rattle.std.specs.Prelude.{◌≡◌, ◌++◌, List, ℕ, IfOk, IfSome, OnOk, false, true};
ghost use Rattle.hickory_base.specs.zone_store.ZoneAnswers.{soa_serial, zone_soa};
ghost use Rattle.wire_reading.specs.serialize.reading.MessageReading.{Reads};
ghost use Rattle.hickory_base.specs.requests.RequestReading.{message_of};
ghost use Rattle.journal.specs.Read.{contents};
ghost use Rattle.zone_differences.specs.Standing.{IsChangedBy};
ghost use Rattle.durable_updates.specs.Redone.{Makes, Redone, RedoesOne};

use hickory_base::errors::UpdateFault;
use hickory_base::server::Request;
use hickory_base::update_request::UpdateRequest;
use hickory_store::updates::{UpdatableZoneHandler, Verifier};
use hickory_wire::{ProtoError, Protocol, Record};
use std::alloc::{AllocError, AllocFailed, Global};
use std::net::{IpAddr, Ipv4Addr, SocketAddr};
use thiserror::Error;

/// Why an entry is not done again.
#[derive(Clone, Copy, Debug, PartialEq, Eq, Error)]
pub enum RedoError {
    /// It does not begin with a message, or the update section of that does not pass the prescan of this zone (RFC 2136
    /// section 3.4.1).
    #[error("an entry is not an update of this zone")]
    Damaged,
    /// Memory was refused.
    #[error("out of memory")]
    Memory,
}

impl From<AllocError> for RedoError {
    fn from(_: AllocError) -> RedoError {
        RedoError::Memory
    }
}

impl<T: Drop> From<AllocFailed<T>> for RedoError {
    fn from(_e: AllocFailed<T>) -> RedoError {
        RedoError::Memory
    }
}

/// Reads an entry: the request that its bytes begin with. Where that came from is not kept.
pub fn read_entry(alloc: Global, entry: &[u8]) -> Result<Request, RedoError>
    ensures reads { IfOk result (λ request. Reads entry.now (message_of request.message)) }
{
    let Ok(bytes) = Vec::from_slice(alloc, entry) else {
        return Err(RedoError::Memory);
    };
    let nowhere = SocketAddr::new(IpAddr::V4(Ipv4Addr::LOCALHOST), 0);
    match Request::from_bytes(alloc, bytes, nowhere, Protocol::Tcp) {
        Ok(request) => Ok(request),
        Err(ProtoError::Memory) => Err(RedoError::Memory),
        Err(_) => Err(RedoError::Damaged),
    }
}

/// Does an update section again that passes the prescan, by the RFCs, and reports whether it changed the zone. One that
/// is refused, since the zone has no SOA, leaves the zone as it was when it came.
pub(crate) fn redo_updates<V: Verifier>(
    zone: &mut UpdatableZoneHandler<V>,
    alloc: Global,
    updates: &[Record],
) -> Result<bool, RedoError>
    ensures made { OnOk result (Makes updates.now zone.old.zone zone.new.zone) }
    ensures changed { IfOk result (λ changed. changed ≡ true → IsChangedBy updates.now zone.old.zone zone.new.zone) }
    ensures untouched { IfOk result (λ changed. changed ≡ false → zone.new ≡ zone.old) }
    ensures others { zone.new ≡ record zone.old { zone = zone.new.zone } }
{
    let Ok(()) = zone.pre_scan(updates) else {
        return Err(RedoError::Damaged);
    };
    match zone.update_records_by(alloc, updates, true, true) {
        Ok(changed) => Ok(changed),
        Err(UpdateFault::Code(_)) => Ok(false),
        Err(UpdateFault::Memory) => Err(RedoError::Memory),
    }
}

/// Does one entry again.
fn redo_one<V: Verifier>(
    zone: &mut UpdatableZoneHandler<V>,
    alloc: Global,
    entry: &[u8],
) -> Result<(), RedoError>
    ensures redoes { OnOk result (RedoesOne entry.now zone.old.zone zone.new.zone) }
    ensures others { zone.new ≡ record zone.old { zone = zone.new.zone } }
{
    let request = read_entry(alloc, entry)?;
    redo_updates(zone, alloc, request.message().updates())?;
    Ok(())
}

/// Does the entries of a journal again, the first first, to the zone that was there before the first of them.
/// Permissions and prerequisites are not asked for again. After an `Err` those of a front are done.
pub fn redo<V: Verifier>(
    zone: &mut UpdatableZoneHandler<V>,
    alloc: Global,
    entries: &[Vec<u8>],
) -> Result<(), RedoError>
    ensures redone { OnOk result (Redone (contents entries.now) zone.old.zone zone.new.zone) }
    ensures others { zone.new ≡ record zone.old { zone = zone.new.zone } }
{
    let mut rest = entries;
    while let [entry, others @ ..] = rest {
        redo_one(zone, alloc, entry)?;
        rest = others;
    }
    Ok(())
}

/// Does entries again up to the first zone of a serial, and gives those behind that; `None` where no zone on the way
/// has it, and then all are done. After an `Err` those of a front are done.
pub(crate) fn redo_to<'e, V: Verifier>(
    zone: &mut UpdatableZoneHandler<V>,
    alloc: Global,
    entries: &'e [Vec<u8>],
    serial: u32,
) -> Result<Option<&'e [Vec<u8>]>, RedoError>
    ensures redone { IfOk result (λ found.
        IfSome found (λ rest. (done : List (List ℕ)) × (contents entries.now ≡ done ++ contents rest.now) ×
        Redone done zone.old.zone zone.new.zone × (soa_serial (zone_soa zone.new.zone) ≡ serial))) }
    ensures others { zone.new ≡ record zone.old { zone = zone.new.zone } }
{
    let mut rest = entries;
    while let [entry, others @ ..] = rest {
        if zone.in_memory().serial() == serial {
            return Ok(Some(rest));
        }
        redo_one(zone, alloc, entry)?;
        rest = others;
    }
    if zone.in_memory().serial() == serial {
        Ok(Some(rest))
    } else {
        Ok(None)
    }
}
