//! What C calls to tell other servers of changes of zones (RFC 1996). `host/zone_service.h` says of each call what it is
//! given and what it answers.

ghost use Rattle.std.specs.Prelude.{◌≡◌, ◌≤◌, ◌⊎◌, ◌++◌, ◌∷◌, ◌^◌, ◌-◌, [], ℕ, All, Any, IsSome, List, None, Option, Some, drop, length, min, take};
ghost use Rattle.std.specs.List.{slice_get};
ghost use Rattle.std.specs.declared.net.ip_addr.IpAddr.{IpAddr};
ghost use Rattle.notices.specs.Schedule.{Hears, Sends, TakesOut, is_over};
ghost use Rattle.notices.specs.declared.notices.Datagram.{Datagram as Sent};
ghost use Rattle.notices.specs.declared.notices.Heard.{Heard as Meaning};
ghost use Rattle.notices.specs.declared.notice.Notice.{Notice as Waiting};
ghost use Rattle.served_notices.specs.Notifying.{IsModeText};
ghost use Rattle.served_notices.specs.declared.notifying.Secondary.{Secondary};
ghost use Rattle.server.specs.Exports.{IsAddress, IsNoAddress};
ghost use Rattle.server.specs.Notices.{IsOfZones, IsSecondaryText, LooksAtNumber, address_octets, with_notices};
ghost use Rattle.server.specs.Settings.{zones_of};

use crate::exports::{put_text, told};
use notices::{Heard, Notice, Target};
use server::handle::Handle;
use server::told::{DONE, MEMORY, NO_ADDRESS, ip_address};
use std::alloc::{AllocError, Global};
use std::net::IpAddr;

/// No notice is due, or none is given up.
const NO_NOTICE: u32 = 10;

/// Sets who is told that a zone has changed: `no`, `explicit` or `yes`.
#[unsafe(no_mangle)]
pub extern "C" fn zone_service_set_notify(
    alloc: Global,
    service: &mut Handle,
    text: &[u8],
    fault: &mut [u8],
    count: &mut usize,
) -> u32
    ensures made { result ≡ 0 → IsModeText text.now (Some service.new.service.notifying.mode) }
    ensures others { service.new.service ≡ record service.old.service {
      notifying = record service.old.service.notifying { mode = service.new.service.notifying.mode };
    } }
{
    let service = service.service();
    told(alloc, service.set_notify(text), fault, count)
}

/// Tells a server, `ADDRESS[@PORT]`, of all zones.
#[unsafe(no_mangle)]
pub extern "C" fn zone_service_also_notify(
    alloc: Global,
    service: &mut Handle,
    text: &[u8],
    fault: &mut [u8],
    count: &mut usize,
) -> u32
    ensures made { result ≡ 0 → (told : Secondary) × IsSecondaryText None text.now told ×
        (service.new.service.notifying.secondaries.items ≡
        service.old.service.notifying.secondaries.items ++ told ∷ []) }
    ensures others { service.new.service ≡ record service.old.service {
      notifying = record service.old.service.notifying { secondaries = service.new.service.notifying.secondaries };
    } }
{
    let service = service.service();
    let set = service.also_notify(alloc, None, text);
    told(alloc, set, fault, count)
}

/// Tells a server, `ADDRESS[@PORT]`, of the zone of this name, which was added.
#[unsafe(no_mangle)]
pub extern "C" fn zone_service_also_notify_of(
    alloc: Global,
    service: &mut Handle,
    zone: &[u8],
    text: &[u8],
    fault: &mut [u8],
    count: &mut usize,
) -> u32
    ensures made { result ≡ 0 → (told : Secondary) × IsSecondaryText (Some zone.now) text.now told ×
        IsOfZones service.old.service.apexes.items told.apex ×
        (service.new.service.notifying.secondaries.items ≡
        service.old.service.notifying.secondaries.items ++ told ∷ []) }
    ensures others { service.new.service ≡ record service.old.service {
      notifying = record service.old.service.notifying { secondaries = service.new.service.notifying.secondaries };
    } }
{
    let service = service.service();
    let set = service.also_notify(alloc, Some(zone), text);
    told(alloc, set, fault, count)
}

/// Looks at the zone of this number: if it has another serial than the one that was announced last, it is announced,
/// and `serial` is its serial.
#[unsafe(no_mangle)]
pub extern "C" fn zone_service_look(
    alloc: Global,
    service: &mut Handle,
    number: usize,
    serial: &mut u64,
    now: u64,
) -> u32
    ensures looks { result ≡ 0 → LooksAtNumber (zones_of service.old.service)
        (slice_get service.old.service.apexes.items number) now serial.old service.old.service.notifying
        serial.new service.new.service.notifying }
    ensures others { service.new.service ≡ record service.old.service
        { notifying = service.new.service.notifying } }
    ensures none { (result ≡ 0) ⊎ ((result ≡ 4) × (serial.new ≡ serial.old) ×
        (service.new.service.notifying ≡ service.old.service.notifying)) }
{
    match service.service().look(alloc, number, serial, now) {
        Ok(()) => DONE,
        Err(_) => MEMORY,
    }
}

/// Puts the four or sixteen bytes of an address. Returns how many they are.
fn put_address(address: IpAddr, out: &mut [u8; 16]) -> usize
    ensures address { take result out.new ≡ address_octets address }
    ensures len { result ≤ 16 }
{
    match address {
        IpAddr::V4(four) => put_text(out, &four.octets()),
        IpAddr::V6(sixteen) => put_text(out, &sixteen.octets()),
    }
}

/// Puts the notice that is due next, as far as there is room, and the address and port that it is sent to. It counts as
/// sent now, with this id.
#[unsafe(no_mangle)]
pub extern "C" fn zone_service_notice(
    service: &mut Handle,
    now: u64,
    id: u16,
    address: &mut [u8; 16],
    address_len: &mut usize,
    port: &mut u16,
    out: &mut [u8],
    written: &mut usize,
) -> u32
    ensures sent { result ≡ 0 → (sent : Sent) ×
        Sends now id service.old.service.notifying.notices service.new.service.notifying.notices (Some sent) ×
        (take address_len.new address.new ≡ address_octets sent.to.address) × (port.new ≡ sent.to.port) ×
        (written.new ≡ min (length sent.bytes.items) (length out.new)) ×
        (take written.new out.new ≡ take written.new sent.bytes.items) }
    ensures len { result ≡ 0 → address_len.new ≤ 16 }
    ensures none { result ≡ 10 →
        Sends now id service.old.service.notifying.notices service.new.service.notifying.notices None }
    ensures err { result ≡ 4 → service.new.service ≡ service.old.service }
    ensures numbers { (result ≡ 0) ⊎ (result ≡ 10) ⊎ (result ≡ 4) }
    ensures others { service.new.service ≡ with_notices service.old.service service.new.service.notifying.notices }
{
    *written = 0;
    match service.service().notifying.notices.due(now, id) {
        Ok(Some(datagram)) => {
            *address_len = put_address(datagram.to.address, address);
            *port = datagram.to.port;
            *written = put_text(out, datagram.bytes.as_slice());
            DONE
        }
        Ok(None) => NO_NOTICE,
        Err(_) => MEMORY,
    }
}

/// What became of a notice, as a text.
// No clause: the text is only printed.
fn fate(alloc: Global, notice: &Notice, what: &str) -> Result<String, AllocError> {
    let Target { address, port } = notice.target;
    let serial = notice.soa.serial;
    format!(in alloc;
        "{}: {address}@{port} {what} the notice of serial {serial}",
        notice.zone
    )
}

/// Puts what became of a notice, as far as there is room. Returns how many bytes that are.
fn tell_fate(alloc: Global, notice: &Notice, what: &str, out: &mut [u8]) -> usize
    ensures { result ≤ length out.new }
{
    match fate(alloc, notice, what) {
        Ok(text) => put_text(out, text.as_bytes()),
        Err(_) => 0,
    }
}

/// Takes out a notice that is given up, and puts a text that says so, as far as there is room, and its length.
#[unsafe(no_mangle)]
pub extern "C" fn zone_service_give_up(
    alloc: Global,
    service: &mut Handle,
    now: u64,
    out: &mut [u8],
    count: &mut usize,
) -> u32
    ensures taken { result ≡ 0 → (notice : Waiting) × TakesOut (is_over now)
        service.old.service.notifying.notices service.new.service.notifying.notices (Some notice) }
    ensures none { result ≡ 10 → TakesOut (is_over now) service.old.service.notifying.notices
        service.new.service.notifying.notices None }
    ensures numbers { (result ≡ 0) ⊎ (result ≡ 10) }
    ensures count { count.new ≤ length out.new }
    ensures others { service.new.service ≡ with_notices service.old.service service.new.service.notifying.notices }
{
    *count = 0;
    match service.service().notifying.notices.give_up(now) {
        Some(notice) => {
            *count = tell_fate(alloc, &notice, "did not answer", out);
            DONE
        }
        None => NO_NOTICE,
    }
}

/// Puts what an answer means, if it refuses a notice. Returns how many bytes that are.
fn tell_heard(alloc: Global, heard: &Heard, out: &mut [u8]) -> usize
    ensures { result ≤ length out.new }
{
    let Heard::Refused(notice, code) = heard else {
        return 0;
    };
    match format!(in alloc; "answered {code} to") {
        Ok(what) => tell_fate(alloc, notice, what.as_str(), out),
        Err(_) => 0,
    }
}

/// Hears a datagram that came from this address and port. A notice that it answers is taken out; if it refuses the
/// notice, a text that says so is put, as far as there is room, and its length.
#[unsafe(no_mangle)]
pub extern "C" fn zone_service_hear(
    alloc: Global,
    service: &mut Handle,
    source: &[u8],
    port: u16,
    bytes: &[u8],
    out: &mut [u8],
    count: &mut usize,
) -> u32
    ensures heard { result ≡ 0 → (address : IpAddr) × IsAddress source.now address × (heard : Meaning) ×
        Hears (record { address = address; port = port }) bytes.now service.old.service.notifying.notices
        service.new.service.notifying.notices heard }
    ensures no_address { result ≡ 6 → IsNoAddress source.now }
    ensures count { count.new ≤ length out.new }
    ensures kept { (result ≡ 0) ⊎ (service.new.service ≡ service.old.service) }
    ensures others { service.new.service ≡ with_notices service.old.service service.new.service.notifying.notices }
{
    *count = 0;
    let Some(address) = ip_address(source) else {
        return NO_ADDRESS;
    };
    let from = Target { address, port };
    match service.service().notifying.notices.heard(from, bytes) {
        Ok(heard) => {
            *count = tell_heard(alloc, &heard, out);
            DONE
        }
        Err(_) => MEMORY,
    }
}

/// How many notices wait, and when one is to be sent or given up next; the last moment if none waits.
#[unsafe(no_mangle)]
pub extern "C" fn zone_service_notices(service: &mut Handle, waiting: &mut usize) -> u64
    ensures waiting { waiting.new ≡ length service.old.service.notifying.notices }
    ensures first { All (λ n. result ≤ n.next) service.old.service.notifying.notices }
    ensures some { (service.old.service.notifying.notices ≡ []) ⊎
        Any (λ n. n.next ≡ result) service.old.service.notifying.notices }
    ensures none { service.old.service.notifying.notices ≡ [] → result ≡ 2 ^ 64 - 1 }
    ensures kept { service.new.service ≡ service.old.service }
{
    let notices = &service.service().notifying.notices;
    *waiting = notices.waiting();
    notices.wakes().unwrap_or(u64::MAX)
}
