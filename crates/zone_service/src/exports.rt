//! What C calls. `host/zone_service.h` says of each what it is given and what it answers.

ghost use Rattle.std.specs.Prelude.{◌≡◌, ◌≢◌, ◌≤◌, ◌⊎◌, ◌↔◌, ◌++◌, ◌∷◌, [], IfOk, IsOk, None, Some, drop, false, length, min, option_map, take};
ghost use Rattle.server_limits.specs.Access.{SameNetworks};
ghost use Rattle.name_lists.specs.Counts.{Counts};
ghost use Rattle.served_keys.specs.ServedKeys.{AreKeysOfFile, IsKeyNamed};
ghost use Rattle.served_zones.specs.Grants.{IsGrantOf};
ghost use Rattle.hickory_catalog.specs.zones.Zones.{ChangesAt};
ghost use Rattle.served_zones.specs.ServedZones.{IsApexText, IsLoadedAs, IsZoneOfFile};
ghost use Rattle.served_zones.specs.declared.grants.Grant.{Grant};
ghost use Rattle.server_reports.specs.Exposition.{exposition_of};
ghost use Rattle.server_settings.specs.Settings.{IsConfiguration};
ghost use Rattle.server.specs.Calls.{ToldOfMessage};
ghost use Rattle.server.specs.Counted.{AnswerCounted, AreCounted, StreamCounted, one_counted};
ghost use Rattle.server.specs.Exports.{AnswerTold, StreamTold};
ghost use Rattle.server.specs.Frames.{ArePut};
ghost use Rattle.server.specs.Limited.{AreLimitsOf, IsLimited};
ghost use Rattle.server.specs.Lists.{IsListOfText};
ghost use Rattle.signed_server.specs.KeyedServers.{keyed_of};
ghost use Rattle.server.specs.Networks.{AllowsText, InsertsText};
ghost use Rattle.server.specs.Serving.{Stays, waiting_in};
ghost use Rattle.server.specs.Settings.{IsUnset, rules_of, with_identifier, with_keys, with_rules, with_transfer_keys, with_zones, zones_of};
ghost use Rattle.server.specs.Updates.{AreServed};
ghost use Rattle.wire_names.specs.rr.domain.DomainName.{DomainName};
ghost use Rattle.wire_names.specs.rr.domain.NameOrder.{lower_name};

use hickory_server::zone_handler::{ReplySigner, ZoneHandler};
use name_lists::ListReport;
use server::counting::{count_answer, count_frames, count_stream};
use server::handle::{Handle, address};
use server::limiting::limit;
use server::service::{Handler, Service};
use server::settings::SettingFault;
use server::told::{DONE, MEMORY, tell_answer, tell_stream};
use server_reports::{Counters, exposition};
use server_settings::configuration::{ConfigurationFault, configuration};
use signed_server::LeftToServer;
use std::alloc::{AllocError, Global};

/// A setting is not taken.
const FAULT: u32 = 7;

/// Puts the front of a text that there is room for: how many bytes it has.
pub(crate) fn put_text(out: &mut [u8], text: &[u8]) -> usize
    ensures len { length out.new ≡ length out.old }
    ensures count { result ≡ min (length text.now) (length out.new) }
    ensures put { take result out.new ≡ take result text.now }
{
    let count = text.len().min(out.len());
    out[..count].copy_from_slice(&text[..count]);
    count
}

/// Tells what a setting came to: puts the text of its fault, as far as there is room, and its length.
pub(crate) fn told(
    alloc: Global,
    set: Result<(), SettingFault>,
    fault: &mut [u8],
    count: &mut usize,
) -> u32
    ensures done { (result ≡ 0) ↔ IsOk set }
    ensures count { count.new ≤ length fault.new }
{
    *count = 0;
    let Err(e) = set else {
        return DONE;
    };
    let Ok(text) = format!(in alloc; "{e}") else {
        return MEMORY;
    };
    *count = put_text(fault, text.as_bytes());
    match e {
        SettingFault::Memory => MEMORY,
        _ => FAULT,
    }
}

/// What of a list was skipped, as a text: how many lines, and the numbers of the first three. It is empty if none was.
// No clause: the text is only printed.
fn skipped(alloc: Global, report: &ListReport) -> Result<String, AllocError> {
    let lines = report.skipped();
    match report.first_skipped() {
        [] => Ok(String::new(alloc)),
        [a] => format!(in alloc; "1 line skipped, which gives no name: {a}"),
        [a, b] => format!(in alloc; "2 lines skipped, which give no name: {a}, {b}"),
        [a, b, c, ..] => format!(in alloc;
            "{lines} lines skipped, which give no name, the first: {a}, {b}, {c}"
        ),
    }
}

/// Tells what a list of blocked names came to: puts the text of its fault, or else of what was skipped, as far as there
/// is room, and its length.
fn told_of_list(
    alloc: Global,
    set: Result<ListReport, SettingFault>,
    fault: &mut [u8],
    count: &mut usize,
) -> u32
    ensures done { result ≡ 0 → IsOk set }
    ensures count { count.new ≤ length fault.new }
{
    *count = 0;
    let report = match set {
        Ok(report) => report,
        Err(e) => return told(alloc, Err(e), fault, count),
    };
    let Ok(text) = skipped(alloc, &report) else {
        return MEMORY;
    };
    *count = put_text(fault, text.as_bytes());
    DONE
}

/// Puts a text that says why something is not taken, as far as there is room.
pub(crate) fn tell_fault(text: &str, fault: &mut [u8], count: &mut usize) -> u32
    ensures told { result ≡ 7 }
    ensures count { count.new ≤ length fault.new }
{
    *count = put_text(fault, text.as_bytes());
    FAULT
}

/// Tells why a configuration file is not taken.
fn told_of_configuration(
    alloc: Global,
    why: ConfigurationFault,
    fault: &mut [u8],
    count: &mut usize,
) -> u32
    ensures told { (result ≡ 0) → ⊥ }
    ensures count { count.new ≤ length fault.new }
{
    *count = 0;
    let is_memory = why.is_memory();
    let text = format!(in alloc; "{why}");
    drop(why);
    match text {
        Ok(text) => {
            let number = tell_fault(text.as_str(), fault, count);
            if is_memory { MEMORY } else { number }
        }
        Err(_) => MEMORY,
    }
}

/// Makes a server in a box.
fn boxed(alloc: Global) -> Result<Box<Service>, AllocError>
    ensures { IfOk result (λ made. IsUnset made.value) }
{
    match Box::new(alloc, Service::new(alloc)?) {
        Ok(service) => Ok(service),
        Err(_) => Err(AllocError),
    }
}

/// Makes a server without zones, which everybody may use, and puts its address. What C does with an address is outside
/// of every clause; the server is one that [`boxed`] made.
#[unsafe(no_mangle)]
pub extern "C" fn zone_service_create(alloc: Global, service: &mut *mut u8) -> u32
    ensures made { (result ≡ 0) ⊎ (result ≡ 4) }
    ensures refused { result ≡ 4 → service.new ≡ service.old }
{
    match boxed(alloc) {
        Ok(made) => {
            *service = address(made);
            DONE
        }
        Err(_) => MEMORY,
    }
}

/// Frees a server. Nothing remains of which a clause could speak.
#[unsafe(no_mangle)]
pub extern "C" fn zone_service_free(alloc: Global, service: Handle) {
    drop(service.into_box(alloc));
}

/// Blocks the names that a text lists in each zone that is added later. The text in `fault` says which lines are
/// skipped.
#[unsafe(no_mangle)]
pub extern "C" fn zone_service_set_blocklist(
    alloc: Global,
    service: &mut Handle,
    text: &[u8],
    fault: &mut [u8],
    count: &mut usize,
) -> u32
    ensures list { result ≡ 0 → (counts : Counts) ×
        IsListOfText text.now counts (option_map (λ it. it.value) service.new.service.list) }
    ensures others { service.new.service ≡ record service.old.service { list = service.new.service.list } }
{
    let service = service.service();
    told_of_list(alloc, service.set_blocklist(alloc, text), fault, count)
}

/// Serves the zone of this name from the bytes of its file. It takes no updates before `zone_service_serve_zones`.
#[unsafe(no_mangle)]
pub extern "C" fn zone_service_add_zone(
    alloc: Global,
    service: &mut Handle,
    name: &[u8],
    text: &[u8],
    fault: &mut [u8],
    count: &mut usize,
) -> u32
    ensures made { result ≡ 0 → (apex : DomainName) ×
        (service.new.service.apexes.items ≡ service.old.service.apexes.items ++ apex ∷ []) ×
        IsLoadedAs (IsZoneOfFile text.now) name.now (option_map (λ it. it.value) service.old.service.list) apex
        (zones_of service.old.service) (zones_of service.new.service) }
    ensures others { service.new.service ≡ with_zones
        (record service.old.service { apexes = service.new.service.apexes }) (zones_of service.new.service) }
{
    let service = service.service();
    told(alloc, service.add_zone(alloc, name, text), fault, count)
}

/// Answers SERVFAIL to each query for the zone of this name, of which no file is taken.
#[unsafe(no_mangle)]
pub extern "C" fn zone_service_fail_zone(
    alloc: Global,
    service: &mut Handle,
    name: &[u8],
    fault: &mut [u8],
    count: &mut usize,
) -> u32
    ensures made { result ≡ 0 → (apex : DomainName) × IsApexText name.now apex ×
        (service.new.service.apexes.items ≡ service.old.service.apexes.items ++ apex ∷ []) ×
        ChangesAt (zones_of service.old.service) (lower_name apex) None (Some []) (zones_of service.new.service) }
    ensures others { service.new.service ≡ with_zones
        (record service.old.service { apexes = service.new.service.apexes }) (zones_of service.new.service) }
{
    let service = service.service();
    told(alloc, service.fail_zone(alloc, name), fault, count)
}

/// Takes the keys that a text has: BIND's `key` statements, Knot's `key` section, or lines as `dig -y` takes them.
#[unsafe(no_mangle)]
pub extern "C" fn zone_service_set_keys(
    alloc: Global,
    service: &mut Handle,
    text: &[u8],
    fault: &mut [u8],
    count: &mut usize,
) -> u32
    ensures made { result ≡ 0 → AreKeysOfFile text.now service.new.service.answering.server.keys }
    ensures others { service.new.service ≡ with_keys service.old.service service.new.service.answering.server.keys }
{
    let service = service.service();
    told(alloc, service.set_keys(alloc, text), fault, count)
}

/// Lets requests that the key of this name signed have transfers from anywhere.
#[unsafe(no_mangle)]
pub extern "C" fn zone_service_allow_transfer_key(
    alloc: Global,
    service: &mut Handle,
    name: &[u8],
    fault: &mut [u8],
    count: &mut usize,
) -> u32
    ensures made { result ≡ 0 → (key : DomainName) × IsKeyNamed service.old.service.answering.server.keys name.now key ×
        (service.new.service.answering.server.transfer_keys.items ≡
        service.old.service.answering.server.transfer_keys.items ++ key ∷ []) }
    ensures others { service.new.service ≡ with_transfer_keys service.old.service
        service.new.service.answering.server.transfer_keys }
{
    let service = service.service();
    told(alloc, service.allow_transfer_key(alloc, name), fault, count)
}

/// Lets the zone of this name take the updates that a rule grants, `KEY [zone|subdomain NAME|name NAME|self] [TYPE..]`.
#[unsafe(no_mangle)]
pub extern "C" fn zone_service_allow_update(
    alloc: Global,
    service: &mut Handle,
    zone: &[u8],
    rule: &[u8],
    fault: &mut [u8],
    count: &mut usize,
) -> u32
    ensures made { result ≡ 0 → (grant : Grant) ×
        IsGrantOf service.old.service.answering.server.keys zone.now rule.now grant ×
        (service.new.service.grants.items ≡ service.old.service.grants.items ++ grant ∷ []) }
    ensures others { service.new.service ≡ record service.old.service { grants = service.new.service.grants } }
{
    let service = service.service();
    told(alloc, service.allow_update(alloc, zone, rule), fault, count)
}

/// Gives the zones that were added their rules: a zone that has one takes the updates that its rules grant.
#[unsafe(no_mangle)]
pub extern "C" fn zone_service_serve_zones(
    alloc: Global,
    service: &mut Handle,
    fault: &mut [u8],
    count: &mut usize,
) -> u32
    ensures made { result ≡ 0 → AreServed service.old.service.answering.server.keys service.old.service.grants.items
        service.old.service.apexes.items (zones_of service.old.service) (zones_of service.new.service) }
    ensures others { service.new.service ≡ with_zones service.old.service (zones_of service.new.service) }
{
    let service = service.service();
    told(alloc, service.serve_zones(alloc), fault, count)
}

/// Lets the addresses of a network use the server. All others may not, unless another call allows them.
#[unsafe(no_mangle)]
pub extern "C" fn zone_service_set_allowed(
    alloc: Global,
    service: &mut Handle,
    network: &[u8],
    fault: &mut [u8],
    count: &mut usize,
) -> u32
    ensures made { result ≡ 0 → AllowsText network.now (rules_of service.old.service).access
        (rules_of service.new.service).access }
    ensures others { service.new.service ≡ with_rules service.old.service
        (record (rules_of service.old.service) { access = (rules_of service.new.service).access }) }
{
    let service = service.service();
    told(alloc, service.allow(alloc, network), fault, count)
}

/// Keeps the addresses of a network from the server.
#[unsafe(no_mangle)]
pub extern "C" fn zone_service_set_denied(
    alloc: Global,
    service: &mut Handle,
    network: &[u8],
    fault: &mut [u8],
    count: &mut usize,
) -> u32
    ensures made { result ≡ 0 → InsertsText network.now (rules_of service.old.service).access.deny
        (rules_of service.new.service).access.deny }
    ensures allowed { SameNetworks (rules_of service.old.service).access.allow
        (rules_of service.new.service).access.allow }
    ensures others { service.new.service ≡ with_rules service.old.service
        (record (rules_of service.old.service) { access = (rules_of service.new.service).access }) }
{
    let service = service.service();
    told(alloc, service.deny(network), fault, count)
}

/// Lets the addresses of a network have transfers.
#[unsafe(no_mangle)]
pub extern "C" fn zone_service_set_transfer_allowed(
    alloc: Global,
    service: &mut Handle,
    network: &[u8],
    fault: &mut [u8],
    count: &mut usize,
) -> u32
    ensures made { result ≡ 0 → AllowsText network.now (rules_of service.old.service).transfers
        (rules_of service.new.service).transfers }
    ensures others { service.new.service ≡ with_rules service.old.service
        (record (rules_of service.old.service) { transfers = (rules_of service.new.service).transfers }) }
{
    let service = service.service();
    told(alloc, service.allow_transfer(alloc, network), fault, count)
}

/// Keeps transfers from the addresses of a network, which is part of an allowed one.
#[unsafe(no_mangle)]
pub extern "C" fn zone_service_set_transfer_denied(
    alloc: Global,
    service: &mut Handle,
    network: &[u8],
    fault: &mut [u8],
    count: &mut usize,
) -> u32
    ensures made { result ≡ 0 → InsertsText network.now (rules_of service.old.service).transfers.deny
        (rules_of service.new.service).transfers.deny }
    ensures allowed { SameNetworks (rules_of service.old.service).transfers.allow
        (rules_of service.new.service).transfers.allow }
    ensures others { service.new.service ≡ with_rules service.old.service
        (record (rules_of service.old.service) { transfers = (rules_of service.new.service).transfers }) }
{
    let service = service.service();
    told(alloc, service.deny_transfer(network), fault, count)
}

/// Sets how many bytes a reply over UDP has at most, from 512 on.
#[unsafe(no_mangle)]
pub extern "C" fn zone_service_set_max_udp(
    alloc: Global,
    service: &mut Handle,
    size: u16,
    fault: &mut [u8],
    count: &mut usize,
) -> u32
    ensures taken { (result ≡ 0) ↔ (512 ≤ size) }
    ensures made { result ≡ 0 → service.new.service ≡ with_rules service.old.service
        (record (rules_of service.old.service) { max_udp = size }) }
    ensures refused { result ≢ 0 → service.new.service ≡ service.old.service }
{
    let service = service.service();
    told(alloc, service.set_max_udp(size), fault, count)
}

/// Sets how many replies over UDP a network of clients gets in a second, and of how many above that one is truncated. A
/// rate of 0 is no limit.
#[unsafe(no_mangle)]
pub extern "C" fn zone_service_set_rate_limit(
    alloc: Global,
    service: &mut Handle,
    rate: u32,
    slip: u32,
    fault: &mut [u8],
    count: &mut usize,
) -> u32
    ensures made { result ≡ 0 → AreLimitsOf rate slip service.new.service.limits }
    ensures others { service.new.service ≡ record service.old.service { limits = service.new.service.limits } }
{
    let service = service.service();
    told(
        alloc,
        service.set_rate_limit(alloc, rate, slip),
        fault,
        count,
    )
}

/// Sets what identifies the server to clients that ask (RFC 5001).
#[unsafe(no_mangle)]
pub extern "C" fn zone_service_set_identifier(
    alloc: Global,
    service: &mut Handle,
    text: &[u8],
    fault: &mut [u8],
    count: &mut usize,
) -> u32
    ensures made { result ≡ 0 → service.new.service ≡ with_identifier service.old.service (Some text.now) }
    ensures refused { result ≢ 0 → service.new.service ≡ service.old.service }
{
    let service = service.service();
    told(alloc, service.set_identifier(alloc, text), fault, count)
}

/// Logs the next query with replies, and then one in so many, by a line that waits to be taken. After 0 none is logged.
#[unsafe(no_mangle)]
pub extern "C" fn zone_service_set_query_log(service: &mut Handle, every: u32)
    ensures { service.new.service ≡ record service.old.service {
      answering = record service.old.service.answering
          { log = record service.old.service.answering.log { every = every; left = 0 } };
    } }
{
    service.service().answering.log.set(every);
}

/// Writes lines of logged queries, as many of their bytes as there is room for, and says how many.
#[unsafe(no_mangle)]
pub extern "C" fn zone_service_take_log(service: &mut Handle, out: &mut [u8]) -> usize
    ensures within { result ≤ length out.new }
    ensures put { take result out.new ≡ take result (service.old.service.answering.log.lines.items) }
    ensures left { service.new.service.answering.log.lines.items ≡ drop result
        (service.old.service.answering.log.lines.items) }
    ensures others { service.new.service ≡ record service.old.service
        { answering = record service.old.service.answering { log = service.new.service.answering.log } } }
{
    service.service().answering.log.take(out)
}

/// Answers a message: writes its replies, each after its length in two bytes, as many as there is room for, and says
/// how many bytes they take and how many replies wait. The number says why there is none.
#[unsafe(no_mangle)]
pub extern "C" fn zone_service_answer(
    alloc: Global,
    service: &mut Handle,
    message: &[u8],
    source: &[u8],
    port: u16,
    stream: bool,
    now: u64,
    out: &mut [u8],
    written: &mut usize,
    waiting: &mut usize,
) -> u32
    ensures others { service.new.service ≡ record service.old.service {
      answering = service.new.service.answering;
      counters = service.new.service.counters;
      limits =
          service.new.service.limits;
    } }
    ensures stays { Stays service.old.service.answering.server service.new.service.answering.server }
    ensures told { (made : ToldOfMessage) ×
        AnswerTold (keyed_of ⟦<Handler as ZoneHandler>⟧ ⟦<LeftToServer as ReplySigner>⟧.signature_for
        service.old.service.answering.server) service.old.service.answering
        (record { bytes = message.now; address = source.now; port = port; stream = stream; now = now }) out.old
        made service.new.service.answering ×
        IsLimited service.old.service.limits (record { address = source.now; stream = stream; now = now })
        made (record { number = result; written = written.new; out = out.new }) service.new.service.limits }
    ensures within { written.new ≤ length out.new }
    ensures waiting { waiting.new ≡ length (waiting_in service.new.service.answering) }
    ensures counted { AnswerCounted stream (length message.now) result
        (take written.new out.new) service.old.service.counters service.new.service.counters }
{
    let service = service.service();
    let answering = &mut service.answering;
    let made = tell_answer(
        alloc, answering, message, source, port, stream, now, out, written, waiting,
    );
    let number = limit(
        alloc,
        &mut service.limits,
        stream,
        source,
        now,
        made,
        out,
        written,
    );
    count_answer(
        &mut service.counters,
        stream,
        message.len(),
        number,
        &out[..*written],
    );
    number
}

/// Answers the messages that are whole at the front of a stream's bytes, each after its length in two bytes, and
/// says how many bytes they are, how many bytes of replies were written, and how many replies wait. The number says why
/// the last of them has none. Replies that waited before it are let go.
#[unsafe(no_mangle)]
pub extern "C" fn zone_service_answer_stream(
    alloc: Global,
    service: &mut Handle,
    bytes: &[u8],
    source: &[u8],
    port: u16,
    now: u64,
    out: &mut [u8],
    taken: &mut usize,
    written: &mut usize,
    waiting: &mut usize,
) -> u32
    ensures others { service.new.service ≡ record service.old.service
        { answering = service.new.service.answering; counters = service.new.service.counters } }
    ensures stays { Stays service.old.service.answering.server service.new.service.answering.server }
    ensures told { StreamTold (keyed_of ⟦<Handler as ZoneHandler>⟧ ⟦<LeftToServer as ReplySigner>⟧.signature_for
        service.old.service.answering.server) service.old.service.answering
        (record { bytes = bytes.now; address = source.now; port = port; now = now }) out.old
        (record { number = result; taken = taken.new; written = written.new; out = out.new })
        service.new.service.answering }
    ensures waiting { waiting.new ≡ length (waiting_in service.new.service.answering) }
    ensures counted { StreamCounted (take taken.new bytes.now) result
        (take written.new out.new) service.old.service.counters service.new.service.counters }
{
    let service = service.service();
    let number = tell_stream(
        alloc,
        &mut service.answering,
        bytes,
        source,
        port,
        now,
        out,
        taken,
        written,
        waiting,
    );
    count_stream(
        &mut service.counters,
        &bytes[..*taken],
        number,
        &out[..*written],
    );
    number
}

/// Writes replies to the last message that wait, each after its length in two bytes, as many as there is room for, and
/// says how many bytes they take, and how many replies wait still.
#[unsafe(no_mangle)]
pub extern "C" fn zone_service_take(
    service: &mut Handle,
    out: &mut [u8],
    waiting: &mut usize,
) -> usize
    ensures others { service.new.service ≡ record service.old.service
        { answering = service.new.service.answering; counters = service.new.service.counters } }
    ensures server { service.new.service.answering.server ≡ service.old.service.answering.server }
    ensures put { ArePut (waiting_in service.old.service.answering) out.old 0 out.new result
        (waiting_in service.new.service.answering) }
    ensures waiting { waiting.new ≡ length (waiting_in service.new.service.answering) }
    ensures counted { AreCounted (one_counted false) (take result out.new) service.old.service.counters
        service.new.service.counters }
{
    let service = service.service();
    let written = service.answering.take(out);
    count_frames(&mut service.counters, false, &out[..written]);
    *waiting = service.answering.waiting();
    written
}

/// Tells what the server has done since it was made, in numbers.
#[unsafe(no_mangle)]
pub extern "C" fn zone_service_counters(service: &mut Handle, counters: &mut Counters)
    ensures told { counters.new ≡ service.old.service.counters }
    ensures kept { service.new.service ≡ service.old.service }
{
    *counters = service.service().counters;
}

/// Puts the text in which monitoring reads numbers, as far as there is room, and its length.
#[unsafe(no_mangle)]
pub extern "C" fn zone_service_statistics(
    alloc: Global,
    counters: &Counters,
    out: &mut [u8],
    count: &mut usize,
) -> u32
    ensures text { result ≡ 0 → take count.new out.new ≡ take count.new (exposition_of counters.now) }
    ensures whole { result ≡ 0 → count.new ≡ min (length (exposition_of counters.now)) (length out.new) }
    ensures none { (result ≡ 0) ⊎ ((result ≡ 4) × (count.new ≡ 0)) }
{
    *count = 0;
    let Ok(text) = exposition(alloc, counters) else {
        return MEMORY;
    };
    *count = put_text(out, text.as_bytes());
    DONE
}

/// Reads a configuration file in TOML: puts its settings, the name and the value of each with the byte 0 after both,
/// and how many bytes they are. `names` are the options that there are, each with the byte 0 after it.
#[unsafe(no_mangle)]
pub extern "C" fn zone_service_read_settings(
    alloc: Global,
    names: &[u8],
    text: &[u8],
    out: &mut [u8],
    written: &mut usize,
    fault: &mut [u8],
    count: &mut usize,
) -> u32
    ensures settings { result ≡ 0 → IsConfiguration names.now text.now (take written.new out.new) }
    ensures within { written.new ≤ length out.new }
    ensures count { count.new ≤ length fault.new }
{
    *count = 0;
    *written = 0;
    match configuration(alloc, names, text) {
        Ok(settings) => {
            if settings.len() > out.len() {
                return tell_fault("more settings than there is room for", fault, count);
            }
            *written = put_text(out, settings.as_slice());
            DONE
        }
        Err(why) => told_of_configuration(alloc, why, fault, count),
    }
}
