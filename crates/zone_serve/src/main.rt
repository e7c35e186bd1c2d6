//! A server of zones for whoever owns the sockets: `zone_serve [--zone NAME=FILE].. [OPTION].. udp|tcp|lines` answers
//! what the standard input brings on the standard output, and reports on the standard error what was not answered.
//! `zone_serve --version` prints its name and version, and `zone_serve --help` how it is started.
//!
//! `udp`: the input is one datagram. `tcp`: it is messages, each after its length (RFC 1035 section 4.2.2), and each is
//! answered as soon as it is whole. `lines`: it is lines `udp|tcp ADDRESS HEX`. The status is 0 if all of the input was
//! answered, 1 if some of it was not, 2 for wrong arguments or a wrong address of the peer, 3 if an allocation fails, 4
//! if input, output or clock fail, 5 if a file is not taken, and 6 if updates at hand are not written.
#![tactic(auto)]

ghost use Rattle.std.specs.Prelude.{◌≡◌, [], IfOk, OnOk, option_map};
ghost use Rattle.served_zones.specs.ServedZones.{IsLoadedAs};
ghost use Rattle.zone_serve.specs.Catalogs.{AreLoaded, AreZonesOf, IsZoneAt};
ghost use Rattle.zone_serve.specs.Peers.{IsPeerText};
ghost use Rattle.zone_serve.specs.Program.{IsServedBy, IsServerOf};

mod damage;
mod fault;
mod files;
mod frames;
mod groups;
mod holder;
mod included;
mod inputs;
mod journals;
mod keys;
mod lines;
mod lists;
mod peer;
mod rules;
mod serving;
mod updates;

use crate::fault::{Fault, FileFault};
use crate::files::FilesByPath;
use crate::holder::JournalHolder;
use crate::included::zone_of;
use crate::inputs::{Peer, serve_input};
use crate::journals::{JournalFiles, JournalWatch, SystemFiles, open_journals};
use crate::keys::{keys_of, transfer_keys_of};
use crate::lists::blocklist;
use crate::rules::{apex_of, identifier_of, rules_of};
use crate::updates::{grants_of, see_zones};
use hickory_server::VERSION;
use hickory_server::proto::Name;
use hickory_server::server::Server;
use hickory_server::store::blocklist::BlocklistZoneHandler;
use hickory_server::store::file::ZoneError;
use hickory_server::zone_handler::{Catalog, ReplySigner, ZoneHandler};
use hickory_server::zone_store::Either;
use hickory_server::zone_text::FileOpener;
use serve_options::arguments::{ArgumentFault, Mode, Settings, ZoneArgument};
use served_keys::files::KeysFault;
use served_zones::chains::{chain, put_chain};
use served_zones::grants::grant_updates;
use served_zones::handler::{Handler, Zones};
use served_zones::zone_files::ZoneFault;
use server::settings::SettingFault;
use signed_server::{LeftToServer, SignedServer};
use sqlite_disk::Disk;
use std::alloc::Global;
use std::env::VarError;
use std::io::{Read, Write};
use std::net::{IpAddr, Ipv4Addr};
use std::process::ExitCode;
use std::rc::Rc;
use std::rt::{Clock, Env, Files};
use std::{env, io};
use tsig::Keys;

/// The arguments after the program's name. One that is not UTF-8 is wrong usage.
// No clause: no contract says which arguments the system gives.
fn given_words<R: Env + Alloc<A = Global>>(rt: &R) -> Result<Vec<String>, Fault> {
    match env::args(rt) {
        Ok(arguments) => Ok(arguments.skip(1).collect(rt.alloc())?),
        Err(e) => match e.kind() {
            io::ErrorKind::OutOfMemory => Err(Fault::Memory),
            _ => Err(Fault::NotUtf8),
        },
    }
}

/// Reports that a variable of the environment is not an address, and gives the status.
fn tell_of_variable<R: Eprint>(rt: &R, name: &str, text: &str) -> u8 {
    let _ = eprintln!(rt; "zone_serve: {name}: {text:?} is not an IP address");
    2
}

/// The text of a variable of the environment, if it is set. A fault is reported, and gives the status.
// No clause: no contract says what the environment has.
fn variable<R: Env + Eprint + Alloc<A = Global>>(rt: &R, name: &str) -> Result<Option<String>, u8> {
    match env::var(rt, name) {
        Ok(text) => Ok(Some(text)),
        Err(VarError::NotPresent) => Ok(None),
        Err(VarError::NotUnicode) => Err(tell_of_variable(rt, name, "\u{fffd}")),
        Err(VarError::OutOfMemory) => Err(tell(rt, Fault::Memory)),
    }
}

/// The address that the text of a variable spells. A fault is reported, and gives the status.
fn told_peer<R: Eprint>(rt: &R, name: &str, text: &str) -> Result<IpAddr, u8>
    ensures { IfOk result (IsPeerText text.now) }
{
    match peer::address(text) {
        Some(address) => Ok(address),
        None => Err(tell_of_variable(rt, name, text)),
    }
}

/// The address of the peer, as systemd gives it (`REMOTE_ADDR`), or socat (`SOCAT_PEERADDR`), and 127.0.0.1 if neither
/// does. A fault is reported, and gives the status.
// No clause: no contract says what the environment has. `told_peer` says it of each text.
fn peer_address<R: Env + Eprint + Alloc<A = Global>>(rt: &R) -> Result<IpAddr, u8> {
    if let Some(text) = variable(rt, "REMOTE_ADDR")? {
        return told_peer(rt, "REMOTE_ADDR", text.as_str());
    }
    if let Some(text) = variable(rt, "SOCAT_PEERADDR")? {
        return told_peer(rt, "SOCAT_PEERADDR", text.as_str());
    }
    Ok(IpAddr::V4(Ipv4Addr::LOCALHOST))
}

/// Puts the zone of an argument into the catalog, the one at this place among the zones, with the list of blocked names
/// after it. Returns the name of its apex.
fn load<R: Eprint + Alloc<A = Global>, O: FileOpener, D: Disk + Drop>(
    rt: &R,
    files: &O,
    catalog: &mut Zones<D>,
    argument: ZoneArgument<'_>,
    place: usize,
    list: Option<&Rc<BlocklistZoneHandler>>,
) -> Result<Name, Fault>
    ensures loaded { IfOk result (λ apex.
        IsLoadedAs (IsZoneAt (O.opens files.now) argument.entry.file.now) argument.entry.name.now
        (option_map (λ it. it.now.value) list.entry) apex catalog.old.zones catalog.new.zones) }
    ensures others { catalog.new ≡ record catalog.old { zones = catalog.new.zones } }
{
    let apex = apex_of(rt.alloc(), argument.name, argument.place)?;
    let zone = match zone_of(rt, files, &apex, argument.file) {
        Ok(zone) => zone,
        Err(FileFault::Memory) => return Err(Fault::Memory),
        Err(fault) => return Err(Fault::Zone { place, fault }),
    };
    let chain = chain(rt.alloc(), Either::Left(zone), list)?;
    if put_chain(rt.alloc(), catalog, &apex, chain)? {
        Ok(apex)
    } else {
        Err(Fault::ZoneTwice {
            place: argument.place,
        })
    }
}

/// Puts the zones of the arguments into the catalog, in their order, with the list of blocked names after each. Returns
/// the names of their apexes.
fn load_zones<R: Eprint + Alloc<A = Global>, O: FileOpener, D: Disk + Drop>(
    rt: &R,
    files: &O,
    catalog: &mut Zones<D>,
    arguments: &[ZoneArgument<'_>],
    list: Option<&Rc<BlocklistZoneHandler>>,
) -> Result<Vec<Name>, Fault>
    ensures loaded { IfOk result (λ apexes. AreLoaded (O.opens files.now) (option_map (λ it. it.now.value) list.entry)
        arguments.now apexes.items catalog.old.zones catalog.new.zones) }
    ensures others { catalog.new ≡ record catalog.old { zones = catalog.new.zones } }
{
    let mut apexes = Vec::new(rt.alloc());
    for place in 0..arguments.len() {
        apexes.push(load(rt, files, catalog, arguments[place], place, list)?)?;
    }
    Ok(apexes)
}

/// Puts the zones that the arguments ask for into a catalog, with the list of blocked names after each, and gives them
/// their rules.
fn put_zones<R: Eprint + Alloc<A = Global>, O: FileOpener, D: Disk + Drop>(
    rt: &R,
    files: &O,
    settings: &Settings<'_>,
    keys: &Keys,
    catalog: &mut Zones<D>,
) -> Result<(), Fault>
    ensures zones { OnOk result
        (AreZonesOf (O.opens files.now) settings.now keys.now catalog.old.zones catalog.new.zones) }
    ensures others { catalog.new ≡ record catalog.old { zones = catalog.new.zones } }
{
    let grants = grants_of(rt.alloc(), keys, &settings.updates)?;
    let list = blocklist(rt, files, &settings.blocklists)?;
    let apexes = load_zones(rt, files, catalog, &settings.zones, list.as_ref())?;
    see_zones(&grants, &apexes, &settings.updates)?;
    Ok(grant_updates(rt.alloc(), keys, &grants, &apexes, catalog)?)
}

/// The catalog that the arguments ask for: each zone, with the list of blocked names after it, and with updates by
/// these keys if the arguments have rules for it.
fn catalog<R: Eprint + Alloc<A = Global>, O: FileOpener, D: Disk + Drop>(
    rt: &R,
    files: &O,
    settings: &Settings<'_>,
    keys: &Keys,
) -> Result<Zones<D>, Fault>
    ensures zones { IfOk result
        (λ catalog. AreZonesOf (O.opens files.now) settings.now keys.now [] catalog.zones) }
    ensures identifier { IfOk result (λ catalog. catalog.nsid ≡ option_map (λ it. it.0.now) settings.now.identifier) }
{
    let identifier = identifier_of(rt.alloc(), settings)?;
    let mut catalog = Catalog::new(rt.alloc(), LeftToServer);
    catalog.set_nsid(identifier);
    match put_zones(rt, files, settings, keys, &mut catalog) {
        Ok(()) => Ok(catalog),
        Err(fault) => Err(fault),
    }
}

/// The server that the arguments ask for.
fn server_for<R: Eprint + Alloc<A = Global>, O: FileOpener, D: Disk + Drop>(
    rt: &R,
    files: &O,
    settings: &Settings<'_>,
) -> Result<SignedServer<LeftToServer, Handler<D>>, Fault>
    ensures { IfOk result (IsServerOf (O.opens files.now) settings.now) }
{
    let alloc = rt.alloc();
    let keys = keys_of(alloc, files, settings.keys)?;
    let names = transfer_keys_of(alloc, &keys, &settings.transfer_keys)?;
    let rules = rules_of(alloc, settings)?;
    let server = Server::new(alloc, rules, catalog(rt, files, settings, &keys)?)?;
    let mut signed = SignedServer::new(alloc, server, keys)?;
    signed.transfer_keys = names;
    Ok(signed)
}

/// Serves an input as the arguments say, by the files that `opener` has, and with journals in `files`: the number of
/// the first line that is no message, if there is one.
fn serve_settings<
    C: Clock + Files + Eprint + Alloc<A = Global>,
    O: FileOpener,
    D: Disk + Drop,
    F: JournalFiles<D>,
    R: Read,
    W: Write,
>(
    rt: &C,
    opener: &O,
    files: &F,
    settings: &Settings<'_>,
    address: IpAddr,
    reader: &mut R,
    writer: &mut W,
) -> Result<Option<u64>, Fault>
    ensures { OnOk result (IsServedBy D.Disk ⟦<Handler<D> as ZoneHandler>⟧ ⟦<LeftToServer as ReplySigner>⟧.signature_for
        (O.opens opener.now) settings.now address (record {
          input = R.remaining reader.old;
          left = R.remaining reader.new;
          output = W.contents writer.old;
          filled = W.contents writer.new;
        })) }
{
    let mut server: SignedServer<LeftToServer, Handler<D>> = server_for(rt, opener, settings)?;
    let zones = &mut server.server.catalog;
    let journals = open_journals(rt, files, &settings.journals, zones)?;
    let holder = JournalHolder::of(rt.alloc(), &journals, !settings.no_groups)?;
    let mut watch = JournalWatch { rt, journals };
    let peer = Peer {
        mode: settings.mode,
        address,
    };
    serve_input(rt, &mut server, peer, reader, writer, &holder, &mut watch)
}

/// Serves the standard input as the arguments say.
fn serve(rt: &HostRuntime, settings: &Settings<'_>, address: IpAddr) -> Result<(), Fault> {
    let (opener, files) = (FilesByPath { rt }, SystemFiles { rt });
    let (mut reader, mut writer) = (rt.reader(), io::writer(rt));
    match serve_settings(
        rt,
        &opener,
        &files,
        settings,
        address,
        &mut reader,
        &mut writer,
    )? {
        Some(number) => Err(Fault::Line { number }),
        None => Ok(()),
    }
}

/// The file that a fault is of.
// No clause: it decides only how a fault is reported.
fn file_of<'a>(settings: &Settings<'a>, fault: Fault) -> Option<&'a str> {
    match fault {
        Fault::Zone { place, .. } => settings.zones.get(place).map(|zone| zone.file),
        Fault::List { place, .. } => settings.blocklists.get(place).copied(),
        Fault::Keys { .. } => settings.keys,
        Fault::Journal { place, .. } | Fault::Unwritten { place } => {
            settings.journals.get(place).map(|it| it.file)
        }
        _ => None,
    }
}

/// Reports a fault on the standard error, and gives its status. A failure to report it changes nothing.
fn tell<R: Eprint>(rt: &R, fault: Fault) -> u8 {
    let _ = eprintln!(rt; "zone_serve: {fault}");
    fault.status()
}

/// Whether a fault of a zone file is of its text.
// No clause: it decides only how a fault is reported.
fn is_of_text(fault: ZoneFault) -> bool {
    match fault {
        ZoneFault::Zone(error) => matches!(error, ZoneError::Text(_)),
        _ => false,
    }
}

/// Whether a fault of a file is of a line of its text.
// No clause: it decides only how a fault is reported.
fn is_of_line(fault: SettingFault) -> bool {
    match fault {
        SettingFault::Zone(fault) => is_of_text(fault),
        SettingFault::Keys(fault) => matches!(fault, KeysFault::Text(_)),
        _ => false,
    }
}

/// Whether the message of a fault of a file begins with its line.
// No clause: it decides only how a fault is reported.
fn has_line(fault: Fault) -> bool {
    match fault {
        Fault::Zone { fault, .. } | Fault::Keys { fault } => match fault {
            FileFault::Setting(fault) => is_of_line(fault),
            _ => false,
        },
        _ => false,
    }
}

/// Reports a fault of a file on the standard error, and gives its status.
fn tell_of_file<R: Eprint>(rt: &R, file: &str, fault: Fault) -> u8 {
    let _ = if has_line(fault) {
        eprintln!(rt; "zone_serve: {file}:{fault}")
    } else {
        eprintln!(rt; "zone_serve: {file}: {fault}")
    };
    fault.status()
}

/// Reports a fault of a connection on the standard error, and gives its status.
fn tell_of_peer<R: Eprint>(rt: &R, address: IpAddr, fault: Fault) -> u8 {
    let _ = eprintln!(rt; "zone_serve: {address}: {fault}");
    fault.status()
}

/// Reports a fault of an argument after its option and its value, and gives its status.
fn tell_of_argument<R: Eprint>(rt: &R, arguments: &[String], place: usize, fault: Fault) -> u8 {
    let before = &arguments[..arguments.len().min(place)];
    let [.., option, value] = before else {
        return tell(rt, fault);
    };
    let _ = eprintln!(rt; "zone_serve: {option}: {value:?}: {fault}");
    fault.status()
}

/// Runs the program with the settings of its arguments, and gives its status.
fn run_settings(rt: &HostRuntime, arguments: &[String], settings: &Settings<'_>) -> u8 {
    let address = match peer_address(rt) {
        Ok(address) => address,
        Err(status) => return status,
    };
    match serve(rt, settings, address) {
        Ok(()) => 0,
        Err(fault) => match (fault.argument(), file_of(settings, fault)) {
            (Some(place), _) => tell_of_argument(rt, arguments, place, fault),
            (None, Some(file)) => tell_of_file(rt, file, fault),
            _ if fault.status() == 1 && settings.mode != Mode::Lines => {
                tell_of_peer(rt, address, fault)
            }
            _ => tell(rt, fault),
        },
    }
}

/// Reports what is wrong with the arguments on the standard error, and gives its status.
fn tell_of_arguments<R: Eprint>(rt: &R, fault: ArgumentFault<'_>) -> u8 {
    let _ = eprintln!(rt; "zone_serve: {fault}");
    match fault {
        ArgumentFault::Memory => Fault::Memory.status(),
        _ => 2,
    }
}

/// How the program is started.
const HELP: &str = "\
zone_serve [--zone NAME=FILE].. [OPTION].. udp|tcp|lines
  --zone NAME=FILE           the zone at NAME, from a zone file
  --blocklist FILE           names that are blocked, a line each
  --allow NET, --deny NET    who may ask
  --allow-transfer NET, --deny-transfer NET
                             who of those may have a zone transferred, else nobody
  --keys FILE                the keys that sign messages (TSIG)
  --allow-transfer-key NAME  whose good signature has zones transferred from anywhere
  --allow-update ZONE=RULE   who may update what in a zone, by a rule
                             'KEY [zone|subdomain NAME|name NAME|self] [TYPE..]'
  --journal NAME=FILE        where the updates of a zone are kept, in the mode lines
  --no-groups                updates at hand are not written together
  --nsid TEXT                what identifies this server
  --max-udp N                bytes of a reply over UDP at most, 1232
  udp|tcp|lines              one datagram, a stream, or lines 'udp|tcp ADDRESS HEX'
  --version                  name and version
  --help                     this";

/// The status of a text that was to be printed.
fn printed<R: Eprint>(rt: &R, ended: io::Result<()>) -> u8 {
    match ended {
        Ok(()) => 0,
        Err(_) => tell(rt, Fault::Write),
    }
}

/// Runs the program with these options, and gives its status.
fn read_settings(rt: &HostRuntime, arguments: &[String]) -> u8 {
    match Settings::read(rt.alloc(), arguments) {
        Ok(settings) => run_settings(rt, arguments, &settings),
        Err(fault) => tell_of_arguments(rt, fault),
    }
}

/// Runs the program with these arguments, and gives its status.
fn run_arguments(rt: &HostRuntime, arguments: &[String]) -> u8 {
    let [word] = arguments else {
        return read_settings(rt, arguments);
    };
    match word.as_str() {
        "--version" => printed(rt, println!(rt; "zone_serve {VERSION}")),
        "--help" | "-h" => printed(rt, println!(rt; "{HELP}")),
        _ => read_settings(rt, arguments),
    }
}

/// Runs the program, and gives its status.
fn run(rt: &HostRuntime) -> u8 {
    match given_words(rt) {
        Ok(words) => run_arguments(rt, &words),
        Err(fault) => tell(rt, fault),
    }
}

fn main(rt: HostRuntime) -> ExitCode {
    ExitCode::from(run(&rt))
}
