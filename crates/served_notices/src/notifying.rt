//! Who is told of which zone, and when a zone has changed.

ghost use Rattle.std.specs.Prelude.{◌≡◌, ◌++◌, ◌∷◌, [], IfOk, OnErr, OnOk, option_map};
ghost use Rattle.served_notices.specs.Notifying as spec;
ghost use Rattle.served_notices.specs.Notifying.{AreTold, IsModeText, IsNew, LooksAt, is_of, soa_in};

use crate::hosts::{push_servers, records_of, zone_at};
use hickory_base::zone_store::{InMemoryZoneHandler, ZoneHandler};
use hickory_wire::{LowerName, Name, RData, Record, RecordType};
use notices::{Notices, Target};
use served_zones::handler::Zones;
use sqlite_disk::Disk;
use std::alloc::{AllocError, Global};
use wire_messages::rr::rdata::SOA;

/// Who is told that a zone has changed.
#[derive(Clone, Copy, Debug, PartialEq, Eq)]
pub enum Mode {
    /// Nobody.
    No,
    /// The servers that are configured.
    Explicit,
    /// These, and the hosts of the zone's NS records whose addresses the server has in its zones, except the primary
    /// that the zone's SOA record names (RFC 1996 section 2.1).
    Yes,
}

impl Mode {
    /// The mode that a word names: `no`, `explicit` or `yes`.
    pub fn read(text: &[u8]) -> Option<Mode>
        ensures { IsModeText text.now result }
    {
        match text {
            b"no" => Some(Mode::No),
            b"explicit" => Some(Mode::Explicit),
            b"yes" => Some(Mode::Yes),
            _ => None,
        }
    }
}

/// A server that is told of the zone of this name, or of all zones.
#[derive(Drop)]
pub struct Secondary {
    /// The name of the zone's apex; all zones if there is none.
    pub apex: Option<Name>,
    /// The server.
    pub target: Target,
}

/// Who is told of which zone, and the notices that wait.
#[derive(Drop)]
pub struct Notifying {
    /// Who is told.
    pub mode: Mode,
    /// The servers that are configured.
    pub secondaries: Vec<Secondary>,
    /// The notices that wait.
    pub notices: Notices,
}

/// Whether a server is told of the zone of this name.
fn is_of(secondary: &Secondary, apex: &Name) -> bool
    ensures { result ≡ is_of apex.now secondary.now }
{
    match &secondary.apex {
        Some(own) => *own == *apex,
        None => true,
    }
}

/// Puts a server last, if it is told of the zone of this name.
fn push_configured(
    targets: &mut Vec<Target>,
    secondary: &Secondary,
    apex: &Name,
) -> Result<(), AllocError>
    ensures { OnOk result (targets.new.items ≡
        targets.old.items ++ spec.configured apex.now (secondary.now ∷ [])) }
{
    if is_of(secondary, apex) {
        targets.push(secondary.target)?;
    }
    Ok(())
}

/// The configured servers that are told of the zone of this name.
fn configured(
    alloc: Global,
    secondaries: &[Secondary],
    apex: &Name,
) -> Result<Vec<Target>, AllocError>
    ensures { IfOk result (λ targets. targets.items ≡ spec.configured apex.now secondaries.now) }
{
    let mut targets = Vec::new(alloc);
    for secondary in secondaries {
        push_configured(&mut targets, secondary, apex)?;
    }
    Ok(targets)
}

/// The SOA record of a zone, with its TTL in seconds.
fn soa_of(zone: &InMemoryZoneHandler) -> Result<Option<(u32, &SOA)>, AllocError>
    ensures { IfOk result (λ soa. option_map (λ it. (it.0, it.1.now)) soa ≡ soa_in zone.now) }
{
    match records_of(zone, zone.origin(), RecordType::SOA)? {
        [
            Record {
                ttl,
                rdata: RData::SOA(soa),
                ..
            },
            ..
        ] => Ok(Some((*ttl, soa.get()))),
        _ => Ok(None),
    }
}

impl Notifying {
    /// Only configured servers are told, and none is configured. It takes no memory.
    pub fn new(alloc: Global) -> Notifying
        ensures { IsNew result }
    {
        Notifying {
            mode: Mode::Explicit,
            secondaries: Vec::new(alloc),
            notices: Notices::new(alloc),
        }
    }

    /// Who is told of a zone that has this name and this primary.
    fn told<D: Disk + Drop>(
        &self,
        alloc: Global,
        zones: &Zones<D>,
        apex: &Name,
        zone: &InMemoryZoneHandler,
        primary: &Name,
    ) -> Result<Vec<Target>, AllocError>
        ensures { IfOk result (λ targets. AreTold self.now.mode self.now.secondaries.items zones.now.zones apex.now zone.now
            primary.now targets.items) }
    {
        if self.mode == Mode::No {
            return Ok(Vec::new(alloc));
        }
        let mut targets = configured(alloc, &self.secondaries, apex)?;
        if self.mode == Mode::Yes {
            let servers = records_of(zone, zone.origin(), RecordType::NS)?;
            push_servers(alloc, &mut targets, zones, primary, servers)?;
        }
        Ok(targets)
    }

    /// Looks at the zone of this name, of which the serial was announced last that `serial` is, or none if that is
    /// larger than any. If the zone as it is served has another one, it is announced to all that are told of it, and
    /// `serial` is its serial from then on. `now` is in milliseconds of a clock that does not go back.
    ///
    /// If the mode is `No`, nobody is told, but `serial` follows the zone. An error says that memory was refused, and
    /// then nothing has changed.
    pub fn look<D: Disk + Drop>(
        &mut self,
        alloc: Global,
        zones: &Zones<D>,
        apex: &Name,
        serial: &mut u64,
        now: u64,
    ) -> Result<(), AllocError>
        ensures ok { OnOk result (LooksAt zones.now.zones apex.now now serial.old self.old serial.new self.new) }
        ensures err { OnErr result ((self.new ≡ self.old) × (serial.new ≡ serial.old)) }
    {
        let name = LowerName::new(alloc, apex)?;
        let Some(zone) = zone_at(zones, &name)? else {
            return Ok(());
        };
        let Some((ttl, soa)) = soa_of(zone)? else {
            return Ok(());
        };
        if *serial == u64::from(soa.serial) {
            return Ok(());
        }
        let targets = self.told(alloc, zones, apex, zone, &soa.mname)?;
        self.notices.announce(apex, ttl, soa, &targets, now)?;
        *serial = u64::from(soa.serial);
        Ok(())
    }
}
