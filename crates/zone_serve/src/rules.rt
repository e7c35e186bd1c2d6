//! The rules of the server, the names of its zones and its identifier, from the arguments.

ghost use Rattle.std.specs.Prelude.{◌≡◌, ◌++◌, [], IfOk, MatchOption, option_map};
ghost use Rattle.std.specs.List.{flat_map};
ghost use Rattle.server_limits.specs.Access.{SameNetworks};
ghost use Rattle.served_keys.specs.ServedKeys.{all_networks, parts_of};
ghost use Rattle.served_zones.specs.ServedZones.{IsApexText};
ghost use Rattle.zone_serve.specs.Catalogs.{denied_beside};

use crate::fault::Fault;
use hickory_server::access::IpNet;
use hickory_server::proto::{NSIDPayload, Name};
use hickory_server::server::Rules;
use serve_options::arguments::Settings;
use served_keys::networks::{parts, with_all};
use served_zones::identifier::identifier;
use served_zones::networks::access;
use server::settings::{SettingFault, zone_name};
use std::alloc::{AllocError, Global};

/// The networks that may not use the server, unless a longer one is allowed.
fn denied(alloc: Global, settings: &Settings<'_>) -> Result<Vec<IpNet>, AllocError>
    ensures { IfOk result (λ networks.
        networks.items ≡ denied_beside settings.now.allowed.items settings.now.denied.items) }
{
    let denied = settings.denied.as_slice();
    if settings.allowed.is_empty() {
        Vec::from_slice(alloc, denied)
    } else {
        with_all(alloc, denied)
    }
}

/// The rules that the arguments ask for.
pub fn rules_of(alloc: Global, settings: &Settings<'_>) -> Result<Rules, AllocError>
    ensures denied { IfOk result
        (λ rules. SameNetworks (denied_beside settings.now.allowed.items settings.now.denied.items) rules.access.deny) }
    ensures allowed { IfOk result
        (λ rules. SameNetworks (flat_map parts_of settings.now.allowed.items) rules.access.allow) }
    // Nobody has transfers, unless an argument allows it (RFC 5936 section 5).
    ensures transfers_denied { IfOk result
        (λ rules. SameNetworks (settings.now.transfers_denied.items ++ all_networks) rules.transfers.deny) }
    ensures transfers_allowed { IfOk result
        (λ rules. SameNetworks (flat_map parts_of settings.now.transfers_allowed.items) rules.transfers.allow) }
    ensures own_rules { IfOk result (λ rules. rules.zones.items ≡ []) }
    ensures limit { IfOk result (λ rules. MatchOption settings.now.max_udp (rules.max_udp ≡ 1232)
        (λ limit. rules.max_udp ≡ limit)) }
{
    let denied = denied(alloc, settings)?;
    let allowed = parts(alloc, &settings.allowed)?;
    let server = access(alloc, &denied, &allowed)?;
    let refused = with_all(alloc, &settings.transfers_denied)?;
    let receivers = parts(alloc, &settings.transfers_allowed)?;
    let transfers = access(alloc, &refused, &receivers)?;
    Ok(Rules {
        access: server,
        transfers,
        zones: Vec::new(alloc),
        max_udp: settings.max_udp.unwrap_or(1232),
    })
}

/// The name of the apex of a zone. `place` says which argument it is.
pub fn apex_of(alloc: Global, text: &str, place: usize) -> Result<Name, Fault>
    ensures { IfOk result (IsApexText text.now) }
{
    match zone_name(alloc, text.as_bytes()) {
        Ok(name) => Ok(name),
        Err(fault) => Err(Fault::of_argument(place, fault)),
    }
}

/// The identifier that the arguments ask for.
pub fn identifier_of(alloc: Global, settings: &Settings<'_>) -> Result<Option<NSIDPayload>, Fault>
    ensures { IfOk result (λ identifier. identifier ≡ option_map (λ it. it.0.now) settings.now.identifier) }
{
    let Some((text, place)) = settings.identifier else {
        return Ok(None);
    };
    match identifier(alloc, text.as_bytes()) {
        Ok(payload) => Ok(Some(payload)),
        Err(fault) => Err(Fault::of_argument(place, SettingFault::from(fault))),
    }
}
