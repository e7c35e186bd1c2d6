//! Worked examples: what the calls of a server make is a run, and what settings are by their texts.

ghost use Rattle.std.specs.Prelude.{◌≡◌, ◌∷◌, [], IfOk, IsOk, List, None, OnErr, OnOk, Result, codes, take, true};
ghost use Rattle.hickory_base.specs.declared.requests.message_request.MessageRequest.{MessageRequest};
ghost use Rattle.hickory_server.specs.declared.server.answer.Answer.{Answer};
ghost use Rattle.hickory_server.specs.declared.server.rules.Rules.{Rules};
ghost use Rattle.hickory_server.specs.declared.server.rules.ZoneTransfers.{ZoneTransfers};
ghost use Rattle.hickory_server.specs.declared.server.serve.ServeError.{ServeError};
ghost use Rattle.hickory_server.specs.server.Ruling.{transfers_for};
ghost use Rattle.served_keys.specs.ServedKeys.{IsKeyName};
ghost use Rattle.signed_server.specs.ServedWithKeys.{keys_for};
ghost use Rattle.server.specs.Run.{Event, Run, StreamGoesOn};
ghost use Rattle.server.specs.Run.Event.{batch_begun, batch_ended, journal_failed, journal_opened, keys_set, list_set, message_came, other_set, rule_added, rules_given, updates_stopped, zone_added, zone_failed};
ghost use Rattle.server.specs.Settings.{rules_of, with_rules};
ghost use Rattle.server.specs.Transfers.{below, named, transfer_of};
ghost use Rattle.server_limits.specs.Access.{Network};
ghost use Rattle.server_limits.specs.NetworkTexts.{IsNetworkText};
ghost use Rattle.server_limits.specs.declared.access_control.Family.TheVariants.{Ipv4};
ghost use Rattle.update_policy.specs.RuleTexts.{IsRuleText};
ghost use Rattle.update_policy.specs.declared.policy.Scope.TheVariants.{OwnName};
ghost use Rattle.wire_names.specs.rr.domain.DomainName.{DomainName};

use crate::answering::{Refusal, StreamAnswer};
use crate::service::{Handler, Service};
use crate::settings::SettingFault;
use hickory_server::access::network_text_laws;
use hickory_server::server::serve::Incoming;
use hickory_server::zone_handler::{ReplySigner, ZoneHandler};
use served_zones::journals::Opened;
use signed_server::LeftToServer;
use std::alloc::Global;
use std::net::SocketAddr;

/// A server that takes a zone, its keys and a rule of updates, and whose zones get their rules.
pub fn worked_zones(
    alloc: Global,
    name: &[u8],
    file: &[u8],
    keys: &[u8],
    rule: &[u8],
) -> Result<Service, SettingFault>
    ensures { IfOk result (λ service. (apex : DomainName) ×
        Run ⟦<Handler as ZoneHandler>⟧ ⟦<LeftToServer as ReplySigner>⟧.signature_for
        (rules_given ∷ rule_added name.now rule.now ∷ keys_set keys.now ∷ zone_added name.now file.now apex ∷ []) service) }
{
    let mut service = Service::new(alloc)?;
    service.add_zone(alloc, name, file)?;
    service.set_keys(alloc, keys)?;
    service.allow_update(alloc, name, rule)?;
    service.serve_zones(alloc)?;
    Ok(service)
}

/// A server that takes a list of blocked names, and then a zone whose file is not taken.
pub fn worked_failed_zone(
    alloc: Global,
    service: &mut Service,
    list: &[u8],
    name: &[u8],
) -> Result<(), SettingFault>
    ensures { OnOk result ((apex : DomainName) × ((events : List Event) →
        Run ⟦<Handler as ZoneHandler>⟧ ⟦<LeftToServer as ReplySigner>⟧.signature_for events service.old →
        Run ⟦<Handler as ZoneHandler>⟧ ⟦<LeftToServer as ReplySigner>⟧.signature_for
        (zone_failed name.now apex ∷ list_set list.now ∷ events) service.new)) }
{
    service.set_blocklist(alloc, list)?;
    service.fail_zone(alloc, name)
}

/// A server that takes the name of a key, whose requests may have transfers from anywhere.
pub fn worked_setting(alloc: Global, service: &mut Service, key: &[u8]) -> Result<(), SettingFault>
    ensures { OnOk result ((events : List Event) →
        Run ⟦<Handler as ZoneHandler>⟧ ⟦<LeftToServer as ReplySigner>⟧.signature_for events service.old →
        Run ⟦<Handler as ZoneHandler>⟧ ⟦<LeftToServer as ReplySigner>⟧.signature_for (other_set ∷ events) service.new) }
{
    service.allow_transfer_key(alloc, key)
}

/// A server that takes three rules of who may have a zone transferred.
pub fn worked_zone_transfers(
    alloc: Global,
    service: &mut Service,
    zone: &[u8],
    network: &[u8],
    part: &[u8],
    key: &[u8],
) -> Result<(), SettingFault>
    ensures { OnOk result ((events : List Event) →
        Run ⟦<Handler as ZoneHandler>⟧ ⟦<LeftToServer as ReplySigner>⟧.signature_for events service.old →
        Run ⟦<Handler as ZoneHandler>⟧ ⟦<LeftToServer as ReplySigner>⟧.signature_for
        (other_set ∷ other_set ∷ other_set ∷ events) service.new) }
{
    service.allow_zone_transfer(alloc, zone, network)?;
    service.deny_zone_transfer(alloc, zone, part)?;
    service.allow_zone_transfer_key(alloc, zone, key)
}

/// A zone that has rules of its own, in any letter case of its name, is judged by them alone: who may have another zone
/// may not for that have this one, and neither may the key for all zones.
pub fn worked_own_rules()
    ensures networks { (rules : Rules) (zone : ZoneTransfers) (message : MessageRequest) →
        zone.apex ≡ named (codes "example") → rules.zones.items ≡ zone ∷ [] →
        message.queries.queries ≡ transfer_of (named (codes "EXAMPLE")) ∷ [] →
        transfers_for rules message ≡ zone.access }
    ensures keys { (names : List DomainName) (rules : Rules) (zone : ZoneTransfers) (message : MessageRequest) →
        zone.apex ≡ named (codes "example") → rules.zones.items ≡ zone ∷ [] →
        message.queries.queries ≡ transfer_of (named (codes "EXAMPLE")) ∷ [] →
        keys_for names rules message ≡ zone.keys.items }
{}

/// A zone without rules of its own is judged by those for all zones, also if it is below one that has some.
pub fn worked_common_rules()
    ensures networks { (rules : Rules) (zone : ZoneTransfers) (message : MessageRequest) →
        zone.apex ≡ named (codes "example") → rules.zones.items ≡ zone ∷ [] →
        message.queries.queries ≡ transfer_of (below (codes "a") (codes "example")) ∷ [] →
        transfers_for rules message ≡ rules.transfers }
    ensures keys { (names : List DomainName) (rules : Rules) (zone : ZoneTransfers) (message : MessageRequest) →
        zone.apex ≡ named (codes "example") → rules.zones.items ≡ zone ∷ [] →
        message.queries.queries ≡ transfer_of (below (codes "a") (codes "example")) ∷ [] →
        keys_for names rules message ≡ names }
{}

/// A server that answers a message, or does not answer it.
pub fn worked_message(
    alloc: Global,
    service: &mut Service,
    message: &Incoming,
    out: &mut [u8],
) -> Result<usize, Refusal>
    ensures { (events : List Event) →
        Run ⟦<Handler as ZoneHandler>⟧ ⟦<LeftToServer as ReplySigner>⟧.signature_for events service.old →
        (outcome : Result Answer ServeError) ×
        Run ⟦<Handler as ZoneHandler>⟧ ⟦<LeftToServer as ReplySigner>⟧.signature_for
        (message_came message.entry.now outcome ∷ events) service.new }
{
    let bytes = message.bytes.as_slice();
    let answering = &mut service.answering;
    answering.answer(
        alloc,
        bytes,
        message.src,
        message.protocol,
        message.now,
        out,
    )
}

/// A server that answers the messages of a stream's bytes: each is a message that came.
pub fn worked_stream(
    alloc: Global,
    service: &mut Service,
    bytes: &[u8],
    source: SocketAddr,
    now: u64,
    out: &mut [u8],
) -> StreamAnswer
    ensures { StreamGoesOn ⟦<Handler as ZoneHandler>⟧ ⟦<LeftToServer as ReplySigner>⟧.signature_for source now
        (take result.consumed bytes.now) service.old service.new }
{
    let answering = &mut service.answering;
    answering.answer_stream(alloc, bytes, source, now, out)
}

/// A server that opens the journal of a zone, has a batch without messages, and lets the zone of its first journal take
/// no updates any more. Returns whether the batch ended.
pub fn worked_journal(
    alloc: Global,
    service: &mut Service,
    name: &[u8],
    first: &[u8],
    second: &[u8],
) -> Result<bool, SettingFault>
    ensures { IfOk result (λ ended. ended ≡ true → (events : List Event) →
        Run ⟦<Handler as ZoneHandler>⟧ ⟦<LeftToServer as ReplySigner>⟧.signature_for events service.old →
        Run ⟦<Handler as ZoneHandler>⟧ ⟦<LeftToServer as ReplySigner>⟧.signature_for
        (updates_stopped 0 ∷ batch_ended ∷ batch_begun ∷ journal_opened name.now first.now second.now ∷ events)
        service.new) }
{
    service.open_journal(alloc, name, first, second)?;
    service.begin_batch(alloc);
    let ended = service.end_batch(alloc);
    service.stop_updates(alloc, 0);
    Ok(ended)
}

/// A server that does not take the journal of a zone.
pub fn worked_failed_journal(
    alloc: Global,
    service: &mut Service,
    name: &[u8],
    journal: &[u8],
    spare: &[u8],
) -> Result<Opened, SettingFault>
    ensures { OnErr result ((events : List Event) →
        Run ⟦<Handler as ZoneHandler>⟧ ⟦<LeftToServer as ReplySigner>⟧.signature_for events service.old →
        Run ⟦<Handler as ZoneHandler>⟧ ⟦<LeftToServer as ReplySigner>⟧.signature_for
        (journal_failed name.now journal.now spare.now ∷ events) service.new) }
{
    service.open_journal(alloc, name, journal, spare)
}

/// The network of a text is its first 24 bits, and no other (RFC 4632 section 3.1).
pub fn worked_network()
    ensures network { IsNetworkText (codes "192.0.2.0/24")
        (record { family = Ipv4; prefix_length = 24; prefix = 12582914 }) }
    ensures only { (network : Network) → IsNetworkText (codes "192.0.2.0/24") network →
        network ≡ record { family = Ipv4; prefix_length = 24; prefix = 12582914 } }
{
    network_text_laws();
}

/// A key is named with a dot at its end or without one.
pub fn worked_key()
    ensures without { IsKeyName (codes "k") (record { labels = codes "k" ∷ []; is_fqdn = true }) }
    ensures with_dot { IsKeyName (codes "k.") (record { labels = codes "k" ∷ []; is_fqdn = true }) }
{}

/// A rule of a key, for the name that the key has and for all types.
pub fn worked_rule()
    ensures { IsRuleText (codes "k self")
        (record { key = record { labels = codes "k" ∷ []; is_fqdn = true }; scope = OwnName; types = [] }) }
{}

/// 512 bytes are enough for a reply over UDP.
pub fn worked_size(service: &mut Service) -> Result<(), SettingFault>
    ensures taken { IsOk result }
    ensures size { service.new ≡ with_rules service.old (record (rules_of service.old) { max_udp = 512 }) }
{
    service.set_max_udp(512)
}

/// A rate of 0 is no limit.
pub fn worked_rate(alloc: Global, service: &mut Service) -> Result<(), SettingFault>
    ensures { OnOk result (service.new.limits ≡ None) }
{
    service.set_rate_limit(alloc, 0, 2)
}
