//! The server that C holds: what it answers by, and how it is set.

ghost use Rattle.std.specs.Prelude.{◌≡◌, ◌≤◌, ◌↔◌, ◌++◌, ◌∷◌, [], IfOk, IsOk, OnErr, OnOk, None, Some, option_map};
ghost use Rattle.server_limits.specs.Access.{SameNetworks};
ghost use Rattle.served_keys.specs.ServedKeys.{AreKeysOfFile, IsKeyNamed, all_networks};
ghost use Rattle.served_zones.specs.Grants.{IsGrantOf};
ghost use Rattle.hickory_catalog.specs.zones.Zones.{ChangesAt};
ghost use Rattle.served_zones.specs.ServedZones.{IsApexText, IsLoadedAs, IsZoneOfFile};
ghost use Rattle.served_zones.specs.declared.grants.Grant.{Grant as Granted};
ghost use Rattle.server.specs.Networks.{AllowsText, HasNoNetwork, InsertsText};
ghost use Rattle.wire_names.specs.rr.domain.DomainName.{DomainName};
ghost use Rattle.wire_names.specs.rr.domain.NameOrder.{lower_name};

use crate::answering::Answering;
use crate::settings::{SettingFault, blocklist, key_name, network, zone_name, zone_rule};
use crate::transfers::nobody;
use crate::updates::see_zones;
use hickory_server::access::AccessControl;
use hickory_server::proto::{LowerName, Name};
use hickory_server::server::{Rules, Server};
use hickory_server::store::blocklist::BlocklistZoneHandler;
use hickory_server::zone_handler::Catalog;
use hickory_server::zone_store::Either;
use journal::host_file::HostFile;
use name_lists::ListReport;
use served_keys::files::keys_of_file;
use served_keys::networks::{parts, with_all};
use served_notices::Notifying;
use served_zones::chains::{chain, put_chain};
use served_zones::grants::{Grant, grant_updates};
use served_zones::handler::{self, Zones};
use served_zones::identifier::identifier;
use served_zones::zone_files::zone_of_file;
use server_limits::RateLimits;
use server_reports::Counters;
use signed_server::{LeftToServer, SignedServer};
use std::alloc::{AllocError, Global};
use std::rc::Rc;
use tsig::Keys;

/// A handler of a chain. The files of its journal, if it has one, are the caller's.
pub type Handler = handler::Handler<HostFile>;

/// A server, with what it has done in numbers, how many replies networks get, the names of the apexes of its zones in
/// the order of the calls, the rules of who may update which zone, the list of blocked names for zones that are still to
/// come, and who is told that zones have changed.
#[derive(Drop)]
pub struct Service {
    pub answering: Answering<LeftToServer, Handler>,
    pub counters: Counters,
    pub limits: Option<RateLimits>,
    pub(crate) apexes: Vec<Name>,
    grants: Vec<Grant>,
    list: Option<Rc<BlocklistZoneHandler>>,
    /// The names of the apexes of the zones that have a journal, in the order in which the journals were opened.
    pub(crate) journals: Vec<LowerName>,
    pub notifying: Notifying,
}

/// Puts the chain of a zone at its apex. After `ZoneTwice` the zone is there, and the one that was there is gone.
fn put(
    alloc: Global,
    catalog: &mut Zones<HostFile>,
    apex: &Name,
    chain: Vec<Handler>,
) -> Result<(), SettingFault>
    ensures put { OnOk result
        (ChangesAt catalog.old.zones (lower_name apex.now) None (Some chain.items) catalog.new.zones) }
    ensures others { catalog.new ≡ record catalog.old { zones = catalog.new.zones } }
{
    if put_chain(alloc, catalog, apex, chain)? {
        Ok(())
    } else {
        Err(SettingFault::ZoneTwice)
    }
}

/// Puts the zone of this name from the bytes of its file into the catalog, with the list of blocked names after it, if
/// there is one. Returns the name of its apex.
fn load(
    alloc: Global,
    catalog: &mut Zones<HostFile>,
    name: &[u8],
    bytes: &[u8],
    list: Option<&Rc<BlocklistZoneHandler>>,
) -> Result<Name, SettingFault>
    ensures loaded { IfOk result (λ apex.
        IsLoadedAs (IsZoneOfFile bytes.now) name.now (option_map (λ it. it.now.value) list.entry) apex
        catalog.old.zones catalog.new.zones) }
    ensures others { catalog.new ≡ record catalog.old { zones = catalog.new.zones } }
{
    let apex = zone_name(alloc, name)?;
    let zone = zone_of_file(alloc, &apex, bytes)?;
    let chain = chain(alloc, Either::Left(zone), list)?;
    put(alloc, catalog, &apex, chain)?;
    Ok(apex)
}

/// Allows the network that a text spells. Addresses that no network allows are denied.
pub(crate) fn allow_only(
    alloc: Global,
    access: &mut AccessControl,
    text: &[u8],
) -> Result<(), SettingFault>
    ensures { OnOk result (AllowsText text.now access.old access.new) }
{
    let network = network(text)?;
    let allowed = parts(alloc, &[network])?;
    let all = with_all(alloc, &[])?;
    access.insert_deny(all.as_slice())?;
    Ok(access.insert_allow(allowed.as_slice())?)
}

/// A server without zones and keys, which everybody may use, and from which nobody may have transfers.
fn empty_server(alloc: Global) -> Result<SignedServer<LeftToServer, Handler>, AllocError>
    ensures keys { IfOk result (λ made. made.keys ≡ []) }
    ensures transfer_keys { IfOk result (λ made. made.transfer_keys.items ≡ []) }
    ensures zones { IfOk result (λ made. made.server.catalog.zones ≡ []) }
    ensures identifier { IfOk result (λ made. made.server.catalog.nsid ≡ None) }
    ensures denied { IfOk result (λ made. HasNoNetwork made.server.rules.access.deny) }
    ensures allowed { IfOk result (λ made. HasNoNetwork made.server.rules.access.allow) }
    ensures transfers_denied { IfOk result (λ made. SameNetworks all_networks made.server.rules.transfers.deny) }
    ensures transfers_allowed { IfOk result (λ made. HasNoNetwork made.server.rules.transfers.allow) }
    ensures own_rules { IfOk result (λ made. made.server.rules.zones.items ≡ []) }
    ensures limit { IfOk result (λ made. made.server.rules.max_udp ≡ 1232) }
{
    let catalog = Catalog::new(alloc, LeftToServer);
    let mut rules = Rules::new(alloc);
    rules.transfers = nobody(alloc)?;
    let server = Server::new(alloc, rules, catalog)?;
    let signed = SignedServer::new(alloc, server, Keys::new(alloc))?;
    Ok(signed)
}

impl Service {
    ghost use Rattle.server.specs.Limited.{AreLimitsOf};
    ghost use Rattle.server.specs.Lists.{IsListOfText};
    ghost use Rattle.server.specs.Settings.{IsUnset, rules_of, with_identifier, with_keys, with_rules, with_transfer_keys, with_zones, zones_of};
    ghost use Rattle.server.specs.Updates.{AreServed};

    /// A server without zones and keys, which everybody may use, and from which nobody may have transfers.
    pub fn new(alloc: Global) -> Result<Service, AllocError>
        ensures { IfOk result IsUnset }
    {
        Ok(Service {
            answering: Answering::new(alloc, empty_server(alloc)?),
            counters: Counters::new(),
            limits: None,
            apexes: Vec::new(alloc),
            grants: Vec::new(alloc),
            list: None,
            journals: Vec::new(alloc),
            notifying: Notifying::new(alloc),
        })
    }

    /// Blocks the names that a text lists in each zone that is added later. Returns what became of its lines.
    pub fn set_blocklist(&mut self, alloc: Global, text: &[u8]) -> Result<ListReport, SettingFault>
        ensures list { IfOk result (λ counts.
            IsListOfText text.now counts (option_map (λ it. it.value) self.new.list)) }
        ensures others { self.new ≡ record self.old { list = self.new.list } }
    {
        let (list, report) = blocklist(alloc, text)?;
        self.list = Some(list);
        Ok(report)
    }

    /// Serves the zone of this name from the bytes of its file, with the list of blocked names after it, if there is
    /// one. It takes no updates before [`Service::serve_zones`]. After `ZoneTwice` it is served in place of the zone
    /// that was there. After another error it may be served.
    pub fn add_zone(&mut self, alloc: Global, name: &[u8], bytes: &[u8]) -> Result<(), SettingFault>
        ensures ok { OnOk result ((apex : DomainName) × (self.new.apexes.items ≡ self.old.apexes.items ++ apex ∷ []) ×
            IsLoadedAs (IsZoneOfFile bytes.now) name.now (option_map (λ it. it.value) self.old.list) apex
            (zones_of self.old) (zones_of self.new)) }
        ensures others { self.new ≡ with_zones (record self.old { apexes = self.new.apexes }) (zones_of self.new) }
    {
        let catalog = &mut self.answering.server.server.catalog;
        let apex = load(alloc, catalog, name, bytes, self.list.as_ref())?;
        Ok(self.apexes.push(apex)?)
    }

    /// Answers SERVFAIL to each query for the zone of this name, of which no file is taken. After `ZoneTwice` the zone
    /// that was there is gone.
    pub fn fail_zone(&mut self, alloc: Global, name: &[u8]) -> Result<(), SettingFault>
        ensures ok { OnOk result ((apex : DomainName) × IsApexText name.now apex ×
            (self.new.apexes.items ≡ self.old.apexes.items ++ apex ∷ []) ×
            ChangesAt (zones_of self.old) (lower_name apex) None (Some []) (zones_of self.new)) }
        ensures others { self.new ≡ with_zones (record self.old { apexes = self.new.apexes }) (zones_of self.new) }
    {
        let catalog = &mut self.answering.server.server.catalog;
        let apex = zone_name(alloc, name)?;
        put(alloc, catalog, &apex, Vec::new(alloc))?;
        self.apexes.push(apex)?;
        Ok(())
    }

    /// Takes the keys that the bytes of a file have, of which there is one at least. Those that were there are gone.
    pub fn set_keys(&mut self, alloc: Global, text: &[u8]) -> Result<(), SettingFault>
        ensures ok { OnOk result (AreKeysOfFile text.now self.new.answering.server.keys) }
        ensures others { self.new ≡ with_keys self.old self.new.answering.server.keys }
    {
        self.answering.server.keys = keys_of_file(alloc, text)?;
        Ok(())
    }

    /// Lets requests that a key of this name signed have zones transferred from anywhere that have no rules of their
    /// own.
    pub fn allow_transfer_key(&mut self, alloc: Global, text: &[u8]) -> Result<(), SettingFault>
        ensures ok { OnOk result ((name : DomainName) × IsKeyNamed self.old.answering.server.keys text.now name ×
            (self.new.answering.server.transfer_keys.items ≡
            self.old.answering.server.transfer_keys.items ++ name ∷ [])) }
        ensures others { self.new ≡ with_transfer_keys self.old self.new.answering.server.transfer_keys }
    {
        let server = &mut self.answering.server;
        let name = key_name(alloc, &server.keys, text)?;
        Ok(server.transfer_keys.push(name)?)
    }

    /// Lets a zone take the updates that a rule grants, which is as [`read_rule`](update_policy::read_rule) takes it;
    /// its key is one of the server's.
    pub fn allow_update(
        &mut self,
        alloc: Global,
        zone: &[u8],
        rule: &[u8],
    ) -> Result<(), SettingFault>
        ensures ok { OnOk result ((grant : Granted) × IsGrantOf self.old.answering.server.keys zone.now rule.now grant ×
            (self.new.grants.items ≡ self.old.grants.items ++ grant ∷ [])) }
        ensures others { self.new ≡ record self.old { grants = self.new.grants } }
    {
        let grant = zone_rule(alloc, &self.answering.server.keys, zone, rule)?;
        Ok(self.grants.push(grant)?)
    }

    /// Gives the zones that were added their rules: a zone that has one takes the updates that its rules grant to these
    /// keys. `RuleWithoutZone` says that a rule is of no zone that was added, and changes nothing. After `Memory` some
    /// zones have their rules.
    pub fn serve_zones(&mut self, alloc: Global) -> Result<(), SettingFault>
        ensures ok { OnOk result (AreServed self.old.answering.server.keys self.old.grants.items self.old.apexes.items
            (zones_of self.old) (zones_of self.new)) }
        ensures others { self.new ≡ with_zones self.old (zones_of self.new) }
    {
        see_zones(&self.grants, &self.apexes)?;
        let server = &mut self.answering.server;
        Ok(grant_updates(
            alloc,
            &server.keys,
            &self.grants,
            &self.apexes,
            &mut server.server.catalog,
        )?)
    }

    /// Lets the addresses of a network use the server. All others may not, unless another call allows them.
    pub fn allow(&mut self, alloc: Global, text: &[u8]) -> Result<(), SettingFault>
        ensures ok { OnOk result (AllowsText text.now (rules_of self.old).access (rules_of self.new).access) }
        ensures others { self.new ≡ with_rules self.old
            (record (rules_of self.old) { access = (rules_of self.new).access }) }
    {
        allow_only(alloc, &mut self.answering.server.server.rules.access, text)
    }

    /// Keeps the addresses of a network from the server.
    pub fn deny(&mut self, text: &[u8]) -> Result<(), SettingFault>
        ensures ok { OnOk result
            (InsertsText text.now (rules_of self.old).access.deny (rules_of self.new).access.deny) }
        ensures allowed { SameNetworks (rules_of self.old).access.allow (rules_of self.new).access.allow }
        ensures others { self.new ≡ with_rules self.old
            (record (rules_of self.old) { access = (rules_of self.new).access }) }
    {
        let network = network(text)?;
        let denied = &mut self.answering.server.server.rules.access;
        Ok(denied.insert_deny(&[network])?)
    }

    /// Lets the addresses of a network have zones transferred that have no rules of their own, if they may use the
    /// server.
    pub fn allow_transfer(&mut self, alloc: Global, text: &[u8]) -> Result<(), SettingFault>
        ensures ok { OnOk result (AllowsText text.now (rules_of self.old).transfers (rules_of self.new).transfers) }
        ensures others { self.new ≡ with_rules self.old
            (record (rules_of self.old) { transfers = (rules_of self.new).transfers }) }
    {
        allow_only(
            alloc,
            &mut self.answering.server.server.rules.transfers,
            text,
        )
    }

    /// Keeps transfers of zones that have no rules of their own from the addresses of a network, which is part of an
    /// allowed one.
    pub fn deny_transfer(&mut self, text: &[u8]) -> Result<(), SettingFault>
        ensures ok { OnOk result
            (InsertsText text.now (rules_of self.old).transfers.deny (rules_of self.new).transfers.deny) }
        ensures allowed { SameNetworks (rules_of self.old).transfers.allow (rules_of self.new).transfers.allow }
        ensures others { self.new ≡ with_rules self.old
            (record (rules_of self.old) { transfers = (rules_of self.new).transfers }) }
    {
        let network = network(text)?;
        let others = &mut self.answering.server.server.rules.transfers;
        Ok(others.insert_deny(&[network])?)
    }

    /// Sets how many bytes a reply over UDP has at most, from 512 on.
    pub fn set_max_udp(&mut self, size: u16) -> Result<(), SettingFault>
        ensures taken { IsOk result ↔ (512 ≤ size) }
        ensures ok { OnOk result (self.new ≡ with_rules self.old (record (rules_of self.old) { max_udp = size })) }
        ensures err { OnErr result (self.new ≡ self.old) }
    {
        if size < 512 {
            return Err(SettingFault::MaxUdp);
        }
        self.answering.server.server.rules.max_udp = size;
        Ok(())
    }

    /// Sets how many replies over UDP a network of clients gets in a second, and of how many above that one is
    /// truncated. A rate of 0 is no limit.
    pub fn set_rate_limit(
        &mut self,
        alloc: Global,
        rate: u32,
        slip: u32,
    ) -> Result<(), SettingFault>
        ensures ok { OnOk result (AreLimitsOf rate slip self.new.limits) }
        ensures others { self.new ≡ record self.old { limits = self.new.limits } }
    {
        self.limits = if rate == 0 {
            None
        } else {
            Some(RateLimits::new(alloc, rate, slip, 1)?)
        };
        Ok(())
    }

    /// Sets what identifies the server to clients that ask (RFC 5001).
    pub fn set_identifier(&mut self, alloc: Global, bytes: &[u8]) -> Result<(), SettingFault>
        ensures ok { OnOk result (self.new ≡ with_identifier self.old (Some bytes.now)) }
        ensures err { OnErr result (self.new ≡ self.old) }
    {
        let payload = identifier(alloc, bytes)?;
        self.answering.server.server.catalog.set_nsid(Some(payload));
        Ok(())
    }
}
