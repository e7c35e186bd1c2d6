//! Rules of who may update what, each with the zone that it is of.

ghost use Rattle.std.specs.Prelude.{◌≡◌, ◌++◌, ◌∷◌, [], IfOk, OnOk};
ghost use Rattle.served_zones.specs.Given.{AreGiven, Gives, HandlerGiven};
ghost use Rattle.served_zones.specs.Grants as spec;
ghost use Rattle.served_zones.specs.Grants.{IsGrantOf, rules_for};
ghost use Rattle.served_zones.specs.ServedZones.{IsApexText};
ghost use Rattle.served_zones.specs.ZoneChanges.{FirstChanges, ZoneChanges};
ghost use Rattle.update_policy.specs.RuleTexts.{IsRuleText};

use crate::chains::apex;
use crate::handler::{Handler, Zones};
use either::Either;
use hickory_wire::LowerName;
use sqlite_disk::Disk;
use std::alloc::{AllocError, Global};
use thiserror::Error;
use tsig::{Keys, TsigVerifier};
use update_policy::{Policy, Rule, RuleTextError, read_rule};
use wire_names::error::NameError;
use wire_names::rr::domain::name::Name;

/// A rule of who may update what in a zone.
#[derive(Drop)]
pub struct Grant {
    /// The name of the zone's apex.
    pub apex: Name,
    /// The rule.
    pub rule: Rule,
}

/// Why texts are not a rule of a zone.
#[derive(Clone, Copy, Debug, PartialEq, Eq, Error)]
pub enum GrantFault {
    /// The first text is not the name of a zone.
    #[error("not the name of a zone")]
    Zone,
    /// A word is missing: the name of the key, or the name after `subdomain` or `name`.
    #[error("not ZONE=KEY [zone|subdomain NAME|name NAME|self] [TYPE..]")]
    Form,
    /// The word for the key, or the word after `subdomain` or `name`, is not a name.
    #[error("not the name of a key, or after 'subdomain' or 'name' not a name")]
    Name,
    /// A word is not a type of records.
    #[error("unknown type")]
    Type,
    /// There is no key with this name.
    #[error("there is no key of this name")]
    Key,
    /// An allocation failed.
    #[error("no memory")]
    Memory,
}

/// The name of the apex of a zone.
fn apex_of(alloc: Global, text: &str) -> Result<Name, GrantFault>
    ensures { IfOk result (IsApexText text.now) }
{
    match apex(alloc, text) {
        Ok(name) => Ok(name),
        Err(NameError::Text) => Err(GrantFault::Zone),
        Err(_) => Err(GrantFault::Memory),
    }
}

/// The fault that a rule has.
fn fault_of(fault: RuleTextError) -> GrantFault
    ensures { result ≡ spec.fault_of fault }
{
    match fault {
        RuleTextError::Form => GrantFault::Form,
        RuleTextError::Name => GrantFault::Name,
        RuleTextError::Type => GrantFault::Type,
        RuleTextError::Memory => GrantFault::Memory,
    }
}

/// The rule of a text.
fn rule_of(alloc: Global, text: &str) -> Result<Rule, GrantFault>
    ensures { IfOk result (IsRuleText text.now) }
{
    match read_rule(alloc, text) {
        Ok(rule) => Ok(rule),
        Err(fault) => Err(fault_of(fault)),
    }
}

/// The rule of a zone that two texts spell: the name of the zone, with or without a dot at its end, and the rule, as
/// [`read_rule`] takes it. Its key is one of these keys.
pub fn zone_grant(alloc: Global, keys: &Keys, zone: &str, rule: &str) -> Result<Grant, GrantFault>
    ensures { IfOk result (IsGrantOf keys.now zone.now rule.now) }
{
    let apex = apex_of(alloc, zone)?;
    let rule = rule_of(alloc, rule)?;
    if keys.find(&rule.key).is_none() {
        return Err(GrantFault::Key);
    }
    Ok(Grant { apex, rule })
}

/// Adds a rule to those of a zone, if it is of this zone.
fn put_rule(
    alloc: Global,
    policy: &mut Policy,
    grant: &Grant,
    apex: &Name,
) -> Result<(), AllocError>
    ensures { OnOk result (policy.new ≡ policy.old ++ rules_for (grant.now ∷ []) apex.now) }
{
    if grant.apex == *apex {
        policy.add(grant.rule.copied(alloc)?)?;
    }
    Ok(())
}

/// The rules of the zone of this apex, in their order.
pub fn policy_of(alloc: Global, grants: &[Grant], apex: &Name) -> Result<Policy, AllocError>
    ensures { IfOk result (λ policy. policy ≡ rules_for grants.now apex.now) }
{
    let mut policy = Policy::new(alloc);
    for grant in grants {
        put_rule(alloc, &mut policy, grant, apex)?;
    }
    Ok(policy)
}

/// Gives a handler these keys and rules, if it is a zone.
fn give<D: Disk + Drop>(handler: &mut Handler<D>, keys: Keys, policy: Policy)
    ensures { HandlerGiven keys policy handler.old handler.new }
{
    match handler {
        Either::Left(zone) => zone.set_updates(TsigVerifier { keys }, policy),
        Either::Right(_) => {}
    }
}

/// Gives the first handler of a chain these keys and rules, if it is a zone.
fn give_first<D: Disk + Drop>(chain: &mut Vec<Handler<D>>, keys: Keys, policy: Policy)
    ensures { FirstChanges (HandlerGiven keys policy) chain.old.items chain.new.items }
{
    if chain.is_empty() {
        return;
    }
    give(&mut chain[0], keys, policy)
}

/// Gives the zone of this apex, if there is one, these keys and rules.
fn give_zone<D: Disk + Drop>(zones: &mut Zones<D>, apex: &LowerName, keys: Keys, policy: Policy)
    ensures given { ZoneChanges (HandlerGiven keys policy) apex.now zones.old.zones zones.new.zones }
    ensures others { zones.new ≡ record zones.old { zones = zones.new.zones } }
{
    if let Some(chain) = zones.zone_mut(apex) {
        give_first(chain, keys, policy);
    }
}

/// Gives the zone of this apex, if there is one, the rules that are of it. After an error nothing has changed.
fn grant_zone<D: Disk + Drop>(
    alloc: Global,
    keys: &Keys,
    grants: &[Grant],
    apex: &Name,
    zones: &mut Zones<D>,
) -> Result<(), AllocError>
    ensures given { OnOk result
        (Gives keys.now (rules_for grants.now apex.now) apex.now zones.old.zones zones.new.zones) }
    ensures others { zones.new ≡ record zones.old { zones = zones.new.zones } }
{
    let policy = policy_of(alloc, grants, apex)?;
    if policy.is_empty() {
        return Ok(());
    }
    let name = LowerName::new(alloc, apex)?;
    let keys = keys.copied(alloc)?;
    give_zone(zones, &name, keys, policy);
    Ok(())
}

/// Gives the zones of these apexes their rules, in the order of the apexes. A zone that has a rule takes updates from
/// then on: those that these keys sign and its rules grant (RFC 2136 section 3.3). It keeps its journal, if it has one.
/// A zone without a rule remains as it was. For each zone, the time grows with the number of rules.
///
/// # Errors
///
/// An allocation failed: only the zones before that have their rules.
pub fn grant_updates<D: Disk + Drop>(
    alloc: Global,
    keys: &Keys,
    grants: &[Grant],
    apexes: &[Name],
    zones: &mut Zones<D>,
) -> Result<(), AllocError>
    ensures given { OnOk result (AreGiven keys.now grants.now apexes.now zones.old.zones zones.new.zones) }
    ensures others { zones.new ≡ record zones.old { zones = zones.new.zones } }
{
    for apex in apexes {
        grant_zone(alloc, keys, grants, apex, zones)?;
    }
    Ok(())
}
