//! Rules of who may update what.

ghost use Rattle.std.specs.Prelude.{◌≡◌, ◌↔◌, ◌++◌, ◌∷◌, [], IfOk, IsTrue, OnErr, OnOk};
ghost use Rattle.std.specs.List.{list_any};
ghost use Rattle.update_policy.specs.Grants.{AreGranted, Grants, IsGranted, IsInScope, is_listed, is_of_types, is_ordinary};

use std::alloc::{AllocError, Global};
use std::marker::Model;
use wire_messages::rr::rdata::RData;
use wire_messages::rr::record::Record;
use wire_messages::rr::record_type::RecordType;
use wire_names::rr::domain::name::Name;
use wire_names::values::items::Items;

/// The type by which an update deletes all sets of a name at once (RFC 2136 section 2.5.3).
const ANY: u16 = 255;

/// Authenticated denial of existence (RFC 5155).
const NSEC3: u16 = 50;

/// Authenticated denial of existence (RFC 4034).
const NSEC: u16 = 47;

/// The names that a rule is for, letter case aside.
#[derive(Drop)]
pub enum Scope {
    /// All names of the zone.
    Zone,
    /// A name, and all below it.
    Subdomain(Name),
    /// One name.
    OneName(Name),
    /// The name that the key has.
    OwnName,
}

impl Scope {
    /// A copy.
    fn copied(&self) -> Result<Scope, AllocError>
        ensures { IfOk result (λ scope. scope ≡ self.now) }
    {
        match self {
            Scope::Zone => Ok(Scope::Zone),
            Scope::Subdomain(base) => Ok(Scope::Subdomain(base.clone()?)),
            Scope::OneName(name) => Ok(Scope::OneName(name.clone()?)),
            Scope::OwnName => Ok(Scope::OwnName),
        }
    }
}

/// A rule: under this key, records of these names and types may be updated.
#[derive(Drop)]
pub struct Rule {
    /// The name of the key.
    pub key: Name,
    /// The names.
    pub scope: Scope,
    /// The types; where there is none, all but RRSIG, NS, SOA, NSEC and NSEC3, and no deletion of all sets of a name at
    /// once. `ANY` stands for all but NSEC and NSEC3.
    pub types: Items<RecordType>,
}

/// Whether a name lies in the scope of a rule.
fn is_in_scope(scope: &Scope, key: &Name, name: &Name) -> bool
    ensures { IsTrue result ↔ IsInScope scope.now key.now name.now }
{
    match scope {
        Scope::Zone => true,
        Scope::Subdomain(base) => base.zone_of(name),
        Scope::OneName(base) => base == name,
        Scope::OwnName => key == name,
    }
}

/// Whether a rule without types is for a type.
fn is_ordinary(kind: RecordType) -> bool
    ensures { result ≡ is_ordinary kind }
{
    !(kind == RecordType::RRSIG
        || kind == RecordType::NS
        || kind == RecordType::SOA
        || kind.value() == NSEC
        || kind.value() == NSEC3
        || kind.value() == ANY)
}

/// Whether a listed type is for a type.
fn is_listed(kind: RecordType, listed: RecordType) -> bool
    ensures { result ≡ is_listed kind listed }
{
    listed == kind || (listed.value() == ANY && !(kind.value() == NSEC || kind.value() == NSEC3))
}

/// Whether one of these types is for a type.
fn is_any_listed(types: &[RecordType], kind: RecordType) -> bool
    ensures { result ≡ list_any (is_listed kind) types.now }
{
    types.iter().any(|listed| is_listed(kind, *listed))
}

/// Whether a rule with these types is for a type.
fn is_of_types(types: &[RecordType], kind: RecordType) -> bool
    ensures { result ≡ is_of_types types.now kind }
{
    match types {
        [] => is_ordinary(kind),
        [_, ..] => is_any_listed(types, kind),
    }
}

impl Rule {
    /// A copy.
    pub fn copied(&self, alloc: Global) -> Result<Rule, AllocError>
        ensures { IfOk result (λ rule. rule ≡ self.now) }
    {
        Ok(Rule {
            key: self.key.clone()?,
            scope: self.scope.copied()?,
            types: Items::from_vec(Vec::from_slice(alloc, self.types.as_slice())?),
        })
    }

    /// Whether the rule is for records of this name and type in the zone, under this key.
    fn grants(&self, key: &Name, zone: &Name, name: &Name, kind: RecordType) -> bool
        ensures { IsTrue result ↔ Grants self.now key.now zone.now name.now kind }
    {
        self.key == *key
            && zone.zone_of(name)
            && is_in_scope(&self.scope, key, name)
            && is_of_types(self.types.as_slice(), kind)
    }
}

/// The rules of a zone. What no rule grants is not granted.
#[derive(Drop)]
pub struct Policy {
    rules: Vec<Rule>,
}

impl Model for Policy {
    ghost use Rattle.std.specs.Prelude.{List};
    ghost use Rattle.update_policy.specs.declared.policy.Rule.{Rule};

    ghost Value = { List Rule };

    ghost view = { λ policy. policy.rules.items };
}

impl Policy {
    /// No rules. It needs no memory.
    pub fn new(alloc: Global) -> Policy
        ensures { result ≡ [] }
    {
        Policy {
            rules: Vec::new(alloc),
        }
    }

    /// Whether there is no rule.
    pub fn is_empty(&self) -> bool
        ensures { IsTrue result ↔ (self.now ≡ []) }
    {
        self.rules.is_empty()
    }

    /// Adds a rule.
    pub fn add(&mut self, rule: Rule) -> Result<(), AllocError>
        ensures ok { OnOk result (self.new ≡ self.old ++ rule ∷ []) }
        ensures err { OnErr result (self.new ≡ self.old) }
    {
        self.rules.push(rule)?;
        Ok(())
    }

    /// Whether records of this name and type in the zone may be updated under this key. It looks at each rule in turn.
    pub fn grants(&self, key: &Name, zone: &Name, name: &Name, kind: RecordType) -> bool
        ensures { IsTrue result ↔ IsGranted self.now key.now zone.now name.now kind }
    {
        let mut rest = self.rules.as_slice();
        while let [rule, others @ ..] = rest {
            if rule.grants(key, zone, name, kind) {
                return true;
            }
            rest = others;
        }
        false
    }

    /// Whether all records of an update section (RFC 2136 section 2.5) may be updated under this key: exactly where
    /// each of them may.
    pub fn grants_all(&self, key: &Name, zone: &Name, records: &[Record<RData>]) -> bool
        ensures { IsTrue result ↔ AreGranted self.now key.now zone.now records.now }
    {
        let mut rest = records;
        while let [next, others @ ..] = rest {
            if !self.grants(key, zone, &next.name, next.rdata.record_type()) {
                return false;
            }
            rest = others;
        }
        true
    }
}
