//! The zone that is checked, with its records found by name.

ghost use Rattle.std.specs.Prelude.{◌≡◌, ◌↔◌, ◌<◌, Some, IfOk, IsSome, IsTrue, List, MatchOption, length, ℕ};
ghost use Rattle.std.specs.List.{find, slice_get};
ghost use Rattle.std.specs.Option.{option_copied, option_map};
ghost use Rattle.wire_names.specs.rr.domain.DomainName.{DomainName};
ghost use Rattle.wire_names.specs.rr.domain.NameOrder.{lower_name};
ghost use Rattle.zone_check.specs.CheckedZones.{HasWildAddress, IsApex, IsBelowApex, IsBelowCut, IsBelowDname, IsBelowWildcard, IsCut, IsDnameOwner, IsInZone, IsServer, Owns, OwnsAddress, OwnsData, checked_zone, first_of, is_data_of, is_server_of, is_wild_address_of};
ghost use Rattle.wire_messages.specs.declared.rr.rdata.RData.{RData as RecordData};
ghost use Rattle.wire_messages.specs.declared.rr.record.Record.{Record as RecordOf};
ghost use Rattle.zone_check.specs.Findings.{IsRepeated};
ghost use Rattle.zone_check.specs.HashedZones.{HasHash, IsEarlierHash, IsFirst, IsLast, IsLaterHash, IsOfName, first_with, hashing_of, is_at};
ghost use Rattle.zone_check.specs.SignedZones.{IsCovered, IsFirstLater, IsLaterOwner, is_signature_of};
ghost use Rattle.zone_denials.specs.Nsec3.{Hashing};
ghost use Rattle.zone_denials.specs.Nsec3Data.{hashing_by};

use crate::hashes::{self, Named};
use crate::index;
use std::alloc::{AllocError, Global};
use std::collections::BTreeMap;
use std::marker::Model;
use wire_messages::rr::record::Record;
use wire_messages::rr::record_type::RecordType;
use wire_messages::rr::rr_key::RrKey;
use wire_names::rr::domain::lower_name::LowerName;
use wire_names::rr::domain::name::Name;
use zone_denials::nsec3_data::Parameters;

/// The zone that is checked, with its records found by name.
#[derive(Drop)]
pub(crate) struct Subject<'z> {
    origin: Name,
    records: &'z [Record],
    previous: Option<u32>,
    time: Option<u32>,
    // The place of the first record of each name and type.
    firsts: BTreeMap<RrKey, usize>,
    // The place of the first record of each name that may not stand beside a CNAME.
    others: BTreeMap<LowerName, usize>,
    // The place of the first address of the wildcard right below each name.
    wilds: BTreeMap<LowerName, usize>,
    // The place of the first NS record that names each host.
    servers: BTreeMap<LowerName, usize>,
    // For each record the place of the last one before it that is of its name and type.
    earlier: Vec<Option<usize>>,
    // The place of the first NSEC record of each name.
    nsecs: BTreeMap<LowerName, usize>,
    // The place of the first signature over records of each name and type.
    signatures: BTreeMap<RrKey, usize>,
    // The place of the first record of each name.
    owners: BTreeMap<LowerName, usize>,
    // The parameters by which names are hashed, if the zone has them.
    hashing: Option<Parameters<'z>>,
    // The place of the first NSEC3 record of each hash.
    hashes: BTreeMap<[u8; 20], usize>,
    // The hashes of all names that exist, if the zone has parameters.
    names: BTreeMap<[u8; 20], usize>,
}

impl<'z> Model for Subject<'z> {
    ghost use Rattle.zone_check.specs.CheckedZones.{CheckedZone};
    ghost use Rattle.zone_check.specs.Indexes.{HasAllNames, HasData, HasEarlier, HasFirsts, HasHashes, HasNsecs, HasOwners, HasServers, HasSignatures, HasWilds, hashing_in};
    ghost use Rattle.std.specs.Prelude.{◌≡◌};
    ghost use Rattle.std.specs.Option.{option_map};
    ghost use Rattle.zone_denials.specs.Nsec3Data.{hashing_by};

    ghost Value = { CheckedZone };

    ghost view = { λ s. record { origin = s.origin; records = s.records.now; previous = s.previous; time = s.time } };

    ghost invariant = { λ s. HasFirsts s.records.now s.records.now s.firsts ×
        HasData s.records.now s.records.now s.others × HasWilds s.records.now s.records.now s.wilds ×
        HasServers s.records.now s.records.now s.servers × HasEarlier s.records.now s.earlier.items ×
        HasNsecs s.records.now s.nsecs × HasSignatures s.records.now s.records.now s.signatures ×
        HasOwners s.records.now s.owners × (option_map hashing_by s.hashing ≡ hashing_in s.origin s.records.now) ×
        HasHashes s.origin s.records.now s.records.now s.hashes × HasAllNames s.origin s.records.now s.names };
}

impl<'z> Subject<'z> {
    /// The zone of this apex, which is taken as fully qualified, and these records.
    pub(crate) fn new(
        alloc: Global,
        origin: &Name,
        records: &'z [Record],
        previous: Option<u32>,
        time: Option<u32>,
    ) -> Result<Subject<'z>, AllocError>
        ensures { IfOk result (λ subject. subject ≡ checked_zone origin.now records.now previous time) }
    {
        let mut apex = origin.clone()?;
        apex.set_fqdn(true);
        let firsts = index::firsts_of(alloc, records)?;
        let hashing = hashes::hashing_of(alloc, &apex, records, &firsts)?;
        let named = Named {
            origin: &apex,
            records,
            firsts: &firsts,
        };
        let names = hashes::names_of(alloc, &named, &hashing)?;
        let hashes = hashes::hashes_of(alloc, &apex, records)?;
        Ok(Subject {
            origin: apex,
            records,
            previous,
            time,
            firsts,
            others: index::data_of(alloc, records)?,
            wilds: index::wilds_of(alloc, records)?,
            servers: index::servers_of(alloc, records)?,
            earlier: index::earlier_of(alloc, records)?,
            nsecs: index::nsecs_of(alloc, records)?,
            signatures: index::signatures_of(alloc, records)?,
            owners: hashes::owners_of(alloc, records)?,
            hashing,
            hashes,
            names,
        })
    }

    /// The record at a place of its file, from 0 on, if there is one.
    pub(crate) fn record_at(&self, place: usize) -> Option<&Record>
        ensures { option_copied result ≡ slice_get self.now.records place }
    {
        index::record_at(self.records, place)
    }

    /// Whether a record before the one at a place is the same.
    pub(crate) fn is_repeated(&self, place: usize) -> bool
        requires { place < length self.now.records }
        ensures { (r : RecordOf RecordData) → slice_get self.now.records place ≡ Some r →
            (IsTrue result ↔ IsRepeated self.now.records place r) }
    {
        index::stands_before(self.records, &self.earlier, place)
    }

    /// The serial of the zone before.
    pub(crate) fn previous(&self) -> Option<u32>
        ensures { result ≡ self.now.previous }
    {
        self.previous
    }

    /// The time, in seconds since 1970 modulo 2^32, if it is known.
    pub(crate) fn time(&self) -> Option<u32>
        ensures { result ≡ self.now.time }
    {
        self.time
    }

    /// The name of its apex.
    pub(crate) fn origin(&self) -> &Name
        ensures { result.now ≡ self.now.origin }
    {
        &self.origin
    }

    /// The first record of a name in lower case and a type.
    fn first_under(&self, key: &RrKey) -> Option<&Record>
        ensures { option_copied result ≡ first_of self.now key.now.name key.now.record_type }
    {
        index::first_under(self.records, &self.firsts, key)
    }

    /// The first record of a name and a type.
    pub(crate) fn first_of(
        &self,
        alloc: Global,
        name: &Name,
        record_type: RecordType,
    ) -> Result<Option<&Record>, AllocError>
        ensures { IfOk result (λ first. option_copied first ≡ first_of self.now name.now record_type) }
    {
        let key = RrKey::new(LowerName::new(alloc, name)?, record_type);
        Ok(self.first_under(&key))
    }

    /// Whether a name owns records of a type.
    pub(crate) fn owns(
        &self,
        alloc: Global,
        name: &Name,
        record_type: RecordType,
    ) -> Result<bool, AllocError>
        ensures { IfOk result (λ owns. IsTrue owns ↔ Owns self.now name.now record_type) }
    {
        let first = self.first_of(alloc, name, record_type)?;
        Ok(first.is_some())
    }

    /// Whether a name owns an address.
    pub(crate) fn owns_address(&self, alloc: Global, name: &Name) -> Result<bool, AllocError>
        ensures { IfOk result (λ owns. IsTrue owns ↔ OwnsAddress self.now name.now) }
    {
        if self.owns(alloc, name, RecordType::A)? {
            return Ok(true);
        }
        self.owns(alloc, name, RecordType::AAAA)
    }

    /// The first signature over records of a name in lower case and a type.
    fn signature_under(&self, key: &RrKey) -> Option<&Record>
        ensures { option_copied result ≡ find (is_signature_of key.now.name key.now.record_type) self.now.records }
    {
        index::signature_under(self.records, &self.signatures, key)
    }

    /// The first signature over records of a name and a type.
    fn signature_of(
        &self,
        alloc: Global,
        name: &Name,
        record_type: RecordType,
    ) -> Result<Option<&Record>, AllocError>
        ensures { IfOk result (λ first.
            option_copied first ≡ find (is_signature_of name.now record_type) self.now.records) }
    {
        let key = RrKey::new(LowerName::new(alloc, name)?, record_type);
        Ok(self.signature_under(&key))
    }

    /// Whether a name has a signature over records of a type.
    pub(crate) fn is_covered(
        &self,
        alloc: Global,
        name: &Name,
        record_type: RecordType,
    ) -> Result<bool, AllocError>
        ensures { IfOk result (λ is. IsTrue is ↔ IsCovered self.now name.now record_type) }
    {
        let first = self.signature_of(alloc, name, record_type)?;
        Ok(first.is_some())
    }

    /// The first name after a name in canonical order that has an NSEC record.
    pub(crate) fn later_owner(&self, name: LowerName) -> Option<&LowerName>
        ensures { MatchOption (option_copied result)
            ((other : DomainName) → ¬ (IsLaterOwner self.now.records name other))
            (IsFirstLater self.now.records name) }
    {
        index::later_owner(&self.nsecs, name)
    }

    /// The parameters by which names are hashed, if the zone has them.
    pub(crate) fn hashing(&self) -> Option<Parameters<'_>>
        ensures { option_map hashing_by result ≡ hashing_of self.now }
    {
        self.hashing
    }

    /// The first NSEC3 record of a hash.
    pub(crate) fn first_with(&self, hash: &[u8; 20]) -> Option<&Record>
        ensures { option_copied result ≡ first_with self.now hash.now }
    {
        hashes::first_with(self.records, &self.hashes, hash)
    }

    /// The first hash of an NSEC3 record after a hash.
    pub(crate) fn later_hash(&self, hash: &[u8; 20]) -> Option<&[u8; 20]>
        ensures { MatchOption (option_copied result) ((other : List ℕ) → ¬ (IsLaterHash self.now hash.now other))
            (IsFirst (IsLaterHash self.now hash.now)) }
    {
        hashes::later_hash(&self.hashes, hash)
    }

    /// The first hash of all NSEC3 records.
    pub(crate) fn first_hash(&self) -> Option<&[u8; 20]>
        ensures { MatchOption (option_copied result) ((other : List ℕ) → ¬ (HasHash self.now other))
            (IsFirst (HasHash self.now)) }
    {
        hashes::first_hash(&self.hashes)
    }

    /// The last hash of an NSEC3 record before a hash.
    pub(crate) fn earlier_hash(&self, hash: &[u8; 20]) -> Option<&[u8; 20]>
        ensures { MatchOption (option_copied result) ((other : List ℕ) → ¬ (IsEarlierHash self.now hash.now other))
            (IsLast (IsEarlierHash self.now hash.now)) }
    {
        hashes::earlier_hash(&self.hashes, hash)
    }

    /// The last hash of all NSEC3 records.
    pub(crate) fn last_hash(&self) -> Option<&[u8; 20]>
        ensures { MatchOption (option_copied result) ((other : List ℕ) → ¬ (HasHash self.now other))
            (IsLast (HasHash self.now)) }
    {
        hashes::last_hash(&self.hashes)
    }

    /// Whether a hash is that of a name that exists, if the zone has parameters.
    pub(crate) fn has_name_with(&self, hash: &[u8; 20]) -> bool
        ensures { (by : Hashing) → hashing_of self.now ≡ Some by →
            (IsTrue result ↔ IsOfName self.now.origin self.now.records by self.now.records hash.now) }
    {
        self.names.contains_key(hash)
    }

    /// Whether there is no record of a name in lower case.
    pub(crate) fn is_no_owner(&self, name: &LowerName) -> bool
        ensures { IsTrue result ↔ (¬ (IsSome (find (is_at name.now) self.now.records))) }
    {
        hashes::is_no_owner(&self.owners, name)
    }

    /// The first record of a name in lower case that may not stand beside a CNAME.
    fn data_under(&self, name: &LowerName) -> Option<&Record>
        ensures { option_copied result ≡ find (is_data_of name.now) self.now.records }
    {
        index::data_under(self.records, &self.others, name)
    }

    /// The first record of a name that may not stand beside a CNAME.
    fn data_of(&self, alloc: Global, name: &Name) -> Result<Option<&Record>, AllocError>
        ensures { IfOk result (λ first. option_copied first ≡ find (is_data_of name.now) self.now.records) }
    {
        let lowered = LowerName::new(alloc, name)?;
        Ok(self.data_under(&lowered))
    }

    /// Whether a name owns records that may not stand beside a CNAME.
    pub(crate) fn owns_data(&self, alloc: Global, name: &Name) -> Result<bool, AllocError>
        ensures { IfOk result (λ owns. IsTrue owns ↔ OwnsData self.now name.now) }
    {
        let first = self.data_of(alloc, name)?;
        Ok(first.is_some())
    }

    /// Whether a name is the apex or below it.
    pub(crate) fn is_in_zone(&self, name: &Name) -> bool
        ensures { IsTrue result ↔ IsInZone self.now name.now }
    {
        self.origin.zone_of(name)
    }

    /// Whether a name is below the apex.
    pub(crate) fn is_below_apex(&self, name: &Name) -> bool
        ensures { IsTrue result ↔ IsBelowApex self.now name.now }
    {
        self.origin.zone_of(name) && !name.zone_of(&self.origin)
    }

    /// Whether a name is the apex.
    pub(crate) fn is_apex(&self, name: &Name) -> bool
        ensures { IsTrue result ↔ IsApex self.now name.now }
    {
        self.origin.zone_of(name) && name.zone_of(&self.origin)
    }

    /// Whether a zone is cut at the name of a key for NS records, which is in lower case.
    fn is_cut_at(&self, key: &RrKey) -> bool
        requires { key.now.record_type ≡ 2 }
        ensures { IsTrue result ↔ IsCut self.now key.now.name }
    {
        self.is_below_apex(key.name.as_name()) && self.first_under(key).is_some()
    }

    /// Whether a zone is cut at a name.
    pub(crate) fn is_cut(&self, alloc: Global, name: &Name) -> Result<bool, AllocError>
        ensures { IfOk result (λ is. IsTrue is ↔ IsCut self.now name.now) }
    {
        if !self.is_below_apex(name) {
            return Ok(false);
        }
        self.owns(alloc, name, RecordType::NS)
    }

    /// Whether a zone is cut above a name.
    pub(crate) fn is_below_cut(&self, alloc: Global, name: &Name) -> Result<bool, AllocError>
        ensures { IfOk result (λ is. IsTrue is ↔ IsBelowCut self.now name.now) }
    {
        let mut key = RrKey::new(LowerName::new(alloc, name)?, RecordType::NS);
        'above: while !key.name.as_name().as_wire().is_empty() {
            key.name.remove_first_label();
            if self.is_cut_at(&key) {
                return Ok(true);
            }
        }
        Ok(false)
    }

    /// The first NS record that names a host of this name in lower case.
    fn server_under(&self, name: &LowerName) -> Option<&Record>
        ensures { option_copied result ≡ find (is_server_of name.now) self.now.records }
    {
        index::server_under(self.records, &self.servers, name)
    }

    /// The first NS record that names a host of this name.
    fn server_of(&self, alloc: Global, name: &Name) -> Result<Option<&Record>, AllocError>
        ensures { IfOk result (λ first. option_copied first ≡ find (is_server_of name.now) self.now.records) }
    {
        let lowered = LowerName::new(alloc, name)?;
        Ok(self.server_under(&lowered))
    }

    /// Whether an NS record names a host of this name.
    pub(crate) fn is_server(&self, alloc: Global, name: &Name) -> Result<bool, AllocError>
        ensures { IfOk result (λ is. IsTrue is ↔ IsServer self.now name.now) }
    {
        let first = self.server_of(alloc, name)?;
        Ok(first.is_some())
    }

    /// The first address of the wildcard right below a name in lower case.
    fn wild_under(&self, name: &LowerName) -> Option<&Record>
        ensures { option_copied result ≡ find (is_wild_address_of name.now) self.now.records }
    {
        index::wild_under(self.records, &self.wilds, name)
    }

    /// Whether the wildcard right below a name in lower case owns an address.
    fn has_wild_address(&self, name: &LowerName) -> bool
        ensures { IsTrue result ↔ HasWildAddress self.now name.now }
    {
        self.wild_under(name).is_some()
    }

    /// Whether there is a wildcard with an address below a name above a name.
    pub(crate) fn is_below_wildcard(&self, alloc: Global, name: &Name) -> Result<bool, AllocError>
        ensures { IfOk result (λ is. IsTrue is ↔ IsBelowWildcard self.now name.now) }
    {
        let mut here = LowerName::new(alloc, name)?;
        'above: while !here.as_name().as_wire().is_empty() {
            here.remove_first_label();
            if self.has_wild_address(&here) {
                return Ok(true);
            }
        }
        Ok(false)
    }

    /// Whether the name of a key for DNAME records, which is in lower case, is in the zone and has such records.
    fn is_dname_owner(&self, key: &RrKey) -> bool
        requires { key.now.record_type ≡ 39 }
        ensures { IsTrue result ↔ IsDnameOwner self.now key.now.name }
    {
        self.is_in_zone(key.name.as_name()) && self.first_under(key).is_some()
    }

    /// Whether a name of the zone above a name has DNAME records.
    pub(crate) fn is_below_dname(&self, alloc: Global, name: &Name) -> Result<bool, AllocError>
        ensures { IfOk result (λ is. IsTrue is ↔ IsBelowDname self.now name.now) }
    {
        let dname = RecordType::new(DNAME);
        let mut key = RrKey::new(LowerName::new(alloc, name)?, dname);
        'above: while !key.name.as_name().as_wire().is_empty() {
            key.name.remove_first_label();
            if self.is_dname_owner(&key) {
                return Ok(true);
            }
        }
        Ok(false)
    }
}

/// The number of the type DNAME (RFC 6672 section 2.1).
pub(crate) const DNAME: u16 = 39;
