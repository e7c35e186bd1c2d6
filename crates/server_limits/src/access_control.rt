//! Access by address: networks that may not use a server, and networks that may.
//!
//! The longest network that an address matches decides, as in routing. Between a denied and an allowed network of one
//! length the denied one wins.

ghost use Rattle.std.specs.Prelude.{◌≡◌, ◌≤◌, ◌<◌, ◌^◌, ◌+◌, ◌-◌, ◌/◌, ◌%◌, ◌++◌, ◌∷◌, [], ◌↔◌, List, Contains, IsTrue, OnOk, OnErr};
ghost use Rattle.std.specs.Option.{SomeIff};
ghost use Rattle.server_limits.specs.Access.{Network, AccessSets, width, address_of, canonical, first_bits, network_of, first_address, Matches, IsLongestMatch, HasFamily, IsAllowed, Inserts, InsertsFirst, SameNetwork, SameNetworks, MappedFormIsAllowedAlike, OnlyMembersDecide};
ghost use Rattle.server_limits.specs.NetworkTexts.{TextSpellsOneNetwork};
ghost use Rattle.server_limits.specs.Prefixes.{LiesIn, IsCommon, IsOfFamily};
ghost use Rattle.server_limits.specs.declared.access_control.Family.TheVariants.{Ipv4, Ipv6};

mod text;
mod trie;

use std::alloc::{AllocError, Global};
use std::marker::Model;
use std::net::{IpAddr, Ipv4Addr, Ipv6Addr};
pub use text::IpNetTextError;
use trie::Trie;

/// The 96 bits before the IPv4 address in an IPv4-mapped IPv6 address (RFC 4291, section 2.5.5.2).
const IPV4_MAPPED_PREFIX: u128 = 0xffff;

/// The family of an address or a network.
#[derive(Clone, Copy, Debug, PartialEq, Eq)]
enum Family {
    Ipv4,
    Ipv6,
}

impl Family {
    /// How many bits an address of the family has.
    fn width(self) -> u8
        ensures { result ≡ width self }
    {
        match self {
            Family::Ipv4 => 32,
            Family::Ipv6 => 128,
        }
    }
}

/// An address as networks are compared with it: its bits as one number, the first bit highest.
#[derive(Clone, Copy)]
struct Address {
    family: Family,
    bits: u128,
}

impl Address {
    fn new(address: IpAddr) -> Self
        ensures value { result ≡ address_of address }
        ensures fits { result.bits < 2 ^ width result.family }
    {
        match address {
            IpAddr::V4(address) => Address {
                family: Family::Ipv4,
                bits: u128::from(address.to_bits()),
            },
            IpAddr::V6(address) => Address {
                family: Family::Ipv6,
                bits: address.to_bits(),
            },
        }
    }

    /// The IPv4 address that an IPv4-mapped IPv6 address holds, and any other address as it is.
    fn canonical(self) -> Self
        ensures { result ≡ canonical self }
    {
        if self.family == Family::Ipv6 && self.bits >> 32 == IPV4_MAPPED_PREFIX {
            Address {
                family: Family::Ipv4,
                bits: self.bits & 0xffff_ffff,
            }
        } else {
            self
        }
    }

    /// The address as it is written.
    fn written(self) -> IpAddr
        requires { self.bits < 2 ^ width self.family }
        ensures { address_of result ≡ self }
    {
        match self.family {
            Family::Ipv4 => IpAddr::V4(Ipv4Addr::from_bits(self.bits as u32)),
            Family::Ipv6 => IpAddr::V6(Ipv6Addr::from_bits(self.bits)),
        }
    }

    /// The first `count` bits, as a number.
    fn first_bits(self, count: u8) -> u128
        requires { count ≤ width self.family }
        ensures { result ≡ first_bits self count }
    {
        let dropped = u32::from(self.family.width() - count);
        self.bits.checked_shr(dropped).unwrap_or(0)
    }

    /// Whether the bit at this index is one. Behind the last bit the first comes again, so a walk down a trie needs no
    /// test of its own for a prefix of all bits, below which nothing stands.
    fn bit(self, index: u8) -> bool
        ensures { IsTrue result ↔ (first_bits self (index % width self.family + 1) % 2 ≡ 1) }
    {
        match self.family {
            // A processor tests a bit of 32 in one step; to shift 128 takes it several.
            Family::Ipv4 => (self.bits & 0xffff_ffff) as u32 >> (31 - index % 32) & 1 == 1,
            Family::Ipv6 => self.bits >> (127 - index % 128) & 1 == 1,
        }
    }

    /// The prefix of this length, a number of so many bits.
    fn prefix(self, count: u8) -> u128
        requires count { count ≤ width self.family }
        requires bits { self.bits < 2 ^ width self.family }
        ensures value { result ≡ first_bits self count }
        ensures fits { result < 2 ^ count }
    {
        self.first_bits(count)
    }
}

/// A network of IPv4 or of IPv6 addresses: those that begin with its prefix (RFC 4632, section 3.1; RFC 4291,
/// section 2.3). Networks of one family, prefix length and prefix are equal.
#[derive(Clone, Copy, Debug, PartialEq, Eq)]
pub struct IpNet {
    family: Family,
    prefix_length: u8,
    /// The bits of the prefix, as a number.
    prefix: u128,
}

impl Model for IpNet {
    ghost Value = { Network };

    ghost view = { λ n. record { family = n.family; prefix_length = n.prefix_length; prefix = n.prefix } };

    ghost invariant = { λ n. (n.prefix_length ≤ width n.family) × (n.prefix < 2 ^ n.prefix_length) };

    ghost inverse = { λ n. record { family = n.family; prefix_length = n.prefix_length; prefix = n.prefix } };
}

impl IpNet {
    /// The network of this prefix length, in bits, that `address` lies in: the bits after the prefix do not matter, so
    /// 10.1.2.3/8 is 10.0.0.0/8. An IPv4-mapped IPv6 address gives an IPv6 network.
    ///
    /// `None` where the prefix is longer than the address, 32 bits for IPv4 and 128 for IPv6.
    pub fn new(address: IpAddr, prefix_length: u8) -> Option<IpNet>
        ensures { let written = address_of address in
            SomeIff result (prefix_length ≤ width written.family) (network_of written prefix_length) }
    {
        let address = Address::new(address);
        if prefix_length > address.family.width() {
            return None;
        }
        Some(IpNet {
            family: address.family,
            prefix_length,
            prefix: address.prefix(prefix_length),
        })
    }

    /// The first address of the network: its prefix, and behind it zero bits.
    pub fn address(&self) -> IpAddr
        ensures first { address_of result ≡ first_address self.now }
        ensures lies { network_of (address_of result) self.now.prefix_length ≡ self.now }
    {
        let behind = u32::from(self.family.width() - self.prefix_length);
        Address {
            family: self.family,
            bits: self.prefix.checked_shl(behind).unwrap_or(0),
        }
        .written()
    }

    /// How many bits the prefix has: at most 32 for IPv4, and 128 for IPv6.
    pub fn prefix_len(&self) -> u8
        ensures { result ≡ self.now.prefix_length }
    {
        self.prefix_length
    }

    /// The first bits of the prefix, as a number.
    fn first(&self, count: u8) -> u128
        requires { count ≤ self.now.prefix_length }
        ensures { result ≡ self.now.prefix / 2 ^ (self.now.prefix_length - count) }
    {
        let dropped = u32::from(self.prefix_length - count);
        self.prefix.checked_shr(dropped).unwrap_or(0)
    }

    /// Whether the bit of the prefix at this index is one.
    fn bit(&self, index: u8) -> bool
        requires { index < self.now.prefix_length }
        ensures { IsTrue result ↔ (self.now.prefix / 2 ^ (self.now.prefix_length - (index + 1)) % 2 ≡ 1) }
    {
        self.prefix >> (self.prefix_length - index - 1) & 1 == 1
    }

    fn same(&self, other: &IpNet) -> bool
        ensures { IsTrue result ↔ (self.now ≡ other.now) }
    {
        self == other
    }

    /// Whether the other network is this one or a part of it.
    fn contains(&self, other: &IpNet) -> bool
        ensures { IsTrue result ↔ LiesIn other.now self.now }
    {
        self.family == other.family
            && self.prefix_length <= other.prefix_length
            && other.first(self.prefix_length) == self.prefix
    }

    /// The longest network in which both lie.
    fn common(&self, other: &IpNet) -> IpNet
        requires { self.now.family ≡ other.now.family }
        ensures { IsCommon self.now other.now result }
    {
        let mut length = self.prefix_length.min(other.prefix_length);
        while self.first(length) != other.first(length) {
            length -= 1;
        }
        IpNet {
            family: self.family,
            prefix_length: length,
            prefix: self.first(length),
        }
    }

    fn matches(&self, address: Address) -> bool
        ensures { IsTrue result ↔ Matches address self.now }
    {
        self.family == address.family && self.prefix == address.first_bits(self.prefix_length)
    }
}

/// A set of networks: a trie for each family.
#[derive(Debug, Drop)]
struct NetworkSet {
    alloc: Global,
    ipv4: Trie,
    ipv6: Trie,
}

impl Model for NetworkSet {
    ghost Value = { List Network };

    ghost view = { λ s. s.ipv4 ++ s.ipv6 };

    ghost invariant = { λ s. IsOfFamily Ipv4 s.ipv4 × IsOfFamily Ipv6 s.ipv6 };
}

impl NetworkSet {
    fn new(alloc: Global) -> Self
        ensures { (network : Network) → ¬ (Contains result network) }
    {
        NetworkSet {
            alloc,
            ipv4: Trie::new(),
            ipv6: Trie::new(),
        }
    }

    /// Takes one network in. Where memory is refused the set stays as it is.
    fn insert_one(&mut self, network: IpNet) -> Result<(), AllocError>
        ensures ok { OnOk result (Inserts self.old (network ∷ []) self.new) }
        ensures err { OnErr result (self.new ≡ self.old) }
    {
        match network.family {
            Family::Ipv4 => self.ipv4.insert(self.alloc, network),
            Family::Ipv6 => self.ipv6.insert(self.alloc, network),
        }
    }

    fn insert(&mut self, networks: &[IpNet]) -> Result<(), AllocError>
        ensures ok { OnOk result (Inserts self.old networks.now self.new) }
        ensures err { OnErr result (InsertsFirst self.old networks.now self.new) }
    {
        for network in networks {
            self.insert_one(*network)?;
        }
        Ok(())
    }

    /// Whether no network is in the set.
    fn is_empty(&self) -> bool
        ensures { IsTrue result ↔ (self.now ≡ []) }
    {
        self.ipv4.is_empty() && self.ipv6.is_empty()
    }

    fn has_family(&self, family: Family) -> bool
        ensures { IsTrue result ↔ HasFamily self.now family }
    {
        match family {
            Family::Ipv4 => !self.ipv4.is_empty(),
            Family::Ipv6 => !self.ipv6.is_empty(),
        }
    }

    /// The greatest prefix length of the networks that match the address.
    #[inline(always)]
    fn longest_match(&self, address: Address) -> Option<u8>
        ensures { IsLongestMatch self.now address result }
    {
        match address.family {
            Family::Ipv4 => self.ipv4.longest_match(address),
            Family::Ipv6 => self.ipv6.longest_match(address),
        }
    }
}

/// The networks that may not use a server, and those that may.
#[derive(Debug, Drop)]
pub struct AccessControl {
    deny: NetworkSet,
    allow: NetworkSet,
}

impl Model for AccessControl {
    ghost Value = { AccessSets };

    ghost view = { λ a. record { deny = a.deny; allow = a.allow } };
}

impl AccessControl {
    /// No network is denied and none is allowed, so that each address may use the server.
    pub fn new(alloc: Global) -> AccessControl
        ensures deny { (network : Network) → ¬ (Contains result.deny network) }
        ensures allow { (network : Network) → ¬ (Contains result.allow network) }
    {
        AccessControl {
            deny: NetworkSet::new(alloc),
            allow: NetworkSet::new(alloc),
        }
    }

    /// Denies the networks, beside those that are denied already. Where memory is refused, those before the first that
    /// could not be inserted are denied all the same.
    pub fn insert_deny(&mut self, networks: &[IpNet]) -> Result<(), AllocError>
        ensures ok { OnOk result (Inserts self.old.deny networks.now self.new.deny) }
        ensures err { OnErr result (InsertsFirst self.old.deny networks.now self.new.deny) }
        ensures allow_stays { SameNetworks self.old.allow self.new.allow }
    {
        self.deny.insert(networks)
    }

    /// Allows the networks, beside those that are allowed already. Where memory is refused, those before the first that
    /// could not be inserted are allowed all the same.
    pub fn insert_allow(&mut self, networks: &[IpNet]) -> Result<(), AllocError>
        ensures ok { OnOk result (Inserts self.old.allow networks.now self.new.allow) }
        ensures err { OnErr result (InsertsFirst self.old.allow networks.now self.new.allow) }
        ensures deny_stays { SameNetworks self.old.deny self.new.deny }
    {
        self.allow.insert(networks)
    }

    /// Whether the address may use the server. An IPv4-mapped IPv6 address (RFC 4291, section 2.5.5.2) counts as the
    /// IPv4 address, and only networks of the address's family count.
    ///
    /// The longest network that the address matches decides, and a denied one where an allowed one is as long. An
    /// address that matches no network is refused where its family has allowed networks and no denied ones.
    #[inline(always)]
    pub fn allow(&self, address: IpAddr) -> bool
        ensures { IsTrue result ↔ IsAllowed self.now.deny self.now.allow address }
    {
        // speed: served, an address
        if self.deny.is_empty() && self.allow.is_empty() {
            return true;
        }
        self.decides(address)
    }

    /// Whether the networks that there are let this address use the server.
    #[inline(never)]
    fn decides(&self, address: IpAddr) -> bool
        ensures { IsTrue result ↔ IsAllowed self.now.deny self.now.allow address }
    {
        let address = Address::new(address).canonical();
        match (
            self.deny.longest_match(address),
            self.allow.longest_match(address),
        ) {
            (Some(denied), Some(allowed)) => allowed > denied,
            (Some(_), None) => false,
            (None, Some(_)) => true,
            (None, None) => {
                self.deny.has_family(address.family) || !self.allow.has_family(address.family)
            }
        }
    }
}

/// Laws of the rule by which [`AccessControl::allow`] answers: an IPv4 address and its IPv4-mapped IPv6 form get one
/// answer, and nothing counts of the inserted networks but which ones they are.
pub fn rule_laws()
    ensures mapped_form { MappedFormIsAllowedAlike }
    ensures members { OnlyMembersDecide }
{}

/// A text spells one network at most, so that [`IpNet`]'s `from_str` tells which.
pub fn network_text_laws()
    ensures { TextSpellsOneNetwork }
{}

/// `==` on networks compares all that they are: networks are equal exactly where they are of one family, and their
/// prefixes are of one length and have the same bits.
pub fn network_comparisons()
    ensures { (a b : Network) → IsTrue (⟦<IpNet as PartialEq>⟧.eq a b) ↔ SameNetwork a b }
{}
