//! Domain names in lower case.

ghost use Rattle.std.specs.Prelude.{◌≡◌, ◌↔◌, ◌<◌, IfOk, OnOk, IsTrue, [], drop, length, true};
ghost use Rattle.std.specs.Ordering.{as_partial_cmp};
ghost use Rattle.std.specs.Cmp.{eq_by_cmp_equiv, partial_equiv_from_equiv, partial_order_from_total};
ghost use Rattle.std.specs.Cmp.Rules.{comparing};
ghost use Rattle.std.proofs.Common.{rules};
ghost use Rattle.wire_names.specs.rr.domain.DomainName.{DomainName};
ghost use Rattle.wire_names.specs.rr.domain.NameOrder.{Encloses, IsSharedEnd, name_cmp, name_eq, name_cmp_total, lower_name, lower_labels};
ghost use Rattle.wire_names.specs.representation.NameHash.{name_hash_input, name_hash_alike};
ghost use Rattle.wire_names.specs.representation.OrderKey.{order_key, order_word};
ghost use Rattle.wire_names.specs.serialize.layout.Bytes.{AreBytes};

use crate::rr::domain::name::Name;
use crate::rr::domain::order_key::{
    escaped_len, make_order_key, set_order_key, set_plain_key, shared_len, wire_len,
};
use crate::values::same_bytes::are_same;
use crate::values::wire::{ShortBytes, Wire};
use std::alloc::{AllocError, Global};
use std::cmp::Ordering;
use std::hash::{Hash, Hasher};
use std::marker::Model;
use std::mem::replace;

/// A domain name whose labels are in lower case, as a key of zones and records.
///
/// It is compared, ordered and hashed as the `Name` that it holds, but faster.
#[derive(Drop)]
pub struct LowerName {
    name: Name,
    // The labels in a form that is compared byte by byte: names are compared far more often than they are made.
    key: Wire,
}

impl Model for LowerName {
    ghost use Rattle.std.specs.Prelude.{◌≡◌};
    ghost use Rattle.wire_names.specs.rr.domain.DomainName.{DomainName};
    ghost use Rattle.wire_names.specs.representation.NameBytes.{wire_bytes};
    ghost use Rattle.wire_names.specs.rr.domain.NameOrder.{lower_labels};
    ghost use Rattle.wire_names.specs.representation.OrderKey.{order_key};

    ghost Value = { DomainName };

    ghost view = { λ lower. lower.name };

    ghost invariant = { λ lower. (lower_labels lower.name.labels ≡ lower.name.labels) ×
        (wire_bytes lower.key ≡ order_key lower.name.labels) };
}

impl LowerName {
    /// A copy of a name with its labels in lower case; it is fully qualified where the name is.
    #[inline(never)]
    pub fn new(alloc: Global, name: &Name) -> Result<LowerName, AllocError>
        ensures { IfOk result (λ lower. lower ≡ lower_name name.now) }
    {
        let name = name.to_lowercase()?;
        let key = make_order_key(alloc, name.as_wire())?;
        Ok(LowerName { name, key })
    }

    /// The root.
    pub fn root() -> LowerName
        ensures { result ≡ record { labels = []; is_fqdn = true } }
    {
        LowerName {
            name: Name::root(),
            key: Wire::Short(ShortBytes::new()),
        }
    }

    /// Puts a name in lower case in the place of this one. Where memory is refused, nothing is promised of it.
    #[inline(always)]
    pub fn set(&mut self, alloc: Global, name: &Name) -> Result<(), AllocError>
        ensures { OnOk result (self.new ≡ lower_name name.now) }
    {
        if self.set_short(name) {
            return Ok(());
        }
        self.set_any(alloc, name)
    }

    /// Puts a name in lower case in the place of this one where both are short and no byte of a label is below 2.
    /// Returns whether it did; else nothing is promised of the name.
    #[inline(always)]
    fn set_short(&mut self, name: &Name) -> bool
        ensures { IsTrue result → self.new ≡ lower_name name.now }
    {
        if !self.name.set_lowered(name) {
            return false;
        }
        if set_plain_key(&mut self.key, self.name.as_wire()) {
            return true;
        }
        *self = LowerName::root();
        false
    }

    /// Puts any name in lower case in the place of this one, in the memory that it has where that is enough.
    // speed: served, an address of 120 labels
    #[inline(never)]
    fn set_any(&mut self, alloc: Global, name: &Name) -> Result<(), AllocError>
        ensures { OnOk result (self.new ≡ lower_name name.now) }
    {
        let LowerName {
            name: mut own,
            mut key,
        } = replace(self, LowerName::root());
        own.set_any_lowered(alloc, name)?;
        set_order_key(&mut key, alloc, own.as_wire())?;
        let lowered = LowerName { name: own, key };
        *self = lowered;
        Ok(())
    }

    /// The name that it holds. Its labels are in lower case.
    pub fn as_name(&self) -> &Name
        ensures name { result.now ≡ self.now }
        ensures lower { lower_labels self.now.labels ≡ self.now.labels }
    {
        &self.name
    }

    /// Whether it equals or encloses the other. Whether the two are fully qualified does not matter.
    #[inline(always)]
    pub fn zone_of(&self, other: &LowerName) -> bool
        ensures { IsTrue result ↔ Encloses self.now.labels other.now.labels }
    {
        let own = self.key.as_slice();
        let all = other.key.as_slice();
        if own.len() > all.len() {
            return false;
        }
        are_same(&all[..own.len()], own)
    }

    /// Whether the name right above this one equals or encloses the other; `false` for the root, above which there is
    /// none.
    // speed: served, a name that is not there
    pub fn has_parent_above(&self, other: &LowerName) -> bool
        ensures { IsTrue result ↔ (0 < length self.now.labels) × Encloses (drop 1 self.now.labels) other.now.labels }
    {
        let wire = self.name.as_wire();
        if wire.is_empty() {
            return false;
        }
        let end = 1 + usize::from(wire[0]);
        let own = self.key.as_slice();
        let rest = own.len() - escaped_len(&wire[1..end]) - 1;
        let all = other.key.as_slice();
        if rest > all.len() {
            return false;
        }
        are_same(&all[..rest], &own[..rest])
    }

    /// Eight bytes of its order key, from where that of a name above it ends, as a number. Names at or below that one
    /// are in the order of their numbers where these differ.
    // speed: served, an address
    #[inline(always)]
    pub fn order_word(&self, above: &LowerName) -> u64
        ensures is { result ≡ order_word above.now.labels self.now.labels }
        ensures bytes { AreBytes (order_key self.now.labels) }
    {
        self.key.word_from(above.key.as_slice().len())
    }

    /// Takes the first label off, so that the name above is left. A name without labels stays. It takes no memory.
    pub fn remove_first_label(&mut self)
        ensures { self.new ≡ record self.old { labels = drop 1 self.old.labels } }
    {
        let wire = self.name.as_wire();
        if wire.is_empty() {
            return;
        }
        let end = 1 + usize::from(wire[0]);
        let rest = self.key.as_slice().len() - escaped_len(&wire[1..end]) - 1;
        self.key.truncate(rest);
        self.name.remove_first_label();
    }

    /// Takes labels off the front, one at least, until it encloses the other name. A name without labels stays. It
    /// takes no memory.
    pub fn keep_shared_end(&mut self, other: &LowerName)
        ensures { IsSharedEnd self.old other.now self.new }
    {
        let shared = shared_len(self.key.as_slice(), other.key.as_slice());
        self.key.truncate(shared);
        self.name.keep_last(wire_len(self.key.as_slice()));
    }
}

impl Clone for LowerName {
    ghost is_clone = { λ source copy. copy ≡ source };

    fn clone(&self) -> Result<LowerName, AllocError> {
        let name = self.name.clone()?;
        let key = self.key.copied()?;
        Ok(LowerName { name, key })
    }
}

impl PartialEq for LowerName {
    ghost eq = { name_eq };

    ghost laws = { partial_equiv_from_equiv (eq_by_cmp_equiv name_cmp_total) };

    fn eq(&self, other: &LowerName) -> bool {
        // Keys compare eight bytes at a time.
        self.cmp(other).is_eq()
    }
}

impl Eq for LowerName {
    ghost laws = { eq_by_cmp_equiv name_cmp_total };
}

impl PartialOrd for LowerName {
    ghost partial_cmp = { as_partial_cmp name_cmp };

    ghost laws = { partial_order_from_total name_cmp_total };

    fn partial_cmp(&self, other: &LowerName) -> Option<Ordering> {
        Some(self.cmp(other))
    }
}

impl Ord for LowerName {
    ghost cmp = { name_cmp };

    ghost total = { name_cmp_total };

    ghost matches_partial_cmp = { Prim.search (comparing, rules) };

    ghost matches_eq = { Prim.search (comparing, rules) };

    #[inline(always)]
    fn cmp(&self, other: &LowerName) -> Ordering {
        match self.key.compare(&other.key) {
            Ordering::Equal => self.name.is_fqdn().cmp(&other.name.is_fqdn()),
            decided => decided,
        }
    }
}

impl Hash for LowerName {
    ghost hash_input = { name_hash_input };

    ghost respects_eq = { name_hash_alike };

    fn hash<H: Hasher>(&self, state: &mut H) {
        state.write(self.name.as_wire());
        self.name.is_fqdn().hash(state);
    }
}
