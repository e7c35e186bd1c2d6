//! Domain names.

ghost use Rattle.std.specs.Prelude.{◌≡◌, ◌↔◌, ℕ, [], length, drop, IfOk, OnOk, true, false, IsTrue};
ghost use Rattle.std.specs.Ordering.{eq_by_cmp, as_partial_cmp};
ghost use Rattle.std.specs.Cmp.{eq_by_cmp_equiv, partial_equiv_from_equiv, partial_order_from_total};
ghost use Rattle.std.specs.Cmp.Rules.{comparing};
ghost use Rattle.std.proofs.Common.{rules};
ghost use Rattle.wire_names.specs.rr.domain.DomainName.{AreLabels, DomainName, wire_form, IsWire, cut};
ghost use Rattle.wire_names.specs.rr.domain.NameOrder.{name_cmp, name_eq, name_cmp_total, Encloses, is_wildcard, counted_labels, lower_name};
ghost use Rattle.wire_names.specs.representation.NameHash.{name_hash_input, name_hash_alike};

use crate::rr::domain::compare::compare_from_last;
use crate::rr::domain::labels::MAX_NAME_LEN;
use crate::values::wire::{ShortBytes, Wire};
use std::alloc::{AllocError, Global};
use std::cmp::Ordering;
use std::hash::{Hash, Hasher};
use std::marker::Model;

/// A domain name: its labels, and whether it is fully qualified (RFC 1035, section 3.1).
///
/// Each label has 1 to 63 bytes, and the name at most 255 in wire form. The case of letters is kept. Two names are
/// equal where both or neither are fully qualified and their labels are equal without regard to ASCII case
/// (RFC 4343); `Ord` and `Hash` go by the same. Names are ordered by their labels in lower case, as bytes, from the
/// last one on, a name that runs out first being less; then the one that isn't fully qualified is less.
#[derive(Drop)]
pub struct Name {
    // The labels in wire form, without the end byte.
    wire: Wire,
    is_fqdn: bool,
}

impl Model for Name {
    ghost use Rattle.wire_names.specs.rr.domain.DomainName.{DomainName, IsWire, cut};
    ghost use Rattle.wire_names.specs.representation.NameBytes.{wire_bytes};

    ghost Value = { DomainName };

    ghost view = { λ name. record { labels = cut (wire_bytes name.wire); is_fqdn = name.is_fqdn } };

    ghost invariant = { λ name. IsWire (wire_bytes name.wire) };
}

impl Name {
    /// The root: no labels, and fully qualified. It takes no memory.
    pub fn root() -> Name
        ensures { result ≡ record { labels = []; is_fqdn = true } }
    {
        Name {
            wire: Wire::Short(ShortBytes::new()),
            is_fqdn: true,
        }
    }

    /// The labels in wire form, in the letter case that they were read or spelled in: each is a byte with its length, 1
    /// to 63, and so many bytes (RFC 1035, section 3.1). At most 254 bytes (section 2.3.4): the byte 0 that ends a name
    /// in a message is left out.
    pub fn as_wire(&self) -> &[u8]
        ensures labels { result.now ≡ wire_form self.now.labels }
        ensures bounds { AreLabels self.now.labels }
        ensures is_wire { IsWire result.now }
    {
        self.wire.as_slice()
    }

    /// The name of the labels in these bytes.
    pub fn from_wire(alloc: Global, bytes: &[u8], is_fqdn: bool) -> Result<Name, AllocError>
        requires { IsWire bytes.now }
        ensures { IfOk result (λ name. name ≡ record { labels = cut bytes.now; is_fqdn = is_fqdn }) }
    {
        let wire = Wire::from_slice(alloc, bytes)?;
        Ok(Name { wire, is_fqdn })
    }

    /// The name of the labels in these bytes, fully qualified, in the place of another. Where memory is refused, that
    /// one stays.
    pub fn set_wire(&mut self, alloc: Global, bytes: &[u8]) -> Result<(), AllocError>
        requires { IsWire bytes.now }
        ensures { OnOk result (self.new ≡ record { labels = cut bytes.now; is_fqdn = true }) }
    {
        self.wire.set(alloc, bytes)?;
        self.is_fqdn = true;
        Ok(())
    }

    /// Whether it is the root: no labels, and fully qualified.
    pub fn is_root(&self) -> bool
        ensures { IsTrue result ↔ (self.now ≡ record { labels = []; is_fqdn = true }) }
    {
        self.is_fqdn && self.as_wire().is_empty()
    }

    /// Whether it is fully qualified.
    pub fn is_fqdn(&self) -> bool
        ensures { result ≡ self.now.is_fqdn }
    {
        self.is_fqdn
    }

    /// Marks it as fully qualified, or as not.
    pub fn set_fqdn(&mut self, is_fqdn: bool)
        ensures { self.new ≡ record self.old { is_fqdn = is_fqdn } }
    {
        self.is_fqdn = is_fqdn;
    }

    /// Takes the first label off. A name without labels stays.
    pub(crate) fn remove_first_label(&mut self)
        ensures { self.new ≡ record self.old { labels = drop 1 self.old.labels } }
    {
        let bytes = self.wire.as_slice();
        if bytes.is_empty() {
            return;
        }
        let label = 1 + usize::from(bytes[0]);
        self.wire.remove_front(label);
    }

    /// Leaves the last labels alone that take so many bytes in wire form.
    pub(crate) fn keep_last(&mut self, len: usize)
        requires { (n : ℕ) × (len ≡ length (wire_form (drop n self.old.labels))) }
        ensures { (n : ℕ) → len ≡ length (wire_form (drop n self.old.labels)) →
            self.new ≡ record self.old { labels = drop n self.old.labels } }
    {
        let front = self.wire.as_slice().len() - len;
        self.wire.remove_front(front);
    }

    fn label_count(&self) -> usize
        ensures { result ≡ length self.now.labels }
    {
        let wire = self.as_wire();
        let mut count = 0;
        let mut place = 0;
        while place < wire.len() {
            place += 1 + usize::from(wire[place]);
            count += 1;
        }
        count
    }

    /// Whether the first label is `*` (RFC 4592, section 2.1.1).
    pub(crate) fn is_wildcard(&self) -> bool
        ensures { result ≡ is_wildcard self.now.labels }
    {
        let wire = self.as_wire();
        wire.len() > 1 && wire[0] == 1 && wire[1] == b'*'
    }

    /// How many labels it has, a first label `*` not counted.
    pub fn num_labels(&self) -> usize
        ensures { result ≡ counted_labels self.now.labels }
    {
        let count = self.label_count();
        if count > 0 && self.is_wildcard() {
            count - 1
        } else {
            count
        }
    }

    /// Whether it equals or encloses the other: its labels are the last labels of the other, letter case aside.
    /// Whether the two are fully qualified does not matter.
    pub fn zone_of(&self, other: &Name) -> bool
        ensures { IsTrue result ↔ Encloses self.now.labels other.now.labels }
    {
        let _ = &self.wire;
        let _ = &other.wire;
        let own = self.as_wire();
        let all = other.as_wire();
        let mut place = 0;
        while own.len() < all.len() - place {
            place += 1 + usize::from(all[place]);
        }
        own.eq_ignore_ascii_case(&all[place..])
    }

    /// Puts a name with its labels in lower case in the place of this, where both are short. Returns whether it did.
    #[inline(always)]
    pub(crate) fn set_lowered(&mut self, name: &Name) -> bool
        ensures done { IsTrue result → self.new ≡ lower_name name.now }
        ensures kept { result ≡ false → self.new ≡ self.old }
    {
        if !self.wire.set_lowered(&name.wire) {
            return false;
        }
        self.is_fqdn = name.is_fqdn;
        true
    }

    /// Puts any name with its labels in lower case in the place of this. Where memory is refused, this one stays.
    pub(crate) fn set_any_lowered(&mut self, alloc: Global, name: &Name) -> Result<(), AllocError>
        ensures { OnOk result (self.new ≡ lower_name name.now) }
    {
        let is_qualified = name.is_fqdn;
        self.wire.set_any_lowered(alloc, &name.wire)?;
        self.is_fqdn = is_qualified;
        Ok(())
    }

    /// A copy with its labels in lower case.
    pub(crate) fn to_lowercase(&self) -> Result<Name, AllocError>
        ensures { IfOk result (λ name. name ≡ lower_name self.now) }
    {
        Ok(Name {
            wire: self.wire.lowered()?,
            is_fqdn: self.is_fqdn,
        })
    }
}

impl Clone for Name {
    ghost is_clone = { λ source copy. copy ≡ source };

    fn clone(&self) -> Result<Name, AllocError> {
        Ok(Name {
            wire: self.wire.copied()?,
            is_fqdn: self.is_fqdn,
        })
    }
}

impl PartialEq for Name {
    ghost eq = { name_eq };

    ghost laws = { partial_equiv_from_equiv (eq_by_cmp_equiv name_cmp_total) };

    fn eq(&self, other: &Name) -> bool {
        let _ = &other.wire;
        self.is_fqdn == other.is_fqdn && self.as_wire().eq_ignore_ascii_case(other.as_wire())
    }
}

impl Eq for Name {
    ghost laws = { eq_by_cmp_equiv name_cmp_total };
}

impl PartialOrd for Name {
    ghost partial_cmp = { as_partial_cmp name_cmp };

    ghost laws = { partial_order_from_total name_cmp_total };

    fn partial_cmp(&self, other: &Name) -> Option<Ordering> {
        Some(self.cmp(other))
    }
}

impl Ord for Name {
    ghost cmp = { name_cmp };

    ghost total = { name_cmp_total };

    ghost matches_partial_cmp = { Prim.search (comparing, rules) };

    ghost matches_eq = { Prim.search (comparing, rules) };

    fn cmp(&self, other: &Name) -> Ordering {
        let _ = &other.wire;
        let marks = self.is_fqdn.cmp(&other.is_fqdn);
        compare_from_last(self.as_wire(), other.as_wire()).then(marks)
    }
}

impl Hash for Name {
    ghost hash_input = { name_hash_input };

    ghost respects_eq = { name_hash_alike };

    fn hash<H: Hasher>(&self, state: &mut H) {
        let wire = self.as_wire();
        let mut buffer = [0; MAX_NAME_LEN];
        let lowered = &mut buffer[..wire.len()];
        lowered.copy_from_slice(wire);
        lowered.make_ascii_lowercase();
        state.write(lowered);
        self.is_fqdn.hash(state);
    }
}
