//! The law of the comparison of names, as the contract of a function with nothing to do.

ghost use Rattle.std.specs.Prelude.{◌≡◌, ◌↔◌, IsTrue};
ghost use Rattle.std.specs.declared.cmp.Ordering.TheVariants.{Equal};
ghost use Rattle.wire_names.specs.rr.domain.DomainName.{DomainName};
ghost use Rattle.wire_names.specs.rr.domain.NameOrder.{SameName, name_eq, name_cmp, lower_name, lower_labels};
ghost use Rattle.wire_names.specs.representation.NameHash.{name_hash_input};

/// Equality, order and hash of names (and of lower-case names) say the same, and none depends on letter case.
pub fn name_comparisons()
    ensures equal { (a b : DomainName) → IsTrue (name_eq a b) ↔ SameName a b }
    ensures tied { (a b : DomainName) → (name_cmp a b ≡ Equal) ↔ SameName a b }
    ensures ordered { (a b x y : DomainName) → SameName a x → SameName b y → name_cmp a b ≡ name_cmp x y }
    ensures hashed { (a b : DomainName) → SameName a b → name_hash_input a ≡ name_hash_input b }
    ensures case { (a : DomainName) → SameName (lower_name a) a }
    ensures lower { (a b : DomainName) → lower_labels a.labels ≡ a.labels → lower_labels b.labels ≡ b.labels →
        SameName a b → a ≡ b }
{}
