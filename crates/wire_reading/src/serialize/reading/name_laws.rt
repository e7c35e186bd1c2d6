//! Laws of the definitions, each the contract of a function with nothing to do.

ghost use Rattle.std.specs.Prelude.{◌≡◌, ◌↔◌, ◌≤◌, ℕ, List, Ok, Err};
ghost use Rattle.wire_names.specs.serialize.layout.Bytes.{KeepsFrom};
ghost use Rattle.wire_messages.specs.serialize.reading.Cursor.{Cursor};
ghost use Rattle.wire_names.specs.rr.domain.DomainName.{DomainName};
ghost use Rattle.wire_messages.specs.serialize.layout.NameLayout.{NameAt, NameFault, IsFullyQualified};
ghost use Rattle.wire_messages.specs.serialize.reading.NameReading.{name};
ghost use Rattle.wire_names.specs.declared.error.DecodeError.{DecodeError};

/// What stands as a name is what is read, and a fault is what reading meets. A name stays where it is when bytes are
/// put behind it or bytes below its floor change, and bytes have at most one name at a place.
pub fn name_readings()
    ensures at { (c : Cursor) (n : DomainName) (next : ℕ) → (NameAt 0 c.bytes c.place n next × IsFullyQualified n) ↔
        (name c ≡ Ok (n, record c { place = next })) }
    ensures fault { (c : Cursor) (e : DecodeError) → NameFault c.bytes c.place e ↔ (name c ≡ Err e) }
    ensures keeps { (old new : List ℕ) (floor lower place next : ℕ) (n : DomainName) → KeepsFrom floor old new →
        lower ≤ floor → NameAt floor old place n next → NameAt lower new place n next }
    ensures one { (bytes : List ℕ) (floor place p q : ℕ) (m n : DomainName) → NameAt floor bytes place m p →
        NameAt floor bytes place n q → (m.labels ≡ n.labels) × (p ≡ q) }
{}
