//! The law of the comparison of keys, as the contract of a function with nothing to do.

ghost use Rattle.std.specs.Prelude.{◌≡◌, ◌↔◌, IsTrue};
ghost use Rattle.std.specs.declared.cmp.Ordering.TheVariants.{Equal};
ghost use Rattle.wire_messages.specs.rr.RrKeys.{SameKey, key_cmp, key_hash_input};
ghost use Rattle.wire_messages.specs.declared.rr.rr_key.RrKey.{RrKey as Key};

use crate::rr::rr_key::RrKey;
use std::hash::Hash;
use wire_names::rr::domain::name_sameness::name_comparisons;

/// Keys are ordered by name, and then by type. They are equal where this order has them equal, which is where their
/// names are the same in any letter case, and their types; and keys that are equal hash alike.
pub fn key_comparisons()
    ensures ordered { (a b : Key) → ⟦<RrKey as Ord>⟧.cmp a b ≡ key_cmp a b }
    ensures equal { (a b : Key) → IsTrue (⟦<RrKey as PartialEq>⟧.eq a b) ↔ SameKey a b }
    ensures tied { (a b : Key) → (key_cmp a b ≡ Equal) ↔ SameKey a b }
    ensures fed { (a : Key) → ⟦<RrKey as Hash>⟧.hash_input a ≡ key_hash_input a }
    ensures hashed { (a b : Key) → SameKey a b → key_hash_input a ≡ key_hash_input b }
{
    name_comparisons();
}
