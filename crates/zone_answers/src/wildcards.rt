//! The names that answers are synthesized from.

ghost use Rattle.std.specs.Prelude.{◌≡◌, [], ◌∷◌, ◌<◌, ◌+◌, IfOk, IsTrue, MatchOption, drop, length};
ghost use Rattle.wire_names.specs.rr.domain.DomainName.{IsWire, cut, name_len};
ghost use Rattle.zone_answers.specs.Zones.{wildcard};

use hickory_wire::{Labels, LowerName};
use std::alloc::{AllocError, Global};
use wire_names::values::same_bytes::are_same;

/// The labels of the wildcard right below a name, if it is not too long for a name.
fn wildcard_labels(wire: &[u8]) -> Option<Labels>
    requires { IsWire wire.now }
    ensures { MatchOption result (254 < length wire.now + 2) (λ labels. labels ≡ (42 ∷ []) ∷ cut wire.now) }
{
    if wire.len() > 252 {
        return None;
    }
    let mut labels = Labels::new();
    labels.push(b"*");
    labels.append(wire);
    Some(labels)
}

/// The wildcard right below a name (RFC 4592 section 2.1.1), if it is not too long for a name.
pub(crate) fn wildcard_below(
    alloc: Global,
    name: &LowerName,
) -> Result<Option<LowerName>, AllocError>
    ensures { IfOk result (λ below. MatchOption below (255 < name_len (wildcard name.now).labels)
        (λ source. source ≡ wildcard name.now)) }
{
    let name = name.as_name();
    match wildcard_labels(name.as_wire()) {
        None => Ok(None),
        Some(labels) => {
            let source = labels.to_name(alloc, name.is_fqdn())?;
            Ok(Some(LowerName::new(alloc, &source)?))
        }
    }
}

/// Whether a name is the wildcard right below the name above this one. There is none for the root.
// speed: served, a wildcard
#[inline(always)]
pub(crate) fn is_wildcard_beside(wild: &LowerName, name: &LowerName) -> bool
    ensures { IsTrue result → wild.now.labels ≡ (42 ∷ []) ∷ drop 1 name.now.labels }
{
    let wire = name.as_name().as_wire();
    let other = wild.as_name().as_wire();
    if wire.is_empty() || other.len() < 2 || other[0] != 1 || other[1] != b'*' {
        return false;
    }
    are_same(&other[2..], &wire[1 + usize::from(wire[0])..])
}
