//! The names that answers are synthesized from (RFC 4592 section 2.1.1).

ghost use Rattle.std.specs.Prelude.{◌≡◌, [], ◌∷◌, ◌<◌, ◌+◌, IfOk, MatchOption, length};
ghost use Rattle.wire_names.specs.rr.domain.DomainName.{IsWire, cut, name_len};
ghost use Rattle.zone_answers.specs.Zones.{wildcard};

use hickory_wire::{Labels, LowerName};
use std::alloc::{AllocError, Global};

/// The labels of the wildcard right below a name, if it is not too long for a name.
fn wildcard_labels(wire: &[u8]) -> Option<Labels>
    requires { IsWire wire.now }
    ensures { MatchOption result (254 < length wire.now + 2) (λ labels. labels ≡ (42 ∷ []) ∷ cut wire.now) }
{
    if wire.len() > 252 {
        return None;
    }
    let mut labels = Labels::new();
    labels.push(b"*");
    labels.append(wire);
    Some(labels)
}

/// The wildcard right below a name, if it is not too long for a name.
pub(crate) fn wildcard_below(
    alloc: Global,
    name: &LowerName,
) -> Result<Option<LowerName>, AllocError>
    ensures { IfOk result (λ below. MatchOption below (255 < name_len (wildcard name.now).labels)
        (λ source. source ≡ wildcard name.now)) }
{
    let name = name.as_name();
    match wildcard_labels(name.as_wire()) {
        None => Ok(None),
        Some(labels) => {
            let source = labels.to_name(alloc, name.is_fqdn())?;
            Ok(Some(LowerName::new(alloc, &source)?))
        }
    }
}
