//! The NSEC RRsets of a zone (RFC 4034 section 4).

ghost use Rattle.std.specs.Prelude.{◌≡◌, ◌↔◌, IsTrue};
ghost use Rattle.std.specs.Option.{option_map};
ghost use Rattle.hickory_base.specs.zone_store.ZoneSets.{sets_of};
ghost use Rattle.wire_messages.specs.Numbers.{type_nsec};
ghost use Rattle.signed_answers.specs.NsecSets.{NsecFor};
ghost use Rattle.signed_answers.specs.LentSets.{lent_set};

use hickory_base::zone_store::RecordSet;
use hickory_wire::{Record, RecordType, RrKey};
use std::collections::BTreeMap;
use std::rc::Rc;

/// An NSEC RRset of a zone.
#[derive(Clone, Copy)]
pub struct NsecSet<'z> {
    /// Its owner name and type.
    pub key: &'z RrKey,
    /// Its records. A zone that is signed has one (RFC 4035 section 2.3).
    pub records: &'z [Record],
}

/// Whether an RRset has type NSEC.
fn is_nsec(key: &RrKey) -> bool
    ensures { IsTrue result ↔ (key.now.record_type ≡ type_nsec) }
{
    key.record_type == RecordType::NSEC
}

/// The NSEC RRset whose owner name is the last one at the key's name or before it, in canonical order (RFC 4034 section
/// 6.1). The key has type NSEC.
///
/// The time grows with the number of RRsets between the two names, which are glue or below a cut in a signed zone.
pub fn nsec_before<'z>(sets: &'z BTreeMap<RrKey, Rc<RecordSet>>, at: &RrKey) -> Option<NsecSet<'z>>
    requires { at.now.record_type ≡ type_nsec }
    ensures { NsecFor (sets_of sets.now) at.now.name (option_map lent_set result) }
{
    let mut left = sets.range(..=at);
    while let Some((key, set)) = left.next_back() {
        if is_nsec(key) {
            return Some(NsecSet {
                key,
                records: set.records(),
            });
        }
    }
    None
}
