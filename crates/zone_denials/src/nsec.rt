//! NSEC records (RFC 4034 section 4).

ghost use Rattle.std.specs.Prelude.{◌≡◌, IfOk, MatchOption};
ghost use Rattle.std.specs.List.{AllByRecursion};
ghost use Rattle.std.specs.Option.{option_copied, option_map};
ghost use Rattle.wire_names.specs.rr.domain.DomainName.{DomainName};
ghost use Rattle.zone_denials.specs.NsecData.{nsec_by, nsec_in, with_types};
ghost use Rattle.zone_denials.specs.NsecKeys.{IsLastNsec, is_other};

use crate::type_bits::types_of;
use std::alloc::{AllocError, Global};
use wire_messages::rr::record_type::RecordType;
use wire_messages::rr::rr_key::RrKey;
use wire_names::error::DecodeError;
use wire_names::rr::domain::name::Name;
use wire_reading::serialize::reading::decoder::BinDecoder;

/// What an NSEC record says of its owner name (RFC 4034 section 4.1).
#[derive(Drop)]
pub struct NsecData {
    /// The next owner name of the zone in canonical order.
    pub next: Name,
    /// The types of the RRsets that the owner name has.
    pub types: Vec<RecordType>,
}

/// The data of a next name and the octets of a type bit map, if these have its form.
fn with_types(alloc: Global, next: Name, octets: &[u8]) -> Result<Option<NsecData>, AllocError>
    ensures { IfOk result (λ found. (owner : DomainName) →
        option_map (nsec_by owner) found ≡ with_types owner next octets.now) }
{
    match types_of(alloc, octets)? {
        Some(types) => Ok(Some(NsecData { next, types })),
        None => Ok(None),
    }
}

/// The data of an NSEC record, if the octets have their form.
///
/// # Errors
///
/// The only error is that an allocation fails.
pub fn nsec_of(alloc: Global, octets: &[u8]) -> Result<Option<NsecData>, AllocError>
    ensures { IfOk result (λ found. (owner : DomainName) →
        option_map (nsec_by owner) found ≡ nsec_in owner octets.now) }
{
    let mut decoder = BinDecoder::new(octets);
    match decoder.read_name(alloc) {
        Ok(next) => with_types(alloc, next, &octets[decoder.index()..]),
        Err(DecodeError::Memory) => Err(AllocError),
        Err(_) => Ok(None),
    }
}

/// The last NSEC key among these.
pub fn last_nsec(keys: &[RrKey]) -> Option<&RrKey>
    ensures { MatchOption (option_copied result) (AllByRecursion is_other keys.now) (IsLastNsec keys.now) }
{
    let mut place = keys.len();
    while place > 0 {
        let key = &keys[place - 1];
        if key.record_type == RecordType::NSEC {
            return Some(key);
        }
        place -= 1;
    }
    None
}
