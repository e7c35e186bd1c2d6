//! Worked examples: what the definitions say of a zone and of updates that were written out by hand.
//!
//! The functions do nothing. Their contracts are the examples, and hold by the definitions alone. Response codes: 1 is
//! FormErr, 3 NXDomain, 5 Refused, 6 YXDomain, 7 YXRRSet, 8 NXRRSet, 9 NotAuth, 10 NotZone.

ghost use Rattle.std.specs.Prelude.{◌≡◌, ◌∷◌, [], ◌++◌, ℕ, None, Some, Ok, Err, true, false};
ghost use Rattle.std.specs.declared.ops.Range.{Range};
ghost use Rattle.hickory_wire.specs.worked.Worked.{record_of};
ghost use Rattle.wire_messages.specs.declared.rr.rdata.RData.TheVariants as rdata;
ghost use Rattle.wire_messages.specs.declared.rr.tsig.TSigResponseKind.TheVariants.{UnknownKey, BadSignature, Known};
ghost use Rattle.wire_messages.specs.declared.rr.tsig.TsigError.TheVariants.{BadTime};
ghost use Rattle.hickory_base.specs.requests.Requests.{ReceivedRequest};
ghost use Rattle.hickory_base.specs.declared.zone_store.handler.AxfrPolicy.TheVariants as policy;
ghost use Rattle.hickory_store.specs.updates.Identity.{same_record, ttl_at};
ghost use Rattle.hickory_store.specs.updates.Permission.{allowed, is_within, kind_refusal, refused, timed_kind, transfer_permission, update_permission, verified_kind};
ghost use Rattle.hickory_store.specs.updates.Prescan.{prescan_refusal, update_refusal};
ghost use Rattle.hickory_base.specs.zone_store.Serials.{is_greater};
ghost use Rattle.hickory_store.specs.updates.Serials.{next_serial};
ghost use Rattle.hickory_store.specs.updates.UpdateAnswers.{applied};
ghost use Rattle.hickory_store.specs.updates.WorkedChanges.{added, alias, apex_address, apex_soa, by_rfc, comes_and_goes, deletes, delegation, hosts, in_crate, ns, soa_of, updated, www_with, zone_at};
ghost use Rattle.hickory_store.specs.updates.WorkedUpdates.{address, asked, at_address, nx, origin, outside, required, required_of, scanned_empty, scanned_full, server, soa, types, with_data, www, www_in_capitals, zone};

use crate::updates::verifier::Verifier;

/// What is one record of a zone: the owner name in any letter case, the class, and the data; not the TTL.
pub fn worked_identities()
    ensures case { ttl_at zone (at_address www_in_capitals 10) ≡ Some 3600 }
    ensures data { ttl_at zone (at_address www 12) ≡ None }
    ensures class { ttl_at zone (record_of www 254 0 (address 10)) ≡ None }
    ensures form { same_record (at_address www 10)
        (record_of www 1 0 (rdata.Unknown 1 (192 ∷ 0 ∷ 2 ∷ 10 ∷ []))) ≡ false }
    ensures soa { ttl_at zone (record_of origin 1 0 soa) ≡ Some 3600 }
{}

/// What single prerequisites are answered, for each class and type (RFC 2136 section 3.2).
pub fn worked_prerequisites()
    ensures any_of_www { required_of www 255 (1 ∷ 15 ∷ 255 ∷ []) ≡ None ∷ Some 8 ∷ None ∷ [] }
    ensures any_of_nobody { required_of nx 255 (1 ∷ 15 ∷ 255 ∷ []) ≡ Some 8 ∷ Some 8 ∷ Some 3 ∷ [] }
    ensures none_of_www { required_of www 254 (1 ∷ 15 ∷ 255 ∷ []) ≡ Some 7 ∷ None ∷ Some 6 ∷ [] }
    ensures none_of_nobody { required_of nx 254 (1 ∷ 15 ∷ 255 ∷ []) ≡ None ∷ None ∷ None ∷ [] }
    ensures chaos { required_of www 3 (1 ∷ 15 ∷ 255 ∷ []) ≡ Some 1 ∷ Some 1 ∷ Some 1 ∷ [] }
    ensures any_in_capitals { required_of www_in_capitals 255 (1 ∷ 255 ∷ []) ≡ None ∷ None ∷ [] }
    ensures any_with_data { required (with_data www 255 255 ∷ []) ≡ Some 1 }
    ensures none_with_data { required (with_data nx 254 1 ∷ []) ≡ Some 1 }
    ensures null_without_bytes { required (record_of www 255 0 (rdata.NULL []) ∷ []) ≡ Some 8 }
    ensures null_of_a_byte { required (record_of www 255 0 (rdata.NULL (0 ∷ [])) ∷ []) ≡ Some 1 }
    ensures ttl_first { required (record_of outside 255 1 (rdata.Update0 255) ∷ []) ≡ Some 1 }
    ensures outside { required (asked outside 255 255 ∷ []) ≡ Some 10 }
{}

/// What RRsets with data are answered (RFC 2136 section 2.4.2).
pub fn worked_sets()
    ensures nothing { required [] ≡ None }
    ensures not_all { required (at_address www 10 ∷ []) ≡ Some 8 }
    ensures all { required (at_address www 11 ∷ at_address www_in_capitals 10 ∷ at_address www 11 ∷ []) ≡ None }
    ensures too_many { required (at_address www 10 ∷ at_address www 11 ∷ at_address www 12 ∷ []) ≡ Some 8 }
    ensures other { required (at_address nx 10 ∷ []) ≡ Some 8 }
    ensures two_sets { required (at_address www 10 ∷ at_address origin 1 ∷ at_address www 11 ∷ []) ≡ None }
    ensures compared_last { required (at_address www 10 ∷ asked nx 255 255 ∷ []) ≡ Some 3 }
{}

/// What single changes are answered, for each class and type (RFC 2136 section 3.4.1).
pub fn worked_prescans()
    ensures added { scanned_full 1 types ≡ None ∷ Some 1 ∷ None ∷ None ∷ Some 1 ∷ Some 1 ∷ Some 1 ∷ Some 1 ∷ Some 1 ∷
        [] }
    ensures added_without_data { scanned_empty 1 types ≡ Some 1 ∷ Some 1 ∷ Some 1 ∷ Some 1 ∷ Some 1 ∷ Some 1 ∷ Some 1 ∷
        Some 1 ∷ Some 1 ∷ [] }
    ensures added_soa { update_refusal origin (record_of origin 1 60 soa) ≡ None }
    ensures sets_deleted { scanned_empty 255 types ≡ None ∷ None ∷ None ∷ None ∷ Some 1 ∷ Some 1 ∷ Some 1 ∷ Some 1 ∷
        None ∷ [] }
    ensures sets_deleted_with_data { scanned_full 255 types ≡ Some 1 ∷ Some 1 ∷ Some 1 ∷ Some 1 ∷ Some 1 ∷ Some 1 ∷
        Some 1 ∷ Some 1 ∷ Some 1 ∷ [] }
    ensures deleted { scanned_full 254 types ≡ None ∷ None ∷ None ∷ None ∷ Some 1 ∷ Some 1 ∷ Some 1 ∷ Some 1 ∷ Some 1 ∷
        [] }
    ensures deleted_without_data { scanned_empty 254 types ≡ None ∷ None ∷ None ∷ None ∷ Some 1 ∷ Some 1 ∷ Some 1 ∷ Some
        1 ∷ Some 1 ∷ [] }
    ensures chaos { scanned_full 3 types ≡ Some 1 ∷ Some 1 ∷ Some 1 ∷ Some 1 ∷ Some 1 ∷ Some 1 ∷ Some 1 ∷ Some 1 ∷ Some
        1 ∷ [] }
    ensures set_deleted_with_ttl { update_refusal origin (record_of www 255 1 (rdata.Update0 1)) ≡ Some 1 }
    ensures deleted_with_ttl { update_refusal origin (record_of www 254 1 (address 10)) ≡ Some 1 }
    ensures null_of_a_byte { update_refusal origin (record_of www 255 0 (rdata.NULL (0 ∷ []))) ≡ Some 1 }
    ensures outside_first { update_refusal origin (with_data outside 1 255) ≡ Some 10 }
    ensures first_of_two { prescan_refusal origin
        (at_address www 12 ∷ with_data www 1 255 ∷ with_data outside 1 1 ∷ []) ≡ Some 1 }
{}

/// Who may do what: the flag and the policy come before the verifier, and a good signature is good from the start of
/// its range on and before its end.
pub fn worked_permissions<V: Verifier>(verifier: &V)
    ensures no_updates { (request : ReceivedRequest) (now : ℕ) →
        update_permission V.Verifier verifier.now false request now ≡ refused }
    ensures no_transfers { (request : ReceivedRequest) (now : ℕ) →
        transfer_permission V.Verifier verifier.now policy.Deny request now ≡ refused }
    ensures all_transfers { (request : ReceivedRequest) (now : ℕ) →
        transfer_permission V.Verifier verifier.now policy.AllowAll request now ≡ allowed }
    ensures before { verified_kind (1 ∷ []) (Some (record { start = 100; end = 200 })) 99 ≡ Known (1 ∷ [])
        (Some BadTime) }
    ensures at_the_start { verified_kind (1 ∷ []) (Some (record { start = 100; end = 200 })) 100 ≡ Known (1 ∷ []) None }
    ensures at_the_last { verified_kind (1 ∷ []) (Some (record { start = 100; end = 200 })) 199 ≡ Known (1 ∷ []) None }
    ensures at_the_end { verified_kind (1 ∷ []) (Some (record { start = 100; end = 200 })) 200 ≡ Known (1 ∷ [])
        (Some BadTime) }
    ensures bad { verified_kind (1 ∷ []) None 100 ≡ BadSignature }
    ensures refusals { (kind_refusal UnknownKey ≡ Some 9) × (kind_refusal BadSignature ≡ Some 9) ×
        (kind_refusal (Known (1 ∷ []) (Some BadTime)) ≡ Some 9) × (kind_refusal (Known (1 ∷ []) None) ≡ None) }
{
    let _ = verifier;
}

/// What additions do to the zone (RFC 2136 section 3.4.2.2): a record is added, and replaces the one that is the same;
/// an SOA is added where its serial is greater; beside a CNAME nothing is added, and a CNAME is added beside nothing.
/// The serial is incremented where the zone changed.
pub fn worked_additions()
    ensures same { updated 7 (apex_address 3600 ∷ []) true ≡ Ok (zone_at 7, false) }
    ensures other_ttl { updated 7 (apex_address 60 ∷ []) true ≡ Ok
        (apex_soa 8 ∷ ns ∷ hosts ++ apex_address 60 ∷ [], true) }
    ensures added { updated 7 (at_address added 55 ∷ []) true ≡ Ok (zone_at 8 ++ at_address added 55 ∷ [], true) }
    ensures added_in_replay { updated 7 (at_address added 55 ∷ []) false ≡ Ok
        (zone_at 7 ++ at_address added 55 ∷ [], false) }
    ensures same_soa { updated 7 (apex_soa 7 ∷ []) true ≡ Ok (zone_at 7, false) }
    ensures far_soa { updated 7 (apex_soa 2147483655 ∷ []) true ≡ Ok (zone_at 7, false) }
    ensures next_soa { updated 7 (apex_soa 9 ∷ []) true ≡ Ok
        (ns ∷ apex_address 3600 ∷ hosts ++ apex_soa 10 ∷ [], true) }
    ensures soas { updated 7 (apex_soa 9 ∷ apex_soa 8 ∷ []) true ≡ Ok
        (ns ∷ apex_address 3600 ∷ hosts ++ apex_soa 10 ∷ [], true) }
    ensures soa_below { updated 7 (record_of www 1 3600 (soa_of 9) ∷ []) true ≡ Ok (zone_at 7, false) }
    ensures cname_beside { updated 7 (record_of www 1 3600 (rdata.CNAME server) ∷ []) true ≡ Ok (zone_at 7, false) }
    ensures cname { updated 7 (comes_and_goes ++ record_of alias 1 60 (rdata.CNAME server) ∷ []) true ≡ Ok
        (zone_at 8 ++ record_of alias 1 60 (rdata.CNAME server) ∷ [], true) }
    ensures no_soa { applied false origin hosts (at_address added 55 ∷ []) true ≡ Err 2 }
{}

/// What deletions do to the zone (RFC 2136 sections 3.4.2.3 and 3.4.2.4): at the apex SOA and NS stay, and so does the
/// one NS of a name.
pub fn worked_deletions()
    ensures all_of_the_apex { updated 7 (asked origin 255 255 ∷ []) true ≡ Ok (apex_soa 8 ∷ ns ∷ hosts, true) }
    ensures last_serial { updated 4294967295 (asked origin 255 255 ∷ []) true ≡ Ok (apex_soa 0 ∷ ns ∷ hosts, true) }
    ensures soa_of_the_apex { updated 7 (asked origin 255 6 ∷ []) true ≡ Ok (zone_at 7, false) }
    ensures rrset { updated 7 (asked www_in_capitals 255 1 ∷ []) true ≡ Ok
        (apex_soa 8 ∷ ns ∷ apex_address 3600 ∷ [], true) }
    ensures other_type { updated 7 (asked www 255 15 ∷ []) true ≡ Ok (zone_at 7, false) }
    ensures record { updated 7 (deletes www (address 10) ∷ deletes www (address 12) ∷ []) true ≡ Ok
        (apex_soa 8 ∷ ns ∷ apex_address 3600 ∷ record_of www 1 3600 (address 11) ∷ [], true) }
    ensures only_ns { updated 7 (deletes origin (rdata.NS server) ∷ []) true ≡ Ok (zone_at 7, false) }
    ensures soa { updated 7 (deletes origin (soa_of 7) ∷ []) true ≡ Ok (zone_at 7, false) }
    ensures one_of_two_ns { updated 7 (record_of origin 1 60 (rdata.NS www) ∷ deletes origin (rdata.NS server) ∷ [])
        true ≡ Ok (apex_soa 8 ∷ apex_address 3600 ∷ hosts ++ record_of origin 1 60 (rdata.NS www) ∷ [], true) }
    ensures comes_and_goes { updated 7 comes_and_goes true ≡ Ok (zone_at 8, true) }
    ensures replayed { updated 7 (comes_and_goes ++ apex_soa 8 ∷ []) false ≡ Ok
        (ns ∷ apex_address 3600 ∷ hosts ++ apex_soa 8 ∷ [], false) }
{}

/// What updates do by the RFCs where the Rust crate hickory-server differs from them, and what they do there: an RRset
/// has the TTL of the record that was added last (RFC 2181 section 5.2), a TTL of 2^31 or more counts as 0 (section 8),
/// and the last NS is kept only at the apex (RFC 2136 section 3.4.2.4).
pub fn worked_rules()
    ensures one_ttl { by_rfc (zone_at 7) (www_with 12 60 ∷ []) ≡ Ok (
      apex_soa 8 ∷ ns ∷ apex_address 3600 ∷ www_with 10 60
          ∷ www_with 11 60 ∷ www_with 12 60 ∷ [],
      true,
    ) }
    ensures two_ttls { in_crate (zone_at 7) (www_with 12 60 ∷ []) ≡ Ok
        (apex_soa 8 ∷ ns ∷ apex_address 3600 ∷ hosts ++ www_with 12 60 ∷ [], true) }
    ensures there { by_rfc (zone_at 7) (www_with 10 60 ∷ []) ≡ Ok
        (apex_soa 8 ∷ ns ∷ apex_address 3600 ∷ www_with 11 60 ∷ www_with 10 60 ∷ [], true) }
    ensures there_with_ttl { by_rfc (zone_at 7) (www_with 10 3600 ∷ []) ≡ Ok (zone_at 7, false) }
    ensures there_beside { by_rfc (apex_soa 7 ∷ www_with 10 3600 ∷ www_with 11 60 ∷ []) (www_with 10 3600 ∷ []) ≡ Ok
        (apex_soa 8 ∷ www_with 11 3600 ∷ www_with 10 3600 ∷ [], true) }
    ensures there_beside_in_crate { in_crate (apex_soa 7 ∷ www_with 10 3600 ∷ www_with 11 60 ∷ [])
        (www_with 10 3600 ∷ []) ≡ Ok (apex_soa 7 ∷ www_with 10 3600 ∷ www_with 11 60 ∷ [], false) }
    ensures large_ttl { by_rfc (apex_soa 7 ∷ []) (www_with 10 2147483648 ∷ []) ≡ Ok
        (apex_soa 8 ∷ www_with 10 0 ∷ [], true) }
    ensures largest_ttl { by_rfc (apex_soa 7 ∷ []) (www_with 10 2147483647 ∷ []) ≡ Ok
        (apex_soa 8 ∷ www_with 10 2147483647 ∷ [], true) }
    ensures large_ttl_in_crate { in_crate (apex_soa 7 ∷ []) (www_with 10 2147483648 ∷ []) ≡ Ok
        (apex_soa 8 ∷ www_with 10 2147483648 ∷ [], true) }
    ensures delegation { by_rfc (apex_soa 7 ∷ ns ∷ delegation ∷ []) (deletes alias (rdata.NS server) ∷ []) ≡ Ok
        (apex_soa 8 ∷ ns ∷ [], true) }
    ensures delegation_in_crate { in_crate (apex_soa 7 ∷ ns ∷ delegation ∷ []) (deletes alias (rdata.NS server) ∷ [])
        ≡ Ok (apex_soa 7 ∷ ns ∷ delegation ∷ [], false) }
    ensures apex_ns { by_rfc (zone_at 7) (deletes origin (rdata.NS server) ∷ []) ≡ Ok (zone_at 7, false) }
{}

/// Serials are compared and incremented by the arithmetic of RFC 1982.
pub fn worked_serials()
    ensures increment { (next_serial 7 ≡ 8) × (next_serial 4294967295 ≡ 0) }
    ensures greater { (is_greater 8 7 ≡ true) × (is_greater 2147483654 7 ≡ true) × (is_greater 0 4294967295 ≡ true) }
    ensures not_greater { (is_greater 7 7 ≡ false) × (is_greater 7 8 ≡ false) × (is_greater 2147483655 7 ≡ false) ×
        (is_greater 4294967295 0 ≡ false) }
{}
