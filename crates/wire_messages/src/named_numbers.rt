//! The numbers that have names: each function lists its names in the order of their numbers.

ghost use Rattle.std.specs.Prelude.{◌≡◌, ◌∷◌, []};
ghost use Rattle.wire_messages.specs.Numbers.{class_any, class_ch, class_hs, class_in, class_none};
ghost use Rattle.wire_messages.specs.Numbers.{code_bad_vers, code_form_err, code_no_error, code_not_auth, code_not_imp, code_not_zone, code_nx_domain, code_nx_rrset, code_refused, code_serv_fail, code_yx_domain, code_yx_rrset};
ghost use Rattle.wire_messages.specs.Numbers.{opcode_iquery, opcode_notify, opcode_query, opcode_status, opcode_update};
ghost use Rattle.wire_messages.specs.Numbers.{type_a, type_aaaa, type_any, type_axfr, type_cdnskey, type_cds, type_cname, type_dnskey, type_ds, type_ixfr, type_key, type_maila, type_mailb, type_mx, type_ns, type_nsec, type_nsec3, type_nsec3param, type_null, type_opt, type_ptr, type_rrsig, type_sig, type_soa, type_tsig, type_txt};

use crate::op::op_code::OpCode;
use crate::op::response_code::ResponseCode;
use crate::rr::dns_class::DNSClass;
use crate::rr::record_type::RecordType;

/// The types that have names, as IANA's registry has them (RFC 6895 section 3.1): those of RFC 1035 sections 3.2.2 and
/// 3.2.3, RFC 2535, RFC 3596, RFC 6891, RFC 4034, RFC 5155, RFC 7344, RFC 8945 and RFC 1995.
pub fn named_types() -> [RecordType; 26]
    ensures { result ≡ type_a ∷ type_ns ∷ type_cname ∷ type_soa ∷ type_null ∷ type_ptr ∷ type_mx ∷ type_txt ∷
        type_sig ∷ type_key ∷ type_aaaa ∷ type_opt ∷ type_ds ∷ type_rrsig ∷ type_nsec ∷ type_dnskey ∷ type_nsec3 ∷
        type_nsec3param ∷ type_cds ∷ type_cdnskey ∷ type_tsig ∷ type_ixfr ∷ type_axfr ∷ type_mailb ∷ type_maila ∷
        type_any ∷ [] }
{
    [
        RecordType::A,
        RecordType::NS,
        RecordType::CNAME,
        RecordType::SOA,
        RecordType::NULL,
        RecordType::PTR,
        RecordType::MX,
        RecordType::TXT,
        RecordType::SIG,
        RecordType::KEY,
        RecordType::AAAA,
        RecordType::OPT,
        RecordType::DS,
        RecordType::RRSIG,
        RecordType::NSEC,
        RecordType::DNSKEY,
        RecordType::NSEC3,
        RecordType::NSEC3PARAM,
        RecordType::CDS,
        RecordType::CDNSKEY,
        RecordType::TSIG,
        RecordType::IXFR,
        RecordType::AXFR,
        RecordType::MAILB,
        RecordType::MAILA,
        RecordType::ANY,
    ]
}

/// The classes that have names (RFC 1035 sections 3.2.4 and 3.2.5, RFC 2136 section 1.3, RFC 6895 section 3.2).
pub fn named_classes() -> [DNSClass; 5]
    ensures { result ≡ class_in ∷ class_ch ∷ class_hs ∷ class_none ∷ class_any ∷ [] }
{
    [
        DNSClass::IN,
        DNSClass::CH,
        DNSClass::HS,
        DNSClass::NONE,
        DNSClass::ANY,
    ]
}

/// The kinds of requests that have names (RFC 1035 section 4.1.1, RFC 3425, RFC 1996, RFC 2136 section 1.3, RFC 6895
/// section 2.2).
pub fn named_op_codes() -> [OpCode; 5]
    ensures { result ≡ opcode_query ∷ opcode_iquery ∷ opcode_status ∷ opcode_notify ∷ opcode_update ∷ [] }
{
    [
        OpCode::QUERY,
        OpCode::IQUERY,
        OpCode::STATUS,
        OpCode::NOTIFY,
        OpCode::UPDATE,
    ]
}

/// The response codes that have names (RFC 1035 section 4.1.1, RFC 2136 section 2.2, RFC 6891 section 9, RFC 6895
/// section 2.3).
pub fn named_response_codes() -> [ResponseCode; 12]
    ensures { result ≡ code_no_error ∷ code_form_err ∷ code_serv_fail ∷ code_nx_domain ∷ code_not_imp ∷
        code_refused ∷ code_yx_domain ∷ code_yx_rrset ∷ code_nx_rrset ∷ code_not_auth ∷ code_not_zone ∷
        code_bad_vers ∷ [] }
{
    [
        ResponseCode::NO_ERROR,
        ResponseCode::FORM_ERR,
        ResponseCode::SERV_FAIL,
        ResponseCode::NX_DOMAIN,
        ResponseCode::NOT_IMP,
        ResponseCode::REFUSED,
        ResponseCode::YX_DOMAIN,
        ResponseCode::YX_RRSET,
        ResponseCode::NX_RRSET,
        ResponseCode::NOT_AUTH,
        ResponseCode::NOT_ZONE,
        ResponseCode::BAD_VERS,
    ]
}
