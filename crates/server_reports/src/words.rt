//! Words for numbers.

ghost use Rattle.std.specs.Prelude.{◌≡◌, IfOk, string_bytes};
ghost use Rattle.server_reports.specs.QueryLines.{class_text, code_text, transport_text, type_text};

use std::alloc::{AllocError, Global};

/// A type of records.
pub(crate) fn type_text(alloc: Global, kind: u16) -> Result<String, AllocError>
    ensures { IfOk result (λ text. string_bytes text ≡ type_text kind) }
{
    let word = match kind {
        1 => "A",
        2 => "NS",
        5 => "CNAME",
        6 => "SOA",
        12 => "PTR",
        15 => "MX",
        16 => "TXT",
        28 => "AAAA",
        33 => "SRV",
        43 => "DS",
        48 => "DNSKEY",
        64 => "SVCB",
        65 => "HTTPS",
        251 => "IXFR",
        252 => "AXFR",
        255 => "ANY",
        257 => "CAA",
        _ => return format!(in alloc; "TYPE{kind}"),
    };
    String::from_str(alloc, word)
}

/// A class.
pub(crate) fn class_text(alloc: Global, class: u16) -> Result<String, AllocError>
    ensures { IfOk result (λ text. string_bytes text ≡ class_text class) }
{
    match class {
        1 => String::from_str(alloc, "IN"),
        255 => String::from_str(alloc, "ANY"),
        _ => format!(in alloc; "CLASS{class}"),
    }
}

/// A response code.
pub(crate) fn code_text(alloc: Global, code: u8) -> Result<String, AllocError>
    ensures { IfOk result (λ text. string_bytes text ≡ code_text code) }
{
    let word = match code {
        0 => "NOERROR",
        1 => "FORMERR",
        2 => "SERVFAIL",
        3 => "NXDOMAIN",
        4 => "NOTIMP",
        5 => "REFUSED",
        6 => "YXDOMAIN",
        7 => "YXRRSET",
        8 => "NXRRSET",
        9 => "NOTAUTH",
        10 => "NOTZONE",
        _ => return format!(in alloc; "RCODE{code}"),
    };
    String::from_str(alloc, word)
}

/// A transport.
pub(crate) fn transport_text(stream: bool) -> &'static str
    ensures { result.now ≡ transport_text stream }
{
    if stream { "tcp" } else { "udp" }
}
