//! Mnemonics of numbers: of algorithms, types of certificates, digests, protocols, services and schemes of
//! notification.

ghost use Rattle.std.specs.Prelude.{◌≡◌, ◌≢◌, Any, Option, map, IfErr, IfNone, IfSome, OnOk};
ghost use Rattle.wire_names.specs.rr.domain.DomainName.{DomainName};
ghost use Rattle.record_text.specs.declared.data.field.Field.TheVariants as field;
ghost use Rattle.text_words.specs.declared.error.TextError.TheVariants.{Memory};
ghost use Rattle.text_words.specs.Spelling.{Puts};
ghost use Rattle.record_text.specs.Mnemonics.{mnemonics};
ghost use Rattle.record_text.specs.RecordText.{HasNone, IsField, IsNamed, SameLetters, mnemonic_view};

use crate::data::field::Names;
use crate::data::fields::{put_number8, put_number16};
use text_words::{TextError, TextFault, Word};

/// A mnemonic of a number.
#[derive(Clone, Copy, Debug)]
pub(crate) struct Mnemonic {
    number: u8,
    letters: &'static str,
}

/// Algorithms of DNSSEC (RFC 4034 appendix A.1, IANA's registry), with the names that BIND gives to some.
static ALGORITHMS: [Mnemonic; 20] = [
    Mnemonic {
        number: 1,
        letters: "RSAMD5",
    },
    Mnemonic {
        number: 2,
        letters: "DH",
    },
    Mnemonic {
        number: 3,
        letters: "DSA",
    },
    Mnemonic {
        number: 4,
        letters: "ECC",
    },
    Mnemonic {
        number: 5,
        letters: "RSASHA1",
    },
    Mnemonic {
        number: 6,
        letters: "DSA-NSEC3-SHA1",
    },
    Mnemonic {
        number: 6,
        letters: "NSEC3DSA",
    },
    Mnemonic {
        number: 7,
        letters: "RSASHA1-NSEC3-SHA1",
    },
    Mnemonic {
        number: 7,
        letters: "NSEC3RSASHA1",
    },
    Mnemonic {
        number: 8,
        letters: "RSASHA256",
    },
    Mnemonic {
        number: 10,
        letters: "RSASHA512",
    },
    Mnemonic {
        number: 12,
        letters: "ECC-GOST",
    },
    Mnemonic {
        number: 12,
        letters: "ECCGOST",
    },
    Mnemonic {
        number: 13,
        letters: "ECDSAP256SHA256",
    },
    Mnemonic {
        number: 14,
        letters: "ECDSAP384SHA384",
    },
    Mnemonic {
        number: 15,
        letters: "ED25519",
    },
    Mnemonic {
        number: 16,
        letters: "ED448",
    },
    Mnemonic {
        number: 252,
        letters: "INDIRECT",
    },
    Mnemonic {
        number: 253,
        letters: "PRIVATEDNS",
    },
    Mnemonic {
        number: 254,
        letters: "PRIVATEOID",
    },
];

/// Types of certificates (RFC 4398 section 2.1).
static CERTIFICATES: [Mnemonic; 10] = [
    Mnemonic {
        number: 1,
        letters: "PKIX",
    },
    Mnemonic {
        number: 2,
        letters: "SPKI",
    },
    Mnemonic {
        number: 3,
        letters: "PGP",
    },
    Mnemonic {
        number: 4,
        letters: "IPKIX",
    },
    Mnemonic {
        number: 5,
        letters: "ISPKI",
    },
    Mnemonic {
        number: 6,
        letters: "IPGP",
    },
    Mnemonic {
        number: 7,
        letters: "ACPKIX",
    },
    Mnemonic {
        number: 8,
        letters: "IACPKIX",
    },
    Mnemonic {
        number: 253,
        letters: "URI",
    },
    Mnemonic {
        number: 254,
        letters: "OID",
    },
];

/// Algorithms of digests (RFC 4034 appendix A.2, IANA's registry), with the names that BIND gives to some.
static DIGESTS: [Mnemonic; 7] = [
    Mnemonic {
        number: 1,
        letters: "SHA-1",
    },
    Mnemonic {
        number: 1,
        letters: "SHA1",
    },
    Mnemonic {
        number: 2,
        letters: "SHA-256",
    },
    Mnemonic {
        number: 2,
        letters: "SHA256",
    },
    Mnemonic {
        number: 3,
        letters: "GOST",
    },
    Mnemonic {
        number: 4,
        letters: "SHA-384",
    },
    Mnemonic {
        number: 4,
        letters: "SHA384",
    },
];

/// Protocols over IP (RFC 1010, IANA's registry), as BIND and the systems have them.
static PROTOCOLS: [Mnemonic; 11] = [
    Mnemonic {
        number: 0,
        letters: "IP",
    },
    Mnemonic {
        number: 1,
        letters: "ICMP",
    },
    Mnemonic {
        number: 2,
        letters: "IGMP",
    },
    Mnemonic {
        number: 3,
        letters: "GGP",
    },
    Mnemonic {
        number: 6,
        letters: "TCP",
    },
    Mnemonic {
        number: 8,
        letters: "EGP",
    },
    Mnemonic {
        number: 12,
        letters: "PUP",
    },
    Mnemonic {
        number: 17,
        letters: "UDP",
    },
    Mnemonic {
        number: 20,
        letters: "HMP",
    },
    Mnemonic {
        number: 22,
        letters: "XNS-IDP",
    },
    Mnemonic {
        number: 27,
        letters: "RDP",
    },
];

/// Services at ports below 256 (RFC 1010, IANA's registry), as the systems have them.
static SERVICES: [Mnemonic; 37] = [
    Mnemonic {
        number: 7,
        letters: "ECHO",
    },
    Mnemonic {
        number: 9,
        letters: "DISCARD",
    },
    Mnemonic {
        number: 11,
        letters: "SYSTAT",
    },
    Mnemonic {
        number: 13,
        letters: "DAYTIME",
    },
    Mnemonic {
        number: 15,
        letters: "NETSTAT",
    },
    Mnemonic {
        number: 17,
        letters: "QOTD",
    },
    Mnemonic {
        number: 19,
        letters: "CHARGEN",
    },
    Mnemonic {
        number: 20,
        letters: "FTP-DATA",
    },
    Mnemonic {
        number: 21,
        letters: "FTP",
    },
    Mnemonic {
        number: 22,
        letters: "SSH",
    },
    Mnemonic {
        number: 23,
        letters: "TELNET",
    },
    Mnemonic {
        number: 25,
        letters: "SMTP",
    },
    Mnemonic {
        number: 37,
        letters: "TIME",
    },
    Mnemonic {
        number: 43,
        letters: "WHOIS",
    },
    Mnemonic {
        number: 49,
        letters: "TACACS",
    },
    Mnemonic {
        number: 53,
        letters: "DOMAIN",
    },
    Mnemonic {
        number: 67,
        letters: "BOOTPS",
    },
    Mnemonic {
        number: 68,
        letters: "BOOTPC",
    },
    Mnemonic {
        number: 69,
        letters: "TFTP",
    },
    Mnemonic {
        number: 70,
        letters: "GOPHER",
    },
    Mnemonic {
        number: 79,
        letters: "FINGER",
    },
    Mnemonic {
        number: 80,
        letters: "HTTP",
    },
    Mnemonic {
        number: 80,
        letters: "WWW",
    },
    Mnemonic {
        number: 88,
        letters: "KERBEROS",
    },
    Mnemonic {
        number: 110,
        letters: "POP3",
    },
    Mnemonic {
        number: 111,
        letters: "SUNRPC",
    },
    Mnemonic {
        number: 113,
        letters: "AUTH",
    },
    Mnemonic {
        number: 119,
        letters: "NNTP",
    },
    Mnemonic {
        number: 123,
        letters: "NTP",
    },
    Mnemonic {
        number: 137,
        letters: "NETBIOS-NS",
    },
    Mnemonic {
        number: 138,
        letters: "NETBIOS-DGM",
    },
    Mnemonic {
        number: 139,
        letters: "NETBIOS-SSN",
    },
    Mnemonic {
        number: 143,
        letters: "IMAP2",
    },
    Mnemonic {
        number: 161,
        letters: "SNMP",
    },
    Mnemonic {
        number: 162,
        letters: "SNMP-TRAP",
    },
    Mnemonic {
        number: 179,
        letters: "BGP",
    },
    Mnemonic {
        number: 194,
        letters: "IRC",
    },
];

/// Schemes of notification (RFC 9859 section 6.2).
static SCHEMES: [Mnemonic; 1] = [Mnemonic {
    number: 1,
    letters: "NOTIFY",
}];

/// The mnemonics of numbers.
fn table_of(names: Names) -> &'static [Mnemonic]
    ensures { map mnemonic_view result.now ≡ mnemonics names }
{
    match names {
        Names::Algorithms => &ALGORITHMS,
        Names::Certificates => &CERTIFICATES,
        Names::Digests => &DIGESTS,
        Names::Protocols => &PROTOCOLS,
        Names::Services => &SERVICES,
        Names::Schemes => &SCHEMES,
    }
}

/// The number of a mnemonic, the letters of which may have any case.
fn number_called(table: &[Mnemonic], letters: &[u8]) -> Option<u8>
    ensures named { IfSome result (λ number.
        Any (λ m. (m.number ≡ number) × SameLetters m.letters.now letters.now) table.now) }
    ensures none { IfNone result (HasNone
        (λ number. Any (λ m. (m.number ≡ number) × SameLetters m.letters.now letters.now) table.now)) }
{
    let found = table
        .iter()
        .find(|m| m.letters.as_bytes().eq_ignore_ascii_case(letters))?;
    Some(found.number)
}

/// The number that a mnemonic names, the letters of which may have any case.
pub(crate) fn number_named(names: Names, letters: &[u8]) -> Option<u8>
    ensures named { IfSome result (IsNamed names letters.now) }
    ensures none { IfNone result (HasNone (IsNamed names letters.now)) }
{
    number_called(table_of(names), letters)
}

/// Puts a number of 8 bits behind other bytes, or that of a mnemonic.
pub(crate) fn put_named8(names: Names, word: &Word<'_>, data: &mut Vec<u8>) -> Result<(), TextError>
    ensures put { OnOk result ((origin : Option DomainName) →
        Puts (IsField origin (field.Named8 names) word.now) «data».old.items «data».new.items) }
    ensures refused { IfErr result (λ e. e ≢ Memory → (origin : Option DomainName) →
        HasNone (IsField origin (field.Named8 names) word.now)) }
{
    if word.quoted {
        return Err(word.fault(TextFault::BadNumber));
    }
    let Some(number) = number_named(names, word.bytes) else {
        return put_number8(word, data);
    };
    data.push(number)?;
    Ok(())
}

/// Puts a number of 16 bits behind other bytes, or that of a mnemonic.
pub(crate) fn put_named16(
    names: Names,
    word: &Word<'_>,
    data: &mut Vec<u8>,
) -> Result<(), TextError>
    ensures put { OnOk result ((origin : Option DomainName) →
        Puts (IsField origin (field.Named16 names) word.now) «data».old.items «data».new.items) }
    ensures refused { IfErr result (λ e. e ≢ Memory → (origin : Option DomainName) →
        HasNone (IsField origin (field.Named16 names) word.now)) }
{
    if word.quoted {
        return Err(word.fault(TextFault::BadNumber));
    }
    let Some(number) = number_named(names, word.bytes) else {
        return put_number16(word, data);
    };
    data.extend_from_slice(&u16::from(number).to_be_bytes())?;
    Ok(())
}
