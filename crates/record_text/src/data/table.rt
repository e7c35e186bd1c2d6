//! The types that have a mnemonic.

ghost use Rattle.std.specs.Prelude.{◌≡◌, ◌==◌, ℕ, false, find, map, Any, IfNone, IfOk, IfSome, OnErr};
ghost use Rattle.std.specs.Option.{option_copied, option_map};
ghost use Rattle.record_text.specs.RecordText.{HasNone, IsTypeNumber, SameLetters, SpellsMnemonic, SpellsType, row_view};
ghost use Rattle.record_text.specs.TypeTable.{row_of, rows};

use crate::data::field::{Field, Names, Rest, Row};
use hickory_wire::RecordType;
use text_words::{TextError, TextFault, Word, number_of_digits};

/// The types by their numbers (RFC 1035 section 3.2.2, IANA's registry).
static ROWS: [Row; 90] = [
    Row {
        number: 1,
        mnemonic: "A",
        fields: &[Field::Ipv4],
        rest: Rest::Nothing,
    },
    Row {
        number: 2,
        mnemonic: "NS",
        fields: &[Field::Name],
        rest: Rest::Nothing,
    },
    Row {
        number: 3,
        mnemonic: "MD",
        fields: &[Field::Name],
        rest: Rest::Nothing,
    },
    Row {
        number: 4,
        mnemonic: "MF",
        fields: &[Field::Name],
        rest: Rest::Nothing,
    },
    Row {
        number: 5,
        mnemonic: "CNAME",
        fields: &[Field::Name],
        rest: Rest::Nothing,
    },
    Row {
        number: 6,
        mnemonic: "SOA",
        fields: &[
            Field::Name,
            Field::Name,
            Field::Number32,
            Field::Time,
            Field::Time,
            Field::Time,
            Field::Time,
        ],
        rest: Rest::Nothing,
    },
    Row {
        number: 7,
        mnemonic: "MB",
        fields: &[Field::Name],
        rest: Rest::Nothing,
    },
    Row {
        number: 8,
        mnemonic: "MG",
        fields: &[Field::Name],
        rest: Rest::Nothing,
    },
    Row {
        number: 9,
        mnemonic: "MR",
        fields: &[Field::Name],
        rest: Rest::Nothing,
    },
    Row {
        number: 10,
        mnemonic: "NULL",
        fields: &[],
        rest: Rest::Generic,
    },
    Row {
        number: 11,
        mnemonic: "WKS",
        fields: &[Field::Ipv4, Field::Named8(Names::Protocols)],
        rest: Rest::Services,
    },
    Row {
        number: 12,
        mnemonic: "PTR",
        fields: &[Field::Name],
        rest: Rest::Nothing,
    },
    Row {
        number: 13,
        mnemonic: "HINFO",
        fields: &[Field::String, Field::String],
        rest: Rest::Nothing,
    },
    Row {
        number: 14,
        mnemonic: "MINFO",
        fields: &[Field::Name, Field::Name],
        rest: Rest::Nothing,
    },
    Row {
        number: 15,
        mnemonic: "MX",
        fields: &[Field::Number16, Field::Name],
        rest: Rest::Nothing,
    },
    Row {
        number: 16,
        mnemonic: "TXT",
        fields: &[],
        rest: Rest::Strings,
    },
    Row {
        number: 17,
        mnemonic: "RP",
        fields: &[Field::Name, Field::Name],
        rest: Rest::Nothing,
    },
    Row {
        number: 18,
        mnemonic: "AFSDB",
        fields: &[Field::Number16, Field::Name],
        rest: Rest::Nothing,
    },
    Row {
        number: 19,
        mnemonic: "X25",
        fields: &[Field::String],
        rest: Rest::Nothing,
    },
    Row {
        number: 20,
        mnemonic: "ISDN",
        fields: &[],
        rest: Rest::Strings,
    },
    Row {
        number: 21,
        mnemonic: "RT",
        fields: &[Field::Number16, Field::Name],
        rest: Rest::Nothing,
    },
    Row {
        number: 22,
        mnemonic: "NSAP",
        fields: &[Field::Nsap],
        rest: Rest::Nothing,
    },
    Row {
        number: 23,
        mnemonic: "NSAP-PTR",
        fields: &[Field::Name],
        rest: Rest::Nothing,
    },
    Row {
        number: 24,
        mnemonic: "SIG",
        fields: &[
            Field::RecordType,
            Field::Named8(Names::Algorithms),
            Field::Number8,
            Field::Time,
            Field::Moment,
            Field::Moment,
            Field::Number16,
            Field::Name,
        ],
        rest: Rest::Base64,
    },
    Row {
        number: 25,
        mnemonic: "KEY",
        fields: &[
            Field::Number16,
            Field::Number8,
            Field::Named8(Names::Algorithms),
        ],
        rest: Rest::Base64,
    },
    Row {
        number: 26,
        mnemonic: "PX",
        fields: &[Field::Number16, Field::Name, Field::Name],
        rest: Rest::Nothing,
    },
    Row {
        number: 27,
        mnemonic: "GPOS",
        fields: &[Field::String, Field::String, Field::String],
        rest: Rest::Nothing,
    },
    Row {
        number: 28,
        mnemonic: "AAAA",
        fields: &[Field::Ipv6],
        rest: Rest::Nothing,
    },
    Row {
        number: 29,
        mnemonic: "LOC",
        fields: &[],
        rest: Rest::Location,
    },
    Row {
        number: 30,
        mnemonic: "NXT",
        fields: &[Field::Name],
        rest: Rest::LowTypes,
    },
    Row {
        number: 31,
        mnemonic: "EID",
        fields: &[],
        rest: Rest::Hex,
    },
    Row {
        number: 32,
        mnemonic: "NIMLOC",
        fields: &[],
        rest: Rest::Hex,
    },
    Row {
        number: 33,
        mnemonic: "SRV",
        fields: &[
            Field::Number16,
            Field::Number16,
            Field::Number16,
            Field::Name,
        ],
        rest: Rest::Nothing,
    },
    Row {
        number: 35,
        mnemonic: "NAPTR",
        fields: &[
            Field::Number16,
            Field::Number16,
            Field::String,
            Field::String,
            Field::String,
            Field::Name,
        ],
        rest: Rest::Nothing,
    },
    Row {
        number: 36,
        mnemonic: "KX",
        fields: &[Field::Number16, Field::Name],
        rest: Rest::Nothing,
    },
    Row {
        number: 37,
        mnemonic: "CERT",
        fields: &[
            Field::Named16(Names::Certificates),
            Field::Number16,
            Field::Named8(Names::Algorithms),
        ],
        rest: Rest::Base64,
    },
    Row {
        number: 39,
        mnemonic: "DNAME",
        fields: &[Field::Name],
        rest: Rest::Nothing,
    },
    Row {
        number: 40,
        mnemonic: "SINK",
        fields: &[Field::Number8, Field::Number8, Field::Number8],
        rest: Rest::Base64,
    },
    Row {
        number: 41,
        mnemonic: "OPT",
        fields: &[],
        rest: Rest::Generic,
    },
    Row {
        number: 42,
        mnemonic: "APL",
        fields: &[],
        rest: Rest::Prefixes,
    },
    Row {
        number: 43,
        mnemonic: "DS",
        fields: &[
            Field::Number16,
            Field::Named8(Names::Algorithms),
            Field::Named8(Names::Digests),
        ],
        rest: Rest::Hex,
    },
    Row {
        number: 44,
        mnemonic: "SSHFP",
        fields: &[Field::Number8, Field::Number8],
        rest: Rest::Hex,
    },
    Row {
        number: 45,
        mnemonic: "IPSECKEY",
        fields: &[Field::Number8],
        rest: Rest::Gateway,
    },
    Row {
        number: 46,
        mnemonic: "RRSIG",
        fields: &[
            Field::RecordType,
            Field::Named8(Names::Algorithms),
            Field::Number8,
            Field::Time,
            Field::Moment,
            Field::Moment,
            Field::Number16,
            Field::Name,
        ],
        rest: Rest::Base64,
    },
    Row {
        number: 47,
        mnemonic: "NSEC",
        fields: &[Field::Name],
        rest: Rest::Types,
    },
    Row {
        number: 48,
        mnemonic: "DNSKEY",
        fields: &[
            Field::Number16,
            Field::Number8,
            Field::Named8(Names::Algorithms),
        ],
        rest: Rest::Base64,
    },
    Row {
        number: 49,
        mnemonic: "DHCID",
        fields: &[],
        rest: Rest::Base64,
    },
    Row {
        number: 50,
        mnemonic: "NSEC3",
        fields: &[
            Field::Number8,
            Field::Number8,
            Field::Number16,
            Field::Salt,
            Field::Hash,
        ],
        rest: Rest::Types,
    },
    Row {
        number: 51,
        mnemonic: "NSEC3PARAM",
        fields: &[Field::Number8, Field::Number8, Field::Number16, Field::Salt],
        rest: Rest::Nothing,
    },
    Row {
        number: 52,
        mnemonic: "TLSA",
        fields: &[Field::Number8, Field::Number8, Field::Number8],
        rest: Rest::Hex,
    },
    Row {
        number: 53,
        mnemonic: "SMIMEA",
        fields: &[Field::Number8, Field::Number8, Field::Number8],
        rest: Rest::Hex,
    },
    Row {
        number: 55,
        mnemonic: "HIP",
        fields: &[],
        rest: Rest::HostIdentity,
    },
    Row {
        number: 56,
        mnemonic: "NINFO",
        fields: &[],
        rest: Rest::Strings,
    },
    Row {
        number: 57,
        mnemonic: "RKEY",
        fields: &[
            Field::Number16,
            Field::Number8,
            Field::Named8(Names::Algorithms),
        ],
        rest: Rest::Base64,
    },
    Row {
        number: 58,
        mnemonic: "TALINK",
        fields: &[Field::Name, Field::Name],
        rest: Rest::Nothing,
    },
    Row {
        number: 59,
        mnemonic: "CDS",
        fields: &[
            Field::Number16,
            Field::Named8(Names::Algorithms),
            Field::Named8(Names::Digests),
        ],
        rest: Rest::Hex,
    },
    Row {
        number: 60,
        mnemonic: "CDNSKEY",
        fields: &[
            Field::Number16,
            Field::Number8,
            Field::Named8(Names::Algorithms),
        ],
        rest: Rest::Base64,
    },
    Row {
        number: 61,
        mnemonic: "OPENPGPKEY",
        fields: &[],
        rest: Rest::Base64,
    },
    Row {
        number: 62,
        mnemonic: "CSYNC",
        fields: &[Field::Number32, Field::Number16],
        rest: Rest::Types,
    },
    Row {
        number: 63,
        mnemonic: "ZONEMD",
        fields: &[Field::Number32, Field::Number8, Field::Number8],
        rest: Rest::Hex,
    },
    Row {
        number: 64,
        mnemonic: "SVCB",
        fields: &[Field::Number16, Field::Name],
        rest: Rest::ServiceParameters,
    },
    Row {
        number: 65,
        mnemonic: "HTTPS",
        fields: &[Field::Number16, Field::Name],
        rest: Rest::ServiceParameters,
    },
    Row {
        number: 66,
        mnemonic: "DSYNC",
        fields: &[
            Field::RecordType,
            Field::Named8(Names::Schemes),
            Field::Number16,
            Field::Name,
        ],
        rest: Rest::Nothing,
    },
    Row {
        number: 67,
        mnemonic: "HHIT",
        fields: &[],
        rest: Rest::Base64,
    },
    Row {
        number: 68,
        mnemonic: "BRID",
        fields: &[],
        rest: Rest::Base64,
    },
    Row {
        number: 99,
        mnemonic: "SPF",
        fields: &[],
        rest: Rest::Strings,
    },
    Row {
        number: 100,
        mnemonic: "UINFO",
        fields: &[],
        rest: Rest::Generic,
    },
    Row {
        number: 101,
        mnemonic: "UID",
        fields: &[],
        rest: Rest::Generic,
    },
    Row {
        number: 102,
        mnemonic: "GID",
        fields: &[],
        rest: Rest::Generic,
    },
    Row {
        number: 103,
        mnemonic: "UNSPEC",
        fields: &[],
        rest: Rest::Generic,
    },
    Row {
        number: 104,
        mnemonic: "NID",
        fields: &[Field::Number16, Field::Locator64],
        rest: Rest::Nothing,
    },
    Row {
        number: 105,
        mnemonic: "L32",
        fields: &[Field::Number16, Field::Ipv4],
        rest: Rest::Nothing,
    },
    Row {
        number: 106,
        mnemonic: "L64",
        fields: &[Field::Number16, Field::Locator64],
        rest: Rest::Nothing,
    },
    Row {
        number: 107,
        mnemonic: "LP",
        fields: &[Field::Number16, Field::Name],
        rest: Rest::Nothing,
    },
    Row {
        number: 108,
        mnemonic: "EUI48",
        fields: &[Field::Eui48],
        rest: Rest::Nothing,
    },
    Row {
        number: 109,
        mnemonic: "EUI64",
        fields: &[Field::Eui64],
        rest: Rest::Nothing,
    },
    Row {
        number: 250,
        mnemonic: "TSIG",
        fields: &[],
        rest: Rest::Generic,
    },
    Row {
        number: 251,
        mnemonic: "IXFR",
        fields: &[],
        rest: Rest::Generic,
    },
    Row {
        number: 252,
        mnemonic: "AXFR",
        fields: &[],
        rest: Rest::Generic,
    },
    Row {
        number: 253,
        mnemonic: "MAILB",
        fields: &[],
        rest: Rest::Generic,
    },
    Row {
        number: 254,
        mnemonic: "MAILA",
        fields: &[],
        rest: Rest::Generic,
    },
    Row {
        number: 255,
        mnemonic: "ANY",
        fields: &[],
        rest: Rest::Generic,
    },
    Row {
        number: 256,
        mnemonic: "URI",
        fields: &[Field::Number16, Field::Number16, Field::Text],
        rest: Rest::Nothing,
    },
    Row {
        number: 257,
        mnemonic: "CAA",
        fields: &[Field::Number8, Field::String, Field::Text],
        rest: Rest::Nothing,
    },
    Row {
        number: 258,
        mnemonic: "AVC",
        fields: &[],
        rest: Rest::Strings,
    },
    Row {
        number: 260,
        mnemonic: "AMTRELAY",
        fields: &[Field::Number8],
        rest: Rest::Relay,
    },
    Row {
        number: 261,
        mnemonic: "RESINFO",
        fields: &[],
        rest: Rest::Strings,
    },
    Row {
        number: 262,
        mnemonic: "WALLET",
        fields: &[],
        rest: Rest::Strings,
    },
    Row {
        number: 32768,
        mnemonic: "TA",
        fields: &[
            Field::Number16,
            Field::Named8(Names::Algorithms),
            Field::Named8(Names::Digests),
        ],
        rest: Rest::Hex,
    },
    Row {
        number: 32769,
        mnemonic: "DLV",
        fields: &[
            Field::Number16,
            Field::Named8(Names::Algorithms),
            Field::Named8(Names::Digests),
        ],
        rest: Rest::Hex,
    },
];

/// The first row with a number.
fn first_row(table: &'static [Row], number: u16) -> Option<&'static Row>
    ensures { option_copied result ≡ find (λ row. row.number == number) table.now }
{
    table.iter().find(|row| row.number == number)
}

/// The row of a type in the table of types.
fn row_in(table: &'static [Row], number: u16) -> Option<&'static Row>
    requires { map row_view table.now ≡ rows }
    ensures { option_map row_view (option_copied result) ≡ row_of number }
{
    first_row(table, number)
}

/// The row of a type, if it has one.
pub fn row_of(number: u16) -> Option<&'static Row>
    ensures { option_map row_view (option_copied result) ≡ row_of number }
{
    row_in(&ROWS, number)
}

/// The number of a row with a mnemonic, the letters of which may have any case.
fn number_named(table: &[Row], mnemonic: &[u8]) -> Option<u16>
    ensures named { IfSome result (λ number.
        Any (λ row. (row.number ≡ number) × SameLetters row.mnemonic.now mnemonic.now) table.now) }
    ensures none { IfNone result (HasNone
        (λ number. Any (λ row. (row.number ≡ number) × SameLetters row.mnemonic.now mnemonic.now) table.now)) }
{
    let row = table.iter().find(|row| row.mnemonic.as_bytes().eq_ignore_ascii_case(mnemonic))?;
    Some(row.number)
}

/// The number of a type in the table of types.
fn number_in(table: &[Row], mnemonic: &[u8]) -> Option<u16>
    requires { map row_view table.now ≡ rows }
    ensures named { IfSome result (SpellsMnemonic mnemonic.now) }
    ensures none { IfNone result (HasNone (SpellsMnemonic mnemonic.now)) }
{
    number_named(table, mnemonic)
}

/// The number of the type that a mnemonic names, the letters of which may have any case.
pub(crate) fn number_of(mnemonic: &[u8]) -> Option<u16>
    ensures named { IfSome result (SpellsMnemonic mnemonic.now) }
    ensures none { IfNone result (HasNone (SpellsMnemonic mnemonic.now)) }
{
    number_in(&ROWS, mnemonic)
}

/// The number of 16 bits behind `TYPE` (RFC 3597 section 5).
fn numbered(text: &[u8]) -> Option<u16>
    ensures spelled { IfSome result (IsTypeNumber text.now) }
    ensures none { IfNone result (HasNone (IsTypeNumber text.now)) }
{
    let (front, digits) = text.split_at_checked(4)?;
    if front.eq_ignore_ascii_case(b"TYPE") {
        let number = number_of_digits(digits)?;
        match u16::try_from(number) {
            Ok(number) => Some(number),
            Err(_) => None,
        }
    } else {
        None
    }
}

/// The type of a field: its mnemonic, or `TYPE` and its number, in any letter case.
pub fn type_of(word: &Word<'_>) -> Result<RecordType, TextError>
    ensures spelled { IfOk result (λ number. (word.now.quoted ≡ false) × SpellsType word.now.bytes.now number) }
    ensures refused { OnErr result ((number : ℕ) → word.now.quoted ≡ false → SpellsType word.now.bytes.now number → ⊥) }
{
    let unknown = word.fault(TextFault::UnknownType);
    if word.quoted {
        return Err(unknown);
    }
    if let Some(number) = number_of(word.bytes) {
        return Ok(RecordType::new(number));
    }
    match numbered(word.bytes) {
        Some(number) => Ok(RecordType::new(number)),
        None => Err(unknown),
    }
}
