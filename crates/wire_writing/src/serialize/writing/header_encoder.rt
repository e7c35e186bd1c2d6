//! The header of a message in bytes.

ghost use Rattle.std.specs.Prelude.{◌≡◌, ℕ, ◌+◌, ◌*◌, ◌^◌, ◌<◌, ◌≤◌, ◌++◌, length, drop, if◌then◌else◌};
ghost use Rattle.wire_messages.specs.serialize.layout.HeaderLayout.{first_flags, second_flags, header_octets, is_response};
ghost use Rattle.wire_messages.specs.serialize.writing.ReplyRanges.{IsMetadataInRange};

use wire_messages::op::header::{Header, MessageType, Metadata};

/// The value of a bit where it is set.
fn flag(is_set: bool, value: u8) -> u8
    ensures number { result ≡ (if is_set then value else 0) }
    ensures small { result ≤ value }
{
    if is_set { value } else { 0 }
}

/// QR, opcode, AA, TC and RD (RFC 1035 section 4.1.1).
fn first_byte(metadata: &Metadata) -> u8
    ensures flags { result ≡ first_flags metadata.now }
    ensures op_code { metadata.now.op_code < 2 ^ 4 }
{
    let response = flag(metadata.message_type == MessageType::Response, 0x80);
    let authoritative = flag(metadata.authoritative, 4);
    let truncation = flag(metadata.truncation, 2);
    let recursion_desired = flag(metadata.recursion_desired, 1);
    response + metadata.op_code.value() * 8 + authoritative + truncation + recursion_desired
}

/// RA, AD, CD and the low response code; the unused bit is 0 (RFC 1035 section 4.1.1, RFC 4035 section 3.2).
fn second_byte(metadata: &Metadata) -> u8
    ensures flags { result ≡ second_flags metadata.now }
    ensures response_code { metadata.now.response_code < 2 ^ 12 }
{
    let recursion_available = flag(metadata.recursion_available, 0x80);
    let authentic_data = flag(metadata.authentic_data, 0x20);
    let checking_disabled = flag(metadata.checking_disabled, 0x10);
    recursion_available + authentic_data + checking_disabled + metadata.response_code.low()
}

/// The twelve bytes of a header.
#[inline(always)]
pub fn header_bytes(header: &Header) -> [u8; 12]
    ensures octets { result ≡ header_octets header.now }
    ensures in_range { IsMetadataInRange header.now.metadata }
{
    let [id_high, id_low] = header.metadata.id.to_be_bytes();
    let [queries_high, queries_low] = header.counts.queries.to_be_bytes();
    let [answers_high, answers_low] = header.counts.answers.to_be_bytes();
    let [authorities_high, authorities_low] = header.counts.authorities.to_be_bytes();
    let [additionals_high, additionals_low] = header.counts.additionals.to_be_bytes();
    [
        id_high,
        id_low,
        first_byte(&header.metadata),
        second_byte(&header.metadata),
        queries_high,
        queries_low,
        answers_high,
        answers_low,
        authorities_high,
        authorities_low,
        additionals_high,
        additionals_low,
    ]
}

#[inline(always)]
fn put_front(bytes: &mut [u8], front: &[u8])
    requires { length front.now ≤ length bytes.old }
    ensures { bytes.new ≡ front.now ++ drop (length front.now) bytes.old }
{
    bytes[..front.len()].copy_from_slice(front);
}

/// Puts a header in the place of the first twelve bytes.
#[inline(always)]
pub fn put_header(bytes: &mut Vec<u8>, header: &Header)
    requires { 12 ≤ length bytes.old.items }
    ensures put { bytes.new.items ≡ header_octets header.now ++ drop 12 bytes.old.items }
    ensures in_range { IsMetadataInRange header.now.metadata }
{
    put_front(bytes, &header_bytes(header));
}
