//! Reading headers (RFC 1035 section 4.1.1).

ghost use Rattle.std.specs.Prelude.{◌≡◌, ◌<◌, ◌≤◌, ◌+◌, length, take, drop, IfOk, IfErr};
ghost use Rattle.std.specs.Int.{w16, from_be_bytes};
ghost use Rattle.wire_messages.specs.serialize.layout.HeaderLayout.{HeaderAt, bit, metadata_of};
ghost use Rattle.wire_messages.specs.serialize.reading.Reading.{Gives};
ghost use Rattle.wire_messages.specs.serialize.reading.SectionReading.{header};
ghost use Rattle.wire_names.specs.declared.error.DecodeError.TheVariants.{InsufficientBytes};
ghost use Rattle.wire_messages.specs.declared.op.header.Header.{Header};

use crate::serialize::reading::decoder::BinDecoder;
use wire_messages::op::header::{Header, HeaderCounts, MessageType, Metadata};
use wire_messages::op::op_code::OpCode;
use wire_messages::op::response_code::ResponseCode;
use wire_names::error::DecodeError;

/// Whether a bit of a byte is set; bit 0 is the lowest.
fn bit(byte: u8, k: u32) -> bool
    requires { k < 8 }
    ensures { result ≡ bit byte k }
{
    (byte >> k) % 2 == 1
}

/// What the two bytes of flags say.
fn metadata_of(id: u16, one: u8, two: u8) -> Metadata
    ensures value { result ≡ metadata_of id one two }
    ensures low { result.response_code < 16 }
{
    Metadata {
        id,
        message_type: if bit(one, 7) {
            MessageType::Response
        } else {
            MessageType::Query
        },
        op_code: OpCode::new(one / 8 % 16),
        authoritative: bit(one, 2),
        truncation: bit(one, 1),
        recursion_desired: bit(one, 0),
        recursion_available: bit(two, 7),
        authentic_data: bit(two, 5),
        checking_disabled: bit(two, 4),
        response_code: ResponseCode::new(u16::from(two % 16)),
    }
}

/// How many bytes a header has.
const HEADER_LEN: usize = 12;

/// The number of 16 bits whose two bytes stand at a place.
#[inline(always)]
fn number_at(bytes: &[u8], place: usize) -> u16
    requires { place + 2 ≤ length bytes.now }
    ensures { result ≡ from_be_bytes w16 (take 2 (drop place bytes.now)) }
{
    u16::from_be_bytes([bytes[place], bytes[place + 1]])
}

impl<'a> BinDecoder<'a> {
    #[tactic(auto, unfolding(wire_messages::specs::serialize::reading::SectionReading::header))]
    fn next_header(&mut self) -> Result<Header, DecodeError>
        ensures exact { Gives result self.old self.new header }
        ensures fault { IfErr result (λ e. e ≡ InsufficientBytes) }
        ensures low { IfOk result (λ h. h.metadata.response_code < 16) }
    {
        // One look at how many bytes are left is enough for all of them.
        let place = self.index();
        let bytes = self.message();
        self.read_slice(HEADER_LEN)?;
        let id = number_at(bytes, place);
        Ok(Header {
            metadata: metadata_of(id, bytes[place + 2], bytes[place + 3]),
            counts: HeaderCounts {
                queries: number_at(bytes, place + 4),
                answers: number_at(bytes, place + 6),
                authorities: number_at(bytes, place + 8),
                additionals: number_at(bytes, place + 10),
            },
        })
    }

    /// The header at this place, of twelve bytes, with the low four bits of the response code. The unused bit of the
    /// flags is not looked at.
    ///
    /// Then the place is the one behind it. The only error is `InsufficientBytes`: there are fewer than twelve bytes
    /// from this place on. The place is then left open. It needs no memory.
    pub fn read_header(&mut self) -> Result<Header, DecodeError>
        ensures exact { Gives result self.old self.new header }
        ensures fault { IfErr result (λ e. (e ≡ InsufficientBytes) × (length self.old.bytes < self.old.place + 12)) }
        ensures low { IfOk result (λ h. h.metadata.response_code < 16) }
        // At the front of a message, what is read stands there (RFC 1035 section 4.1.1), and what stands there is read.
        ensures found { self.old.place ≡ 0 → IfOk result (λ h. HeaderAt self.old.bytes h × (self.new.place ≡ 12)) }
        ensures only { (h : Header) → self.old.place ≡ 0 → HeaderAt self.old.bytes h → (result ≡ Ok h) ×
            (self.new.place ≡ 12) }
    {
        // That the message is made of bytes is known once it is looked at.
        let _message = self.message();
        self.next_header()
    }
}
