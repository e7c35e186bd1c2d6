//! The header of a message.

ghost use Rattle.std.specs.Prelude.{◌≡◌, false};
ghost use Rattle.wire_messages.specs.op.Metadata.{response_to, bare_metadata};

use crate::op::op_code::OpCode;
use crate::op::response_code::ResponseCode;

/// Whether a message asks or answers (RFC 1035 section 4.1.1, QR).
#[derive(Clone, Copy, Debug, PartialEq, Eq)]
pub enum MessageType {
    /// It asks.
    Query,
    /// It answers.
    Response,
}

/// The header without its counts (RFC 1035 section 4.1.1; AD and CD: RFC 4035 section 3.2), with the whole response
/// code.
#[derive(Clone, Copy, Debug, PartialEq, Eq)]
pub struct Metadata {
    /// The number by which the client knows the reply.
    pub id: u16,
    /// QR.
    pub message_type: MessageType,
    /// The kind of request.
    pub op_code: OpCode,
    /// AA, the answer is authoritative.
    pub authoritative: bool,
    /// TC, records were left out.
    pub truncation: bool,
    /// RD, recursion is asked for.
    pub recursion_desired: bool,
    /// RA, recursion is available.
    pub recursion_available: bool,
    /// AD, the data are authentic.
    pub authentic_data: bool,
    /// CD, checking is disabled.
    pub checking_disabled: bool,
    /// The response code, of twelve bits.
    pub response_code: ResponseCode,
}

impl Metadata {
    /// No flag is set, and the code is NoError.
    pub fn new(id: u16, message_type: MessageType, op_code: OpCode) -> Metadata
        ensures { result ≡ bare_metadata id message_type op_code }
    {
        Metadata {
            id,
            message_type,
            op_code,
            authoritative: false,
            truncation: false,
            recursion_desired: false,
            recursion_available: false,
            authentic_data: false,
            checking_disabled: false,
            response_code: ResponseCode::NO_ERROR,
        }
    }

    /// The reply to a request: its id, kind, RD and CD, with QR set and all else zero.
    pub fn response_from_request(request: &Metadata) -> Metadata
        ensures { result ≡ response_to request.now }
    {
        let mut response = Metadata::new(request.id, MessageType::Response, request.op_code);
        response.recursion_desired = request.recursion_desired;
        response.checking_disabled = request.checking_disabled;
        response
    }
}

/// How many entries each section has, of 16 bits each (RFC 1035 section 4.1.1).
#[derive(Clone, Copy, Debug, Default, PartialEq, Eq)]
pub struct HeaderCounts {
    /// QDCOUNT.
    pub queries: u16,
    /// ANCOUNT.
    pub answers: u16,
    /// NSCOUNT, in an update UPCOUNT.
    pub authorities: u16,
    /// ARCOUNT, OPT and TSIG included.
    pub additionals: u16,
}

/// The header of a message.
#[derive(Clone, Copy, Debug, PartialEq, Eq)]
pub struct Header {
    /// All but the counts.
    pub metadata: Metadata,
    /// The counts.
    pub counts: HeaderCounts,
}
