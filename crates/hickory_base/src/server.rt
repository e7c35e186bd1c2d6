//! Requests with where they came from.

ghost use Rattle.std.specs.Prelude.{◌≡◌, IfOk, IfErr, false, true};
ghost use Rattle.wire_reading.specs.serialize.reading.MessageReading.{Reads};
ghost use Rattle.hickory_base.specs.requests.Questions.{one_query};
ghost use Rattle.hickory_base.specs.requests.RequestReading.{message_of};
ghost use Rattle.hickory_base.specs.requests.Requests.{ReceivedRequest, RequestInformation, information, information_of};

use crate::errors::LookupError;
use crate::requests::message_request::MessageRequest;
pub use crate::responses::message_response::ResponseInfo;
pub use crate::responses::response_encoding::encode_response;
pub use crate::responses::response_handler::{RecordRef, RequestHandler, ResponseHandler};
use hickory_wire::{LowerQuery, Metadata, Octets, Protocol};
use std::marker::Model;
use std::net::SocketAddr;

/// A request: a message, the bytes that it was read from, and where it came from.
#[derive(Drop)]
pub struct Request {
    pub(crate) message: MessageRequest,
    pub(crate) bytes: Octets,
    pub(crate) source: SocketAddr,
    pub(crate) protocol: Protocol,
    pub(crate) was_read: bool,
}

impl Model for Request {
    ghost use Rattle.std.specs.Prelude.{◌≡◌, true};
    ghost use Rattle.wire_reading.specs.serialize.reading.MessageReading.{Reads};
    ghost use Rattle.hickory_base.specs.requests.RequestReading.{message_of};
    ghost use Rattle.hickory_base.specs.requests.Requests.{ReceivedRequest};

    ghost Value = { ReceivedRequest };

    ghost view = { λ r. record {
      message = r.message;
      bytes = r.bytes;
      source = r.source;
      protocol = r.protocol;
      was_read = r.was_read;
    } };

    ghost invariant = { λ r. r.was_read ≡ true → Reads r.bytes (message_of r.message) };
}

impl Request {
    /// A message with its bytes and where it came from, which was not read from them.
    pub(crate) fn new(
        message: MessageRequest,
        bytes: Octets,
        source: SocketAddr,
        protocol: Protocol,
    ) -> Request
        ensures { result ≡ record {
          message = message;
          bytes = bytes;
          source = source;
          protocol = protocol;
          was_read =
              false;
        } }
    {
        Request {
            message,
            bytes,
            source,
            protocol,
            was_read: false,
        }
    }

    /// Whether its message was read from its bytes, as [`Request::from_bytes`] and [`Request::read_in_place`] read it.
    /// One that was put together need not read back as it is.
    pub fn was_read(&self) -> bool
        ensures value { result ≡ self.now.was_read }
        ensures read { self.now.was_read ≡ true → Reads self.now.bytes (message_of self.now.message) }
    {
        self.was_read
    }

    /// The address that it came from.
    pub fn src(&self) -> SocketAddr
        ensures { result ≡ self.now.source }
    {
        self.source
    }

    /// The transport that it came over.
    pub fn protocol(&self) -> Protocol
        ensures { result ≡ self.now.protocol }
    {
        self.protocol
    }

    /// The bytes of the message.
    pub fn as_slice(&self) -> &[u8]
        ensures { result.now ≡ self.now.bytes }
    {
        self.bytes.as_slice()
    }

    /// The message.
    pub fn message(&self) -> &MessageRequest
        ensures { result.now ≡ self.now.message }
    {
        &self.message
    }

    /// The message's header but for its counts.
    pub fn metadata(&self) -> &Metadata
        ensures { result.now ≡ self.now.message.metadata }
    {
        &self.message.metadata
    }

    /// What a handler may know of the request. Where there is not just one question, `BadQueryCount` tells how many.
    pub fn request_info(&self) -> Result<RequestInfo<'_>, LookupError>
        ensures query { IfOk result (λ info. one_query self.now.message.queries.queries ≡ Ok info.query.now) }
        ensures information { IfOk result (λ info. information_of info ≡ information self.now info.query.now) }
        ensures err { IfErr result (λ e. one_query self.now.message.queries.queries ≡ Err e) }
    {
        let query = self.message.queries.try_as_query()?;
        Ok(RequestInfo::new(self.source, self.protocol, &self.message.metadata, query))
    }
}

/// What a handler may know of a request, borrowed from it.
#[derive(Clone, Copy)]
pub struct RequestInfo<'a> {
    /// The address that the request came from.
    pub src: SocketAddr,
    /// The transport that it came over.
    pub protocol: Protocol,
    /// Its header but for the counts.
    pub metadata: &'a Metadata,
    /// Its question.
    pub query: &'a LowerQuery,
}

impl<'a> RequestInfo<'a> {
    /// Puts together what is known of a request.
    pub fn new(
        src: SocketAddr,
        protocol: Protocol,
        metadata: &'a Metadata,
        query: &'a LowerQuery,
    ) -> RequestInfo<'a>
        ensures { information_of result ≡ record
            { source = src; protocol = protocol; metadata = metadata.now; query = query.now } }
    {
        RequestInfo {
            src,
            protocol,
            metadata,
            query,
        }
    }
}
