//! A sink that keeps the size of each reply.

ghost use Rattle.std.specs.Prelude.{◌≡◌, ◌+◌, ◌%◌, ◌^◌, ⊤, ℕ, List, length};
ghost use Rattle.wire_messages.specs.declared.protocol.Protocol.TheVariants.{Tcp};
ghost use Rattle.hickory_base.specs.responses.EncodingSinks.{IsEncodingOf};

use hickory_server::proto::{Items, Protocol};
use hickory_server::server::{RecordRef, ResponseHandler, ResponseInfo, encode_response};
use hickory_server::zone_handler::MessageResponse;
use std::alloc::Global;
use std::io;

/// The sizes of the replies over TCP, in bytes, in the order in which they came.
#[derive(Drop)]
pub struct Sizes {
    /// The sizes.
    pub sizes: Items<usize>,
    /// How many replies were refused memory.
    pub failures: u64,
}

impl Sizes {
    /// Counts a failure.
    fn fail(&mut self) -> io::Error
        ensures { self.new ≡ record self.old { failures = (self.old.failures + 1) % 2 ^ 64 } }
    {
        self.failures = self.failures.wrapping_add(1);
        io::Error::from(io::ErrorKind::OutOfMemory)
    }
}

impl ResponseHandler for Sizes {
    type Entry = usize;

    type Settings = ();

    ghost entries = { λ s. s.sizes };

    ghost settings = { λ _. tt };

    ghost shows = { λ _ reply size. (bytes : List ℕ) × IsEncodingOf Tcp reply bytes × (size ≡ length bytes) };

    ghost informs = { λ _ _ _ _. ⊤ };

    ghost failures = { λ s. s.failures };

    fn send_response<'q, 'a, A, N, S, D>(
        &mut self,
        alloc: Global,
        response: MessageResponse<'q, 'a, A, N, S, D>,
    ) -> Result<ResponseInfo, io::Error>
    where
        A: Iterator + Drop,
        A::Item: RecordRef,
        N: Iterator + Drop,
        N::Item: RecordRef,
        S: Iterator + Drop,
        S::Item: RecordRef,
        D: Iterator + Drop,
        D::Item: RecordRef,
    {
        let Ok((info, bytes)) = encode_response(alloc, response, Protocol::Tcp) else {
            return Err(self.fail());
        };
        match self.sizes.push(bytes.len()) {
            Ok(()) => Ok(info),
            Err(_) => Err(self.fail()),
        }
    }
}
