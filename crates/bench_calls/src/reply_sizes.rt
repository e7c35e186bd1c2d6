//! A sink that writes each reply and keeps its size.

ghost use Rattle.std.specs.Prelude.{◌≡◌, ◌+◌, ◌%◌, ◌^◌, ⊤};

use hickory_base::message_response::{MessageResponse, ResponseInfo};
use hickory_base::server::{RecordRef, ResponseHandler, encode_response};
use hickory_wire::{Items, Protocol};
use std::alloc::Global;
use std::io;

/// The sizes of the replies over a stream, in bytes, in the order in which they came.
#[derive(Drop)]
pub(crate) struct ReplySizes {
    sizes: Items<usize>,
    failures: u64,
}

impl ReplySizes {
    /// No replies yet.
    pub(crate) fn new(alloc: Global) -> ReplySizes {
        ReplySizes {
            sizes: Items::new(alloc),
            failures: 0,
        }
    }

    /// The size of all replies together.
    pub(crate) fn total(&self) -> u64 {
        let mut total = 0u64;
        for size in self.sizes.as_slice() {
            total = total.wrapping_add(*size as u64);
        }
        total
    }

    /// Counts a failure.
    fn fail(&mut self) -> io::Error
        ensures { self.new ≡ record self.old { failures = (self.old.failures + 1) % 2 ^ 64 } }
    {
        self.failures = self.failures.wrapping_add(1);
        io::Error::from(io::ErrorKind::OutOfMemory)
    }
}

impl ResponseHandler for ReplySizes {
    type Entry = usize;

    type Settings = ();

    ghost entries = { λ s. s.sizes };

    ghost settings = { λ _. tt };

    ghost shows = { λ _ _ _. ⊤ };

    ghost informs = { λ _ _ _ _. ⊤ };

    ghost failures = { λ s. s.failures };

    fn send_response<'q, 'a, A, N, S, D>(
        &mut self,
        alloc: Global,
        response: MessageResponse<'q, 'a, A, N, S, D>,
    ) -> Result<ResponseInfo, io::Error>
    where
        A: Iterator + Drop,
        A::Item: RecordRef,
        N: Iterator + Drop,
        N::Item: RecordRef,
        S: Iterator + Drop,
        S::Item: RecordRef,
        D: Iterator + Drop,
        D::Item: RecordRef,
    {
        let Ok((info, bytes)) = encode_response(alloc, response, Protocol::Tcp) else {
            return Err(self.fail());
        };
        match self.sizes.push(bytes.len()) {
            Ok(()) => Ok(info),
            Err(_) => Err(self.fail()),
        }
    }
}
