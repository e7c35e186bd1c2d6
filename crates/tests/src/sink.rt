//! The sink that the server hands its replies to, and the reader that a list is read from.

ghost use Rattle.std.specs.Prelude.{◌≡◌, ◌+◌, ◌%◌, ◌^◌};

use hickory_base::encoding_sink::EncodingSink;
use hickory_base::message_response::MessageResponse;
use hickory_base::server::{RecordRef, ResponseHandler, ResponseInfo};
use hickory_wire::{Octets, Protocol};
use std::alloc::Global;
use std::io::{self, Read};

/// When a sink fails.
#[derive(Clone, Copy)]
pub struct Sinking {
    /// At the reply of this number, and at each after it; never at 0.
    pub fails_at: usize,
    /// Whether it keeps the replies at which it fails.
    pub keeps: bool,
}

/// A sink that keeps replies as they are sent, and fails if a script says so.
#[derive(Drop)]
pub struct ScriptedSink {
    /// When it fails.
    pub sinking: Sinking,
    /// What it keeps.
    pub kept: EncodingSink,
    /// How many times it failed.
    pub failures: u64,
}

impl ScriptedSink {
    /// Counts a failure.
    fn fail(&mut self) -> io::Error
        ensures { self.new ≡ record self.old { failures = (self.old.failures + 1) % 2 ^ 64 } }
    {
        self.failures = self.failures.wrapping_add(1);
        io::Error::from(io::ErrorKind::ConnectionReset)
    }
}

impl ResponseHandler for ScriptedSink {
    type Entry = Octets;

    type Settings = Protocol;

    ghost entries = { λ sink. sink.kept.replies };

    ghost settings = { λ sink. sink.kept.protocol };

    ghost shows = { λ _ _ _. Unit {0} };

    ghost informs = { λ _ _ _ _. Unit {0} };

    ghost failures = { λ sink. sink.failures };

    fn send_response<'q, 'a, A, N, S, D>(
        &mut self,
        alloc: Global,
        response: MessageResponse<'q, 'a, A, N, S, D>,
    ) -> Result<ResponseInfo, io::Error>
    where
        A: Iterator + Drop,
        A::Item: RecordRef,
        N: Iterator + Drop,
        N::Item: RecordRef,
        S: Iterator + Drop,
        S::Item: RecordRef,
        D: Iterator + Drop,
        D::Item: RecordRef,
    {
        let count = self.kept.replies().len().saturating_add(1);
        let fails = self.sinking.fails_at > 0 && count >= self.sinking.fails_at;
        if fails && !self.sinking.keeps {
            drop(response);
            return Err(self.fail());
        }
        let Ok(info) = self.kept.send_response(alloc, response) else {
            return Err(self.fail());
        };
        if fails {
            return Err(self.fail());
        }
        Ok(info)
    }
}

/// A reader that gives one piece for each read, and then ends or fails. A piece without bytes ends it.
#[derive(Drop)]
pub struct Pieces<'p> {
    /// The pieces.
    pub pieces: &'p [Octets],
    /// How many were read.
    pub next: usize,
    /// Whether it fails after the last piece.
    pub fails: bool,
}

impl Read for Pieces<'_> {
    fn read(&mut self, buffer: &mut [u8]) -> io::Result<usize> {
        match self.pieces.get(self.next) {
            Some(piece) => {
                let bytes = piece.as_slice();
                let len = bytes.len().min(buffer.len());
                buffer[..len].copy_from_slice(&bytes[..len]);
                self.next += 1;
                Ok(len)
            }
            None if self.fails => Err(io::Error::from(io::ErrorKind::Interrupted)),
            None => Ok(0),
        }
    }
}
