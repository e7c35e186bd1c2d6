//! Where lists are read from.

ghost use Rattle.std.specs.Prelude.{◌≡◌, ◌<◌, ◌++◌, ℕ, List, length, Err, IfOk, OnOk};
ghost use Rattle.hickory_store.specs.blocklist.Readers.{CountsIo, ReadsToEnd};
ghost use Rattle.hickory_store.specs.declared.blocklist.handler.AddError.TheVariants as add_error;

use crate::blocklist::handler::AddError;
use std::alloc::Global;
use std::io;
use std::io::Read;
use std::marker::Model;

/// What the text of a list is read from.
///
/// A contract sees a reader as the bytes that it has left, where it tells them, and the number of its failures, which
/// begins again at 0 after 2^64 - 1.
pub trait ListReader {
    ghost use Rattle.std.specs.Prelude.{◌≡◌, ◌+◌, ◌%◌, ◌^◌, ℕ, List, Option, OnOk, OnErr};
    ghost use Rattle.std.specs.Io.{ReadsAtMost};
    ghost use Rattle.hickory_store.specs.blocklist.Readers.{TakesFront};

    ghost remaining: { Self → Option (List ℕ) };

    ghost failures: { Self → ℕ };

    /// Puts bytes into the front of the slice, and answers how many: a front of those that it has left. The answer 0
    /// for a slice that is not empty says that none is left. An `Err` counts one failure, and an `Ok` none.
    fn read(&mut self, buffer: &mut [u8]) -> io::Result<usize>
        ensures bound { ReadsAtMost result buffer.new }
        ensures bytes { TakesFront (remaining self.old) (remaining self.new) result buffer.new }
        ensures uncounted { OnOk result (failures self.new ≡ failures self.old) }
        ensures counted { OnErr result (failures self.new ≡ (failures self.old + 1) % 2 ^ 64) };
}

/// A reader of std as a reader of lists: it counts the failures of the reader inside.
///
/// It takes a reader over, and [`into_inner`](CountedReader::into_inner) gives it back; or it borrows one, which the
/// caller keeps:
///
/// ```text
/// let mut list = CountedReader::new(&mut reader);
/// handler.add(&mut list)?;
/// let failures = list.failures();
/// ```
///
/// A contract sees the reader inside and the count.
#[derive(Drop)]
pub struct CountedReader<R> {
    reader: R,
    failures: u64,
}

impl<R> Model for CountedReader<R> {
    ghost use Rattle.hickory_store.specs.blocklist.Readers.{Counted};

    ghost Value = { Counted R };

    ghost view = { λ counted. record { reader = counted.reader; failures = counted.failures } };
}

impl<R: Read> CountedReader<R> {
    /// A reader that has not failed yet. It takes no memory.
    pub fn new(reader: R) -> CountedReader<R>
        ensures { result ≡ record { reader = reader; failures = 0 } }
    {
        CountedReader {
            reader,
            failures: 0,
        }
    }
}

impl<R> CountedReader<R> {
    /// How many times the reader has failed; the count begins again at 0 after 2^64 - 1.
    pub fn failures(&self) -> u64
        ensures { result ≡ self.now.failures }
    {
        self.failures
    }

    /// The reader inside, at the place where it was left.
    pub fn into_inner(self) -> R
        ensures { result ≡ self.reader }
    {
        let CountedReader { reader, .. } = self;
        reader
    }
}

impl<R: Read> ListReader for CountedReader<R> {
    ghost remaining = { λ counted. R.remaining counted.reader };

    ghost failures = { λ counted. counted.failures };

    fn read(&mut self, buffer: &mut [u8]) -> io::Result<usize> {
        let result = self.reader.read(buffer);
        if result.is_err() {
            self.failures = self.failures.wrapping_add(1);
        }
        result
    }
}

/// How many bytes are asked for at a time.
const CHUNK_LEN: usize = 4096;

/// Puts all bytes that a reader has left behind those of a vector. `chunk` is what they are read through.
fn append_all<R: ListReader>(
    bytes: &mut Vec<u8>,
    reader: &mut R,
    chunk: &mut [u8],
) -> Result<(), AddError>
    requires { 0 < length chunk.old }
    ensures ok { OnOk result ((rest : List ℕ) × ReadsToEnd (R.remaining reader.old) (R.remaining reader.new) rest ×
        (bytes.new.items ≡ bytes.old.items ++ rest)) }
    ensures failures { CountsIo result (R.failures reader.old) (R.failures reader.new) }
    ensures no_text { ¬ (result ≡ Err add_error.NotUtf8) }
{
    'chunks: loop {
        let len = reader.read(chunk)?;
        if len == 0 {
            return Ok(());
        }
        bytes.extend_from_slice(&chunk[..len])?;
    }
}

/// All bytes that a reader has left.
pub(crate) fn read_all<R: ListReader>(alloc: Global, reader: &mut R) -> Result<Vec<u8>, AddError>
    ensures ok { IfOk result (λ bytes. ReadsToEnd (R.remaining reader.old) (R.remaining reader.new) bytes.items) }
    ensures failures { CountsIo result (R.failures reader.old) (R.failures reader.new) }
    ensures no_text { ¬ (result ≡ Err add_error.NotUtf8) }
{
    let mut chunk = vec![in alloc; 0; CHUNK_LEN]?;
    let mut bytes = Vec::new(alloc);
    append_all(&mut bytes, reader, &mut chunk)?;
    Ok(bytes)
}
