//! Where messages are written.

ghost use Rattle.std.specs.Prelude.{◌≡◌, [], length};

use std::alloc::Global;

/// Writes messages at the end of a vector that is lent to it, up to a limit.
///
/// Contracts speak of the vector's bytes as `written_bytes` and of the limit as `max_size`; that it is the same vector
/// before and after a call is `IsSameVector`.
#[derive(Drop)]
pub struct BinEncoder<'a> {
    pub(crate) buffer: &'a mut Vec<u8>,
    pub(crate) max_size: u16,
    pub(crate) alloc: Global,
}

impl<'a> BinEncoder<'a> {
    ghost use Rattle.hickory_wire.specs.serialize.writing.Encoder.{written_bytes, max_size, IsSameVector};

    /// An encoder that writes to this vector, which is emptied. The limit is 65,535 bytes.
    pub fn new(alloc: Global, buffer: &'a mut Vec<u8>) -> BinEncoder<'a>
        ensures same_reference { result.buffer.ghost_name ≡ buffer.entry.ghost_name }
        ensures empty { written_bytes result ≡ [] }
        ensures limit { max_size result ≡ 65535 }
        ensures alloc { result.alloc ≡ alloc }
    {
        buffer.clear();
        BinEncoder {
            buffer,
            max_size: u16::MAX,
            alloc,
        }
    }

    /// Sets the limit, in bytes.
    pub fn set_max_size(&mut self, max_size: u16)
        ensures same_reference { IsSameVector self.old self.new }
        ensures bytes { written_bytes self.new ≡ written_bytes self.old }
        ensures limit { self.new.max_size ≡ max_size }
        ensures alloc { self.new.alloc ≡ self.old.alloc }
    {
        self.max_size = max_size;
    }

    /// The allocator that it was made with.
    pub fn allocator(&self) -> Global
        ensures { result ≡ self.now.alloc }
    {
        self.alloc
    }

    /// How many bytes were written.
    pub fn offset(&self) -> usize
        ensures { result ≡ length (written_bytes self.now) }
    {
        self.buffer.len()
    }
}
