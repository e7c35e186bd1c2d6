//! Reading from the front of a message to its end.

ghost use Rattle.std.specs.Prelude.{◌≡◌, ◌≢◌, [], IsTrue, false, Ok, IfOk, IfErr, IfSome, ◌+◌, ◌^◌, ◌≤◌, ◌<◌, length, slice_range, ℕ};
ghost use Rattle.std.specs.Int.{w8, w16, w32};
ghost use Rattle.wire_names.specs.serialize.layout.Bytes.{AreBytes};
ghost use Rattle.wire_messages.specs.serialize.reading.Cursor.{Cursor};
ghost use Rattle.wire_names.specs.rr.domain.DomainName.{DomainName};
ghost use Rattle.wire_messages.specs.serialize.reading.Reading.{Gives, GivesSeenBy, number, octets, rest_of, moved};
ghost use Rattle.wire_messages.specs.serialize.layout.NameLayout.{LabelsAt, NameAt, NameFault, IsFullyQualified};
ghost use Rattle.wire_messages.specs.serialize.reading.NameReading.{name, qualified};
ghost use Rattle.wire_names.specs.declared.error.DecodeError.TheVariants.{Memory, InsufficientBytes};

use crate::serialize::reading::known_names::KnownNames;
use crate::serialize::reading::name_reader::{plain_end, read_name_at};
use bytes::Buf;
use std::alloc::{AllocError, Global};
use std::marker::Model;
use wire_names::error::DecodeError;
use wire_names::rr::domain::name::Name;

/// The names of any message may take so many steps behind pointers, and one more for so many bytes of the message,
/// before what they lead to is kept. The names of most messages take fewer.
const FREE_STEPS: usize = 128;

const BYTES_PER_STEP: usize = 4;

/// So few steps cost less to take again than to keep what they lead to.
const FEW_STEPS: usize = 2;

/// The low byte of the type OPT; its high byte is 0.
const OPT_TYPE: u8 = 41;

/// A place in the bytes of a message, from where it is read on.
#[derive(Drop)]
pub struct BinDecoder<'a> {
    bytes: &'a [u8],
    index: usize,
    // How many more steps behind pointers names may take before what they lead to is kept.
    spare: usize,
    known: Option<KnownNames<'a>>,
}

impl<'a> Model for BinDecoder<'a> {
    ghost Value = { Cursor };

    ghost view = { λ decoder. record { bytes = decoder.bytes.now; place = decoder.index } };

    // The numbers of a message are those of bytes.
    ghost invariant = { λ decoder. (decoder.index ≤ length decoder.bytes.now) × AreBytes decoder.bytes.now ×
        IfSome decoder.known (λ names. names ≡ decoder.bytes.now) };
}

impl<'a> BinDecoder<'a> {
    /// The front of a message.
    pub fn new(bytes: &'a [u8]) -> Self
        ensures { result ≡ record { bytes = bytes.now; place = 0 } }
    {
        BinDecoder {
            bytes,
            index: 0,
            spare: FREE_STEPS + bytes.len() / BYTES_PER_STEP,
            known: None,
        }
    }

    /// How many bytes lie before this place.
    pub fn index(&self) -> usize
        ensures place { result ≡ self.now.place }
        ensures within { result ≤ length self.now.bytes }
    {
        self.index
    }

    /// The bytes from `start` up to this place. `InsufficientBytes` where `start` lies behind it.
    pub fn slice_from(&self, start: usize) -> Result<&'a [u8], DecodeError>
        ensures found { IfOk result (λ s. (start ≤ self.now.place) ×
            (s.now ≡ slice_range self.now.bytes start self.now.place)) }
        ensures fault { IfErr result (λ e. (self.now.place < start) × (e ≡ InsufficientBytes)) }
    {
        if start > self.index {
            return Err(DecodeError::InsufficientBytes);
        }
        Ok(&self.bytes[start..self.index])
    }

    /// How many bytes lie from this place on.
    pub(crate) fn remaining(&self) -> usize
        ensures count { result ≡ length (rest_of self.now) }
        ensures fits { self.now.place + result < 2 ^ 64 }
    {
        self.bytes.len() - self.index
    }

    /// The whole message.
    pub(crate) fn message(&self) -> &'a [u8]
        ensures value { result.now ≡ self.now.bytes }
        ensures bytes { AreBytes self.now.bytes }
    {
        self.bytes
    }

    pub(crate) fn read_u8(&mut self) -> Result<u8, DecodeError>
        ensures exact { Gives result self.old self.new (number w8) }
        ensures fault { IfErr result (λ e. e ≡ InsufficientBytes) }
    {
        let mut rest = &self.bytes[self.index..];
        match rest.try_get_u8() {
            Ok(number) => {
                self.index += 1;
                Ok(number)
            }
            Err(_) => Err(DecodeError::InsufficientBytes),
        }
    }

    pub(crate) fn read_u16(&mut self) -> Result<u16, DecodeError>
        ensures exact { Gives result self.old self.new (number w16) }
        ensures fault { IfErr result (λ e. e ≡ InsufficientBytes) }
    {
        let mut rest = &self.bytes[self.index..];
        match rest.try_get_u16() {
            Ok(number) => {
                self.index += 2;
                Ok(number)
            }
            Err(_) => Err(DecodeError::InsufficientBytes),
        }
    }

    pub(crate) fn read_u32(&mut self) -> Result<u32, DecodeError>
        ensures exact { Gives result self.old self.new (number w32) }
        ensures fault { IfErr result (λ e. e ≡ InsufficientBytes) }
    {
        let mut rest = &self.bytes[self.index..];
        match rest.try_get_u32() {
            Ok(number) => {
                self.index += 4;
                Ok(number)
            }
            Err(_) => Err(DecodeError::InsufficientBytes),
        }
    }

    /// Goes behind owner name and type of an OPT record where one begins here, with the root in full as its owner name
    /// (RFC 6891, section 6.1.2). Answers whether one does; else the place stays.
    pub(crate) fn skip_opt_front(&mut self) -> bool
        ensures root { IsTrue result → name self.old ≡ Ok (qualified [], moved self.old 1) }
        ensures kind { IsTrue result → number w16 (moved self.old 1) ≡ Ok (41, self.new) }
        ensures kept { self.new.bytes ≡ self.old.bytes }
        ensures none { result ≡ false → self.new ≡ self.old }
    {
        let rest = &self.bytes[self.index..];
        if rest.len() < 3 || rest[0] != 0 || rest[1] != 0 || rest[2] != OPT_TYPE {
            return false;
        }
        self.index += 3;
        true
    }

    /// The next `count` bytes, which stay where they are.
    pub(crate) fn read_slice(&mut self, count: usize) -> Result<&'a [u8], DecodeError>
        ensures exact { GivesSeenBy (λ s. s.now) result self.old self.new (octets count) }
        ensures fault { IfErr result (λ e. e ≡ InsufficientBytes) }
    {
        let rest = &self.bytes[self.index..];
        if rest.len() < count {
            return Err(DecodeError::InsufficientBytes);
        }
        self.index += count;
        Ok(&rest[..count])
    }

    /// Keeps what the name at a place leads to.
    fn keep_name(&mut self, alloc: Global, place: usize, name: &Name) -> Result<(), AllocError>
        requires { (next : ℕ) × LabelsAt 0 self.old.bytes place place name.now.labels next }
        ensures { self.new ≡ self.old }
    {
        if self.known.is_none() {
            self.known = Some(KnownNames::new(alloc, self.bytes)?);
        }
        if let Some(known) = &mut self.known {
            known.keep(place, name.as_wire())?;
        }
        Ok(())
    }

    #[tactic(auto, unfolding(wire_messages::specs::serialize::reading::NameReading::name))]
    fn next_name(&mut self, alloc: Global) -> Result<Name, DecodeError>
        ensures { Gives result self.old self.new name }
    {
        let from = self.index;
        let (name, next, steps) = read_name_at(alloc, self.bytes, from, &self.known)?;
        self.index = next;
        if steps > self.spare.max(FEW_STEPS) {
            self.keep_name(alloc, from, &name)?;
        }
        self.spare = self.spare.saturating_sub(steps);
        Ok(name)
    }

    /// Reads a name in the place of another one.
    #[inline(always)]
    #[tactic(auto, unfolding(wire_messages::specs::serialize::reading::NameReading::name))]
    pub(crate) fn read_name_into(
        &mut self,
        alloc: Global,
        into: &mut Name,
    ) -> Result<(), DecodeError>
        ensures { GivesSeenBy (λ _. into.new) result self.old self.new name }
    {
        // A name without a pointer, as the one of nearly every question is, needs nothing that is known of others.
        let Some(end) = plain_end(self.bytes, self.index) else {
            return self.read_any_name_into(alloc, into);
        };
        into.set_wire(alloc, &self.bytes[self.index..end])?;
        self.index = end + 1;
        Ok(())
    }

    /// Reads any name in the place of another one.
    #[inline(never)]
    fn read_any_name_into(&mut self, alloc: Global, into: &mut Name) -> Result<(), DecodeError>
        ensures { GivesSeenBy (λ _. into.new) result self.old self.new name }
    {
        *into = self.next_name(alloc)?;
        Ok(())
    }

    /// The name at this place, with the case of its letters, fully qualified; it may be compressed (RFC 1035, section
    /// 4.1.4).
    ///
    /// Then the place is the one behind it. An error is the first fault there, or `Memory`; the place is then left
    /// open.
    pub fn read_name(&mut self, alloc: Global) -> Result<Name, DecodeError>
        ensures exact { Gives result self.old self.new name }
        ensures found { IfOk result (λ n. NameAt 0 self.old.bytes self.old.place n self.new.place ×
            IsFullyQualified n) }
        ensures only { (n : DomainName) (next : ℕ) → NameAt 0 self.old.bytes self.old.place n next →
            IsFullyQualified n → result ≢ Err Memory → (result ≡ Ok n) × (self.new.place ≡ next) }
        ensures fault { IfErr result (λ e. e ≢ Memory → NameFault self.old.bytes self.old.place e) }
    {
        self.next_name(alloc)
    }
}
