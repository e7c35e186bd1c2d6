//! A server with one key, by HMAC with SHA-256 (RFC 8945).

ghost use Rattle.std.specs.Prelude.{◌≡◌, ◌+◌, ◌≤◌, ◌++◌, IfOk, OnOk, Some, length};
ghost use Rattle.wire_names.specs.rr.domain.NameOrder.{name_eq};
ghost use Rattle.calling.specs.Signatures.{error_of, is_signed, record_len, record_with, reply_mac, reply_text, request_text, times_of, unsigned, validity_of, variables};

use crate::hmac::{differences, hmac};
use hickory_server::proto::{
    Boxed, DNSClass, LowerName, Name, NameError, Octets, Proof, Record, TSIG, TSigResponseContext,
    TSigResponseKind,
};
use hickory_server::store::sqlite::{Verifier, VerifyError};
use hickory_server::zone_handler::{ReplySigner, SignError};
use std::alloc::{AllocError, Global};
use std::ops::Range;

/// The one key of a server.
#[derive(Drop)]
pub struct OneKey {
    /// Its name.
    pub name: LowerName,
    /// The name of the algorithm.
    pub algorithm: LowerName,
    /// The secret, which zeros fill to a block.
    pub block: [u8; 64],
}

/// The key of this name for HMAC with SHA-256.
pub fn key(alloc: Global, name: &str, block: [u8; 64]) -> Result<OneKey, NameError>
    ensures { IfOk result (λ key. key.block ≡ block) }
{
    let name = Name::from_ascii(alloc, name)?;
    let algorithm = Name::from_ascii(alloc, "hmac-sha256.")?;
    Ok(OneKey {
        name: LowerName::new(alloc, &name)?,
        algorithm: LowerName::new(alloc, &algorithm)?,
        block,
    })
}

/// The error of a reply whose request was signed so (RFC 8945 section 3).
fn error_of(kind: &TSigResponseKind) -> u16
    ensures { result ≡ error_of kind.now }
{
    match kind {
        TSigResponseKind::UnknownKey => 17,
        TSigResponseKind::BadSignature => 16,
        TSigResponseKind::Known { error: None, .. } => 0,
        TSigResponseKind::Known { error: Some(_), .. } => 18,
    }
}

/// The moment that a request's signature tells, with the seconds around it at which it is good (RFC 8945 section
/// 5.2.3).
fn times_of(fields: &[u8]) -> Range<u64>
    requires { 8 ≤ length fields.now }
    ensures { result ≡ times_of fields.now }
{
    let high = u16::from_be_bytes([fields[0], fields[1]]) as u64;
    let low = u32::from_be_bytes([fields[2], fields[3], fields[4], fields[5]]) as u64;
    let fudge = u16::from_be_bytes([fields[6], fields[7]]) as u64;
    let time = high * 0x1_0000_0000 + low;
    time.saturating_sub(fudge)..time + fudge + 1
}

/// A request without its TSIG record, which begins at this place: under its first id, with one record fewer counted.
fn unsigned(alloc: Global, message: &[u8], end: usize) -> Result<Vec<u8>, AllocError>
    requires whole { 60 ≤ length message.now }
    requires place { 12 ≤ end }
    requires inside { end ≤ length message.now }
    ensures { IfOk result (λ bytes. bytes.items ≡ unsigned message.now end) }
{
    let fields = &message[message.len() - 48..];
    let additionals = u16::from_be_bytes([message[10], message[11]]).saturating_sub(1);
    let mut bytes = Vec::from_slice(alloc, &fields[42..44])?;
    bytes.extend_from_slice(&message[2..10])?;
    bytes.extend_from_slice(&additionals.to_be_bytes())?;
    bytes.extend_from_slice(&message[12..end])?;
    Ok(bytes)
}

impl OneKey {
    /// Puts what a code is of, beside the message (RFC 8945 section 4.3.3).
    fn put_variables(
        &self,
        text: &mut Vec<u8>,
        time: &[u8],
        others: &[u8],
    ) -> Result<(), AllocError>
        ensures { OnOk result (text.new.items ≡ text.old.items ++ variables self.now.name self.now.algorithm time.now
            others.now) }
    {
        text.extend_from_slice(self.name.as_name().as_wire())?;
        text.extend_from_slice(b"\x00\x00\xff\x00\x00\x00\x00")?;
        text.extend_from_slice(self.algorithm.as_name().as_wire())?;
        text.extend_from_slice(b"\x00")?;
        text.extend_from_slice(time)?;
        text.extend_from_slice(others)
    }

    /// What the code of a reply is of (RFC 8945 section 5.3).
    fn reply_text(
        &self,
        alloc: Global,
        mac: &[u8],
        now: u64,
        error: u16,
        reply: &[u8],
    ) -> Result<Vec<u8>, AllocError>
        ensures { IfOk result (λ text. text.items ≡ reply_text self.now.name self.now.algorithm mac.now now error
            reply.now) }
    {
        let mut text = Vec::from_slice(alloc, &((mac.len() % 0x1_0000) as u16).to_be_bytes())?;
        text.extend_from_slice(mac)?;
        text.extend_from_slice(reply)?;
        let mut time = Vec::from_slice(alloc, &now.to_be_bytes()[2..])?;
        time.extend_from_slice(&300u16.to_be_bytes())?;
        let mut others = Vec::from_slice(alloc, &error.to_be_bytes())?;
        others.extend_from_slice(b"\x00\x00")?;
        self.put_variables(&mut text, &time, &others)?;
        Ok(text)
    }

    /// The code of a reply.
    fn reply_mac(
        &self,
        alloc: Global,
        context: &TSigResponseContext,
        reply: &[u8],
    ) -> Result<Octets, AllocError>
        ensures { IfOk result (λ mac. mac ≡ reply_mac self.now.name self.now.algorithm self.now.block
            context.entry.now.kind context.entry.now.now reply.now) }
    {
        let TSigResponseKind::Known { mac, .. } = &context.kind else {
            return Octets::from_slice(alloc, b"");
        };
        let error = error_of(&context.kind);
        let text = self.reply_text(alloc, mac.as_slice(), context.now, error, reply)?;
        Octets::from_slice(alloc, &hmac(&self.block, &text))
    }

    /// The TSIG record of a reply (RFC 8945 section 4.2).
    fn record(
        &self,
        alloc: Global,
        context: &TSigResponseContext,
        reply: &[u8],
    ) -> Result<Record<TSIG>, AllocError>
        ensures { IfOk result (λ made. made ≡ record_with self.now.algorithm context.entry.now
            (reply_mac self.now.name self.now.algorithm self.now.block context.entry.now.kind context.entry.now.now
            reply.now)) }
    {
        let rdata = TSIG {
            algorithm: self.algorithm.as_name().clone()?,
            time: context.now,
            fudge: 300,
            mac: self.reply_mac(alloc, context, reply)?,
            oid: context.request_id,
            error: error_of(&context.kind),
            other: Octets::from_slice(alloc, b"")?,
        };
        Ok(Record {
            name: context.key_name.clone()?,
            dns_class: DNSClass::ANY,
            ttl: 0,
            rdata,
            proof: Proof::Indeterminate,
        })
    }

    /// How many octets the TSIG record of a request has.
    fn record_len(&self) -> usize
        ensures len { result ≡ record_len self.now.name self.now.algorithm }
        ensures short { result ≤ 568 }
    {
        self.name.as_name().as_wire().len() + self.algorithm.as_name().as_wire().len() + 60
    }

    /// What the code of a request is of (RFC 8945 section 4.3.2).
    fn request_text(&self, alloc: Global, message: &[u8]) -> Result<Vec<u8>, AllocError>
        requires { record_len self.now.name self.now.algorithm + 12 ≤ length message.now }
        ensures { IfOk result (λ text. text.items ≡ request_text self.now.name self.now.algorithm message.now) }
    {
        let fields = &message[message.len() - 48..];
        let mut text = unsigned(alloc, message, message.len() - self.record_len())?;
        self.put_variables(&mut text, &fields[..8], &fields[44..48])?;
        Ok(text)
    }

    /// Whether the code of a request is the one of its text.
    fn is_signed(&self, alloc: Global, message: &[u8]) -> Result<bool, AllocError>
        requires { record_len self.now.name self.now.algorithm + 12 ≤ length message.now }
        ensures { IfOk result (λ good. good ≡ is_signed self.now.name self.now.algorithm self.now.block message.now) }
    {
        let fields = &message[message.len() - 48..];
        let own = hmac(&self.block, &self.request_text(alloc, message)?);
        Ok(differences(&own, &fields[10..42]) == 0)
    }
}

impl ReplySigner for OneKey {
    ghost signature_for = { λ key context reply.
        Some (record_with key.algorithm context
        (reply_mac key.name key.algorithm key.block context.kind context.now reply)) };

    fn sign(
        &self,
        alloc: Global,
        context: &TSigResponseContext,
        bytes: &[u8],
    ) -> Result<Boxed<Record<TSIG>>, SignError> {
        let Ok(record) = self.record(alloc, context, bytes) else {
            return Err(SignError::Memory);
        };
        Boxed::new(alloc, record).map_err(|_| SignError::Memory)
    }
}

impl Verifier for OneKey {
    ghost knows_key = { λ key name. name_eq name key.name };

    ghost validity = { λ key _ message. validity_of key.name key.algorithm key.block message };

    fn knows(&self, key: &Name) -> bool {
        key == self.name.as_name()
    }

    fn verify(
        &self,
        alloc: Global,
        _key: &Name,
        message: &[u8],
    ) -> Result<Range<u64>, VerifyError> {
        if message.len() < self.record_len() + 12 {
            return Err(VerifyError::Bad);
        }
        match self.is_signed(alloc, message) {
            Ok(true) => Ok(times_of(&message[message.len() - 48..])),
            Ok(false) => Err(VerifyError::Bad),
            Err(AllocError) => Err(VerifyError::Memory),
        }
    }
}
