//! What stands in the place of a signature until the server signs.

ghost use Rattle.std.specs.Prelude.{◌≡◌, Some};
ghost use Rattle.signed_server.specs.Placeholders.{placeholder};

use hickory_catalog::signer::{ReplySigner, SignError};
use hickory_wire::{Boxed, DNSClass, Name, Octets, Proof, Record, TSIG, TSigResponseContext};
use std::alloc::Global;

/// The signer of a catalog whose replies a [`SignedServer`](crate::SignedServer) signs. It computes no digest: each
/// reply has a TSIG record that signs nothing, and the server signs in its place, over the bytes that leave.
#[derive(Drop)]
pub struct LeftToServer;

/// A TSIG record that signs nothing.
fn placeholder(alloc: Global) -> Record<TSIG>
    ensures { result ≡ placeholder }
{
    Record {
        name: Name::root(),
        dns_class: DNSClass::ANY,
        ttl: 0,
        rdata: TSIG {
            algorithm: Name::root(),
            time: 0,
            fudge: 0,
            mac: Octets::from_vec(Vec::new(alloc)),
            oid: 0,
            error: 0,
            other: Octets::from_vec(Vec::new(alloc)),
        },
        proof: Proof::Indeterminate,
    }
}

impl ReplySigner for LeftToServer {
    ghost signature_for = { λ _ _ _. Some placeholder };

    fn sign(
        &self,
        alloc: Global,
        _context: &TSigResponseContext,
        _bytes: &[u8],
    ) -> Result<Boxed<Record<TSIG>>, SignError> {
        match Boxed::new(alloc, placeholder(alloc)) {
            Ok(record) => Ok(record),
            Err(_) => Err(SignError::Memory),
        }
    }
}
