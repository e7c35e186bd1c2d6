//! Keys by their names.

ghost use Rattle.std.specs.Prelude.{◌≡◌, ◌++◌, ◌∷◌, [], ◌↔◌, IsTrue, IfOk, IfSome, OnOk, OnErr, Some, length};
ghost use Rattle.std.specs.Option.{option_copied};
ghost use Rattle.tsig.specs.Hmac.{hash_len, hmac, mac_len, mac_of};
ghost use Rattle.tsig.specs.Keys.{key_of};
ghost use Rattle.tsig.specs.Validity.{times_if_known};

use crate::algorithm::{Algorithm, HashFunction};
use crate::macs::{hmac, hmac_behind, pads_of};
use crate::pads::Pads;
use crate::verified::{LastVerified, Verified};
use std::alloc::{AllocError, Global};
use std::marker::Model;
use std::ops::Range;
use wire_names::rr::domain::name::Name;

/// The secret of a key. It has no text form: neither `Debug` nor `Display`, and nothing outside this crate sees its
/// bytes.
#[derive(Drop)]
pub struct Secret {
    bytes: Vec<u8>,
    // Its pads, hashed, where it is the secret of a key that was added to others.
    pads: Option<Pads>,
}

impl Model for Secret {
    ghost use Rattle.std.specs.Prelude.{List, ℕ, IfSome};
    ghost use Rattle.tsig.specs.Pads.{ArePads};

    ghost Value = { List ℕ };

    ghost view = { λ secret. secret.bytes.items };

    ghost invariant = { λ secret. IfSome secret.pads (ArePads secret.bytes.items) };
}

impl Secret {
    /// The secret of these bytes.
    pub fn new(bytes: Vec<u8>) -> Secret
        ensures { result ≡ bytes.items }
    {
        Secret { bytes, pads: None }
    }

    /// Whether it has no byte.
    pub fn is_empty(&self) -> bool
        ensures { IsTrue result ↔ (self.now ≡ []) }
    {
        self.bytes.is_empty()
    }

    /// A copy.
    fn copied(&self, alloc: Global) -> Result<Secret, AllocError>
        ensures { IfOk result (λ secret. secret ≡ self.now) }
    {
        let bytes = Vec::from_slice(alloc, self.bytes.as_slice())?;
        Ok(Secret { bytes, pads: None })
    }

    /// Whether its bytes are those of another secret.
    fn is_same(&self, other: &Secret) -> bool
        ensures { IsTrue result → self.now ≡ other.now }
    {
        self.bytes.as_slice() == other.bytes.as_slice()
    }

    /// Hashes its pads, so that HMACs by this function need not.
    fn prepare(&mut self, alloc: Global, function: HashFunction) -> Result<(), AllocError>
        ensures { self.new ≡ self.old }
    {
        self.pads = Some(pads_of(alloc, function, self.bytes.as_slice())?);
        Ok(())
    }

    /// The HMAC of a text by it (RFC 2104 section 2).
    fn hmac(
        &self,
        alloc: Global,
        function: HashFunction,
        text: &[u8],
    ) -> Result<Vec<u8>, AllocError>
        ensures value { IfOk result (λ digest. digest.items ≡ hmac function self.now text.now) }
        ensures len { IfOk result (λ digest. length digest.items ≡ hash_len function) }
    {
        if let Some(pads) = &self.pads {
            if pads.function() == function {
                return hmac_behind(alloc, pads, text);
            }
        }
        hmac(alloc, function, self.bytes.as_slice(), text)
    }
}

/// Whether two names have the same letters, in the same case.
fn is_written_so(one: &Name, other: &Name) -> bool
    ensures { IsTrue result → one.now ≡ other.now }
{
    one.as_wire() == other.as_wire() && one.is_fqdn() == other.is_fqdn()
}

/// A secret that client and server share, with its name and the one algorithm that it is used with (RFC 8945 section
/// 4.2).
#[derive(Drop)]
pub struct Key {
    /// Its name.
    pub name: Name,
    /// Its algorithm.
    pub algorithm: Algorithm,
    /// The secret.
    pub secret: Secret,
    /// How many bytes a MAC has to have at least, by local policy (RFC 8945 section 5.2.4). What the RFC demands at
    /// least is demanded anyway.
    pub shortest: usize,
}

impl Key {
    /// A key that takes each MAC that RFC 8945 allows, truncated ones among them.
    pub fn new(name: Name, algorithm: Algorithm, secret: Secret) -> Key
        ensures { result ≡ record { name = name; algorithm = algorithm; secret = secret; shortest = 0 } }
    {
        Key {
            name,
            algorithm,
            secret,
            shortest: 0,
        }
    }

    /// The whole MAC of a text by it: its HMAC, truncated where the algorithm is (RFC 2104 section 5).
    pub(crate) fn mac(&self, alloc: Global, text: &[u8]) -> Result<Vec<u8>, AllocError>
        ensures value { IfOk result (λ mac. mac.items ≡ mac_of self.now.algorithm self.now.secret text.now) }
        ensures len { IfOk result (λ mac. length mac.items ≡ mac_len self.now.algorithm) }
    {
        let mut mac = self
            .secret
            .hmac(alloc, self.algorithm.hash_function(), text)?;
        mac.truncate(self.algorithm.mac_len());
        Ok(mac)
    }

    /// Whether another key is this one: its name has the same letters, in the same case.
    pub(crate) fn is_same(&self, other: &Key) -> bool
        ensures { IsTrue result → self.now ≡ other.now }
    {
        if !is_written_so(&self.name, &other.name) {
            return false;
        }
        if !self.secret.is_same(&other.secret) {
            return false;
        }
        self.algorithm == other.algorithm && self.shortest == other.shortest
    }

    /// A copy.
    pub(crate) fn copied(&self, alloc: Global) -> Result<Key, AllocError>
        ensures { IfOk result (λ key. key ≡ self.now) }
    {
        Ok(Key {
            name: self.name.clone()?,
            algorithm: self.algorithm,
            secret: self.secret.copied(alloc)?,
            shortest: self.shortest,
        })
    }
}

/// The same memory, for copies of the keys.
fn shared(last: &Option<LastVerified>) -> Result<Option<LastVerified>, AllocError> {
    match last {
        Some(last) => Ok(Some(last.share()?)),
        None => Ok(None),
    }
}

/// Keys by their names. They remember the signature that was found good last, and share it with their copies.
#[derive(Drop)]
pub struct Keys {
    keys: Vec<Key>,
    last: Option<LastVerified>,
}

impl Model for Keys {
    ghost use Rattle.std.specs.Prelude.{List};
    ghost use Rattle.tsig.specs.declared.keys.Key.{Key};

    ghost Value = { List Key };

    ghost view = { λ keys. keys.keys.items };
}

impl Keys {
    /// No keys. It needs no memory.
    pub fn new(alloc: Global) -> Keys
        ensures { result ≡ [] }
    {
        Keys {
            keys: Vec::new(alloc),
            last: None,
        }
    }

    /// Whether there is none.
    pub fn is_empty(&self) -> bool
        ensures { IsTrue result ↔ (self.now ≡ []) }
    {
        self.keys.is_empty()
    }

    /// Adds a key. Where there is one of its name, that one stays the one that is found. It hashes the pads of the
    /// secret, so that MACs by it hash two blocks less each.
    pub fn add(&mut self, mut key: Key) -> Result<(), AllocError>
        ensures ok { OnOk result (self.new ≡ self.old ++ key ∷ []) }
        ensures err { OnErr result (self.new ≡ self.old) }
    {
        let alloc = *self.keys.allocator();
        let function = key.algorithm.hash_function();
        key.secret.prepare(alloc, function)?;
        if self.last.is_none() {
            self.last = Some(LastVerified::new(alloc)?);
        }
        self.keys.push(key)?;
        Ok(())
    }

    /// A copy. A signature that was found good by one of both is known to the other.
    pub fn copied(&self, alloc: Global) -> Result<Keys, AllocError>
        ensures { IfOk result (λ keys. keys ≡ self.now) }
    {
        let mut keys = Keys {
            keys: Vec::new(alloc),
            last: shared(&self.last)?,
        };
        for key in self.keys.as_slice() {
            keys.add(key.copied(alloc)?)?;
        }
        Ok(keys)
    }

    /// When the signature of a message is good by a key, if it is the message that was remembered last.
    pub(crate) fn remembered(&self, key: &Key, message: &[u8]) -> Option<Range<u64>>
        ensures { IfSome result (λ times. times_if_known (Some key.now) message.now ≡ Some times) }
    {
        match &self.last {
            Some(last) => last.times(key, message),
            None => None,
        }
    }

    /// Remembers when the signature of a message is good by a key.
    pub(crate) fn remember(
        &self,
        alloc: Global,
        key: &Key,
        message: &[u8],
        times: Range<u64>,
    ) -> Result<(), AllocError>
        requires { times_if_known (Some key.now) message.now ≡ Some times }
    {
        if let Some(last) = &self.last {
            last.set(Verified::new(alloc, key, message, times)?);
        }
        Ok(())
    }

    /// The key of a name, letter case aside. It looks at each key in turn.
    pub fn find(&self, name: &Name) -> Option<&Key>
        ensures { option_copied result ≡ key_of self.now name.now }
    {
        let mut rest = self.keys.as_slice();
        while let [key, others @ ..] = rest {
            if key.name == *name {
                return Some(key);
            }
            rest = others;
        }
        None
    }
}
