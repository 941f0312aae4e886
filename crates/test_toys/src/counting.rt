//! What is asked of a sealed box or a signature scheme.

use rusty_paseto_core::{CompressedKey, PasetoError, SealedBox, SignatureScheme};
use std::alloc::{AllocError, Global};
use std::cell::Cell;

/// A call of a sealed box or a signature scheme.
#[derive(Clone, Copy, Debug, PartialEq, Eq)]
pub enum Call {
    /// `SealedBox::seal`.
    Seal,
    /// `SealedBox::open`.
    Open,
    /// `CompressedKey::public_key`.
    PublicKey,
    /// `SignatureScheme::sign`.
    Sign,
    /// `SignatureScheme::verify`.
    Verify,
}

/// The last three calls, the latest one first.
#[derive(Clone, Copy, Debug, PartialEq, Eq)]
pub struct Calls(Option<Call>, Option<Call>, Option<Call>);

impl Calls {
    /// No call.
    pub const NONE: Calls = Calls(None, None, None);

    /// One call.
    pub fn once(call: Call) -> Self {
        Calls(Some(call), None, None)
    }

    /// Two calls, one of which follows the other.
    pub fn twice(first: Call, second: Call) -> Self {
        Calls(Some(second), Some(first), None)
    }

    fn then(self, call: Call) -> Self {
        Calls(Some(call), self.0, self.1)
    }
}

/// A box or a scheme that hands each call on to another one, and keeps which calls there were.
#[derive(Drop)]
pub struct Counting<S> {
    inner: S,
    calls: Cell<Calls>,
}

impl<S> Counting<S> {
    /// A box or a scheme that hands on to this one, before any call.
    pub fn new(inner: S) -> Self {
        Counting {
            inner,
            calls: Cell::new(Calls::NONE),
        }
    }

    /// What was asked so far.
    pub fn calls(&self) -> Calls {
        self.calls.get()
    }

    fn note(&self, call: Call) {
        self.calls.set(self.calls.get().then(call));
    }
}

impl<B: SealedBox> SealedBox for Counting<B> {
    ghost sealing = { B.sealing };

    fn seal(
        &self,
        alloc: Global,
        key: &[u8; 32],
        nonce: &[u8; 24],
        data: &[u8],
        message: &[u8],
    ) -> Result<Option<Vec<u8>>, AllocError> {
        self.note(Call::Seal);
        self.inner.seal(alloc, key, nonce, data, message)
    }

    fn open(
        &self,
        alloc: Global,
        key: &[u8; 32],
        nonce: &[u8; 24],
        data: &[u8],
        boxed: &[u8],
    ) -> Result<Option<Vec<u8>>, AllocError> {
        self.note(Call::Open);
        self.inner.open(alloc, key, nonce, data, boxed)
    }

    ghost lawful = { B.lawful };
}

impl<const SIG: usize, S: SignatureScheme<SIG>> SignatureScheme<SIG> for Counting<S> {
    ghost valid = { S.valid };

    ghost partner = { S.partner };

    ghost refused = { S.refused };

    ghost declined = { S.declined };

    fn sign(
        &mut self,
        alloc: Global,
        private: &[u8],
        message: &[u8],
    ) -> Result<[u8; SIG], PasetoError> {
        self.note(Call::Sign);
        self.inner.sign(alloc, private, message)
    }

    fn verify(
        &self,
        alloc: Global,
        public: &[u8],
        message: &[u8],
        signature: &[u8; SIG],
    ) -> Result<(), PasetoError> {
        self.note(Call::Verify);
        self.inner.verify(alloc, public, message, signature)
    }
}

impl<S: CompressedKey> CompressedKey for Counting<S> {
    fn public_key(&self, alloc: Global, private: &[u8]) -> Result<[u8; 49], PasetoError> {
        self.note(Call::PublicKey);
        self.inner.public_key(alloc, private)
    }
}
