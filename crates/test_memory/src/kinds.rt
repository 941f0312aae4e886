//! The kinds of tokens, and what all tokens of the cases share.

use crate::run::Run;
use anyhow::Result;
use rusty_paseto::prelude::*;
use test_toys::Lenient;
use test_toys::keys::{Keys, SECRET, ToyVersion};

/// The cases of each kind: local tokens with no box, version 2 with its box and what is asked beside it, public ones.
pub trait Cases {
    fn ask_local<V: DefaultLocalVersion>(run: &mut Run<'_>, kind: &str) -> Result<()>;

    fn ask_boxed(run: &mut Run<'_>) -> Result<()>;

    fn ask_public<V: Signed>(run: &mut Run<'_>, kind: &str, keys: &Keys) -> Result<()>;
}

/// Asks them.
pub fn ask_kinds<C: Cases>(run: &mut Run<'_>) -> Result<()> {
    C::ask_local::<V1>(run, "v1.local")?;
    C::ask_local::<V3>(run, "v3.local")?;
    C::ask_local::<V4>(run, "v4.local")?;
    C::ask_boxed(run)?;
    let keys = Keys::of(&SECRET);
    C::ask_public::<V1>(run, "v1.public", &keys)?;
    C::ask_public::<V2>(run, "v2.public", &keys)?;
    C::ask_public::<V3>(run, "v3.public", &keys)?;
    C::ask_public::<V4>(run, "v4.public", &keys)
}

/// A version whose tokens are signed and verified by the lenient scheme.
pub trait Signed: ToyVersion + Signs<Lenient> + Verifies<Lenient> {}

impl<V: ToyVersion + Signs<Lenient> + Verifies<Lenient>> Signed for V {}

/// The footer of all tokens.
pub fn footer() -> Footer<'static> {
    Footer::from("key-1")
}

/// The bytes of a key.
pub fn bytes_of<const N: usize>(key: Key<N>) -> [u8; N] {
    *key.as_bytes()
}

/// The key of all local tokens.
pub fn symmetric_key<V: VersionTrait>() -> PasetoSymmetricKey<V, Local> {
    test_toys::keys::symmetric_key(&SECRET)
}
