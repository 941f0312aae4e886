//! What signature schemes and versions refuse to sign, and the builder with them.

use crate::expect::expect_outcome;
use crate::kinds::SECRET;
use rusty_paseto_core::{PasetoAsymmetricPrivateKey, Public, Signs, V1, V2, V3, V4};
use rusty_paseto_generic::GenericBuilder;
use std::alloc::Global;
use std::process::Abort;
use test_toys::Refusing;
use test_toys::keys::{Keys, ToyVersion};

// No claims are signed under the key, by the scheme that refuses everything.
fn check_refusal<V: Signs<Refusing>>(
    rt: &impl Abort,
    alloc: Global,
    key: &PasetoAsymmetricPrivateKey<'_, V, Public>,
    wanted: &str,
    row: &str,
) {
    let builder = GenericBuilder::<V, Public>::new(alloc);
    let answer = builder.try_sign(&mut Refusing, key);
    drop(builder);
    expect_outcome(rt, alloc, answer, wanted, row);
}

// The scheme's own error is handed on.
fn check_scheme<V: ToyVersion + Signs<Refusing>>(rt: &impl Abort, alloc: Global, row: &str) {
    let keys = Keys::of(&SECRET);
    let wanted = "CipherError { source: Signature }";
    check_refusal::<V>(rt, alloc, &V::private_key(&keys), wanted, row);
}

#[test]
fn a_scheme_that_refuses(rt: HostRuntime) {
    check_scheme::<V1>(&rt, rt.alloc(), "version 1");
    check_scheme::<V2>(&rt, rt.alloc(), "version 2");
    check_scheme::<V3>(&rt, rt.alloc(), "version 3");
    check_scheme::<V4>(&rt, rt.alloc(), "version 4");
}

// The scheme would answer otherwise.
#[test]
fn a_private_key_of_another_length(rt: HostRuntime) {
    let wanted = "CipherError { source: TryFromSlice }";
    let short = PasetoAsymmetricPrivateKey::from([7u8; 63].as_slice());
    check_refusal::<V2>(&rt, rt.alloc(), &short, wanted, "63 bytes");
    let long = PasetoAsymmetricPrivateKey::from([7u8; 65].as_slice());
    check_refusal::<V4>(&rt, rt.alloc(), &long, wanted, "65 bytes");
}
