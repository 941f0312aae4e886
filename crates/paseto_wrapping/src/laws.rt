//! Laws about wrapping and unwrapping. Each is the contract of a function that does nothing, about the definitions that
//! the contracts use.

ghost use Rattle.rusty_paseto_paserk.specs.declared.header.PaserkVersion.TheVariants.{V2, V4};
ghost use Rattle.paseto_wrapping.specs.Laws.{OwnKeysSeal, PrivateProtectedUnwrap, PrivateWrappedUnwrap, ProtectedUnwrap, SealedUnseal, SodiumOwnKeysSeal, SodiumSealedUnseal, WrappedCommit, WrappedOnce, WrappedUnwrap};

/// The text that `wrap_local` or `wrap_secret` writes for a key contains that key, under the same wrapping key, in the
/// form in which a private key is wrapped. So `unwrap_local` and `unwrap_secret` return it, unless an allocation fails; a
/// private key has to be one of the version.
pub fn wrapped_keys_unwrap()
    ensures bytes { WrappedUnwrap }
    ensures private { PrivateWrappedUnwrap }
{}

/// A wrapped key commits to its wrapping key, in version 2, too, whose local tokens commit to no key. If two wrapping keys
/// unwrap one text, its tag is that of one message under the two authentication keys that they derive from its nonce: for
/// different wrapping keys a collision of HMAC-SHA384 (versions 1 and 3) or of keyed BLAKE2b (versions 2 and 4), of the
/// tags or of the derivation. And a text holds one key under a wrapping key.
pub fn wrapped_keys_commit()
    ensures commits { WrappedCommit }
    ensures once { WrappedOnce }
{}

/// The text that `protect_local` or `protect_secret` writes for a key contains that key, under the same password, for
/// each bound that its cost does not exceed, in the form in which a private key is wrapped. So `unprotect_local` and
/// `unprotect_secret` return it, unless an allocation fails; a private key has to be one of the version.
pub fn protected_keys_unwrap()
    ensures bytes { ProtectedUnwrap }
    ensures private { PrivateProtectedUnwrap }
{}

/// The text that `seal` writes for a key, to the public key of a private key, contains that key for that private key; and
/// `seal` to such a public key, with a valid ephemeral key, fails only with `Memory`. In version 3 multiples of a point
/// commute, and in versions 2 and 4 X25519 of two secret keys does: there the two halves of the private key must belong
/// together, and any 32 bytes are an ephemeral key.
pub fn sealed_keys_unseal()
    ensures unsealed { SealedUnseal }
    ensures sealed { OwnKeysSeal }
    ensures v2_unsealed { SodiumSealedUnseal V2 }
    ensures v2_sealed { SodiumOwnKeysSeal V2 }
    ensures v4_unsealed { SodiumSealedUnseal V4 }
    ensures v4_sealed { SodiumOwnKeysSeal V4 }
{}
