//! Laws about the texts and the ids of keys. Each is the contract of a function that does nothing, over the definitions
//! that the contracts of this crate name.

ghost use Rattle.rusty_paseto_paserk.specs.IdLaws.{IdsShow};
ghost use Rattle.rusty_paseto_paserk.specs.Kinds.{OneKeyKind};
ghost use Rattle.rusty_paseto_paserk.specs.RsaLaws.{PrivateKeysRead, PublicKeysRead};

/// The text of a key is of one version and one type: none is read as a key of another version or type.
pub fn keys_have_one_kind()
    ensures { OneKeyKind }
{}

/// Two keys with the same id are of one version and one type, and if they are different they exhibit a collision: of
/// BLAKE2b in versions 2 and 4, and of the first 33 bytes of SHA-384 in versions 1 and 3.
pub fn equal_ids_show()
    ensures { IdsShow }
{}

/// `rsa_private_key_from_paserk` reads the text that `rsa_secret_to_paserk` writes for a private key as this key, and
/// `rsa_public_key_from_paserk` that of `rsa_public_to_paserk`, unless an allocation fails.
pub fn rsa_keys_are_read()
    ensures private { PrivateKeysRead }
    ensures public { PublicKeysRead }
{}
