//! Laws about key files. Each is the contract of a function that does nothing, about the definitions that the contracts
//! use.

ghost use Rattle.paseto_key_files.specs.Laws.{ProtectedUnlock, SealedUnlock, WrappedUnlock};

use paseto_wrapping::laws;

/// `unlock` opens the text that `protect` writes for a line as this line, with the same password, if the cost is within
/// `PasswordCost::most()`, and unless an allocation fails. The line of a private key of version 1, which may have its
/// PrivateKeyInfo, is returned with its RSAPrivateKey.
pub fn protected_keys_unlock()
    ensures { ProtectedUnlock }
{
    laws::protected_keys_unwrap();
}

/// `unlock` opens the text that `wrap` writes for a line as this line, with the same wrapping line, unless an
/// allocation fails. Private keys of version 1 are as in `protected_keys_unlock`.
pub fn wrapped_keys_unlock()
    ensures { WrappedUnlock }
{
    laws::wrapped_keys_unwrap();
}

/// In version 3 `unlock` opens the text that `seal` writes for a line, to the public key of a private key, as this
/// line, with the line of that private key, unless an allocation fails. In versions 2 and 4 this holds if X25519 of two
/// secret keys commutes, which is not proved.
pub fn sealed_keys_unlock()
    ensures { SealedUnlock }
{
    laws::sealed_keys_unseal();
}
