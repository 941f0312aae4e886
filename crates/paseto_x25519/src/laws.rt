//! Laws of X25519. Each function does nothing, and its contract is the theorem.

ghost use Rattle.paseto_x25519.specs.Laws.{AgreementIsMultiple, KeysMatch, LadderIsMultiple, OwnKeysAgree, SecretsAreCommon};

/// The Montgomery ladder computes u of a multiple of a point, for each point of edwards25519, the neutral one and those of
/// small order among them (RFC 7748, sections 4.1 and 5).
pub fn ladder_is_multiple()
    ensures { LadderIsMultiple }
{}

/// Both parties compute the same secret, whatever 32 bytes their secret keys are (RFC 7748, section 6.1).
pub fn shared_secret_is_common()
    ensures { SecretsAreCommon }
{}

/// The keys that an Ed25519 key pair gives belong together: the public key of `secret_from_ed25519` is that of
/// `public_from_ed25519`.
pub fn converted_keys_match()
    ensures { KeysMatch }
{}

/// With a public key of `public_from_ed25519`, X25519 computes u of a multiple of the Ed25519 key's point.
pub fn converted_secret_is_multiple()
    ensures { AgreementIsMultiple }
{}

/// The public half of an Ed25519 private key whose halves belong together is taken by `public_from_ed25519`, and with what
/// that returns every secret key computes a secret that is not 0.
pub fn own_keys_agree()
    ensures { OwnKeysAgree }
{}
