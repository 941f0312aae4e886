//! Laws of builders and parsers. Each is the contract of a function that does nothing, over the definitions
//! that the contracts of `try_encrypt`, `try_sign` and `parse` name.

ghost use Rattle.rusty_paseto_generic.specs.Laws.{BoxedAnswersText, BoxedClaimsParse, OpenedAnswersText, OpenedUnlimited, SealedClaimsParse, SignedClaimsParse, VerifiedAnswersText, VerifiedUnlimited};

use crate::builders::GenericLocalVersion;
use rusty_paseto_core::Verifies;

/// `parse` returns the claims that `try_encrypt` of a builder encrypted, with the same key, footer and implicit
/// assertion, if they pass its checks and their values are nested at most 126 deep.
pub fn sealed_claims_parse<V: GenericLocalVersion>()
    ensures { SealedClaimsParse V.design }
{}

/// The same for claims that it encrypted with a box, with the same key and footer.
pub fn boxed_claims_parse()
    ensures { BoxedClaimsParse }
{}

/// The same for claims that `try_sign` signed, with the public key of the private key, and the same footer and implicit
/// assertion.
pub fn signed_claims_parse<V: Verifies<S>, S>()
    ensures { SignedClaimsParse V.valid V.refused V.public_design }
{}

/// What `parse` returns for a token that is decrypted depends only on the token's text and the checks.
pub fn opened_answers_text<V: GenericLocalVersion>()
    ensures { OpenedAnswersText V.design }
{}

/// What `parse` returns for a token that a box decrypts depends only on the token's text and the checks.
pub fn boxed_answers_text()
    ensures { BoxedAnswersText }
{}

/// What `parse` returns for a token that is verified depends only on the token's text and the checks.
pub fn verified_answers_text<V: Verifies<S>, S>()
    ensures { VerifiedAnswersText V.valid V.refused V.public_design }
{}

/// A parser of local tokens without a limit returns the result of parsing, and no token is too long for it: the limit
/// is off until `set_longest` sets it.
pub fn opened_unlimited<V: GenericLocalVersion>()
    ensures { OpenedUnlimited V.design }
{}

/// A parser of public tokens without a limit returns the result of parsing.
pub fn verified_unlimited<V: Verifies<S>, S>()
    ensures { VerifiedUnlimited V.valid V.refused V.public_design }
{}
