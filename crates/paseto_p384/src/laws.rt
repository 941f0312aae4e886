//! Laws about signing and key agreement. Each function does nothing: its contract is the law.

ghost use Rattle.std.specs.Prelude.{◌≡◌, ◌≢◌, ℕ, List, Some};
ghost use Rattle.paseto_montgomery.specs.Octets.{os2ip};
ghost use Rattle.paseto_weierstrass_laws.specs.Multiples.{multiple_of};
ghost use Rattle.paseto_weierstrass_laws.specs.Point.{Point};
ghost use Rattle.paseto_p384.specs.Encoding.{decoded};
ghost use Rattle.paseto_p384.specs.Agreement.{p384_shared};
ghost use Rattle.paseto_p384.specs.P384.{IsPrivate, P384Verifies, p384_public, p384_sign};
ghost use Rattle.paseto_p384.specs.Twin.{HasATwin, TokensHaveATwin};

/// A signature under a private key is valid for its public key, for any message (FIPS 186-5, sections 6.4.1 and 6.4.2):
/// [e / s]G + [r / s]Q is [k]G, where Q is [d]G, since G has the order n and (P + Q) + G is P + (Q + G).
pub fn signatures_are_valid()
    ensures { (private message made : List ℕ) → IsPrivate private
        → p384_sign private message ≡ Some made
        → P384Verifies (p384_public private) message made }
{}

/// Both parties compute the same secret (SEC 1, section 3.3.1): [d]([e]G) is [e]([d]G).
pub fn shared_secret_is_common()
    ensures { (own other : List ℕ) → IsPrivate own → IsPrivate other
        → p384_shared own (p384_public other) ≡ p384_shared other (p384_public own) }
{}

/// The product of a private key and the point of a public key is not the point at infinity: it has an x, since the order
/// of that point is the prime n, as that of every point but the neutral one.
pub fn shared_point_is_finite()
    ensures { (private public : List ℕ) (q : Point) → IsPrivate private
        → decoded public ≡ Some q → (multiple_of (os2ip private) q).z ≢ 0 }
{}

/// With a signature (r, s) the signature (r, n - s) is valid, too, for the same key and message, and it is another one. So
/// whoever has a token of version 3 that verifies can make another one, which verifies as the same text: a token is not
/// to be told apart by its bytes, as in a list of tokens that are refused or were seen.
pub fn signatures_have_a_twin()
    ensures signatures { HasATwin }
    ensures tokens { TokensHaveATwin }
{}
