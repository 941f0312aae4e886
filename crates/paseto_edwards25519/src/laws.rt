//! Laws of the curve. Each function does nothing, and its contract is the theorem.

ghost use Rattle.std.specs.Prelude.{◌≡◌, ◌≢◌, ℕ, ◌+◌, ◌*◌, ◌%◌, ◌^◌, ◌<◌, List, ◌++◌, Some, length, take, drop};
ghost use Rattle.paseto_edwards_laws.specs.Group.{Affine, neutral};
ghost use Rattle.paseto_edwards25519.specs.Curve.{HasSmallOrder, IsPoint, multiple, opposite, sum};
ghost use Rattle.paseto_edwards_laws.specs.Edwards25519.{base, order};
ghost use Rattle.paseto_edwards25519.specs.Encoding.{decoded, encoded};
ghost use Rattle.paseto_edwards25519.specs.Scalar.{bytes32, number32};

/// The encoding of a point decodes to the point.
pub fn decoding()
    ensures { (a : Affine) → IsPoint a → decoded (encoded a) ≡ Some a }
{}

/// An encoding has 32 bytes, and can be split from the bytes that follow it.
pub fn encoding()
    ensures length { (a : Affine) → length (encoded a) ≡ 32 }
    ensures front { (a : Affine) (rest : List ℕ) → take 32 (encoded a ++ rest) ≡ encoded a }
    ensures back { (a : Affine) (rest : List ℕ) → drop 32 (encoded a ++ rest) ≡ rest }
{}

/// The 32 bytes of a number convert back to the number.
pub fn number_of_bytes()
    ensures { (n : ℕ) → n < 2 ^ 256 → number32 (bytes32 n) ≡ n }
{}

/// The multiples of the base point are points.
pub fn multiples_of_base()
    ensures { (n : ℕ) → IsPoint (multiple n base) }
{}

/// Of the multiples of the base point, only the neutral one has small order.
pub fn small_multiples()
    ensures { (n : ℕ) → HasSmallOrder (multiple n base) → n % order ≡ 0 }
{}

/// A verifier's sum is what the signer multiplied: [r + k * n]B + [k](-[n]B) is [r]B.
pub fn signature_sum()
    ensures { (r k n : ℕ) → sum (multiple ((r + k * n) % order) base)
        (multiple k (opposite (multiple n base))) ≡ multiple r base }
{}

/// What decodes is a point of the curve.
pub fn decoded_points()
    ensures { (bytes : List ℕ) (a : Affine) → decoded bytes ≡ Some a → IsPoint a }
{}

/// Each multiple of the base point is that of one number below the order.
pub fn one_multiple()
    ensures { (s t : ℕ) → s < order → t < order → multiple s base ≡ multiple t base → s ≡ t }
{}
