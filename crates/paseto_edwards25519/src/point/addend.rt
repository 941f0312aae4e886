//! A point to be added, as the values that a sum reads.

ghost use Rattle.paseto_edwards25519.specs.Extended.{IsExtended, between};
ghost use Rattle.paseto_edwards25519.specs.Field.{IsCarried, number};

use crate::field::FieldElement;

/// The values that each sum needs of a point, computed once: Y - X, Y + X, Z and 2 * d * T (RFC
/// 8032, section 5.1.4).
#[derive(Clone, Copy)]
pub(crate) struct Addend {
    pub(crate) difference: FieldElement,
    pub(crate) total: FieldElement,
    pub(crate) z: FieldElement,
    pub(crate) scaled: FieldElement,
    ghost carried: { IsCarried scaled },
    ghost on_curve: { IsExtended
        (between (number difference) (number total) (number z) (number scaled)) },
}
