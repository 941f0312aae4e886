//! A point of the curve, in extended homogeneous coordinates.

ghost use Rattle.paseto_edwards25519.specs.Extended.{IsExtended, extended};
ghost use Rattle.paseto_edwards25519.specs.Field.{IsCarried, number};

use crate::field::FieldElement;

/// A point (X, Y, Z, T) of the curve, with x = X / Z, y = Y / Z and x * y = T / Z (RFC 8032, section 5.1.4).
#[derive(Clone, Copy)]
pub struct ExtendedPoint {
    pub(crate) x: FieldElement,
    pub(crate) y: FieldElement,
    pub(crate) z: FieldElement,
    pub(crate) t: FieldElement,
    ghost carried: { IsCarried x × IsCarried y × IsCarried z × IsCarried t },
    ghost on_curve: { IsExtended (extended (number x) (number y) (number z) (number t)) },
}
