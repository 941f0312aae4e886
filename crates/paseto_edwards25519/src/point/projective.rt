//! A point of the curve, in homogeneous coordinates.

ghost use Rattle.paseto_edwards25519.specs.Extended.{IsExtended, flat};
ghost use Rattle.paseto_edwards25519.specs.Field.{IsCarried, number};

use crate::field::FieldElement;

/// A point (X, Y, Z) of the curve, with x = X / Z and y = Y / Z: an extended point without T, which
/// doubling does not read.
#[derive(Clone, Copy)]
pub struct ProjectivePoint {
    pub(crate) x: FieldElement,
    pub(crate) y: FieldElement,
    pub(crate) z: FieldElement,
    ghost carried: { IsCarried x × IsCarried y × IsCarried z },
    ghost on_curve: { IsExtended (flat (number x) (number y) (number z)) },
}
