//! A point before its last products.

ghost use Rattle.paseto_edwards25519.specs.Extended.{IsExtended, factored};
ghost use Rattle.paseto_edwards25519.specs.Field.{number};

use crate::field::FieldElement;

/// The point (E * F, G * H, F * G, E * H), with the names of RFC 8032, section 5.1.4: a sum or a
/// double before its last products, of which T is not always needed.
#[derive(Clone, Copy)]
pub(crate) struct Completed {
    pub(crate) e: FieldElement,
    pub(crate) f: FieldElement,
    pub(crate) g: FieldElement,
    pub(crate) h: FieldElement,
    ghost on_curve: { IsExtended (factored (number e) (number f) (number g) (number h)) },
}
