//! A point in projective coordinates.

use crate::field::FieldElement;

/// A point (X / Z, Y / Z).
#[derive(Clone, Copy)]
pub(crate) struct ProjectivePoint {
    pub(crate) x: FieldElement,
    pub(crate) y: FieldElement,
    pub(crate) z: FieldElement,
}
