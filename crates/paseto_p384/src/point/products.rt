//! The products that the sum of two points needs.

use crate::field::FieldElement;

/// The products of the coordinates of two points that their sum needs, with the names of its definition.
#[derive(Clone, Copy)]
pub(crate) struct Products {
    pub(crate) xx: FieldElement,
    pub(crate) yy: FieldElement,
    pub(crate) zz: FieldElement,
    pub(crate) xy: FieldElement,
    pub(crate) yz: FieldElement,
    pub(crate) xz: FieldElement,
}
