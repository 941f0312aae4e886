//! A point that is not the neutral one, by its coordinates x and y.

use crate::field::FieldElement;

/// A point (x, y), whose Z is 1.
#[derive(Clone, Copy)]
pub(crate) struct PlanePoint {
    pub(crate) x: FieldElement,
    pub(crate) y: FieldElement,
}
