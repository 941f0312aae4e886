//! What the ladder carries from bit to bit.

ghost use Rattle.std.specs.Prelude.{◌<◌};
ghost use Rattle.paseto_edwards25519.specs.Field.{IsCarried};

use paseto_edwards25519::field::FieldElement;

/// The numbers x_2, z_2, x_3 and z_3, and whether they change places before the next turn: 1 or 0 (RFC 7748, section
/// 5).
#[derive(Clone, Copy)]
pub(crate) struct Numbers {
    pub(crate) x2: FieldElement,
    pub(crate) z2: FieldElement,
    pub(crate) x3: FieldElement,
    pub(crate) z3: FieldElement,
    pub(crate) swap: u64,
    ghost carried: { IsCarried x2 × IsCarried z2 × IsCarried x3 × IsCarried z3 },
    ghost choice: { swap < 2 },
}
