//! Sinks of bytes.

ghost use Rattle.std.specs.Prelude.{◌≡◌, ◌++◌, ℕ, List, OnOk};
ghost use Rattle.std.proofs.Common.{rules};
ghost use Rattle.std.proofs.lemmas.Grind.{common_steps};

use std::alloc::AllocError;

/// A sink of bytes: a buffer, or a hasher.
pub trait Absorb {
    /// Why bytes could not be absorbed: `AllocError` for a buffer, and `Infallible` for a hasher.
    type Error: Drop;

    // Whether the first, once it has taken in these bytes, is the second.
    ghost absorbed: { Self → List ℕ → Self → Type 0 };

    /// Absorbs bytes after those that it already has.
    fn absorb(&mut self, bytes: &[u8]) -> Result<(), Self::Error>
        ensures { OnOk result (absorbed self.old bytes.now self.new) };

    // Two lists that are taken in one after the other are taken in as one.
    ghost joined: { (first second third : Self) (front back : List ℕ)
        → absorbed first front second → absorbed second back third → absorbed first
        (front ++ back) third };
}

/// A buffer appends the bytes.
impl Absorb for Vec<u8> {
    type Error = AllocError;

    ghost absorbed = { λ buffer bytes longer. longer.items ≡ buffer.items ++ bytes };

    fn absorb(&mut self, bytes: &[u8]) -> Result<(), AllocError> {
        self.extend_from_slice(bytes)
    }

    ghost joined = { Prim.search (rules, common_steps) };
}
