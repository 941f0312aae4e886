//! That a value is lent as itself.

ghost use Rattle.std.specs.Prelude.{◌≡◌};
ghost use Rattle.std.specs.Borrow.{sem, Lends};

/// A value that is lent as an `O`. For each type the only such `O` is the type itself.
///
/// A setter returns its builder as an `O`: a contract can state what the builder is after an error only if the result's
/// type has another name than the builder's.
pub trait Itself<O> {
    // The value that an `O` is.
    ghost whole: { O → Self };

    /// The value.
    fn itself(&mut self) -> &mut O
        ensures* back { sem 𝓛 (Lends Self.row O.row self.entry result whole) }
        ensures same { (result.ghost_name ≡ self.entry.ghost_name)
            × (whole result.now ≡ self.old) };
}

impl<T> Itself<T> for T {
    ghost whole = { λ value. value };

    fn itself(&mut self) -> &mut T {
        self
    }
}
