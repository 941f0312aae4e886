//! The setters of default builders that return the builder.

ghost use Rattle.std.specs.Borrow.{sem, LendsSoOk};
ghost use Rattle.std.specs.Prelude.{◌≡◌, ◌⊎◌, IfOk, IfErr, OnOk, OnErr};
ghost use Rattle.jiff.specs.Types.{Timestamp};
ghost use Rattle.serde_json.specs.Data.{Members};
ghost use Rattle.rusty_paseto_generic.specs.Error.{IsMemory};
ghost use Rattle.rusty_paseto_generic.specs.Builders.Claims.{IsRefusal, becomes, claim_set, without};
ghost use Rattle.rusty_paseto.specs.Moment.{seconds_later};
ghost use Rattle.rusty_paseto.specs.PasetoBuilder.{Counting, GetsEnd, IsSame, IsUnfitEnd, NeverExpires, acknowledged, counted, expiration_key};

use rusty_paseto_generic::{GenericBuilderError, Itself, PasetoClaim};

/// A builder that counts the keys of its claims. Its setters return it, for chains of calls: as an `O`, which is the
/// builder's own type under another name, and which the compiler infers.
pub trait CountingSetter {
    // The claims.
    ghost claims: { Self → Members };

    // The keys that were set.
    ghost keys: { Self → Counting };

    // The moment that the builder was made at.
    ghost moment: { Self → Timestamp };

    // The first has what the second has beside claims and keys.
    ghost is_rest: { Self → Self → Type 0 };

    /// Stores a claim under its key, as `put_claim` of a `GenericBuilder` does, and counts the key, even if it is
    /// empty. A key that was counted before becomes the repeated key.
    ///
    /// It returns `ClaimError` of `Unexpected` with the key if the value contains a number that is not a 64-bit
    /// integer, and `ClaimError` of the claim's own errors. The builder is then unchanged.
    fn put_claim<C: PasetoClaim>(&mut self, claim: &C) -> Result<(), GenericBuilderError>
        ensures ok { OnOk result (claim_set (C.key claim.now) (C.json claim.now) (claims self.old)
            ≡ becomes (claims self.new)) }
        ensures keys { OnOk result (IsSame (counted (C.key claim.now) (keys self.old))
            (keys self.new)) }
        ensures rest { is_rest self.new self.old }
        ensures err { OnErr result (claims self.new ≡ claims self.old) }
        ensures err_keys { OnErr result (IsSame (keys self.old) (keys self.new)) }
        ensures fault { IfErr result (IsRefusal (claim_set (C.key claim.now) (C.json claim.now)
            (claims self.old))) };

    /// Stores a claim, as `put_claim` does, and returns the builder. On an error the builder is unchanged.
    final fn set_claim<C: PasetoClaim, O>(
        &mut self,
        claim: &C,
    ) -> Result<&mut O, GenericBuilderError>
    where
        Self: Itself<O>,
        ensures* err { sem 𝓛 (LendsSoOk Self.row O.row self.entry result
            (λ last lent. last ≡ Self.whole lent)
            (λ last. (claims last ≡ claims self.entry.now) × IsSame (keys self.entry.now)
            (keys last) × is_rest last self.entry.now)) }
        ensures lent { IfOk result (λ lent. lent.ghost_name ≡ self.entry.ghost_name) }
        ensures ok { IfOk result (λ lent. claim_set (C.key claim.now) (C.json claim.now)
            (claims self.entry.now)
            ≡ becomes (claims (Self.whole lent.now))) }
        ensures keys { IfOk result (λ lent. IsSame (counted (C.key claim.now) (keys self.entry.now))
            (keys (Self.whole lent.now))) }
        ensures rest { IfOk result (λ lent. is_rest (Self.whole lent.now) self.entry.now) }
        ensures fault { IfErr result (IsRefusal (claim_set (C.key claim.now) (C.json claim.now)
            (claims self.entry.now))) }
    {
        self.put_claim(claim)?;
        Ok(self.itself())
    }

    /// Stores an expiration this many seconds after the builder's moment, and counts its key, as `put_claim` of an
    /// `ExpirationClaim` does.
    ///
    /// `ClaimError` of `RFC3339Date`, with the text of the builder's moment, is returned if and only if there is no
    /// moment that much later, or its year is not from 0 to 9999. Otherwise it fails only if an allocation fails. The
    /// builder is then unchanged.
    fn put_lifetime(&mut self, seconds: u32) -> Result<(), GenericBuilderError>
        ensures ok { OnOk result (GetsEnd (seconds_later seconds (moment self.old))
            (claims self.old) (claims self.new)) }
        ensures keys { OnOk result (IsSame (counted expiration_key (keys self.old))
            (keys self.new)) }
        ensures rest { is_rest self.new self.old }
        ensures err { OnErr result (claims self.new ≡ claims self.old) }
        ensures err_keys { OnErr result (IsSame (keys self.old) (keys self.new)) }
        ensures fault { IfErr result (λ error. IsMemory error
            ⊎ IsUnfitEnd (moment self.old) (seconds_later seconds (moment self.old)) error) };

    /// Stores the expiration, as `put_lifetime` does, and returns the builder. On an error the builder is unchanged.
    ///
    /// ```rust
    /// use anyhow::Result;
    /// use jiff::Timestamp;
    /// use rand_core::TryRng;
    /// use rusty_paseto::prelude::*;
    /// use std::alloc::Global;
    ///
    /// /// A token that lives ten minutes.
    /// pub fn issue_for_ten_minutes<R: TryRng>(
    ///     alloc: Global,
    ///     now: Timestamp,
    ///     rng: &mut R,
    ///     key: &PasetoSymmetricKey<V4, Local>,
    /// ) -> Result<String> {
    ///     let mut builder = PasetoBuilder::<V4, Local>::try_default(alloc, now)?;
    ///     builder.set_lifetime(600)?;
    ///     Ok(builder.build(rng, key)?)
    /// }
    /// ```
    final fn set_lifetime<O>(&mut self, seconds: u32) -> Result<&mut O, GenericBuilderError>
    where
        Self: Itself<O>,
        ensures* err { sem 𝓛 (LendsSoOk Self.row O.row self.entry result
            (λ last lent. last ≡ Self.whole lent)
            (λ last. (claims last ≡ claims self.entry.now) × IsSame (keys self.entry.now)
            (keys last) × is_rest last self.entry.now)) }
        ensures lent { IfOk result (λ lent. lent.ghost_name ≡ self.entry.ghost_name) }
        ensures ok { IfOk result (λ lent. GetsEnd (seconds_later seconds (moment self.entry.now))
            (claims self.entry.now) (claims (Self.whole lent.now))) }
        ensures keys { IfOk result (λ lent. IsSame (counted expiration_key (keys self.entry.now))
            (keys (Self.whole lent.now))) }
        ensures rest { IfOk result (λ lent. is_rest (Self.whole lent.now) self.entry.now) }
        ensures fault { IfErr result (λ error. IsMemory error
            ⊎ IsUnfitEnd (moment self.entry.now) (seconds_later seconds (moment self.entry.now))
            error) }
    {
        self.put_lifetime(seconds)?;
        Ok(self.itself())
    }

    /// Removes the expiration and counts its key, without making it a repeated key: tokens that are built from now on
    /// never expire. Such a token is a danger if it is stolen. An expiration that is set later counts as set again, so
    /// that `build` fails.
    ///
    /// It fails only if an allocation fails. The builder is then unchanged.
    fn put_no_expiration_danger_acknowledged(&mut self) -> Result<(), GenericBuilderError>
        ensures ok { OnOk result (claims self.new ≡ without expiration_key (claims self.old)) }
        ensures keys { OnOk result (IsSame (acknowledged expiration_key (keys self.old))
            (keys self.new)) }
        ensures never { OnOk result (NeverExpires (claims self.new) (keys self.new)) }
        ensures rest { is_rest self.new self.old }
        ensures err { OnErr result (claims self.new ≡ claims self.old) }
        ensures err_keys { OnErr result (IsSame (keys self.old) (keys self.new)) }
        ensures fault { IfErr result IsMemory };

    /// Removes the expiration, as `put_no_expiration_danger_acknowledged` does, and returns the builder. On an error
    /// the builder is unchanged.
    final fn set_no_expiration_danger_acknowledged<O>(
        &mut self,
    ) -> Result<&mut O, GenericBuilderError>
    where
        Self: Itself<O>,
        ensures* err { sem 𝓛 (LendsSoOk Self.row O.row self.entry result
            (λ last lent. last ≡ Self.whole lent)
            (λ last. (claims last ≡ claims self.entry.now) × IsSame (keys self.entry.now)
            (keys last) × is_rest last self.entry.now)) }
        ensures lent { IfOk result (λ lent. lent.ghost_name ≡ self.entry.ghost_name) }
        ensures ok { IfOk result (λ lent. claims (Self.whole lent.now)
            ≡ without expiration_key (claims self.entry.now)) }
        ensures keys { IfOk result (λ lent. IsSame
            (acknowledged expiration_key (keys self.entry.now)) (keys (Self.whole lent.now))) }
        ensures never { IfOk result (λ lent. NeverExpires (claims (Self.whole lent.now))
            (keys (Self.whole lent.now))) }
        ensures rest { IfOk result (λ lent. is_rest (Self.whole lent.now) self.entry.now) }
        ensures fault { IfErr result IsMemory }
    {
        self.put_no_expiration_danger_acknowledged()?;
        Ok(self.itself())
    }
}
