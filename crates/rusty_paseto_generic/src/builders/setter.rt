//! The setters of builders that return the builder.

ghost use Rattle.std.specs.Borrow.{sem, LendsSoOk};
ghost use Rattle.std.specs.Prelude.{◌≡◌, ℕ, List, [], IsOk, IfOk, IfErr, OnOk, OnErr};
ghost use Rattle.serde_json.specs.Data.{Members};
ghost use Rattle.serde_json.specs.View.{members_view};
ghost use Rattle.rusty_paseto_claims.specs.Claim.{Answer};
ghost use Rattle.rusty_paseto_generic.specs.Builders.Claims.{IsRefusal, Outcome, becomes, claim_set, extended};

use crate::error::GenericBuilderError;
use crate::itself::Itself;
use rusty_paseto_claims::PasetoClaim;
use serde_json::Value;
use std::collections::BTreeMap;

/// A builder that stores claims. Its setters return it, for chains of calls: as an `O`, which is the builder's own type
/// under another name, and which the compiler infers.
pub trait ClaimSetter {
    // The claims.
    ghost claims: { Self → Members };

    // The first has what the second has beside claims.
    ghost is_rest: { Self → Self → Type 0 };

    /// Stores a claim under its key: if the claim's JSON is an object whose only key is the claim's, as for the claims
    /// of this library, the value of that key; otherwise the JSON as it is. It replaces a value that is already there.
    /// A claim with an empty key is ignored, and its `to_json` is not called.
    ///
    /// It returns `ClaimError` of `Unexpected` with the key if the value contains a number that is not a 64-bit
    /// integer, and `ClaimError` of the claim's own errors. The builder is then unchanged.
    fn put_claim<C: PasetoClaim>(&mut self, claim: &C) -> Result<(), GenericBuilderError>
        ensures ok { OnOk result (claim_set (C.key claim.now) (C.json claim.now) (claims self.old)
            ≡ becomes (claims self.new)) }
        ensures rest { is_rest self.new self.old }
        ensures err { OnErr result (claims self.new ≡ claims self.old) }
        ensures fault { IfErr result (IsRefusal (claim_set (C.key claim.now) (C.json claim.now)
            (claims self.old))) }
        ensures empty { C.key claim.now ≡ [] → IsOk result };

    /// Stores all values as they are, each under its key, which may be empty. They replace values that are already
    /// there.
    ///
    /// `ClaimError` of `Unexpected` with the key is returned for the first key in byte order whose value contains a
    /// number that is not a 64-bit integer. None of the values is then stored.
    fn put_claims(&mut self, more: BTreeMap<String, Value>) -> Result<(), GenericBuilderError>
        ensures ok { OnOk result (extended (members_view more.entries) (claims self.old)
            ≡ becomes (claims self.new)) }
        ensures rest { is_rest self.new self.old }
        ensures err { OnErr result (claims self.new ≡ claims self.old) }
        ensures fault { IfErr result (IsRefusal (extended (members_view more.entries)
            (claims self.old))) };

    /// Stores a claim, as `put_claim` does, and returns the builder. On an error the builder is unchanged.
    final fn set_claim<C: PasetoClaim, O>(
        &mut self,
        claim: &C,
    ) -> Result<&mut O, GenericBuilderError>
    where
        Self: Itself<O>,
        ensures* err { sem 𝓛 (LendsSoOk Self.row O.row self.entry result
            (λ last lent. last ≡ Self.whole lent)
            (λ last. (claims last ≡ claims self.entry.now) × is_rest last self.entry.now)) }
        ensures lent { IfOk result (λ lent. lent.ghost_name ≡ self.entry.ghost_name) }
        ensures ok { IfOk result (λ lent. claim_set (C.key claim.now) (C.json claim.now)
            (claims self.entry.now)
            ≡ becomes (claims (Self.whole lent.now))) }
        ensures rest { IfOk result (λ lent. is_rest (Self.whole lent.now) self.entry.now) }
        ensures fault { IfErr result (IsRefusal (claim_set (C.key claim.now) (C.json claim.now)
            (claims self.entry.now))) }
        ensures empty { C.key claim.now ≡ [] → IsOk result }
    {
        self.put_claim(claim)?;
        Ok(self.itself())
    }

    /// Stores all values, as `put_claims` does, and returns the builder. On an error the builder is unchanged.
    final fn extend_claims<O>(
        &mut self,
        more: BTreeMap<String, Value>,
    ) -> Result<&mut O, GenericBuilderError>
    where
        Self: Itself<O>,
        ensures* err { sem 𝓛 (LendsSoOk Self.row O.row self.entry result
            (λ last lent. last ≡ Self.whole lent)
            (λ last. (claims last ≡ claims self.entry.now) × is_rest last self.entry.now)) }
        ensures lent { IfOk result (λ lent. lent.ghost_name ≡ self.entry.ghost_name) }
        ensures ok { IfOk result (λ lent. extended (members_view more.entries)
            (claims self.entry.now)
            ≡ becomes (claims (Self.whole lent.now))) }
        ensures rest { IfOk result (λ lent. is_rest (Self.whole lent.now) self.entry.now) }
        ensures fault { IfErr result (IsRefusal (extended (members_view more.entries)
            (claims self.entry.now))) }
    {
        self.put_claims(more)?;
        Ok(self.itself())
    }
}
