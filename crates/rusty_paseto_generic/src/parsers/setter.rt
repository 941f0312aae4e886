//! The setters of parsers that return the parser.

ghost use Rattle.std.specs.Borrow.{sem, LendsSoOk};
ghost use Rattle.std.specs.Prelude.{◌≡◌, None, IfOk, IfErr, OnOk, OnErr};
ghost use Rattle.serde_json.specs.View.{members_view};
ghost use Rattle.rusty_paseto_claims.specs.Whole.{first_odd};
ghost use Rattle.rusty_paseto_generic.specs.Error.Parser.{IsMemory, IsRefusal};
ghost use Rattle.rusty_paseto_generic.specs.Parsers.Held.{checkers_of, with_times};
ghost use Rattle.rusty_paseto_generic.specs.Parsers.Rules.{AreSame, IsStored, Rules, all_with_checkers, all_stored, edited, fault_in, odd_fault, whole_answer, with_both, with_checker, with_required, with_stored};
ghost use Rattle.rusty_paseto_generic.specs.declared.parsers.checks.Checker.{Checker as CheckerOf};
ghost use Rattle.jiff.specs.declared.Timestamp.{Timestamp};

use crate::error::GenericParserError;
use crate::itself::Itself;
use crate::parsers::checks::Checker;
use jiff::Timestamp;
use rusty_paseto_claims::PasetoClaim;
use serde_json::Value;
use std::collections::BTreeMap;

/// A parser that stores checks. Its setters return it, for chains of calls: as an `O`, which is the parser's own type
/// under another name, and which the compiler infers.
pub trait CheckSetter<B> {
    // What is checked under each key.
    ghost rules: { Self → Rules (CheckerOf B) };

    // When the times are checked.
    ghost moment: { Self → Timestamp };

    // The first has what the second has beside them.
    ghost is_rest: { Self → Self → Type 0 };

    /// Stores a claim's JSON under its key.
    fn put_check<C: PasetoClaim>(&mut self, claim: &C) -> Result<(), GenericParserError>
        ensures ok { OnOk result (IsStored (C.key claim.now) (C.json claim.now) with_stored
            (rules self.old) (rules self.new)) }
        ensures moment { moment self.new ≡ moment self.old }
        ensures rest { is_rest self.new self.old }
        ensures err { OnErr result (AreSame (rules self.new) (rules self.old)) }
        ensures fault { IfErr result (IsRefusal (fault_in
            (whole_answer (C.key claim.now) (C.json claim.now)))) };

    /// Stores a claim's JSON and a validator.
    fn put_validator<C: PasetoClaim>(
        &mut self,
        claim: &C,
        validator: B,
    ) -> Result<(), GenericParserError>
        ensures ok { OnOk result (IsStored (C.key claim.now) (C.json claim.now)
            (with_both (Checker.Boxed validator)) (rules self.old) (rules self.new)) }
        ensures moment { moment self.new ≡ moment self.old }
        ensures rest { is_rest self.new self.old }
        ensures err { OnErr result (AreSame (rules self.new) (rules self.old)) }
        ensures fault { IfErr result (IsRefusal (fault_in
            (whole_answer (C.key claim.now) (C.json claim.now)))) };

    /// Stores all values as they are.
    fn put_checks(&mut self, claims: BTreeMap<String, Value>) -> Result<(), GenericParserError>
        ensures ok { OnOk result (AreSame (rules self.new)
            (all_stored (members_view claims.entries) (rules self.old))) }
        ensures whole { OnOk result (first_odd (members_view claims.entries) ≡ None) }
        ensures moment { moment self.new ≡ moment self.old }
        ensures rest { is_rest self.new self.old }
        ensures err { OnErr result (AreSame (rules self.new) (rules self.old)) }
        ensures fault { IfErr result (IsRefusal (odd_fault (members_view claims.entries))) };

    /// Stores all validators.
    fn put_validators(&mut self, validators: BTreeMap<String, B>) -> Result<(), GenericParserError>
        ensures ok { OnOk result (AreSame (rules self.new)
            (all_with_checkers (checkers_of validators.entries) (rules self.old))) }
        ensures moment { moment self.new ≡ moment self.old }
        ensures rest { is_rest self.new self.old }
        ensures err { OnErr result (AreSame (rules self.new) (rules self.old)) }
        ensures fault { IfErr result IsMemory };

    /// Stores a validator under a key, without a claim.
    fn put_key_validator(&mut self, key: &str, validator: B) -> Result<(), GenericParserError>
        ensures ok { OnOk result (AreSame (rules self.new)
            (edited key.now (with_checker (Checker.Boxed validator)) (rules self.old))) }
        ensures moment { moment self.new ≡ moment self.old }
        ensures rest { is_rest self.new self.old }
        ensures err { OnErr result (AreSame (rules self.new) (rules self.old)) }
        ensures fault { IfErr result IsMemory };

    /// Requires that a token has a value under the key, and not null.
    fn put_required(&mut self, key: &str) -> Result<(), GenericParserError>
        ensures ok { OnOk result (AreSame (rules self.new)
            (edited key.now with_required (rules self.old))) }
        ensures moment { moment self.new ≡ moment self.old }
        ensures rest { is_rest self.new self.old }
        ensures err { OnErr result (AreSame (rules self.new) (rules self.old)) }
        ensures fault { IfErr result IsMemory };

    /// Checks the times at a moment.
    fn put_times(&mut self, now: Timestamp) -> Result<(), GenericParserError>
        ensures ok { OnOk result (AreSame (rules self.new) (with_times (rules self.old))) }
        ensures moment { OnOk result (moment self.new ≡ now) }
        ensures rest { is_rest self.new self.old }
        ensures err { OnErr result (AreSame (rules self.new) (rules self.old)) }
        ensures kept { OnErr result (moment self.new ≡ moment self.old) }
        ensures fault { IfErr result IsMemory };

    /// Stores a claim's JSON, as `put_check` does, and returns the parser.
    final fn check_claim<C: PasetoClaim, O>(
        &mut self,
        claim: &C,
    ) -> Result<&mut O, GenericParserError>
    where
        Self: Itself<O>,
        ensures* err { sem 𝓛 (LendsSoOk Self.row O.row self.entry result
            (λ last lent. last ≡ Self.whole lent)
            (λ last. AreSame (rules last) (rules self.entry.now)
            × (moment last ≡ moment self.entry.now) × is_rest last self.entry.now)) }
        ensures lent { IfOk result (λ lent. lent.ghost_name ≡ self.entry.ghost_name) }
        ensures ok { IfOk result (λ lent. IsStored (C.key claim.now) (C.json claim.now) with_stored
            (rules self.entry.now) (rules (Self.whole lent.now))) }
        ensures moment { IfOk result (λ lent. moment (Self.whole lent.now)
            ≡ moment self.entry.now) }
        ensures rest { IfOk result (λ lent. is_rest (Self.whole lent.now) self.entry.now) }
        ensures fault { IfErr result (IsRefusal (fault_in
            (whole_answer (C.key claim.now) (C.json claim.now)))) }
    {
        self.put_check(claim)?;
        Ok(self.itself())
    }

    /// Stores a claim's JSON and a validator, as `put_validator` does, and returns the parser.
    final fn validate_claim<C: PasetoClaim, O>(
        &mut self,
        claim: &C,
        validator: B,
    ) -> Result<&mut O, GenericParserError>
    where
        Self: Itself<O>,
        ensures* err { sem 𝓛 (LendsSoOk Self.row O.row self.entry result
            (λ last lent. last ≡ Self.whole lent)
            (λ last. AreSame (rules last) (rules self.entry.now)
            × (moment last ≡ moment self.entry.now) × is_rest last self.entry.now)) }
        ensures lent { IfOk result (λ lent. lent.ghost_name ≡ self.entry.ghost_name) }
        ensures ok { IfOk result (λ lent. IsStored (C.key claim.now) (C.json claim.now)
            (with_both (Checker.Boxed validator)) (rules self.entry.now)
            (rules (Self.whole lent.now))) }
        ensures moment { IfOk result (λ lent. moment (Self.whole lent.now)
            ≡ moment self.entry.now) }
        ensures rest { IfOk result (λ lent. is_rest (Self.whole lent.now) self.entry.now) }
        ensures fault { IfErr result (IsRefusal (fault_in
            (whole_answer (C.key claim.now) (C.json claim.now)))) }
    {
        self.put_validator(claim, validator)?;
        Ok(self.itself())
    }

    /// Stores all values, as `put_checks` does, and returns the parser.
    final fn extend_check_claims<O>(
        &mut self,
        claims: BTreeMap<String, Value>,
    ) -> Result<&mut O, GenericParserError>
    where
        Self: Itself<O>,
        ensures* err { sem 𝓛 (LendsSoOk Self.row O.row self.entry result
            (λ last lent. last ≡ Self.whole lent)
            (λ last. AreSame (rules last) (rules self.entry.now)
            × (moment last ≡ moment self.entry.now) × is_rest last self.entry.now)) }
        ensures lent { IfOk result (λ lent. lent.ghost_name ≡ self.entry.ghost_name) }
        ensures ok { IfOk result (λ lent. AreSame (rules (Self.whole lent.now))
            (all_stored (members_view claims.entries) (rules self.entry.now))) }
        ensures whole { OnOk result (first_odd (members_view claims.entries) ≡ None) }
        ensures moment { IfOk result (λ lent. moment (Self.whole lent.now)
            ≡ moment self.entry.now) }
        ensures rest { IfOk result (λ lent. is_rest (Self.whole lent.now) self.entry.now) }
        ensures fault { IfErr result (IsRefusal (odd_fault (members_view claims.entries))) }
    {
        self.put_checks(claims)?;
        Ok(self.itself())
    }

    /// Stores all validators, as `put_validators` does, and returns the parser.
    final fn extend_validation_claims<O>(
        &mut self,
        validators: BTreeMap<String, B>,
    ) -> Result<&mut O, GenericParserError>
    where
        Self: Itself<O>,
        ensures* err { sem 𝓛 (LendsSoOk Self.row O.row self.entry result
            (λ last lent. last ≡ Self.whole lent)
            (λ last. AreSame (rules last) (rules self.entry.now)
            × (moment last ≡ moment self.entry.now) × is_rest last self.entry.now)) }
        ensures lent { IfOk result (λ lent. lent.ghost_name ≡ self.entry.ghost_name) }
        ensures ok { IfOk result (λ lent. AreSame (rules (Self.whole lent.now))
            (all_with_checkers (checkers_of validators.entries) (rules self.entry.now))) }
        ensures moment { IfOk result (λ lent. moment (Self.whole lent.now)
            ≡ moment self.entry.now) }
        ensures rest { IfOk result (λ lent. is_rest (Self.whole lent.now) self.entry.now) }
        ensures fault { IfErr result IsMemory }
    {
        self.put_validators(validators)?;
        Ok(self.itself())
    }

    /// Makes a validator check the value under a key, without a claim, and returns the parser, unlike
    /// `put_key_validator`. From then on only the validator checks the key: a claim that is stored under it is kept,
    /// but no longer compared. It fails only if an allocation fails.
    final fn validate_key<O>(
        &mut self,
        key: &str,
        validator: B,
    ) -> Result<&mut O, GenericParserError>
    where
        Self: Itself<O>,
        ensures* err { sem 𝓛 (LendsSoOk Self.row O.row self.entry result
            (λ last lent. last ≡ Self.whole lent)
            (λ last. AreSame (rules last) (rules self.entry.now)
            × (moment last ≡ moment self.entry.now) × is_rest last self.entry.now)) }
        ensures lent { IfOk result (λ lent. lent.ghost_name ≡ self.entry.ghost_name) }
        ensures ok { IfOk result (λ lent. AreSame (rules (Self.whole lent.now))
            (edited key.now (with_checker (Checker.Boxed validator)) (rules self.entry.now))) }
        ensures moment { IfOk result (λ lent. moment (Self.whole lent.now)
            ≡ moment self.entry.now) }
        ensures rest { IfOk result (λ lent. is_rest (Self.whole lent.now) self.entry.now) }
        ensures fault { IfErr result IsMemory }
    {
        self.put_key_validator(key, validator)?;
        Ok(self.itself())
    }

    /// Requires that a token has a value other than null under the key: otherwise `parse` returns `ClaimError` of
    /// `Missing` with the key, before the key's other checks, which are kept. Returns the parser, unlike
    /// `put_required`. It fails only if an allocation fails.
    ///
    /// ```rust
    /// use rusty_paseto_generic::{CheckSetter, GenericParser, GenericParserError, Local, V4};
    /// use std::alloc::Global;
    ///
    /// /// A parser that refuses a token without `exp` or without `sub`.
    /// pub fn demanding_parser<'a>(
    ///     alloc: Global,
    /// ) -> Result<GenericParser<'a, V4, Local>, GenericParserError> {
    ///     let mut parser = GenericParser::<V4, Local>::new(alloc);
    ///     parser.require_claim("exp")?.require_claim("sub")?;
    ///     Ok(parser)
    /// }
    /// ```
    final fn require_claim<O>(&mut self, key: &str) -> Result<&mut O, GenericParserError>
    where
        Self: Itself<O>,
        ensures* err { sem 𝓛 (LendsSoOk Self.row O.row self.entry result
            (λ last lent. last ≡ Self.whole lent)
            (λ last. AreSame (rules last) (rules self.entry.now)
            × (moment last ≡ moment self.entry.now) × is_rest last self.entry.now)) }
        ensures lent { IfOk result (λ lent. lent.ghost_name ≡ self.entry.ghost_name) }
        ensures ok { IfOk result (λ lent. AreSame (rules (Self.whole lent.now))
            (edited key.now with_required (rules self.entry.now))) }
        ensures moment { IfOk result (λ lent. moment (Self.whole lent.now)
            ≡ moment self.entry.now) }
        ensures rest { IfOk result (λ lent. is_rest (Self.whole lent.now) self.entry.now) }
        ensures fault { IfErr result IsMemory }
    {
        self.put_required(key)?;
        Ok(self.itself())
    }

    /// Checks the times at a moment, as `put_times` does, and returns the parser.
    final fn check_times<O>(&mut self, now: Timestamp) -> Result<&mut O, GenericParserError>
    where
        Self: Itself<O>,
        ensures* err { sem 𝓛 (LendsSoOk Self.row O.row self.entry result
            (λ last lent. last ≡ Self.whole lent)
            (λ last. AreSame (rules last) (rules self.entry.now)
            × (moment last ≡ moment self.entry.now) × is_rest last self.entry.now)) }
        ensures lent { IfOk result (λ lent. lent.ghost_name ≡ self.entry.ghost_name) }
        ensures ok { IfOk result (λ lent. AreSame (rules (Self.whole lent.now))
            (with_times (rules self.entry.now))) }
        ensures moment { IfOk result (λ lent. moment (Self.whole lent.now) ≡ now) }
        ensures rest { IfOk result (λ lent. is_rest (Self.whole lent.now) self.entry.now) }
        ensures fault { IfErr result IsMemory }
    {
        self.put_times(now)?;
        Ok(self.itself())
    }
}
