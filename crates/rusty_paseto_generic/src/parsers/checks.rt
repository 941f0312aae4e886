//! What a parser checks under each key.

ghost use Rattle.std.specs.Prelude.{◌≡◌, ℕ, List, None, true, IfOk, IfErr, OnOk, OnErr, IsSome, string_bytes};
ghost use Rattle.std.specs.BTreeMap.{get_by_text};
ghost use Rattle.serde_json.specs.View.{view, members_view};
ghost use Rattle.rusty_paseto_claims.specs.Claim.{IsRefusal, gives, one_member};
ghost use Rattle.rusty_paseto_claims.specs.Whole.{first_odd, is_whole};
ghost use Rattle.rusty_paseto_generic.specs.Error.Parser.{IsMemory, IsRefusal as IsParserRefusal};
ghost use Rattle.rusty_paseto_generic.specs.Parsers.Rules.{AreSame, IsStored, all_with_checkers, all_stored, edited, fault_in, no_rule, odd_fault, whole_answer, with_both, with_checker, with_required, with_stored};
ghost use Rattle.rusty_paseto_generic.specs.Parsers.Held.{HasEach, HasMore, checkers_of, rules_of, stored_json, with_times};

use crate::error::GenericParserError;
use crate::parsers::stored::Stored;
use crate::whole::check_whole;
use rusty_paseto_claims::{PasetoClaim, PasetoClaimError, is_whole};
use serde_json::{Map, Value};
use std::alloc::{AllocError, Global};
use std::collections::BTreeMap;

/// What checks the value under a key, in place of a stored value.
#[derive(Drop)]
pub(crate) enum Checker<B> {
    /// A validator that the caller brought.
    Boxed(B),
    /// A token has expired from the value's instant on.
    Expiry,
    /// A token may be used after the value's instant.
    NotBefore,
}

/// What is checked under a key. Where nothing is required, stored or checked, it is nothing.
#[derive(Drop)]
pub(crate) struct Check<B> {
    // Whether a value has to be there that is not null.
    pub(crate) required: bool,
    pub(crate) stored: Option<Stored>,
    pub(crate) checker: Option<Checker<B>>,
}

/// Checks by their keys.
#[derive(Drop)]
pub(crate) struct Checks<B> {
    alloc: Global,
    pub(crate) entries: BTreeMap<String, Check<B>>,
}

impl<B: Drop> Checks<B> {
    /// No checks. They take their memory from the allocator.
    pub(crate) fn new(alloc: Global) -> Self
        ensures { (key : List ℕ) → rules_of result key ≡ no_rule }
    {
        Checks {
            alloc,
            entries: BTreeMap::new(alloc),
        }
    }

    /// The allocator of the checks.
    pub(crate) fn allocator(&self) -> Global
        ensures { result ≡ self.now.alloc }
    {
        self.alloc
    }

    /// Stores the JSON of a claim, as it is, under its key, and keeps the key's checker.
    ///
    /// `ClaimError` is returned for a value that contains a number that is not a 64-bit integer, `Unexpected` with the
    /// key, and for a fault of the claim. The checks are then unchanged.
    pub(crate) fn store<C: PasetoClaim>(&mut self, claim: &C) -> Result<(), GenericParserError>
        ensures ok { OnOk result (IsStored (C.key claim.now) (C.json claim.now) with_stored
            (rules_of self.old) (rules_of self.new)) }
        ensures err { OnErr result (AreSame (rules_of self.new) (rules_of self.old)) }
        ensures fault { IfErr result (IsParserRefusal
            (fault_in (whole_answer (C.key claim.now) (C.json claim.now)))) }
    {
        let key = claim.get_key();
        let (name, stored) = Stored::of(self.alloc, key, whole_json(self.alloc, claim)?)?;
        self.reserve_named(name)?;
        self.set_stored(key, stored);
        Ok(())
    }

    /// Stores the JSON of a claim, as `store` does, and what is to check its key from now on.
    pub(crate) fn store_validator<C: PasetoClaim>(
        &mut self,
        claim: &C,
        checker: B,
    ) -> Result<(), GenericParserError>
        ensures ok { OnOk result (IsStored (C.key claim.now) (C.json claim.now)
            (with_both (Checker.Boxed checker))
            (rules_of self.old) (rules_of self.new)) }
        ensures err { OnErr result (AreSame (rules_of self.new) (rules_of self.old)) }
        ensures fault { IfErr result (IsParserRefusal
            (fault_in (whole_answer (C.key claim.now) (C.json claim.now)))) }
    {
        let key = claim.get_key();
        let (name, stored) = Stored::of(self.alloc, key, whole_json(self.alloc, claim)?)?;
        self.reserve_named(name)?;
        self.set_both(key, stored, Checker::Boxed(checker));
        Ok(())
    }

    /// Stores all values as they are, each under its key, and keeps the keys' checkers.
    ///
    /// `ClaimError` of `Unexpected` with the key is returned for the first key in byte order whose value contains a
    /// number that is not a 64-bit integer. The checks are then unchanged.
    pub(crate) fn store_all(&mut self, more: Map<String, Value>) -> Result<(), GenericParserError>
        ensures ok { OnOk result (AreSame (rules_of self.new)
            (all_stored (members_view more.entries) (rules_of self.old))) }
        ensures whole { OnOk result (first_odd (members_view more.entries) ≡ None) }
        ensures err { OnErr result (AreSame (rules_of self.new) (rules_of self.old)) }
        ensures fault { IfErr result (IsParserRefusal (odd_fault (members_view more.entries))) }
    {
        check_whole(&more)?;
        self.reserve_all(&more)?;
        self.set_all_stored(more);
        Ok(())
    }

    /// Stores a value under a key, as `store` does for the claim of this key and value, and copies neither.
    ///
    /// `ClaimError` of `Unexpected` with the key is returned for a value that contains a number that is not a 64-bit
    /// integer. The checks are then unchanged.
    pub(crate) fn store_expected(
        &mut self,
        key: String,
        value: Value,
    ) -> Result<(), GenericParserError>
        ensures ok { OnOk result (AreSame (rules_of self.new) (edited (string_bytes key)
            (with_stored (one_member (string_bytes key) (view value))) (rules_of self.old))) }
        ensures whole { OnOk result (is_whole (view value) ≡ true) }
        ensures err { OnErr result (AreSame (rules_of self.new) (rules_of self.old)) }
        ensures fault { IfErr result (IsParserRefusal
            (fault_in (whole_answer (string_bytes key) (gives (view value))))) }
    {
        if !is_whole(&value) {
            return Err(GenericParserError::from(PasetoClaimError::Unexpected(key)));
        }
        let stored = Stored::Entry(value);
        if self.entries.contains_key(key.as_str()) {
            self.set_stored(key.as_str(), stored);
            return Ok(());
        }
        self.store_new(key, stored)?;
        Ok(())
    }

    /// Stores what is to check each of the keys from now on, and keeps the keys' stored values. It fails only if an
    /// allocation fails, and the checks are then unchanged.
    pub(crate) fn store_validators(&mut self, more: BTreeMap<String, B>) -> Result<(), AllocError>
        ensures ok { OnOk result (AreSame (rules_of self.new)
            (all_with_checkers (checkers_of more.entries) (rules_of self.old))) }
        ensures err { OnErr result (AreSame (rules_of self.new) (rules_of self.old)) }
    {
        self.reserve_all(&more)?;
        self.set_all_checkers(more);
        Ok(())
    }

    /// Stores what is to check the key from now on, and keeps what is stored and required under it. It fails only if an
    /// allocation fails, and the checks are then unchanged.
    pub(crate) fn store_checker(&mut self, key: &str, checker: B) -> Result<(), AllocError>
        ensures ok { OnOk result (AreSame (rules_of self.new)
            (edited key.now (with_checker (Checker.Boxed checker)) (rules_of self.old))) }
        ensures err { OnErr result (AreSame (rules_of self.new) (rules_of self.old)) }
    {
        self.reserve(key)?;
        self.set_checker(key, Checker::Boxed(checker));
        Ok(())
    }

    /// Stores `exp` and `nbf` with their claims by default, and what checks them by the moment from now on. A
    /// key that is there gets the new ones. It fails only if an allocation fails, and the checks are then unchanged.
    pub(crate) fn check_times(&mut self) -> Result<(), GenericParserError>
        ensures ok { OnOk result (AreSame (rules_of self.new) (with_times (rules_of self.old))) }
        ensures err { OnErr result (AreSame (rules_of self.new) (rules_of self.old)) }
        ensures fault { IfErr result IsMemory }
    {
        self.reserve("exp")?;
        self.reserve("nbf")?;
        self.set_both("exp", Stored::DefaultDate, Checker::Expiry);
        self.set_both("nbf", Stored::DefaultDate, Checker::NotBefore);
        Ok(())
    }

    /// Requires that a value is there under the key, and not null, and keeps what else is checked under it. It fails
    /// only if an allocation fails, and the checks are then unchanged.
    pub(crate) fn require(&mut self, key: &str) -> Result<(), AllocError>
        ensures ok { OnOk result (AreSame (rules_of self.new)
            (edited key.now with_required (rules_of self.old))) }
        ensures err { OnErr result (AreSame (rules_of self.new) (rules_of self.old)) }
    {
        self.reserve(key)?;
        self.set_required(key);
        Ok(())
    }

    // Makes an entry under the key, which checks nothing yet where it is new. A check is then set in it without memory,
    // so that a refusal of memory finds no check changed.
    fn reserve(&mut self, key: &str) -> Result<(), AllocError>
        ensures rules { AreSame (rules_of self.new) (rules_of self.old) }
        ensures ok { OnOk result (IsSome (get_by_text self.new.entries key.now)) }
        ensures kept { HasMore (get_by_text self.new.entries) (get_by_text self.old.entries) }
    {
        if self.entries.contains_key(key) {
            return Ok(());
        }
        self.reserve_new(String::from_str(self.alloc, key)?)
    }

    // The same for a key that is handed in.
    fn reserve_named(&mut self, key: String) -> Result<(), AllocError>
        ensures rules { AreSame (rules_of self.new) (rules_of self.old) }
        ensures ok { OnOk result (IsSome (get_by_text self.new.entries (string_bytes key))) }
        ensures kept { HasMore (get_by_text self.new.entries) (get_by_text self.old.entries) }
    {
        if self.entries.contains_key(key.as_str()) {
            return Ok(());
        }
        self.reserve_new(key)
    }

    // Makes an entry under a key that has none.
    fn reserve_new(&mut self, key: String) -> Result<(), AllocError>
        requires { get_by_text self.old.entries (string_bytes key) ≡ None }
        ensures rules { AreSame (rules_of self.new) (rules_of self.old) }
        ensures ok { OnOk result (IsSome (get_by_text self.new.entries (string_bytes key))) }
        ensures kept { HasMore (get_by_text self.new.entries) (get_by_text self.old.entries) }
    {
        let nothing = Check {
            required: false,
            stored: None,
            checker: None,
        };
        drop(self.entries.insert(key, nothing)?);
        Ok(())
    }

    // Stores a value under a key that has no entry.
    fn store_new(&mut self, key: String, stored: Stored) -> Result<(), AllocError>
        requires { get_by_text self.old.entries (string_bytes key) ≡ None }
        ensures ok { OnOk result (AreSame (rules_of self.new) (edited (string_bytes key)
            (with_stored (stored_json (string_bytes key) stored)) (rules_of self.old))) }
        ensures err { OnErr result (AreSame (rules_of self.new) (rules_of self.old)) }
    {
        let check = Check {
            required: false,
            stored: Some(stored),
            checker: None,
        };
        drop(self.entries.insert(key, check)?);
        Ok(())
    }

    // An entry under each of the keys.
    fn reserve_all<T>(&mut self, more: &BTreeMap<String, T>) -> Result<(), AllocError>
        ensures rules { AreSame (rules_of self.new) (rules_of self.old) }
        ensures ok { OnOk result (HasEach (get_by_text self.new.entries) more.now.entries) }
    {
        for (key, _) in more.iter() {
            self.reserve(key.as_str())?;
        }
        Ok(())
    }

    // Requires a value under a key that has an entry.
    fn set_required(&mut self, key: &str)
        requires { IsSome (get_by_text self.old.entries key.now) }
        ensures rules { AreSame (rules_of self.new)
            (edited key.now with_required (rules_of self.old)) }
        ensures kept { HasMore (get_by_text self.new.entries) (get_by_text self.old.entries) }
    {
        if let Some(check) = self.entries.get_mut(key) {
            check.required = true;
        }
    }

    // Sets what is stored under a key that has an entry.
    fn set_stored(&mut self, key: &str, stored: Stored)
        requires { IsSome (get_by_text self.old.entries key.now) }
        ensures rules { AreSame (rules_of self.new)
            (edited key.now (with_stored (stored_json key.now stored)) (rules_of self.old)) }
        ensures kept { HasMore (get_by_text self.new.entries) (get_by_text self.old.entries) }
    {
        if let Some(check) = self.entries.get_mut(key) {
            check.stored = Some(stored);
        }
    }

    // Sets what checks a key that has an entry.
    fn set_checker(&mut self, key: &str, checker: Checker<B>)
        requires { IsSome (get_by_text self.old.entries key.now) }
        ensures rules { AreSame (rules_of self.new)
            (edited key.now (with_checker checker) (rules_of self.old)) }
        ensures kept { HasMore (get_by_text self.new.entries) (get_by_text self.old.entries) }
    {
        if let Some(check) = self.entries.get_mut(key) {
            check.checker = Some(checker);
        }
    }

    // Sets what is stored and what checks, under a key that has an entry.
    fn set_both(&mut self, key: &str, stored: Stored, checker: Checker<B>)
        requires { IsSome (get_by_text self.old.entries key.now) }
        ensures rules { AreSame (rules_of self.new)
            (edited key.now (with_both checker (stored_json key.now stored))
            (rules_of self.old)) }
        ensures kept { HasMore (get_by_text self.new.entries) (get_by_text self.old.entries) }
    {
        self.set_stored(key, stored);
        self.set_checker(key, checker);
    }

    // Stores values under keys that have entries.
    fn set_all_stored(&mut self, more: Map<String, Value>)
        requires { HasEach (get_by_text self.old.entries) more.entries }
        ensures { AreSame (rules_of self.new)
            (all_stored (members_view more.entries) (rules_of self.old)) }
    {
        for (key, value) in more {
            self.set_stored(key.as_str(), Stored::Whole(value));
        }
    }

    // Sets what checks keys that have entries.
    fn set_all_checkers(&mut self, more: BTreeMap<String, B>)
        requires { HasEach (get_by_text self.old.entries) more.entries }
        ensures { AreSame (rules_of self.new)
            (all_with_checkers (checkers_of more.entries) (rules_of self.old)) }
    {
        for (key, checker) in more {
            self.set_checker(key.as_str(), Checker::Boxed(checker));
        }
    }
}

// The JSON of a claim, where its numbers are whole.
fn whole_json<C: PasetoClaim>(alloc: Global, claim: &C) -> Result<Value, PasetoClaimError>
    ensures ok { IfOk result (λ value. whole_answer (C.key claim.now) (C.json claim.now)
        ≡ gives (view value)) }
    ensures err { IfErr result (IsRefusal (whole_answer (C.key claim.now) (C.json claim.now))) }
{
    let value = claim.to_json(alloc)?;
    if !is_whole(&value) {
        return Err(PasetoClaimError::Unexpected(String::from_str(alloc, claim.get_key())?));
    }
    Ok(value)
}
