//! The claims of a token that is to be issued.

ghost use Rattle.std.specs.Prelude.{◌≡◌, IfOk, None, OnOk, string_bytes};
ghost use Rattle.serde_json.specs.Data.{no_members};
ghost use Rattle.serde_json.specs.Find.{get_member};
ghost use Rattle.rusty_paseto_generic.specs.Builders.Claims.{IsReadBack, payload, without};
ghost use Rattle.rusty_paseto_generic.specs.Builders.Held.{held};

use rusty_paseto_core::{Local, V4};
use rusty_paseto_generic::{ClaimSetter, GenericBuilder, GenericBuilderError, PasetoClaim};
use serde_json::Value;
use std::alloc::{AllocError, Global};
use std::collections::BTreeMap;

/// The claims of a token of any version and purpose, which `issue` makes a token of. It has no footer and no implicit
/// assertion: `issue` takes them.
#[derive(Drop)]
pub struct ClaimsBuilder {
    // Of its type parameters, its footer and its implicit assertion nothing is used.
    builder: GenericBuilder<'static, V4, Local>,
}

impl ClaimsBuilder {
    /// A builder without claims. It allocates with `alloc`, but not yet.
    pub fn new(alloc: Global) -> ClaimsBuilder
        ensures { held result.builder.claims ≡ no_members }
    {
        ClaimsBuilder {
            builder: GenericBuilder::new(alloc),
        }
    }

    /// Removes the claim under the key, if there is one. Does not allocate.
    pub fn remove_claim(&mut self, key: &str)
        ensures claims { held self.new.builder.claims
            ≡ without key.now (held self.old.builder.claims) }
        ensures gone { get_member key.now (held self.new.builder.claims) ≡ None }
    {
        self.builder.remove_claim(key);
    }

    /// The payload of a token with these claims: a compact JSON object, its keys in byte order. It is read back as that
    /// object if the values are nested at most 126 deep. It fails only if an allocation fails.
    pub fn build_payload_from_claims(&self) -> Result<String, AllocError>
        ensures ok { IfOk result (λ text. string_bytes text
            ≡ payload (held self.now.builder.claims)) }
        ensures read_back { OnOk result (IsReadBack (held self.now.builder.claims)) }
    {
        match self.builder.build_payload_from_claims() {
            Ok(text) => Ok(text),
            Err(GenericBuilderError::Memory(refused)) => Err(refused),
            Err(_) => unreachable!(),
        }
    }
}

impl ClaimSetter for ClaimsBuilder {
    ghost claims = { λ builder. held builder.builder.claims };

    ghost is_rest = { λ builder other. builder.builder.paseto ≡ other.builder.paseto };

    fn put_claim<C: PasetoClaim>(&mut self, claim: &C) -> Result<(), GenericBuilderError> {
        self.builder.put_claim(claim)
    }

    fn put_claims(&mut self, claims: BTreeMap<String, Value>) -> Result<(), GenericBuilderError> {
        self.builder.put_claims(claims)
    }
}
