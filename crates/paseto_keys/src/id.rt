//! The ids of keys.

ghost use Rattle.paseto_keys.specs.AnyKey.{parts_of};
ghost use Rattle.paseto_keys.specs.Id.{Identifies};

use crate::any_key::AnyKey;
use rusty_paseto_paserk::{
    PaserkError, local_id, public_id, rsa_public_id, rsa_secret_id, secret_id,
};
use std::alloc::Global;

impl AnyKey {
    /// The id of the key, for example `k4.lid.` and 44 characters, which identifies the key without revealing it.
    ///
    /// `InvalidKey` is returned for a private key that does not have the length of its version's, and in version 1 for
    /// a key that is not one of RSA of 2048 bits. Otherwise it fails only with `Memory`.
    ///
    /// Source: PASERK specification, types `lid`, `sid` and `pid`.
    pub fn id(&self, alloc: Global) -> Result<String, PaserkError>
        ensures { Identifies (parts_of self.now) result }
    {
        match self {
            AnyKey::V1Local(key) => local_id(alloc, key),
            AnyKey::V2Local(key) => local_id(alloc, key),
            AnyKey::V3Local(key) => local_id(alloc, key),
            AnyKey::V4Local(key) => local_id(alloc, key),
            AnyKey::V1Secret(key) => rsa_secret_id(alloc, &key.lend()),
            AnyKey::V2Secret(key) => secret_id(alloc, &key.lend()),
            AnyKey::V3Secret(key) => secret_id(alloc, &key.lend()),
            AnyKey::V4Secret(key) => secret_id(alloc, &key.lend()),
            AnyKey::V1Public(key) => rsa_public_id(alloc, &key.lend()),
            AnyKey::V2Public(key) => public_id(alloc, &key.lend()),
            AnyKey::V3Public(key) => public_id(alloc, &key.lend()),
            AnyKey::V4Public(key) => public_id(alloc, &key.lend()),
        }
    }
}
