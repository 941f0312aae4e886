//! The texts of keys in other forms than lines: in PEM, under a password, wrapped and sealed.

ghost use Rattle.paseto_key_files.specs.Password.{Protects, ProtectsNone};
ghost use Rattle.paseto_key_files.specs.Pem.{WritesNoPem, WritesPem};
ghost use Rattle.paseto_key_files.specs.Sealing.{SealsLine, SealsNone};
ghost use Rattle.paseto_key_files.specs.Wrapping.{WrapsLine, WrapsNone};
ghost use Rattle.paseto_keys.specs.AnyKey.{parts_of};
ghost use Rattle.paseto_keys.specs.Forms.{ByLine, ByNoLine};
ghost use Rattle.paseto_keys.specs.WrittenLine.{WritesIn};

use crate::any_key::AnyKey;
use paseto_key_files::{KeyFileError, pem_of, protect, seal, wrap};
use paseto_wrapping::PasswordCost;
use rand_core::TryRng;
use std::alloc::Global;

impl AnyKey {
    /// The text of the key in PEM, byte for byte as `openssl pkey` writes it.
    ///
    /// The errors are those of `to_line`, and of `pem_of` of `paseto_key_files`: `LocalInPem` for a key for local
    /// tokens, `SecondInPem` for one of version 2, and `Pem(InvalidKey)` for a key that is not valid.
    ///
    /// Source: RFC 7468, sections 3, 10 and 13.
    pub fn to_pem(&self, alloc: Global) -> Result<String, KeyFileError>
        ensures { WritesIn (ByLine (parts_of self.now) WritesPem)
            (ByNoLine (parts_of self.now) WritesNoPem) result }
    {
        match self.to_line(alloc) {
            Ok(line) => pem_of(alloc, line.as_str()),
            Err(error) => Err(error),
        }
    }

    /// The text of the key under a password, of type `local-pw` or `secret-pw`. Salt and nonce are drawn.
    ///
    /// The errors are those of `to_line`, and of `protect` of `paseto_key_files`: `PublicKey` for a public key,
    /// `Wrap(LongPassword)` and `Wrap(InvalidCost)` for the password and the cost, and `Random` if the generator fails.
    ///
    /// Source: PASERK specification, types `local-pw` and `secret-pw`.
    pub fn protect<G: TryRng>(
        &self,
        alloc: Global,
        password: &[u8],
        cost: PasswordCost,
        generator: &mut G,
    ) -> Result<String, KeyFileError>
        ensures { WritesIn (ByLine (parts_of self.now)
            (Protects password.now cost (λ drawn. G.may_fill generator.old drawn generator.new)))
            (ByNoLine (parts_of self.now) (ProtectsNone password.now cost G.Error)) result }
    {
        match self.to_line(alloc) {
            Ok(line) => protect(alloc, password, cost, generator, line.as_str()),
            Err(error) => Err(error),
        }
    }

    /// The text of the key under the wrapping key of a line, of type `local-wrap.pie` or `secret-wrap.pie`. The nonce
    /// is drawn.
    ///
    /// The errors are those of `to_line`, and of `wrap` of `paseto_key_files`: `PublicKey` for a public key,
    /// `OtherOpener` if the line is not that of a key for local tokens of the same version, and `Random` if the
    /// generator fails.
    ///
    /// Source: PASERK specification, types `local-wrap` and `secret-wrap`.
    pub fn wrap<G: TryRng>(
        &self,
        alloc: Global,
        wrapping: &str,
        generator: &mut G,
    ) -> Result<String, KeyFileError>
        ensures { WritesIn (ByLine (parts_of self.now)
            (WrapsLine wrapping.now (λ drawn. G.may_fill generator.old drawn generator.new)))
            (ByNoLine (parts_of self.now) (WrapsNone wrapping.now G.Error)) result }
    {
        match self.to_line(alloc) {
            Ok(line) => wrap(alloc, wrapping, generator, line.as_str()),
            Err(error) => Err(error),
        }
    }

    /// The text of the key, one for local tokens, sealed to the public key of a line, of type `seal`. The ephemeral
    /// key is drawn.
    ///
    /// The errors are those of `seal` of `paseto_key_files`: `Paserk(OtherType)` for a key of another type,
    /// `OtherOpener` if the line is not that of a public key of the same version, `NoSealing` in version 1, `Wrap` if
    /// no secret can be shared with the public key, and `Random` if the generator fails.
    ///
    /// Source: PASERK specification, type `seal`.
    pub fn seal<G: TryRng>(
        &self,
        alloc: Global,
        public: &str,
        generator: &mut G,
    ) -> Result<String, KeyFileError>
        ensures { WritesIn (ByLine (parts_of self.now)
            (SealsLine public.now (λ drawn. G.may_fill generator.old drawn generator.new)))
            (ByNoLine (parts_of self.now) (SealsNone public.now
            (λ drawn. G.may_fill generator.old drawn generator.new) G.Error)) result }
    {
        match self.to_line(alloc) {
            Ok(line) => seal(alloc, public, generator, line.as_str()),
            Err(error) => Err(error),
        }
    }
}
