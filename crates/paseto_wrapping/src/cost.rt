//! The cost of deriving a key from a password.

ghost use Rattle.std.specs.Prelude.{◌≡◌, ◌↔◌, ◌++◌, List, IsTrue, IfErr, OnOk, length};
ghost use Rattle.paseto_wrapping.specs.declared.cost.PasswordCost.{PasswordCost as Cost};
ghost use Rattle.paseto_wrapping.specs.declared.family.Family.TheVariants.{Nist, Sodium};
ghost use Rattle.paseto_wrapping.specs.Error.{IsMemory};
ghost use Rattle.paseto_wrapping.specs.Password.{AreAlike, IsAllowed, IsWithin, cost_bytes, cost_length};

use crate::error::WrapError;
use crate::family::{Family, array_of};

/// The first number of lanes that Argon2id does not allow.
const TOO_MANY_LANES: u32 = 1 << 24;

/// The first number of KiB that Argon2id does not allow.
const TOO_MUCH_MEMORY: u64 = 1 << 32;

/// The cost of deriving a key from a password, for the caller as well as for an attacker who guesses passwords.
/// Versions 1 and 3 use the iterations, and versions 2 and 4 the other three.
#[derive(Debug, Clone, Copy, PartialEq, Eq)]
pub struct PasswordCost {
    /// The iterations of PBKDF2, at least one.
    pub iterations: u32,
    /// The memory of Argon2id in bytes: a multiple of 1024, at least 8192 for each lane, and less than 4 TiB.
    pub memory: u64,
    /// How often Argon2id fills the memory, at least once.
    pub passes: u32,
    /// The lanes of Argon2id, 1 to 16,777,215.
    pub lanes: u32,
}

/// The cost in the PASERK specification's test vectors: 100,000 iterations; 64 MiB, 2 passes and 1 lane.
impl Default for PasswordCost {
    ghost is_default = { λ cost. (cost.iterations ≡ 100000) × (cost.memory ≡ 67108864)
        × (cost.passes ≡ 2) × (cost.lanes ≡ 1) };

    fn default() -> Self {
        PasswordCost {
            iterations: 100_000,
            memory: 64 << 20,
            passes: 2,
            lanes: 1,
        }
    }
}

impl PasswordCost {
    /// A bound for untrusted texts: 10,000,000 iterations; 1 GiB, 32 passes and 16 lanes. A text may then still cost a
    /// minute of work: set a bound for which your callers can wait.
    pub fn most() -> PasswordCost
        ensures iterations { result.iterations ≡ 10000000 }
        ensures memory { result.memory ≡ 1073741824 }
        ensures passes { result.passes ≡ 32 }
        ensures lanes { result.lanes ≡ 16 }
    {
        PasswordCost {
            iterations: 10_000_000,
            memory: 1 << 30,
            passes: 32,
            lanes: 16,
        }
    }

    /// Whether PBKDF2, or Argon2id, allows the cost.
    pub(crate) fn is_allowed(self, family: Family) -> bool
        ensures { IsTrue result ↔ IsAllowed family self }
    {
        match family {
            Family::Nist => self.iterations >= 1,
            Family::Sodium => self.is_allowed_by_argon2(),
        }
    }

    // Whether Argon2id allows the cost.
    fn is_allowed_by_argon2(self) -> bool
        ensures { IsTrue result ↔ IsAllowed Sodium self }
    {
        let kib = self.memory / 1024;
        self.lanes >= 1
            && self.lanes < TOO_MANY_LANES
            && self.passes >= 1
            && self.memory % 1024 == 0
            && 8 * self.lanes as u64 <= kib
            && kib < TOO_MUCH_MEMORY
    }

    /// Whether the cost is within a bound.
    pub(crate) fn is_within(self, family: Family, most: PasswordCost) -> bool
        ensures { IsTrue result ↔ IsWithin family most self }
    {
        match family {
            Family::Nist => self.iterations <= most.iterations,
            Family::Sodium => {
                self.memory <= most.memory && self.passes <= most.passes && self.lanes <= most.lanes
            }
        }
    }

    /// Appends the encoding of the cost. It fails only with `Memory`.
    #[tactic(auto, unfolding(crate::specs::Password::cost_bytes))]
    pub(crate) fn push(self, family: Family, out: &mut Vec<u8>) -> Result<(), WrapError>
        ensures ok { OnOk result (out.new.items ≡ out.old.items ++ cost_bytes family self) }
        ensures err { IfErr result IsMemory }
    {
        match family {
            Family::Nist => out.extend_from_slice(&self.iterations.to_be_bytes())?,
            Family::Sodium => self.push_memory(out)?,
        }
        Ok(())
    }

    // Appends the memory, the passes and the lanes.
    #[tactic(auto, unfolding(crate::specs::Password::cost_bytes))]
    fn push_memory(self, out: &mut Vec<u8>) -> Result<(), WrapError>
        ensures ok { OnOk result (out.new.items ≡ out.old.items ++ cost_bytes Sodium self) }
        ensures err { IfErr result IsMemory }
    {
        out.extend_from_slice(&self.memory.to_be_bytes())?;
        out.extend_from_slice(&self.passes.to_be_bytes())?;
        out.extend_from_slice(&self.lanes.to_be_bytes())?;
        Ok(())
    }

    /// Decodes a cost. What the versions of the family do not use is 0.
    pub(crate) fn read(family: Family, bytes: &[u8]) -> PasswordCost
        requires { length bytes.now ≡ cost_length family }
        ensures told { cost_bytes family result ≡ bytes.now }
        ensures alone { (cost : Cost) → IsAllowed family cost → cost_bytes family cost ≡ bytes.now
            → AreAlike family result cost }
    {
        match family {
            Family::Nist => PasswordCost::read_iterations(bytes),
            Family::Sodium => PasswordCost::read_memory(bytes),
        }
    }

    // The iterations that stand in a text.
    #[tactic(auto, unfolding(crate::specs::Password::cost_bytes))]
    fn read_iterations(bytes: &[u8]) -> PasswordCost
        requires { length bytes.now ≡ 4 }
        ensures told { cost_bytes Nist result ≡ bytes.now }
        ensures alone { (cost : Cost) → IsAllowed Nist cost → cost_bytes Nist cost ≡ bytes.now
            → AreAlike Nist result cost }
    {
        PasswordCost {
            iterations: u32::from_be_bytes(array_of(bytes)),
            memory: 0,
            passes: 0,
            lanes: 0,
        }
    }

    // The memory, the passes and the lanes that stand in a text.
    #[tactic(auto, unfolding(crate::specs::Password::cost_bytes))]
    fn read_memory(bytes: &[u8]) -> PasswordCost
        requires { length bytes.now ≡ 16 }
        ensures told { cost_bytes Sodium result ≡ bytes.now }
        ensures alone { (cost : Cost) → IsAllowed Sodium cost → cost_bytes Sodium cost ≡ bytes.now
            → AreAlike Sodium result cost }
    {
        let (memory, rest) = bytes.split_at(8);
        let (passes, lanes) = rest.split_at(4);
        PasswordCost {
            iterations: 0,
            memory: u64::from_be_bytes(array_of(memory)),
            passes: u32::from_be_bytes(array_of(passes)),
            lanes: u32::from_be_bytes(array_of(lanes)),
        }
    }
}
