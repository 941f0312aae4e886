//! Failures of the system.

ghost use Rattle.std.specs.Prelude.{◌≡◌};
ghost use Rattle.paseto_tasks.specs.Error.System.{system_text};

use std::alloc::AllocError;

/// What the system did not do.
#[derive(Debug, Drop)]
pub enum SystemError {
    /// The system's clock returns no moment at which a token can be issued.
    Clock,
    /// The system returned no random bytes.
    Random,
    /// A read or a write failed, or a write accepted no bytes.
    InputOrOutput,
    /// An allocation failed.
    Memory(AllocError),
}

impl SystemError {
    /// The message on standard error.
    pub(crate) fn text(&self) -> &'static str
        ensures { result.now ≡ system_text self.now }
    {
        match self {
            SystemError::Clock => "the system clock is not within the years 0 to 9999",
            SystemError::Random => "the system returned no random bytes",
            SystemError::InputOrOutput => "a read or a write failed",
            SystemError::Memory(_) => "out of memory",
        }
    }
}
