//! Why a command failed.

ghost use Rattle.std.specs.Prelude.{◌≡◌, []};

use paseto_tasks::{Names, ProgramError};

/// Why a command failed, and the file or the argument that this is about.
#[derive(Drop)]
pub struct Fault<'a> {
    about: &'a str,
    error: ProgramError,
}

impl<'a> Fault<'a> {
    /// An error about a file or an argument.
    pub fn about(about: &'a str, error: ProgramError) -> Fault<'a>
        ensures name { result.about.now ≡ about.now }
        ensures error { result.error ≡ error }
    {
        Fault { about, error }
    }

    /// The error, whatever it is about.
    pub fn into_error(self) -> ProgramError
        ensures { result ≡ self.entry.error }
    {
        self.error
    }

    /// Reports the error on standard error, and returns the status.
    pub fn report(&self, rt: &HostRuntime) -> u8 {
        let names = Names {
            key: self.about,
            input: self.about,
        };
        self.error.say(&names, &mut rt.stderr());
        self.error.status()
    }
}

impl<'a> From<ProgramError> for Fault<'a> {
    ghost from_gives = { λ source fault. (fault.about.now ≡ []) × (fault.error ≡ source) };

    fn from(error: ProgramError) -> Fault<'a> {
        Fault::about("", error)
    }
}
