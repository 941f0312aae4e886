//! Why a token is not parsed, and the error message for it.

ghost use Rattle.std.specs.Prelude.{◌≡◌, IfOk, string_bytes};
ghost use Rattle.paseto_calls.specs.Fault.{refusal_of};
ghost use Rattle.paseto_calls.specs.Parse.{line_of};
ghost use Rattle.paseto_calls.specs.Refusal.{file_refusal, key_refusal, paserk_refusal, token_refusal};
ghost use Rattle.paseto_calls.specs.declared.fault.Fault.TheVariants.{Refused};
ghost use Rattle.paseto_calls.specs.declared.refusal.Refusal.TheVariants.{Memory};

use crate::refusal::Refusal;
use paseto_key_files::KeyFileError;
use paseto_keys::KeyError;
use rusty_paseto_core::PasetoError;
use rusty_paseto_generic::GenericParserError;
use rusty_paseto_paserk::PaserkError;
use std::alloc::{AllocError, Global};

/// Why a call that parses a token returns no text.
#[derive(Drop)]
pub enum Fault {
    /// The arguments are refused, or an allocation failed.
    Refused(Refusal),
    /// The parser refuses the token.
    Unparsed(GenericParserError),
}

impl Fault {
    /// The refusal for it.
    pub fn refusal(&self) -> Refusal
        ensures { result ≡ refusal_of self.now }
    {
        match self {
            Fault::Refused(refusal) => *refusal,
            Fault::Unparsed(error) => Refusal::of_parser(error),
        }
    }
}

impl From<Refusal> for Fault {
    ghost from_gives = { λ refusal fault. fault ≡ Refused refusal };

    fn from(refusal: Refusal) -> Fault {
        Fault::Refused(refusal)
    }
}

impl From<AllocError> for Fault {
    ghost from_gives = { λ error fault. fault ≡ Refused Memory };

    fn from(_error: AllocError) -> Fault {
        Fault::Refused(Refusal::Memory)
    }
}

impl From<KeyError> for Fault {
    ghost from_gives = { λ error fault. fault ≡ Refused (key_refusal error) };

    fn from(error: KeyError) -> Fault {
        Fault::Refused(Refusal::of_key(&error))
    }
}

impl From<KeyFileError> for Fault {
    ghost from_gives = { λ error fault. fault ≡ Refused (file_refusal error) };

    fn from(error: KeyFileError) -> Fault {
        Fault::Refused(Refusal::of_file(&error))
    }
}

impl From<PaserkError> for Fault {
    ghost from_gives = { λ error fault. fault ≡ Refused (paserk_refusal error) };

    fn from(error: PaserkError) -> Fault {
        Fault::Refused(Refusal::of_paserk(&error))
    }
}

impl From<PasetoError> for Fault {
    ghost from_gives = { λ error fault. fault ≡ Refused (token_refusal error) };

    fn from(error: PasetoError) -> Fault {
        Fault::Refused(Refusal::of_token(&error))
    }
}

/// The line that tells an error of a parser, with its cause.
pub(crate) fn line_of(alloc: Global, error: &GenericParserError) -> Result<String, AllocError>
    ensures { IfOk result (λ line. string_bytes line ≡ line_of error.now) }
{
    error.explained().to_string(alloc)
}
