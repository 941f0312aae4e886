//! The footer that the arguments give.

ghost use Rattle.std.specs.Prelude.{◌≡◌, IfErr, IfOk, MatchBool, option_map, string_bytes};
ghost use Rattle.rusty_paseto_parts.specs.Footer.{footer_text};
ghost use Rattle.paseto_tasks.specs.Error.{IsOfWords, Lacks};
ghost use Rattle.paseto.specs.Footers.{IsFooter, IsPrivateId};

use paseto_tasks::{Options, ProgramError, UsageError};
use rusty_paseto::key_footer;
use rusty_paseto_core::Footer;
use std::alloc::Global;

/// The text of the footer that `--footer` or `--footer-kid` gives. For `--footer-kid` it is a JSON
/// object with the id under `kid`, by which a key ring finds the key.
pub fn footer_of(alloc: Global, options: &Options<'_>) -> Result<Option<String>, ProgramError>
    ensures footer { IfOk result (λ footer. IsFooter options.now
        (option_map string_bytes footer)) }
    ensures none { IfErr result (Lacks (IsFooter options.now)) }
    ensures of_words { IfErr result IsOfWords }
{
    if let Some(id) = options.kid {
        if is_private_id(id) {
            return Err(ProgramError::Usage(UsageError::PrivateId));
        }
        return Ok(Some(key_footer(alloc, id)?));
    }
    match options.footer {
        Some(footer) => Ok(Some(String::from_str(alloc, footer.as_str())?)),
        None => Ok(None),
    }
}

/// Whether a text is the id of a private key, by which no reader finds its public key.
fn is_private_id(id: &str) -> bool
    ensures { MatchBool result (IsPrivateId id.now) (¬ IsPrivateId id.now) }
{
    if id.starts_with("k1.sid.") {
        true
    } else if id.starts_with("k2.sid.") {
        true
    } else if id.starts_with("k3.sid.") {
        true
    } else {
        id.starts_with("k4.sid.")
    }
}

/// A text as a footer, if there is one.
pub fn lent(text: &Option<String>) -> Option<Footer<'_>>
    ensures { option_map footer_text result ≡ option_map string_bytes text.now }
{
    match text {
        Some(text) => Some(Footer::from(text.as_str())),
        None => None,
    }
}
