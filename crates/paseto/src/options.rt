//! The options for a token, of the arguments.

ghost use Rattle.std.specs.Prelude.{◌≡◌, ℕ, IfErr, IfOk, option_map};
ghost use Rattle.rusty_paseto_parts.specs.Footer.{footer_text};
ghost use Rattle.rusty_paseto_parts.specs.ImplicitAssertion.{assertion_text};
ghost use Rattle.paseto_words.specs.Action.{footing, text};
ghost use Rattle.paseto.specs.Options.{IsLongest, check_options, issue_options, not_empty, option_texts, text_options};

use paseto_tasks::{Options, ProgramError, UsageError};
use paseto_words::{Check, Foot, Issue};
use rusty_paseto_core::{Footer, ImplicitAssertion};

/// No option.
const NONE: Options<'static> = Options {
    footer: None,
    kid: None,
    assertion: None,
    expires: None,
    not_before: None,
    at: None,
    leeway: None,
    required: &[],
};

/// The number of bytes that an input may have, if the arguments do not say it.
const LONGEST: usize = 64_000_000;

/// The number of bytes that an input may have.
pub fn longest_of(word: Option<&str>) -> Result<usize, ProgramError>
    ensures found { IfOk result (λ longest. IsLongest (text word.entry) longest) }
    ensures none { IfErr result (λ error. (error ≡ ProgramError.Usage UsageError.Longest)
        × ((longest : ℕ) → ¬ IsLongest (text word.entry) longest)) }
{
    let Some(word) = word else {
        return Ok(LONGEST);
    };
    match word.parse::<usize>() {
        Ok(longest) => Ok(longest),
        Err(_) => Err(ProgramError::Usage(UsageError::Longest)),
    }
}

/// The options for the token of a text: its footer and its implicit assertion.
pub fn text_options<'a>(footer: Option<&'a str>, assertion: Option<&'a str>) -> Options<'a>
    ensures { option_texts result ≡ text_options (text footer.entry) (text assertion.entry) }
{
    Options {
        footer: footer.map(Footer::from),
        assertion: given(assertion),
        ..NONE
    }
}

/// The options of the command `issue`.
pub fn issue_options<'a>(words: &Issue<'a>) -> Options<'a>
    ensures { option_texts result ≡ issue_options words.now }
{
    let (footer, kid) = parts(words.foot);
    Options {
        footer,
        kid,
        assertion: given(words.assertion),
        expires: words.expires,
        not_before: words.not_before,
        ..NONE
    }
}

/// The options of the command `check`.
pub fn check_options<'w>(words: &'w Check<'_>) -> Options<'w>
    ensures { option_texts result ≡ check_options words.now }
{
    let (footer, kid) = parts(words.foot);
    Options {
        footer,
        kid,
        assertion: given(words.assertion),
        at: words.at,
        leeway: words.leeway,
        required: &words.required,
        ..NONE
    }
}

/// The footer, or the id of a key that the footer names.
fn parts(foot: Foot<'_>) -> (Option<Footer<'_>>, Option<&str>)
    ensures footer { option_map footer_text result.0 ≡ (footing foot.entry).0 }
    ensures kid { text result.1 ≡ (footing foot.entry).1 }
{
    match foot {
        Foot::Unsaid => (None, None),
        Foot::Text(text) => (Some(Footer::from(text)), None),
        Foot::Kid(id) => (None, Some(id)),
    }
}

/// The implicit assertion, unless it is empty: the empty one is that of a token without one.
fn given(assertion: Option<&str>) -> Option<ImplicitAssertion<'_>>
    ensures { option_map assertion_text result ≡ not_empty (text assertion.entry) }
{
    match assertion {
        None | Some("") => None,
        Some(text) => Some(ImplicitAssertion::from(text)),
    }
}
