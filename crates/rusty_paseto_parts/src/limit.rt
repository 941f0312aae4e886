//! How many bytes a token and its footer may have.

ghost use Rattle.std.specs.Prelude.{◌≡◌, length};
ghost use Rattle.rusty_paseto_parts.specs.Limit.{has_long_footer, is_beyond, spelled as spelled_bytes};
ghost use Rattle.rusty_paseto_parts.specs.Section.{sections};

use crate::section::split_token;

/// Whether a text has more bytes than a limit, if there is one. Parsers and key rings check this before they read a
/// token. Does not allocate.
pub fn is_longer(text: &str, longest: Option<usize>) -> bool
    ensures { result ≡ is_beyond longest (length text.now) }
{
    match longest {
        Some(longest) => text.len() > longest,
        None => false,
    }
}

/// Whether a token's footer has more bytes than a limit, if there is one, by the length of its section, without
/// decoding it. `false` for a token that does not have four sections. Does not allocate.
pub fn has_longer_footer(token: &str, longest: Option<usize>) -> bool
    ensures { result ≡ has_long_footer longest (sections token.now) }
{
    let Some(longest) = longest else {
        return false;
    };
    let Some(parts) = split_token(token) else {
        return false;
    };
    match parts.1 {
        Some(section) => spelled(section.len()) > longest,
        None => false,
    }
}

// How many bytes a section of so many characters spells.
fn spelled(characters: usize) -> usize
    ensures { result ≡ spelled_bytes characters }
{
    characters / 4 * 3 + characters % 4 * 3 / 4
}
