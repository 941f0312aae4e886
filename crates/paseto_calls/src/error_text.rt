//! The texts of the statuses.

ghost use Rattle.std.specs.Prelude.{◌≡◌};
ghost use Rattle.paseto_calls.specs.ErrorText.{argument_text, claim_text, key_text, later_text, status_text, token_text};

/// The text of a status.
pub fn text_of(status: u8) -> &'static str
    ensures { result.now ≡ status_text status }
{
    if status < 8 {
        return argument_text(status);
    }
    if status < 19 {
        return token_text(status);
    }
    if status < 28 {
        return claim_text(status);
    }
    if status < 40 {
        return later_text(status);
    }
    key_text(status)
}

/// The text of a status that says nothing of a token.
fn argument_text(status: u8) -> &'static str
    ensures { result.now ≡ argument_text status }
{
    match status {
        0 => "No error occurred",
        1 => "The room is too short",
        2 => "No memory was found",
        3 => "Key was not in the correct format",
        4 => "The nonce or the seed has another length",
        5 => "A Utf8 parsing error occurred",
        6 => "The claims are not a JSON object",
        _ => "The moment is out of range",
    }
}

/// The text of a status of a token or of a private key.
fn token_text(status: u8) -> &'static str
    ensures { result.now ≡ token_text status }
{
    match status {
        8 => "This string has an incorrect number of parts and cannot be parsed into a token",
        9 => "The provided footer is invalid",
        10 => "The token header is invalid",
        11 => "A base64 decode error occurred",
        12 => "An unspecified cryption error occured",
        13 => "An unspecified cipher error occurred",
        14 => "The token signature could not be verified",
        15 | 16 => "A Utf8 parsing error occurred",
        17 => "A private RSA key was not in the correct format",
        _ => "Could not assemble final signature.",
    }
}

/// The text of a status of claims.
fn claim_text(status: u8) -> &'static str
    ensures { result.now ≡ claim_text status }
{
    match status {
        19 => "The payload was unable to be serialized into json",
        20 => "This token is expired",
        21 => "The token cannot be used yet",
        22 => "A value is a malformed RFC3339 date",
        23 => "An expected claim was not found in the payload",
        24 => "Could not convert a claim to the expected data type",
        25 => "A claim failed validation",
        26 => "A claim appears more than once in the top level payload json",
        _ => "An unknown error occurred",
    }
}

/// The text of a status that came later than these.
fn later_text(status: u8) -> &'static str
    ensures { result.now ≡ later_text status }
{
    match status {
        28 => "An unspecified cipher error occurred",
        29 => "The token or its footer is longer than allowed",
        30 => "The names of claims are not a JSON array of texts",
        31 => "The text is no PASERK key",
        32 => "The key is one of another version",
        33 => "The key is one of another type",
        34 => "The text is no PEM",
        35 => "The key is encrypted",
        36 => "The text is another thing than such a key",
        37 => "The key is one of another algorithm",
        38 => "The key is one of another curve",
        39 => "The key has another size",
        _ => "An unknown error occurred",
    }
}

/// The text of a status of keys, options and footers.
fn key_text(status: u8) -> &'static str
    ensures { result.now ≡ key_text status }
{
    match status {
        40 => "Keys of versions 1 and 2 take no implicit assertion",
        41 => "The key is under a password",
        42 => "The key is wrapped or sealed",
        43 => "The password or the key is a wrong one, or the text was modified",
        44 => "The password asks for more work than is allowed",
        45 => "The options have another size",
        46 => "The token has no footer",
        47 => "The footer is not a JSON object",
        48 => "The footer names no key",
        49 => "No key has the id that the footer names",
        50 => "The system returned no random bytes",
        _ => "An unknown error occurred",
    }
}
