//! Laws about the definitions that the contracts of this crate use. A call of one does nothing.

ghost use Rattle.std.specs.Prelude.{◌≡◌, ◌↔◌, ◌<◌, ◌^◌, ℕ, List, length, map, All};
ghost use Rattle.rusty_paseto_parts.specs.Limit.{spelled};
ghost use Rattle.rusty_paseto_parts.specs.PreAuthenticationEncoding.{pae};
ghost use Rattle.rusty_paseto_parts.specs.Section.{AreSections, sections, base64url};

/// Two lists of pieces have the same pre-authentication encoding if and only if they are equal.
pub fn equal_encodings(first: &[&[u8]], second: &[&[u8]])
    ensures { let a = map (λ piece. piece.now) first.now in let b = map
        (λ piece. piece.now) second.now in
        (pae a ≡ pae b) ↔ (a ≡ b) }
{
    lengths_fit(first);
    lengths_fit(second);
}

// Each piece has a length that a `usize` holds, and so have the pieces.
fn lengths_fit(pieces: &[&[u8]])
    ensures count { length (map (λ piece. piece.now) pieces.now) < 2 ^ 64 }
    ensures each { All (λ piece. length piece < 2 ^ 64) (map (λ piece. piece.now) pieces.now) }
{
    'pieces: for piece in pieces {
        length_fits(*piece);
    }
}

fn length_fits(piece: &[u8])
    ensures { length piece.now < 2 ^ 64 }
{}

/// Two lists of bytes have the same base64url encoding if and only if they are equal.
pub fn equal_base64url(first: &[u8], second: &[u8])
    ensures { (base64url first.now ≡ base64url second.now) ↔ (first.now ≡ second.now) }
{}

/// The sections of a text are the only list of at least one part in which no part contains a dot and which, joined by
/// dots, is the text.
pub fn unique_sections(text: &str)
    ensures { (parts : List (List ℕ)) → (parts ≡ sections text.now) ↔ AreSections text.now parts }
{}

/// A limit on a footer counts its bytes: the length of a section determines how many bytes it encodes.
pub fn spelled_lengths(bytes: &[u8])
    ensures { spelled (length (base64url bytes.now)) ≡ length bytes.now }
{}
