//! The header of a token.

ghost use Rattle.std.specs.Prelude.{◌≡◌, Some};
ghost use Rattle.rusty_paseto_parts.specs.Header.{chosen, header_text};

use crate::purpose::PurposeTrait;
use crate::version::VersionTrait;
use std::fmt;
use std::marker::PhantomData;

/// The header of the tokens of a version and a purpose, for example `v4.local.`.
///
/// The versions `v1` to `v4` with the purposes `local` and `public` have one. For any other pair of texts the header is
/// empty.
///
/// Source: PASETO specification, "PASETO Message Format".
#[derive_where(Clone, Copy, Debug, Default)]
pub struct Header<V, P> {
    version: PhantomData<V>,
    purpose: PhantomData<P>,
}

impl<V: VersionTrait, P: PurposeTrait> Header<V, P> {
    /// The header's text.
    pub fn as_str(&self) -> &str
        ensures { result.now ≡ header_text V.text P.text }
    {
        let version = V::default();
        let purpose = P::default();
        header_of(version.as_str(), purpose.as_str())
    }

    /// The bytes of the header's text.
    pub fn as_bytes(&self) -> &[u8]
        ensures { result.now ≡ header_text V.text P.text }
    {
        self.as_str().as_bytes()
    }
}

impl<V: VersionTrait, P: PurposeTrait> fmt::Display for Header<V, P> {
    ghost output = { λ _. Some (header_text V.text P.text) };

    fn fmt<W: fmt::Write>(&self, f: &mut fmt::Formatter<W>) -> fmt::Result {
        f.write_str(self.as_str())
    }
}

fn header_of(version: &str, purpose: &str) -> &'static str
    ensures { result.now ≡ header_text version.now purpose.now }
{
    if version == "v1" {
        by_purpose(purpose, "v1.local.", "v1.public.")
    } else if version == "v2" {
        by_purpose(purpose, "v2.local.", "v2.public.")
    } else if version == "v3" {
        by_purpose(purpose, "v3.local.", "v3.public.")
    } else if version == "v4" {
        by_purpose(purpose, "v4.local.", "v4.public.")
    } else {
        ""
    }
}

fn by_purpose(purpose: &str, local: &'static str, public: &'static str) -> &'static str
    ensures { result.now ≡ chosen purpose.now local.now public.now }
{
    if purpose == "local" {
        local
    } else if purpose == "public" {
        public
    } else {
        ""
    }
}
