//! The versions whose local tokens the program seals and opens.

ghost use Rattle.std.specs.Prelude.{◌≡◌, ◌≢◌, IfSome, IsNone};
ghost use Rattle.paseto_tool.specs.Version.{design_of, version_word};

/// The version that the argument VERSION names.
#[derive(Clone, Copy)]
pub enum Version {
    V1,
    V3,
    V4,
}

impl Version {
    /// Parses a version, or returns `None` if the argument names none.
    pub fn parse(word: &str) -> Option<Version>
        ensures named { IfSome result (λ version. word.now ≡ version_word version) }
        ensures other { IsNone result → (version : Version) → word.now ≢ version_word version }
    {
        match word {
            "v1" => Some(Version::V1),
            "v3" => Some(Version::V3),
            "v4" => Some(Version::V4),
            _ => None,
        }
    }

    /// Whether tokens of the version are bound to an implicit assertion.
    pub fn binds_assertion(self) -> bool
        ensures { result ≡ (design_of self).binds_assertion }
    {
        match self {
            Version::V1 => false,
            Version::V3 | Version::V4 => true,
        }
    }
}
