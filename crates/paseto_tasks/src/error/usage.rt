//! Arguments that do not say what to do.

ghost use Rattle.std.specs.Prelude.{◌≡◌};
ghost use Rattle.paseto_tasks.specs.Error.Usage.{negative_text, time_text, too_long_text, usage_text};

/// Why the arguments do not say what to do.
#[derive(Clone, Copy, Debug, Drop, PartialEq, Eq)]
pub enum UsageError {
    /// An argument is not text.
    NotText,
    /// An argument is a key.
    KeyWord,
    /// An argument does not name a kind of key.
    NoKind,
    /// Keys of the named kind have no public half.
    NoHalf,
    /// An argument does not name a format of keys.
    NoFormat,
    /// A key is to be written both under a password and in PEM.
    LockedPem,
    /// A key and its public half are to be written to one file.
    SameFile,
    /// No key is named.
    NoKey,
    /// No password is named.
    NoPassword,
    /// Standard input is to be two of the keys, the password and the input.
    OneInput,
    /// The footer is given, and a ring from which the key is taken that it names.
    RingFooter,
    /// The value of `--longest` is not a number of bytes.
    Longest,
    /// A claim in the arguments is not a claim.
    Claim,
    /// A claim in the arguments is one of the three that are times.
    TimeClaim,
    /// The value of an option is not a time.
    Time(TimeOption),
    /// The value of an option is a negative length of time.
    Negative(TimeOption),
    /// The value of an option is too long a length of time.
    TooLong(TimeOption),
    /// An argument is the id of a private key, where the id of a public one is expected.
    PrivateId,
    /// An argument that names a file is a token.
    TokenWord,
}

/// An option whose value is a time.
#[derive(Clone, Copy, Debug, PartialEq, Eq)]
pub enum TimeOption {
    /// `--expires`
    Expires,
    /// `--not-before`
    NotBefore,
    /// `--at`
    At,
    /// `--leeway`
    Leeway,
}

impl UsageError {
    /// The message on standard error.
    pub(crate) fn text(&self) -> &'static str
        ensures { result.now ≡ usage_text self.now }
    {
        use UsageError::*;
        match self {
            NotText => "an argument is not valid UTF-8: see paseto --help",
            KeyWord =>
                "a key is among the arguments, where others can see it: name the file that holds it",
            NoKind =>
                "not a kind of key: use v1.local, v2.local, v2.public, v3.local, v3.public, v4.local or v4.public",
            NoHalf => "keys of this kind have no public half: omit --public",
            NoFormat => "--format: must be paserk or pem",
            LockedPem =>
                "a key under a password is not written in PEM: omit --format or the password",
            SameFile => "--out and --public name one file: name two",
            NoPassword =>
                "no password is given: use --password-file FILE, or\n  read -rs password\n  printf %s \"$password\" | paseto wrap --password-file - --key FILE",
            NoKey => "no key is given: use --key FILE, or put the text of the key into PASETO_KEY",
            OneInput =>
                "standard input is named twice: name files for the key, the password or the input",
            RingFooter => "--ring names its key in the footer: omit --footer and --footer-kid",
            Longest => "--longest: write a number of bytes, such as 100000000",
            Claim => "--claim: write a claim as aud=customers, or as seats:=4 with a value of JSON",
            TimeClaim =>
                "--claim: set exp and nbf by --expires and --not-before; iat is set already",
            Time(option) => time_text(*option),
            Negative(option) => negative_text(*option),
            TooLong(option) => too_long_text(*option),
            PrivateId =>
                "--footer-kid: the id of a private key: give that of the public one, which paseto id prints",
            TokenWord => "a token is among the arguments: pass it on standard input, or in a file",
        }
    }
}

/// The message for an option whose value is not a time.
fn time_text(option: TimeOption) -> &'static str
    ensures { result.now ≡ time_text option }
{
    match option {
        TimeOption::Expires =>
            "--expires: write a time as 90s, 30m, 12h, 7d or 2026-11-22T10:00:00Z",
        TimeOption::NotBefore =>
            "--not-before: write a time as 90s, 30m, 12h, 7d or 2026-11-22T10:00:00Z",
        TimeOption::At => "--at: write a time as 90s, 30m, 12h, 7d or 2026-11-22T10:00:00Z",
        TimeOption::Leeway => "--leeway: write a length of time as 5s, 30m, 12h or 7d",
    }
}

/// The message for an option whose value is a negative length of time.
fn negative_text(option: TimeOption) -> &'static str
    ensures { result.now ≡ negative_text option }
{
    match option {
        TimeOption::Expires => "--expires: a length of time is not negative",
        TimeOption::NotBefore => "--not-before: a length of time is not negative",
        TimeOption::At => "--at: a length of time is not negative",
        TimeOption::Leeway => "--leeway: a length of time is not negative",
    }
}

/// The message for an option whose value is too long a length of time.
fn too_long_text(option: TimeOption) -> &'static str
    ensures { result.now ≡ too_long_text option }
{
    match option {
        TimeOption::Expires => "--expires: the length of time is too large",
        TimeOption::NotBefore => "--not-before: the length of time is too large",
        TimeOption::At => "--at: the length of time is too large",
        TimeOption::Leeway => "--leeway: the length of time is too large",
    }
}
