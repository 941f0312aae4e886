//! What the arguments request, in plain texts borrowed from them.

/// What opens locked key files: `[--password-file FILE] [--unlock-key FILE]`
#[derive(Clone, Copy)]
pub struct Openers<'a> {
    /// The file of a password.
    pub password: Option<&'a str>,
    /// The file of a wrapping key, or of the private key to which a key was sealed.
    pub key: Option<&'a str>,
}

/// `[--key FILE]`, and what opens it if it is locked
#[derive(Clone, Copy)]
pub struct KeyFile<'a> {
    /// The key file.
    pub file: Option<&'a str>,
    /// What opens it.
    pub openers: Openers<'a>,
}

/// Where the keys of a token are.
#[derive(Clone, Copy)]
pub enum Keys<'a> {
    /// None is given.
    Unsaid,
    /// `--key FILE`
    File(&'a str),
    /// `--ring FOLDER`
    Ring(&'a str),
}

/// What the footer of a token is.
#[derive(Clone, Copy)]
pub enum Foot<'a> {
    /// None is given.
    Unsaid,
    /// `--footer TEXT`
    Text(&'a str),
    /// `--footer-kid ID`
    Kid(&'a str),
}

/// `keygen KIND [--password-file FILE] [--format FORMAT] [--out FILE] [--public FILE] [--quiet]`
#[derive(Clone, Copy)]
pub struct Keygen<'a> {
    /// The kind of key. It may be invalid.
    pub kind: &'a str,
    /// The file of the password that protects the key.
    pub password: Option<&'a str>,
    /// The format of the key and of its public half. It may be invalid.
    pub format: Option<&'a str>,
    /// The file of the key.
    pub out: Option<&'a str>,
    /// The file of its public half.
    pub public: Option<&'a str>,
    /// Whether to print nothing about what was made.
    pub quiet: bool,
}

/// `public`, `unwrap` or `unseal [--key FILE] [--password-file FILE] [--unlock-key FILE] [--format FORMAT] [--out FILE]`
#[derive(Clone, Copy)]
pub struct Written<'a> {
    /// The key file.
    pub key: KeyFile<'a>,
    /// The format of the key that is written. It may be invalid.
    pub format: Option<&'a str>,
    /// The file of the key that is written.
    pub out: Option<&'a str>,
}

/// `wrap [--key FILE] [--wrapping-key FILE | --password-file FILE] [--out FILE]`
#[derive(Clone, Copy)]
pub struct Wrap<'a> {
    /// The key file.
    pub key: Option<&'a str>,
    /// The wrapping key or the password.
    pub under: Under<'a>,
    /// The file of the wrapped key.
    pub out: Option<&'a str>,
}

/// What wraps a key.
#[derive(Clone, Copy)]
pub enum Under<'a> {
    /// None is given.
    Unsaid,
    /// `--wrapping-key FILE`
    Key(&'a str),
    /// `--password-file FILE`
    Password(&'a str),
}

/// `seal [--key FILE] [--password-file FILE] [--unlock-key FILE] --to FILE [--out FILE]`
#[derive(Clone, Copy)]
pub struct Seal<'a> {
    /// The key file.
    pub key: KeyFile<'a>,
    /// The file of the public key to which the key is sealed.
    pub to: &'a str,
    /// The file of the sealed key.
    pub out: Option<&'a str>,
}

/// `issue [--key FILE | --ring FOLDER] [--password-file FILE] [--unlock-key FILE] [--claim CLAIM].. [--expires TIME] [--not-before TIME]
/// [--footer TEXT | --footer-kid ID] [--assertion TEXT] [--out FILE]`
#[derive(Drop)]
pub struct Issue<'a> {
    /// The key file.
    pub key: KeyFile<'a>,
    /// The folder of key files, in place of a key file.
    pub ring: Option<&'a str>,
    /// The claims, in order.
    pub claims: Vec<&'a str>,
    /// When the token expires.
    pub expires: Option<&'a str>,
    /// When it may first be used.
    pub not_before: Option<&'a str>,
    /// Its footer.
    pub foot: Foot<'a>,
    /// Its implicit assertion.
    pub assertion: Option<&'a str>,
    /// The file of the token.
    pub out: Option<&'a str>,
}

/// `check [--key FILE | --ring FOLDER] [--password-file FILE] [--unlock-key FILE] [--claim CLAIM].. [--require NAME]..
/// [--at TIME] [--leeway TIME] [--footer TEXT | --footer-kid ID] [--assertion TEXT] [--each] [--longest BYTES] [INPUT]`
#[derive(Drop)]
pub struct Check<'a> {
    /// The key file, or the folder of key files.
    pub keys: Keys<'a>,
    /// What opens them if they are locked.
    pub openers: Openers<'a>,
    /// The claims that the token must have, in order.
    pub claims: Vec<&'a str>,
    /// The names of further claims that it must have.
    pub required: Vec<&'a str>,
    /// The moment at which the token is checked.
    pub at: Option<&'a str>,
    /// How far clocks may differ.
    pub leeway: Option<&'a str>,
    /// The token's footer.
    pub foot: Foot<'a>,
    /// Its implicit assertion.
    pub assertion: Option<&'a str>,
    /// Whether each line of the input is a token.
    pub each: bool,
    /// The number of bytes that the token may have, or each of them. It may be invalid.
    pub longest: Option<&'a str>,
    /// The file of the token, or of the tokens.
    pub input: Option<&'a str>,
}

/// `encrypt`, `decrypt`, `sign` or `verify [--key FILE] [--password-file FILE] [--unlock-key FILE]
/// [--footer TEXT] [--assertion TEXT] [--longest BYTES] [INPUT]`; `encrypt` and `sign` also take `--out FILE`, and
/// `decrypt` and `verify` `--ring FOLDER` in place of `--key FILE`
#[derive(Clone, Copy)]
pub struct Keyed<'a> {
    /// The key file.
    pub key: KeyFile<'a>,
    /// The folder of key files, in place of a key file.
    pub ring: Option<&'a str>,
    /// The token's footer.
    pub footer: Option<&'a str>,
    /// Its implicit assertion.
    pub assertion: Option<&'a str>,
    /// The number of bytes that the text or the token may have. It may be invalid.
    pub longest: Option<&'a str>,
    /// The file of the text or the token.
    pub input: Option<&'a str>,
    /// The file of the token that is made.
    pub out: Option<&'a str>,
}

/// `explain [--key FILE] [--password-file FILE] [--unlock-key FILE] --issued FILE [--footer TEXT] [--assertion TEXT]
/// [--longest BYTES] [INPUT]`
#[derive(Clone, Copy)]
pub struct Explain<'a> {
    /// The key file.
    pub key: KeyFile<'a>,
    /// The file of the tokens that were issued.
    pub issued: &'a str,
    /// The footer of the token.
    pub footer: Option<&'a str>,
    /// The implicit assertion of the token.
    pub assertion: Option<&'a str>,
    /// The number of bytes that the token and the file of issued ones may have. It may be invalid.
    pub longest: Option<&'a str>,
    /// The file of the token.
    pub input: Option<&'a str>,
}

/// `inspect [--longest BYTES] [INPUT]`
#[derive(Clone, Copy)]
pub struct Inspect<'a> {
    /// The number of bytes that the token may have. It may be invalid.
    pub longest: Option<&'a str>,
    /// The file of the token.
    pub input: Option<&'a str>,
}

/// The action to perform.
#[derive(Drop)]
pub enum Action<'a> {
    /// `keygen`
    Keygen(Keygen<'a>),
    /// `public`
    Public(Written<'a>),
    /// `id [--key FILE] [--password-file FILE] [--unlock-key FILE]`
    Id(KeyFile<'a>),
    /// `wrap`
    Wrap(Wrap<'a>),
    /// `unwrap`
    Unwrap(Written<'a>),
    /// `seal`
    Seal(Seal<'a>),
    /// `unseal`
    Unseal(Written<'a>),
    /// `issue`
    Issue(Issue<'a>),
    /// `check`
    Check(Check<'a>),
    /// `encrypt`
    Encrypt(Keyed<'a>),
    /// `decrypt`
    Decrypt(Keyed<'a>),
    /// `sign`
    Sign(Keyed<'a>),
    /// `verify`
    Verify(Keyed<'a>),
    /// `explain`
    Explain(Explain<'a>),
    /// `inspect`
    Inspect(Inspect<'a>),
}
