//! Keys, passwords and other files that cannot be used.

ghost use Rattle.std.specs.Prelude.{◌≡◌};
ghost use Rattle.paseto_tasks.specs.Error.File.{file_status, file_text, pem_text};

use paseto_key_files::KeyFileError;
use paseto_pem::{Curve, Label, PemError};
use rusty_paseto_paserk::PaserkError;

/// Why a key, a password or another named file cannot be used.
#[derive(Debug, Drop)]
pub enum FileError {
    /// The text of the key file was refused.
    Key(PaserkError),
    /// The key file was not opened, or a key was not written to one.
    KeyFile(KeyFileError),
    /// The text of the key file is empty.
    EmptyKey,
    /// The key is to be unwrapped, but is bare.
    NotWrapped,
    /// The key is to be unsealed, but is not sealed.
    NotSealed,
    /// A folder has no private key.
    NoSigner,
    /// The key file has a second line, and is not PEM.
    SecondLine,
    /// The key file is longer than the program's limit.
    TooLong,
    /// The two halves of the private key do not belong together.
    OtherHalves,
    /// The key is not a private key of its kind.
    NotPrivate,
    /// Keys of this version take no implicit assertion.
    NoAssertion,
    /// The named password is not a password.
    OddPassword,
    /// A named file does not exist.
    NoFile,
    /// The system does not permit that a named file is opened or created.
    NoPermission,
    /// A folder is named in place of a file.
    IsFolder,
    /// A file is named in place of a folder, or as one that holds the named file.
    NotFolder,
    /// A named file cannot be opened or created for another reason.
    NoAccess,
    /// A file to be created already exists.
    FileExists,
    /// A new file was not written whole.
    Unwritten,
    /// A new file cannot be given its name, by a hard link.
    NoLink,
    /// An unfinished file cannot be removed.
    FileLeft,
}

impl FileError {
    /// The message on standard error, which follows the name of the file.
    pub(crate) fn text(&self) -> &'static str
        ensures { result.now ≡ file_text self.now }
    {
        use FileError::*;
        match self {
            Key(source) => source.text(),
            KeyFile(KeyFileError::Pem(source)) => pem_text(source),
            KeyFile(KeyFileError::NeedsPassword) =>
                "the key is under a password: use --password-file FILE, or\n  read -rs PASETO_PASSWORD\n  export PASETO_PASSWORD",
            KeyFile(source) => source.text(),
            EmptyKey => "it is empty, and holds no key",
            NotWrapped => "the key is bare: it is under no password, not wrapped and not sealed",
            NotSealed => "the key is not sealed: use paseto unwrap",
            NoSigner => "no private key is in this folder",
            SecondLine => "line 2: a key file has one line of PASERK, or is PEM",
            TooLong => "too long for a key file",
            OtherHalves => "the two halves of the private key do not belong together",
            NotPrivate => "not a valid private key of its kind",
            NoAssertion => "keys of versions 1 and 2 take no implicit assertion: omit --assertion",
            OddPassword => "not a password: it must have 1 to 4095 bytes",
            NoFile => "no such file",
            NoPermission => "permission denied",
            IsFolder => "is a folder, and not a file",
            NotFolder => "not a folder, or not in one",
            NoAccess => "the file cannot be opened or created",
            FileExists => "the file already exists and is not overwritten",
            Unwritten => "the file could not be written: is the disk full?",
            NoLink => "the folder has no hard links for a new file: use standard output",
            FileLeft => "this unfinished file could not be removed",
        }
    }

    /// The exit status: that of the system if memory, random bytes or a write failed behind the error.
    pub(crate) fn status(&self) -> u8
        ensures { result ≡ file_status self.now }
    {
        match self {
            FileError::Key(PaserkError::Memory(_))
            | FileError::KeyFile(KeyFileError::Random | KeyFileError::Memory(_))
            | FileError::Unwritten => 4,
            _ => 3,
        }
    }
}

/// The message for a key that was refused as PEM: the text of the error, unless that leaves open
/// what to do.
fn pem_text(source: &PemError) -> &'static str
    ensures { result.now ≡ pem_text source.now }
{
    match source {
        PemError::NotPem => "neither PASERK nor valid PEM",
        PemError::TwoKeys => "more than one key: a key file has one",
        PemError::Encrypted | PemError::OtherLabel(Label::EncryptedPrivateKey) =>
            "encrypted PEM: remove its password by openssl pkey -in FILE -out NEW",
        PemError::OtherLabel(Label::OpenSshPrivateKey) =>
            "a key of OpenSSH: make another by paseto keygen or openssl genpkey",
        PemError::OtherAlgorithm(_) => "a key of another algorithm than RSA, P-384 and Ed25519",
        PemError::OtherCurve(Curve::P256) => "a key of P-256: version 3 takes P-384",
        PemError::OtherCurve(Curve::P521) => "a key of P-521: version 3 takes P-384",
        PemError::OtherCurve(Curve::Explicit) =>
            "a curve without a name: name it by openssl ec -param_enc named_curve -in FILE -out NEW",
        PemError::OtherCurve(_) => "a key of another curve: version 3 takes P-384",
        PemError::OtherSize(_) => "an RSA key of another size: version 1 takes 2048 bits",
        _ => source.text(),
    }
}
