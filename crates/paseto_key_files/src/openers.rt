//! The password or key that opens a key file.

/// The password and the key that open a key file that is password-protected, wrapped or sealed. Whatever the file does
/// not need is ignored.
#[derive(Clone, Copy)]
pub struct Openers<'a> {
    /// The password, in bytes.
    pub password: Option<&'a [u8]>,
    /// The line of the key that opens the file: the wrapping key, which is a key for local tokens, or the private key
    /// to whose public key a key was sealed. It has the same version as the key in the file. The line has no newline.
    pub key: Option<&'a str>,
}
