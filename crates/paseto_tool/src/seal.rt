//! The command `seal`.

ghost use Rattle.std.specs.Prelude.{◌≡◌, ◌≢◌, ◌⊎◌, IfOk, IfErr, IsErr, Err, MatchResult, IfSome, string_bytes};
ghost use Rattle.paseto_tool.specs.Version.{IsBound, design_of};
ghost use Rattle.paseto_tool.specs.Arguments.{IsDigits, Says, given_footer, given_assertion};
ghost use Rattle.paseto_tool.specs.Seal.{Seals, IsSealingReason};

use crate::arguments::Attachments;
use crate::error::ToolError;
use crate::local_tokens::seal;
use crate::version::Version;
use paseto_streams::read_whole;
use rusty_paseto::paseto_core::{
    Key, Local, LocalVersion, PasetoNonce, PasetoSymmetricKey, V1, V3, V4,
};
use std::alloc::Global;
use std::io::Read;
use std::str;

/// `seal VERSION KEY NONCE [FOOTER [ASSERTION]]`
#[derive(Clone, Copy)]
pub struct Sealing<'a> {
    pub version: Version,
    pub key: &'a str,
    pub nonce: &'a str,
    pub attachments: Attachments<'a>,
}

impl Sealing<'_> {
    /// Returns the token of the input, and a line feed.
    ///
    /// KEY and NONCE are read before the input. The input is the text, and must be UTF-8.
    pub fn line<R: Read>(&self, alloc: Global, input: &mut R) -> Result<String, ToolError>
        requires { IsBound (design_of self.now.version) (given_assertion self.now.attachments) }
        ensures printed { IfOk result (λ line. IfSome (R.remaining input.old) (λ text.
            Seals (design_of self.now.version) self.now.key.now self.now.nonce.now
            (given_footer self.now.attachments) (given_assertion self.now.attachments) text
            (string_bytes line))) }
        ensures refused { IfErr result (λ error. IfSome (R.remaining input.old) (λ text.
            IsSealingReason self.now.key.now self.now.nonce.now text error)) }
        ensures asked { result ≢ Err ToolError.Usage }
        ensures unread { (¬ IsDigits self.now.key.now) ⊎ (¬ IsDigits self.now.nonce.now)
            → IsErr result × (input.new ≡ input.old) }
    {
        let key = Key::<32>::try_from(self.key)?;
        let nonce = Key::<32>::try_from(self.nonce)?;
        let text = read_whole(alloc, input)?;
        match self.version {
            Version::V1 => self.line_of::<V1>(alloc, key, &nonce, &text),
            Version::V3 => self.line_of::<V3>(alloc, key, &nonce, &text),
            Version::V4 => self.line_of::<V4>(alloc, key, &nonce, &text),
        }
    }

    /// The line of a text that was read.
    fn line_of<V: LocalVersion>(
        &self,
        alloc: Global,
        key: Key<32>,
        nonce: &Key<32>,
        text: &[u8],
    ) -> Result<String, ToolError>
        requires { IsBound V.design (given_assertion self.now.attachments) }
        ensures printed { Says self.now.key.now key → Says self.now.nonce.now nonce.now
            → MatchResult result (λ line. Seals V.design self.now.key.now self.now.nonce.now
            (given_footer self.now.attachments) (given_assertion self.now.attachments) text.now
            (string_bytes line))
            (λ error. IsSealingReason self.now.key.now self.now.nonce.now text.now error) }
    {
        let text = str::from_utf8(text)?;
        let key = PasetoSymmetricKey::<V, Local>::from(key);
        let mut line = seal(
            alloc,
            &key,
            &PasetoNonce::from(nonce),
            text,
            self.attachments,
        )?;
        line.push('\n')?;
        Ok(line)
    }
}
