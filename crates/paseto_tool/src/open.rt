//! The command `open`.

ghost use Rattle.std.specs.Prelude.{◌≡◌, ◌≢◌, IfOk, IfErr, IsErr, Err, MatchResult, IfSome, string_bytes};
ghost use Rattle.paseto_tool.specs.Version.{IsBound, design_of};
ghost use Rattle.paseto_tool.specs.Arguments.{IsDigits, Says, given_footer, given_assertion};
ghost use Rattle.paseto_tool.specs.Open.{OpensTo, IsOpeningReason, token_of};

use crate::arguments::Attachments;
use crate::error::ToolError;
use crate::local_tokens::open;
use crate::version::Version;
use paseto_streams::read_whole;
use rusty_paseto::paseto_core::{Key, Local, LocalVersion, PasetoSymmetricKey, V1, V3, V4};
use std::alloc::Global;
use std::io::Read;
use std::str;

/// `open VERSION KEY [FOOTER [ASSERTION]]`
#[derive(Clone, Copy)]
pub struct Opening<'a> {
    pub version: Version,
    pub key: &'a str,
    pub attachments: Attachments<'a>,
}

impl Opening<'_> {
    /// Opens the input and returns its text.
    ///
    /// KEY is read before the input. The input is the token, with or without a line feed after it.
    pub fn text<R: Read>(&self, alloc: Global, input: &mut R) -> Result<String, ToolError>
        requires { IsBound (design_of self.now.version) (given_assertion self.now.attachments) }
        ensures printed { IfOk result (λ text. IfSome (R.remaining input.old) (λ token.
            OpensTo (design_of self.now.version) self.now.key.now
            (given_footer self.now.attachments) (given_assertion self.now.attachments) token
            (string_bytes text))) }
        ensures refused { IfErr result (λ error. IfSome (R.remaining input.old) (λ token.
            IsOpeningReason (design_of self.now.version) self.now.key.now
            (given_footer self.now.attachments) (given_assertion self.now.attachments) token
            error)) }
        ensures asked { result ≢ Err ToolError.Usage }
        ensures unread { (¬ IsDigits self.now.key.now) → IsErr result × (input.new ≡ input.old) }
    {
        let key = Key::<32>::try_from(self.key)?;
        let token = read_whole(alloc, input)?;
        match self.version {
            Version::V1 => self.text_of::<V1>(alloc, key, &token),
            Version::V3 => self.text_of::<V3>(alloc, key, &token),
            Version::V4 => self.text_of::<V4>(alloc, key, &token),
        }
    }

    /// The text of a token that was read.
    fn text_of<V: LocalVersion>(
        &self,
        alloc: Global,
        key: Key<32>,
        input: &[u8],
    ) -> Result<String, ToolError>
        requires { IsBound V.design (given_assertion self.now.attachments) }
        ensures printed { Says self.now.key.now key
            → MatchResult result (λ text. OpensTo V.design self.now.key.now
            (given_footer self.now.attachments) (given_assertion self.now.attachments) input.now
            (string_bytes text))
            (λ error. IsOpeningReason V.design self.now.key.now (given_footer self.now.attachments)
            (given_assertion self.now.attachments) input.now error) }
    {
        let token = str::from_utf8(without_line_feed(input))?;
        let key = PasetoSymmetricKey::<V, Local>::from(key);
        let text = open(alloc, token, &key, self.attachments)?;
        Ok(text)
    }
}

/// The bytes without the line feed at their end, if there is one.
fn without_line_feed(bytes: &[u8]) -> &[u8]
    ensures { result.now ≡ token_of bytes.now }
{
    bytes.strip_suffix(b"\n").unwrap_or(bytes)
}
