//! The command `inspect`.

ghost use Rattle.std.specs.Prelude.{IfOk, IfErr, string_bytes};
ghost use Rattle.paseto_tool.specs.Inspect.{Inspects, IsInspectionReason};

use crate::error::ToolError;
use rusty_paseto::paseto_core::UntrustedToken;
use std::alloc::Global;

/// `inspect TOKEN`
#[derive(Clone, Copy)]
pub struct Inspection<'a> {
    pub token: &'a str,
}

impl Inspection<'_> {
    /// Returns the lines that describe the token. Its content is not verified and must not be trusted.
    ///
    /// The lines are complete before they are returned, so a footer that can't be read leaves none.
    pub fn lines(&self, alloc: Global) -> Result<String, ToolError>
        ensures printed { IfOk result (λ lines. Inspects self.now.token.now (string_bytes lines)) }
        ensures refused { IfErr result (IsInspectionReason self.now.token.now) }
    {
        let untrusted = UntrustedToken::try_parse(self.token)?;
        let (version, purpose) = (untrusted.version(), untrusted.purpose());
        let Some(text) = untrusted.footer_str(alloc)? else {
            return Ok(format!(in alloc; "version: {version}\npurpose: {purpose}\nfooter: none\n")?);
        };
        // There is a section where there is a text.
        let section = untrusted.footer_base64().unwrap_or("");
        Ok(format!(in alloc;
            "version: {version}\npurpose: {purpose}\nfooter: {section}\nfooter text: {text}\n"
        )?)
    }
}
