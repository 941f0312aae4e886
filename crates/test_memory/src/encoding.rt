//! The calls on encodings, sections and tokens that were not opened.

use crate::run::{Run, Snapshot, calls, edits, put, shown};
use anyhow::Result;
use rusty_paseto::prelude::*;
use rusty_paseto_parts::push_section;
use std::alloc::Global;

impl Snapshot for PreAuthenticationEncoding {
    fn snapshot(&self, alloc: Global) -> Result<String> {
        shown(alloc, self.as_bytes())
    }
}

/// Asks them.
pub fn ask(run: &mut Run<'_>) -> Result<()> {
    let (alloc, bytes) = (run.alloc, run.text.as_bytes());
    let pieces = [bytes, b"piece".as_slice(), &[]];
    edits!(run, "PreAuthenticationEncoding::", slot = Ok(None);
        "parse of three pieces" => put(slot, PreAuthenticationEncoding::parse(alloc, &pieces));
    )?;
    ask_sections(run)?;
    ask_footers(run)
}

fn ask_sections(run: &mut Run<'_>) -> Result<()> {
    let (alloc, text) = (run.alloc, run.text);
    let (bytes, padded) = (text.as_bytes(), format!(in alloc; "{text}=")?);
    let section = to_section(alloc, bytes)?;
    calls!(run;
        "to_section of a text" => to_section(alloc, bytes);
        "from_section of a section" => from_section(alloc, section.as_str());
    )?;
    edits!(run, "", out = Ok(String::from_str(alloc, "v4.")?);
        "push_section of bytes" => push_section(b"behind a text, and so long that it has to grow", out);
    )?;
    calls! { run; "from_section of padding, refused" => from_section(alloc, padded.as_str()); }
}

fn ask_footers(run: &mut Run<'_>) -> Result<()> {
    let (alloc, section) = (run.alloc, to_section(run.alloc, run.text.as_bytes())?);
    let text = format!(in alloc; "v4.local.AAAA.{section}")?;
    let token = UntrustedToken::try_parse(text.as_str())?;
    let other = UntrustedToken::try_parse("v4.local.AAAA._w")?;
    // A token with three sections has no footer, which takes no memory to tell.
    calls! { run;
        "Footer::try_from_token of a token" => Footer::try_from_token(alloc, text.as_str());
        "UntrustedToken::footer_decoded of a token" => token.footer_decoded(alloc);
        "UntrustedToken::footer_str of a token" => token.footer_str(alloc);
        "UntrustedToken::footer_str of bytes that are no text, refused" => other.footer_str(alloc);
        "Footer::try_from_token of two sections, with no memory, refused"
            => Footer::try_from_token(alloc, "v4.local");
    }
}
