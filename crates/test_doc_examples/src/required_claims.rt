//! Of `require_claim`.

use rusty_paseto_generic::{CheckSetter, GenericParser, GenericParserError, Local, V4};
use std::alloc::Global;

/// A parser that refuses a token without `exp` or without `sub`.
pub fn demanding_parser<'a>(
    alloc: Global,
) -> Result<GenericParser<'a, V4, Local>, GenericParserError> {
    let mut parser = GenericParser::<V4, Local>::new(alloc);
    parser.require_claim("exp")?.require_claim("sub")?;
    Ok(parser)
}
