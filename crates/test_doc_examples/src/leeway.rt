//! Of `set_leeway`.

use jiff::Timestamp;
use rusty_paseto_generic::{CheckSetter, GenericParser, GenericParserError, Local, V4};
use std::alloc::Global;

/// A parser that checks the times, and allows for clocks that differ by a minute.
pub fn lenient_parser<'a>(
    alloc: Global,
    now: Timestamp,
) -> Result<GenericParser<'a, V4, Local>, GenericParserError> {
    let mut parser = GenericParser::<V4, Local>::new(alloc);
    parser.check_times(now)?.set_leeway(60);
    Ok(parser)
}
