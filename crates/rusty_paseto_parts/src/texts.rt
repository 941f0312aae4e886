//! The texts of a token: payload, footer, implicit assertion and header.

pub mod footer;
pub mod header;
pub mod implicit_assertion;
pub mod payload;
